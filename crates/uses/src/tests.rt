//! What the callers answer, by examples of the RFCs and by a history of three requests.

mod answering;
mod history;
