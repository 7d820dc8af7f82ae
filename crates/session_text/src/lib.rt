//! The session text, by which a user says what to fetch, and the words that it is written in.
#![tactic(auto)]

mod counts;
mod cut;
mod line;
mod session;
mod values;
mod word;

pub use counts::counts_of;
pub use session::{Session, SessionFault, What, read_session};
pub use word::{read_word, word_law, write_word};
