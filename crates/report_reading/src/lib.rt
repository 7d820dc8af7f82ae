//! The lines of a report are read: each line by itself is what is written for one thing, or
//! nothing. A line is taken for a thing by its words, and counts only where just this line is
//! written for that thing. That is proved of each reader; that the line of every thing is read as
//! that thing isn't.
#![tactic(auto)]

mod choices;
mod cut;
mod entry_forms;
mod event_forms;
mod fits;
mod forms;
mod numbers;
mod reading;
mod values;

pub use cut::next_line;
pub use reading::{
    default_at, entry_at, event_at, request_at, seed_at, space_at, terms_at, text_at,
};
