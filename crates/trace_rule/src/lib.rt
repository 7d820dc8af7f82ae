//! The rule of a request: which events its trace may have, and what holds of every trace.
#![tactic(auto)]

mod laws;

pub use laws::{
    calls_are_few, drawn_nonces_are_named, draws_are_few, entries_are_few, heads_are_few,
    nothing_follows_the_outcome, rounds_are_few, spaces_are_numbered, traces_are_determined,
    traces_last, traces_last_in_a_book, wanted_answers_are_allowed, wanted_calls_are_allowed,
};
