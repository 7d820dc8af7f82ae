//! What holds where one caller serves a request, with nobody beside it: what the rule of the
//! request wants may be asked of its book, what the book tells is what the rule takes, by all that
//! is named and given later too, and the names, the counts and the prompts of the request stay
//! within what the book and the words have for it.
#![tactic(auto)]

mod calls;
mod ends;
mod names;
mod settings;

pub use calls::{
    next_answers_are_allowed, next_calls_are_allowed, next_replies_are_taken, next_texts_are_taken,
    nothing_is_pending,
};
pub use ends::{no_prompt_stays_open, open_prompts_may_be_lost, spent_requests_may_end};
pub use names::{
    met_names_are_used, names_join, requests_are_left, terms_are_left, what_is_held_is_read,
};
pub use settings::{books_know_themselves, what_is_known_was_known};
