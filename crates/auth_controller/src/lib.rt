//! One request from its first call of the book to its outcome: how one caller drives a request's
//! machine over a book, the words of its nonces, links and a prompter.
#![tactic(auto)]

mod alone;
mod answers;
mod calls;
mod pieces;

pub use alone::serve_alone;
pub use pieces::{add_front, zeros};
pub use request_machine::Gear;
