//! A book that finds every reply by going over its journal, the decision of the conditions under
//! which a call may be made, and the words of nonces that one caller draws.
#![tactic(auto)]

mod allowed;
mod book;
mod find;
mod nonces;
mod paths;
mod reply;
mod scan;
mod words;

pub use allowed::is_allowed;
pub use book::PlainBook;
pub use words::{PlainWords, words_count_steps};
