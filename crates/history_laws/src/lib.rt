//! What holds in every legal history of calls on a book of credentials, said in the words of its
//! subject, and worked histories computed from the definitions. It has no code: what it says is
//! proved of the definitions, so it holds of every book.
#![tactic(auto)]

pub mod laws;
pub mod worked;
