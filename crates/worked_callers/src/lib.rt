//! Whether a caller of a shared book may make a call, callers in a list, and worked histories by
//! callers of one book.
#![tactic(auto)]

mod calls;
mod lists;

pub use calls::may_call;
pub use lists::{next_caller, put_back};

#[cfg(test)]
mod tests;
