//! Calls on any book of credentials, made only where their conditions hold, and worked histories of
//! them.
#![tactic(auto)]

mod calls;
mod waiting;

pub use calls::try_call;
pub use waiting::early_takes_wait;

#[cfg(test)]
mod tests;
