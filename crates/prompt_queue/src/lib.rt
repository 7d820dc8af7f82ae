//! Prompts that the requests of one protection space share (after Firefox): the first request leads
//! one and asks its user, those that come while it is open follow it, and each of them takes the
//! one answer that it got.
#![tactic(auto)]

pub mod laws;
mod queue;
#[cfg(test)]
mod tests;

pub use queue::{Joined, PromptQueue, PromptTake};
