//! Callers that put whole requests into a program: a dialer of one's own, and a request that is
//! served over it.
#![tactic(auto)]

mod fetching;
mod peer;

pub use fetching::{code_of, fetch};
pub use peer::SteadyPeer;

#[cfg(test)]
mod tests;
