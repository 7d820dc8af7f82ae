//! Callers of the public calls, each as an embedder would write it: read a challenge, answer it,
//! and look for what a user gave before.
#![tactic(auto)]

mod challenges;
mod credentials;
mod keeping;

pub use challenges::schemes;
pub use credentials::{Asking, authorization, credentials_for};
pub use keeping::recalled;

#[cfg(test)]
mod tests;
