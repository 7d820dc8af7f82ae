//! Where the identities of gifts are. A gift is found by going back over the givings of its space
//! alone, from the latest: the one that a space holds is the first that is looked at.
#![tactic(auto)]

pub mod laws;
mod log;

pub use log::{GiftLog, Given, Source};
