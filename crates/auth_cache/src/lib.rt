//! The credentials that are kept of one partition (after Chromium's HTTP auth cache): the gift and
//! the terms of each live space, in order of last touch, with a bound on how many.
#![tactic(auto)]

mod cache;
pub mod laws;

pub use cache::{AuthCache, Held, Removal};
