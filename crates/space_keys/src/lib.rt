//! Sites and spaces as keys of ordered maps: their parts, of which each has an order.
#![tactic(auto)]

mod keys;
pub mod laws;

pub use keys::{SiteKey, SpaceKey, key_of_site, key_of_space};
