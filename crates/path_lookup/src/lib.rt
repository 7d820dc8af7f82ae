//! Where credentials are sent ahead (RFC 7617 section 2.2, after Chromium): the directories under
//! which the spaces of one partition were asked for, and the space whose directory covers a path
//! best.
#![tactic(auto)]

mod index;
pub mod laws;

pub use index::PathIndex;
