//! What links give to a request: what is read on a link, reply by reply, is what the rule of a
//! request hears in the link's stream. Each law is the contract of an empty function.
#![tactic(auto)]

mod hearing;
mod streams;

pub use hearing::{new_links_keep_nothing, readings_are_heard, unread_links_keep_theirs};
pub use streams::{heard_stays_heard, reads_come_behind, streams_hold_their_fronts};
