//! Requests that follow another request's prompt: their machines are driven need by need, and told
//! what the book replies while the other request's user is asked.
#![tactic(auto)]

mod follower;

pub use follower::follow;

#[cfg(test)]
mod tests;
