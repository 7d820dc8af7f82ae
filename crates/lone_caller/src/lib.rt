//! One caller that serves all requests of a roster, one behind the other.
#![tactic(auto)]

mod requests;

pub use requests::serve_all;
