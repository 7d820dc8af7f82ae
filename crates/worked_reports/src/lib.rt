//! A report read and written again, which gives the text that was read. Its tests are worked
//! reports: one with a line of each kind, small ones, and damaged ones with the line at fault.
#![tactic(auto)]

mod echo;
#[cfg(test)]
mod reports;
#[cfg(test)]
mod rows;

pub use echo::{MOST_BYTES, written_again};
