//! The rule of a run: what calls, draws, names and traces of a roster's requests have to be, by one
//! caller or by many, and what links, prompters and providers say of them. Each command's report is
//! claimed to be of such a run.
#![tactic(auto)]

mod laws;

pub use laws::{partitions_are_apart, requests_end_well};
