//! Laws of a run that nothing of its rule rests on: what a run of one caller is made of.
#![tactic(auto)]

mod determined;
mod lone;

pub use determined::outsides_make_runs;
pub use lone::{journals_are_calls, traces_make_runs};
