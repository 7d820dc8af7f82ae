//! The rule of a run, tried on small runs: honest ones keep it, and each way to lie or to be lazy
//! is refused.
#![tactic(auto)]

mod honest;
mod lies;

pub use honest::honest_runs;
pub use lies::{draws, ends, handed_over, heads, journals, links, names, prompts, waiters};
