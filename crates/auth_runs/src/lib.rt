//! What happened to requests: the events of a request's trace, its outcome, and a run, which is all
//! that a session's service did. What a run has to keep is defined here, for all crates above.
#![tactic(auto)]

mod event;
mod run;
mod trace;

pub use event::{Event, Events, Outcome, Why};
pub use link_trait::{AskSeen, StepSeen};
pub use run::Run;
pub use trace::{Trace, Traces};
pub use wire_head::{Reply, WireFault};
