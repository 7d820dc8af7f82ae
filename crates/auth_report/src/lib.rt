//! The report: the text of a run, a line for each thing that was asked for, named, called and seen,
//! and its reader. What the reader answers is proved to be what the definition of reading says, the
//! run or the number of the first line that can't follow those before it, and a run that it answers
//! is proved to be one whose text was read. That the text of every run is read back, and that no
//! run's text begins with the lines up to the one that is told, isn't proved.
#![tactic(auto)]

mod book;
mod names_front;
mod reading;
mod report;
mod roster_front;
mod trace_front;

pub use auth_runs::Run;
pub use reading::{ReportFault, read_report};
pub use report::text_of;
