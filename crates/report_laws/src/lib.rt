//! What holds of the reader of reports: each line that is written for a thing is read as that
//! thing, the text of a run is read as that run, where the run keeps what `IsKept` says, and a run
//! that is read keeps that of its names, journal and traces. It isn't proved that its places are
//! those of their texts and its seed has 32 bytes, nor that no run's text begins with the lines up
//! to the one that is told. Each law is the contract of a function that changes nothing and answers
//! nothing.
#![tactic(auto)]

mod entry_holds;
mod event_holds;
mod holds;
mod lines;
mod run_holds;
mod whole;

pub use lines::{
    default_line_reads_back, entry_line_reads_back, event_line_reads_back, request_line_reads_back,
    seed_line_reads_back, space_line_reads_back, terms_line_reads_back, text_line_reads_back,
};
pub use whole::{
    text_is_of_one_run, text_reads_back, what_is_read_has_names, what_is_read_has_room,
    what_is_read_has_traces,
};
