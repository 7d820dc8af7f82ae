//! Laws of one caller that serves the requests of a roster one behind the other: the book and the
//! words are ready for each next request, a prompt of a request is that of the journal, and what
//! the book told is in the end a run of the roster.
#![tactic(auto)]

mod prompts;
mod requests;
mod runs;

pub use prompts::prompts_are_the_journals;
pub use requests::next_requests_are_readied;
pub use runs::served_requests_make_runs;
