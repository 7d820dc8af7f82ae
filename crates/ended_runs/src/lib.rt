//! What is so at the end of every run, by however many callers: each request has ended, and nothing
//! that was open is left so. It has no code: what it says is proved of the definitions, so it holds
//! of every report.
#![tactic(auto)]

ghost use Rattle.ended_runs.specs.Closed.{JournalsAreHistories, RunsLeaveNothingOpen};

/// The journal of a run is its history without the draws.
pub fn journals_are_histories()
    ensures { JournalsAreHistories }
{}

/// In the journal of a run each request begins and ends, every prompt has exactly one answer or
/// loss, and who follows a prompt takes its end behind that, exactly once.
pub fn runs_leave_nothing_open()
    ensures { RunsLeaveNothingOpen }
{}
