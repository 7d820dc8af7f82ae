//! What a run of one caller is made of. Each law is the contract of an empty function.

ghost use Rattle.run_laws.specs.Lone.{JournalsAreCalls, TracesMakeRuns};

/// Where one caller serves all requests, the journal is the calls of their traces, one request
/// behind the other.
pub fn journals_are_calls()
    ensures { JournalsAreCalls }
{}

/// So two runs of one caller over one roster and one seed that have the same names and the same
/// traces are equal.
pub fn traces_make_runs()
    ensures { TracesMakeRuns }
{}
