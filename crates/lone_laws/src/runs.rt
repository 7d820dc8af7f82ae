//! What the requests of a roster make. The law is the contract of an empty function.

ghost use Rattle.lone_laws.specs.Laws.{ServedRequestsMakeRuns};

/// Where one caller served all requests of a roster, what the book told is a run of the roster over
/// the outside that it was served over.
pub fn served_requests_make_runs()
    ensures { ServedRequestsMakeRuns }
{}
