//! What a run keeps of itself. Each law is the contract of an empty function.

ghost use Rattle.run_rule.specs.Laws.{PartitionsAreApart, RequestsEndWell};

/// The partitions of a legal and fresh history are apart.
pub fn partitions_are_apart()
    ensures { PartitionsAreApart }
{}

/// Where nothing fails, each request ends `Answered`, `Refused`, `BadReply` or `NoMemory`.
pub fn requests_end_well()
    ensures { RequestsEndWell }
{}
