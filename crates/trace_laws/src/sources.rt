//! What makes a trace. Each law is the contract of an empty function.

ghost use Rattle.trace_laws.specs.Sources.{TracesAreDeterminedByStreams};

/// The bytes of links with their ends, the faults, and what the book, the words, the dialer, the
/// prompter and the provider tell, make the trace: two traces of one request that have all of
/// these in common, and meet no want of memory, are equal.
pub fn traces_are_determined_by_streams()
    ensures { TracesAreDeterminedByStreams }
{}
