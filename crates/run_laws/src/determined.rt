//! What the outside makes of a run. Each law is the contract of an empty function.

ghost use Rattle.run_laws.specs.Determined.{OutsidesMakeRuns};

/// A run of one caller, in which nothing fails and no request ran out of memory, is the only one
/// of its roster, its seed and what the outside has for it: the bytes and ends of all links, the
/// provider's steps and the answers to prompts. Any two such runs have the same names, the same
/// journal and the same traces.
pub fn outsides_make_runs()
    ensures { OutsidesMakeRuns }
{}
