//! How a request ends. Each law is the contract of an empty function.

ghost use Rattle.trace_laws.specs.Endings.{CutsAreAllowed, LossesAreAllowed, PromptsAreSettled};
ghost use Rattle.trace_laws.specs.Endings.{TracesAreWhole};

/// A trace ends with its outcome, and has no other.
pub fn traces_are_whole()
    ensures { TracesAreWhole }
{}

/// At its end a request waits for no prompt: each that it led is settled, and each that it
/// followed is taken.
pub fn prompts_are_settled()
    ensures { PromptsAreSettled }
{}

/// Where a request may run out of memory, the loss of the prompt that it leads may be told to the
/// book.
pub fn losses_are_allowed()
    ensures { LossesAreAllowed }
{}

/// Once that loss is told, or where no prompt is open, the end may be told.
pub fn cuts_are_allowed()
    ensures { CutsAreAllowed }
{}
