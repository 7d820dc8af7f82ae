//! What holds of every trace. Each law is the contract of an empty function.

ghost use Rattle.trace_rule.specs.Laws.{NothingFollows, TracesLast, TracesLastInABook};
ghost use Rattle.trace_rule.specs.Laws.{TracesAreDetermined, WantedCallsAreAllowed};
ghost use Rattle.trace_rule.specs.Laws.{WantedAnswersAreAllowed, DrawnNoncesAreNamed};
ghost use Rattle.trace_rule.specs.Laws.{SpacesAreNumbered, RoundsAreFew, CallsAreFew};
ghost use Rattle.trace_rule.specs.Laws.{EntriesAreFew, HeadsAreFew, DrawsAreFew};

/// Nothing follows the outcome.
pub fn nothing_follows_the_outcome()
    ensures { NothingFollows }
{}

/// A trace stays one where more is known.
pub fn traces_last()
    ensures { TracesLast }
{}

/// A trace that was judged by what a book had named and given is one by all that it names and gives
/// later.
pub fn traces_last_in_a_book()
    ensures { TracesLastInABook }
{}

/// Two traces of one request that take their tales from the same tapes, and meet no want of memory,
/// are equal.
pub fn traces_are_determined()
    ensures { TracesAreDetermined }
{}

/// A call that comes next may be asked of the book.
pub fn wanted_calls_are_allowed()
    ensures { WantedCallsAreAllowed }
{}

/// So may the answer to a prompt, with a text that is named.
pub fn wanted_answers_are_allowed()
    ensures { WantedAnswersAreAllowed }
{}

/// A nonce of which a count is wanted has its name.
pub fn drawn_nonces_are_named()
    ensures { DrawnNoncesAreNamed }
{}

/// The number of a space stands for it in the setting of a book.
pub fn spaces_are_numbered()
    ensures { SpacesAreNumbered }
{}

/// A request has at most 17 rounds.
pub fn rounds_are_few()
    ensures { RoundsAreFew }
{}

/// A request makes at most 56 calls.
pub fn calls_are_few()
    ensures { CallsAreFew }
{}

/// A request has at most 56 entries.
pub fn entries_are_few()
    ensures { EntriesAreFew }
{}

/// A request writes at most 18 heads.
pub fn heads_are_few()
    ensures { HeadsAreFew }
{}

/// A request draws at most 36 counts.
pub fn draws_are_few()
    ensures { DrawsAreFew }
{}
