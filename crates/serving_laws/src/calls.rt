//! The calls of a request that one caller serves. Each law is the contract of an empty function.

ghost use Rattle.serving_laws.specs.Laws.{NextAnswersAreAllowed, NextCallsAreAllowed};
ghost use Rattle.serving_laws.specs.Laws.{NextRepliesAreTaken, NextTextsAreTaken, NothingIsPending};

/// A call that comes next may be asked of the book.
pub fn next_calls_are_allowed()
    ensures { NextCallsAreAllowed }
{}

/// So may the answer to a prompt, with a text that is named.
pub fn next_answers_are_allowed()
    ensures { NextAnswersAreAllowed }
{}

/// Nobody else leads a prompt that this request would wait for: each call has its reply at once.
pub fn nothing_is_pending()
    ensures { NothingIsPending }
{}

/// The book's reply to a call that comes next is one that the rule takes, by all that the book
/// knows with it.
pub fn next_replies_are_taken()
    ensures { NextRepliesAreTaken }
{}

/// So is its reply to the answer of a prompt.
pub fn next_texts_are_taken()
    ensures { NextTextsAreTaken }
{}
