//! What a book answers to a request. Each law is the contract of an empty function.

ghost use Rattle.trace_laws.specs.Answering.{AnswersSuit, TextsSuit};

/// Where a book makes an entry of the call that comes next, its reply is one that the rule takes.
pub fn answers_suit()
    ensures { AnswersSuit }
{}

/// So is its reply to the answer to a prompt.
pub fn texts_suit()
    ensures { TextsSuit }
{}
