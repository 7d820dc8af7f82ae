//! What stands ready for the next request. The law is the contract of an empty function.

ghost use Rattle.lone_laws.specs.Laws.{NextRequestsAreReadied};

/// Behind the first requests of a roster the book and the words are ready for the next one.
pub fn next_requests_are_readied()
    ensures { NextRequestsAreReadied }
{}
