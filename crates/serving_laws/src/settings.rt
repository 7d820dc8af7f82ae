//! What a setting has to know of a book. Each law is the contract of an empty function.

ghost use Rattle.serving_laws.specs.Laws.{BooksKnowThemselves, WhatIsKnownWasKnown};

/// The setting of a book knows it.
pub fn books_know_themselves()
    ensures { BooksKnowThemselves }
{}

/// A setting that knows a book with more names and entries knows it as it was: so what holds by
/// each setting that knows the book goes on to hold.
pub fn what_is_known_was_known()
    ensures { WhatIsKnownWasKnown }
{}
