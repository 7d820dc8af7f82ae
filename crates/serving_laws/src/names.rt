//! What a request that one caller serves reads and names. Each law is the contract of an empty
//! function.

ghost use Rattle.serving_laws.specs.Laws.{MetNamesAreUsed, NamesJoin, RequestsAreLeft};
ghost use Rattle.serving_laws.specs.Laws.{TermsAreLeft, WhatIsHeldIsRead};

/// The space, the identity and the terms of what the request holds may be read of the book, and
/// stay what they are.
pub fn what_is_held_is_read()
    ensures { WhatIsHeldIsRead }
{}

/// Where a call comes next that gives terms, fewer than 16 gave them before: so there is a nonce
/// left of the 16 that a request has.
pub fn terms_are_left()
    ensures { TermsAreLeft }
{}

/// A request that has begun is one of the roster beside those that were begun before: so there are
/// the names left that a request has.
pub fn requests_are_left()
    ensures { RequestsAreLeft }
{}

/// What one request names and meets, behind what was named and met before it, is met in the whole.
pub fn names_join()
    ensures { NamesJoin }
{}

/// Where all names of a journal are met, its calls name each of them, in order.
pub fn met_names_are_used()
    ensures { MetNamesAreUsed }
{}
