//! What a request may read and name. Each law is the contract of an empty function.

ghost use Rattle.trace_laws.specs.Naming.{DrawnNoncesAreKnown, HeldIsReadable, NextTermsAreAtHome};
ghost use Rattle.trace_laws.specs.Naming.{OfferedTermsAreAtHome, RenewedTermsAreAtHome};

/// The space, the identity and the terms of what a request holds may be read of the book.
pub fn held_is_readable()
    ensures { HeldIsReadable }
{}

/// A nonce of which a count is wanted is known to the request: terms with it stand in an entry of
/// its.
pub fn drawn_nonces_are_known()
    ensures { DrawnNoncesAreKnown }
{}

/// The terms of the best offer may be named in the offer's space.
pub fn offered_terms_are_at_home()
    ensures { OfferedTermsAreAtHome }
{}

/// The terms of a stale challenge may be named in the space of what is held.
pub fn renewed_terms_are_at_home()
    ensures { RenewedTermsAreAtHome }
{}

/// The terms that a Digest gift went out with may be named with the next nonce that came for it.
pub fn next_terms_are_at_home()
    ensures { NextTermsAreAtHome }
{}
