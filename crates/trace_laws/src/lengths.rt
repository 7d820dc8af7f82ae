//! How many events a request has, and how often it chooses. Each law is the contract of an empty
//! function.

ghost use Rattle.trace_laws.specs.Lengths.{ChoicesAreFew, EventsAreFew, PastsLeaveRoom};
ghost use Rattle.trace_laws.specs.Lengths.{TermsAreFew};

/// At every moment a request has had so few events that eight more have a place among 256.
pub fn pasts_leave_room()
    ensures { PastsLeaveRoom }
{}

/// A request has at most 256 events.
pub fn events_are_few()
    ensures { EventsAreFew }
{}

/// A request chooses a space or new terms at most 17 times before its end, and at most 16 times
/// where the provider never lacked a mechanism.
pub fn choices_are_few()
    ensures { ChoicesAreFew }
{}

/// With the renewals at its end a request names terms at most 16 times, whatever its provider has:
/// where it lacked a mechanism, the identity that it was for was chosen without terms. So a request
/// names at most 16 nonces.
pub fn terms_are_few()
    ensures { TermsAreFew }
{}
