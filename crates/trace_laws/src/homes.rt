//! Whose credentials a request's heads carry. Each law is the contract of an empty function.

ghost use Rattle.trace_laws.specs.Homes.{HeadsCarryTheirOwn};

/// Each head of a request carries for a target nothing, or a field made of the one identity that
/// the book gave in a space of the request's own partition, of that target, at its origin, in a
/// realm that the target asked for in this request or that the book had ready for its path: no
/// password, no digest and no token goes to another site.
pub fn heads_carry_their_own()
    ensures { HeadsCarryTheirOwn }
{}
