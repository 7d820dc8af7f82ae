//! The calls of one caller. Each is made where the caller may make it.

ghost use Rattle.std.specs.Prelude.{◌≡◌};
ghost use Rattle.book_laws.specs.Owners.{owner};
ghost use Rattle.shared_book.specs.Callers.{IsCallerOf};

use auth_events::{BookReply, Call};
use plain_book::PlainBook;
use shared_book::{Caller, SharedBook};
use spaces::Roster;
use std::sync::Wait;
use worked_callers::may_call;

pub(crate) type Shared = SharedBook<PlainBook>;

pub(crate) type One = Caller<PlainBook>;

/// The call of one of the caller's requests, or none where it may not be made.
pub(crate) fn calls<R: Wait>(
    rt: &R,
    shared: &Shared,
    roster: &Roster,
    caller: One,
    asks: (u32, u32),
    call: Call,
) -> (One, Option<BookReply>)
    requires caller { IsCallerOf shared.now caller }
    requires number { caller.number ≡ asks.0 }
    requires own { asks.0 ≡ owner shared.now.callers asks.1 }
    requires roster { shared.now.roster ≡ roster.now }
    ensures caller { IsCallerOf shared.now result.0 }
    ensures number { result.0.number ≡ asks.0 }
{
    let (number, request) = asks;
    let (caller, may) = may_call(rt, shared, roster, caller, number, request, call);
    if !may {
        return (caller, None);
    }
    let (caller, reply) = shared.call(rt, caller, request, call);
    (caller, Some(reply))
}
