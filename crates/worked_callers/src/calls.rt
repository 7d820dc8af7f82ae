//! The condition of a call on a shared book, found out in one turn.

ghost use Rattle.std.specs.Prelude.{◌≡◌, ◌↔◌, IsTrue};
ghost use mathlib.Core.List.{IsPrefix};
ghost use Rattle.auth_events.specs.Book.{allowed};
ghost use Rattle.auth_events.specs.Told.{past};
ghost use Rattle.shared_book.specs.Callers.{IsAllowed, IsCallerOf, IsSameCaller};

use auth_events::{Call, Controller};
use plain_book::is_allowed;
use shared_book::{Caller, Reading, SharedBook};
use spaces::Roster;
use std::sync::Wait;

/// A call by a caller, of which a book says whether it is allowed.
#[derive(Clone, Copy)]
struct Asked<'a> {
    roster: &'a Roster,
    caller: u32,
    request: u32,
    call: Call,
}

impl<'a, B: Controller> Reading<B> for Asked<'a> {
    type Found = bool;

    ghost needs = { λ self book. B.roster book ≡ self.roster.now };

    ghost is_found = { λ self book found. found
        ≡ allowed self.roster.now
        (B.names book) (past (B.told book)) self.caller self.request self.call };

    fn read(&self, book: &B) -> bool {
        let names = book.names();
        let entries = book.journal().entries();
        is_allowed(
            self.roster,
            names,
            entries,
            self.caller,
            self.request,
            self.call,
        )
    }
}

/// Whether the caller, which has the number `by`, may make the call, by all that it has then seen.
pub fn may_call<R: Wait, B: Controller>(
    rt: &R,
    shared: &SharedBook<B>,
    roster: &Roster,
    caller: Caller<B>,
    by: u32,
    request: u32,
    call: Call,
) -> (Caller<B>, bool)
    requires caller { IsCallerOf shared.now caller }
    requires number { caller.number ≡ by }
    requires roster { shared.now.roster ≡ roster.now }
    ensures caller { IsCallerOf shared.now result.0 }
    ensures may { IsTrue result.1 ↔ IsAllowed shared.now result.0 request call }
    ensures seen { IsPrefix caller.seen result.0.seen }
    ensures mine { result.0.mine ≡ caller.mine }
    ensures same { IsSameCaller caller result.0 }
{
    let asked = Asked {
        roster,
        caller: by,
        request,
        call,
    };
    shared.read(rt, caller, &asked)
}
