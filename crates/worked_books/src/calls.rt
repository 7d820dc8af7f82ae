//! A call that is made where it is allowed.

ghost use Rattle.std.specs.Prelude.{◌≡◌, ◌↔◌, IsSome, IfSome, IfNone, IsTrue};
ghost use Rattle.auth_events.specs.Book.{allowed, answer};
ghost use Rattle.auth_events.specs.Told.{past, retired_by, told_after};

use auth_events::{Call, Controller, Did};
use plain_book::is_allowed;
use spaces::Roster;

/// What a call of the caller that has the request's number does to the book, where the call is
/// allowed. A call that isn't changes nothing.
pub fn try_call<B: Controller>(
    book: &mut B,
    roster: &Roster,
    request: u32,
    call: Call,
) -> Option<Did>
    requires { B.roster book.old ≡ roster.now }
    ensures roster { B.roster book.new ≡ roster.now }
    ensures names { B.names book.new ≡ B.names book.old }
    ensures allowed { IsSome result ↔ IsTrue
        (allowed roster.now (B.names book.old) (past (B.told book.old)) request request call) }
    ensures reply { IfSome result (λ did. did.reply
        ≡ answer roster.now (B.names book.old) (past (B.told book.old)) request call) }
    ensures retired { IfSome result (λ did. did.retired
        ≡ retired_by (B.names book.old) (past (B.told book.old))
        (record { caller = request; request = request; call = call; reply = did.reply })) }
    ensures told { IfSome result (λ did. B.told book.new
        ≡ told_after (B.told book.old)
        (record { caller = request; request = request; call = call; reply = did.reply })) }
    ensures refused { IfNone result (B.told book.new ≡ B.told book.old) }
{
    let names = book.names();
    let entries = book.journal().entries();
    if !is_allowed(roster, names, entries, request, request, call) {
        return None;
    }
    let did = book.call(request, request, call);
    Some(did)
}
