//! Looking for what a user gave before. A book is asked as the request begins, before a head is
//! sent.

ghost use Rattle.std.specs.Prelude.{◌≡◌, IfOk, IfSome, IsTrue, Some, is_some};
ghost use Rattle.auth_events.specs.Identities.{giving, identity};
ghost use Rattle.auth_events.specs.Told.{past};
ghost use Rattle.auth_events.specs.declared.journal.Gift.{Gift};
ghost use Rattle.uses.specs.Recalls.{IsReady};

use auth_events::{BookReply, Call, Controller, Gift};
use auth_text::{Identity, NoMemory};
use spaces::{Roster, Target};
use worked_books::try_call;

/// The gift that is ready for the request's server, where there is one and the call may be made.
fn ready_gift<B: Controller>(book: &mut B, roster: &Roster, request: u32) -> Option<Gift>
    requires { B.roster book.old ≡ roster.now }
    ensures roster { B.roster book.new ≡ roster.now }
    ensures names { B.names book.new ≡ B.names book.old }
    ensures ready { IfSome result (λ gift. IsReady request gift (past (B.told book.new))) }
    ensures given { IfSome result
        (λ gift. IsTrue (is_some (giving (past (B.told book.new)) gift))) }
{
    let target = Target::Server;
    let did = try_call(book, roster, request, Call::Preempt { target })?;
    match did.reply {
        BookReply::Ready { gift, .. } => Some(gift),
        _ => None,
    }
}

/// Begins the request, and gives the identity that the book has ready for its server: what an
/// earlier request of the same partition was given at or above the same directory. There is none
/// where the request has begun before.
pub fn recalled<B: Controller>(
    book: &mut B,
    roster: &Roster,
    request: u32,
) -> Result<Option<Identity>, NoMemory>
    requires { B.roster book.old ≡ roster.now }
    ensures roster { B.roster book.new ≡ roster.now }
    ensures names { B.names book.new ≡ B.names book.old }
    ensures ready { IfOk result (λ found. IfSome found (λ login. (gift : Gift)
        × IsReady request gift (past (B.told book.new))
        × (identity roster.now (B.names book.new) (past (B.told book.new)) gift ≡ Some login))) }
{
    let Some(_) = try_call(book, roster, request, Call::Begin) else {
        return Ok(None);
    };
    match ready_gift(book, roster, request) {
        None => Ok(None),
        Some(gift) => Ok(Some(book.identity_of(gift)?)),
    }
}
