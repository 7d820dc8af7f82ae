//! The calls of the book for a request that one caller serves, each with the retirement that it
//! causes.

ghost use Rattle.std.specs.Prelude.{◌≡◌, ◌≤◌, ◌<◌, ◌*◌, ◌^◌, IsTrue, length};
ghost use Rattle.auth_events.specs.Book.{allowed, answer};
ghost use Rattle.auth_events.specs.Told.{past, retired_by, told_after};
ghost use Rattle.plain_book.specs.Words.{retirements_of};
ghost use Rattle.serving_laws.specs.Draws.{AreEpochs, with_retired};

use auth_events::{BookReply, Call, Controller, Did};
use plain_book::PlainWords;

// Retires the nonce, unless it is 0.
fn retire_some(words: &mut PlainWords, nonce: u32)
    requires within { nonce ≤ length words.old }
    requires few { retirements_of words.old nonce < 2 ^ 31 }
    ensures { words.new ≡ with_retired words.old nonce }
{
    if nonce != 0 {
        words.retire(nonce);
    }
}

/// One call of the book by caller 1, and the retirement of the nonce that it takes out of a live
/// space.
pub(crate) fn call<B: Controller>(
    book: &mut B,
    words: &mut PlainWords,
    request: u32,
    call: Call,
) -> BookReply
    requires allowed { IsTrue (allowed (B.roster book.old) (B.names book.old)
        (past (B.told book.old)) 1 request call) }
    requires words { length words.old ≡ 16 * length (B.roster book.old).requests }
    requires epochs { AreEpochs (B.names book.old) (past (B.told book.old)) words.old }
    ensures reply { result
        ≡ answer (B.roster book.old) (B.names book.old) (past (B.told book.old)) request call }
    ensures told { B.told book.new ≡ told_after (B.told book.old)
        (record { caller = 1; request = request; call = call; reply = result }) }
    ensures roster { B.roster book.new ≡ B.roster book.old }
    ensures names { B.names book.new ≡ B.names book.old }
    ensures words { words.new ≡ with_retired words.old
        (retired_by (B.names book.old) (past (B.told book.old))
        (record { caller = 1; request = request; call = call; reply = result })) }
    ensures epochs { AreEpochs (B.names book.new) (past (B.told book.new)) words.new }
{
    let _entries = book.journal().entries();
    let _nonces = words.nonces();
    let Did { reply, retired } = book.call(1, request, call);
    retire_some(words, retired);
    reply
}
