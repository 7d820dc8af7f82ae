//! One book for two threads. Each begins a request and draws a count of one nonce, as for a head
//! with Digest credentials that is sent at once. Whatever the schedule, no two heads have the same
//! count.

ghost use Rattle.std.specs.Prelude.{◌≡◌, ◌*◌, ◌<◌, ◌≤◌, ◌++◌, ◌∷◌, [], IfErr, IfOk, length};
ghost use Rattle.nonce_words.specs.Fresh.{IsFresh};
ghost use Rattle.auth_events.specs.declared.journal.Call.TheVariants.{Begin};
ghost use Rattle.auth_events.specs.declared.told.Told.TheVariants.{Made};
ghost use Rattle.auth_events.specs.Book.{epoch};
ghost use Rattle.auth_events.specs.Told.{past};
ghost use Rattle.book_laws.specs.Owners.{IsOwned, owner};
ghost use Rattle.shared_book.specs.Callers.{IsAllowed, IsCallerOf, IsKnown, IsNewCaller};
ghost use Rattle.uses_threads.specs.Sides.{HasServed, IsInSomeOrder, begun, draw_of};

use auth_events::{Call, Controller, Drawn};
use shared_book::{Caller, Callers, NotShared, SharedBook};
use std::alloc::Global;
use std::sync::Wait;
use std::thread::{Threads, join};
use worked_callers::next_caller;

/// Begins a request of the caller's, and draws a count of the nonce. The caller is of the thread
/// that it is called in, and comes back.
pub fn begin_and_draw<R: Wait, B: Controller>(
    rt: &R,
    shared: &SharedBook<B>,
    caller: Caller<B>,
    request: u32,
    nonce: u32,
) -> (Caller<B>, Drawn)
    requires caller { IsCallerOf shared.now caller }
    requires own { caller.number ≡ owner shared.now.callers request }
    requires allowed { IsAllowed shared.now caller request Begin }
    requires quota { 0 < caller.quota }
    requires nonce { (1 ≤ nonce) × (nonce ≤ shared.now.nonces) }
    ensures caller { IsCallerOf shared.now result.0 }
    ensures number { result.0.number ≡ caller.number }
    ensures begun { result.0.mine ≡ caller.mine ++ Made (begun caller.number request) ∷ [] }
    ensures drawn { result.0.drawn ≡ caller.drawn ++ draw_of nonce result.1 ∷ [] }
{
    let (mut caller, _begun) = shared.call(rt, caller, request, Call::Begin);
    let drawn = shared.draw(&mut caller, nonce);
    (caller, drawn)
}

/// Two new callers at work in a thread each: the first with request 1, the second with request 2.
pub fn side_by_side<R: Threads + Wait + Sync, B: Controller + Send>(
    rt: &R,
    shared: &SharedBook<B>,
    one: Caller<B>,
    two: Caller<B>,
    nonce: u32,
) -> ((Caller<B>, Drawn), (Caller<B>, Drawn))
    requires two { shared.now.callers ≡ 2 }
    requires one_is { IsNewCaller shared.now 1 one }
    requires two_is { IsNewCaller shared.now 0 two }
    requires requests { 2 ≤ length shared.now.roster.requests }
    requires nonce { (1 ≤ nonce) × (nonce ≤ shared.now.nonces) }
    ensures first { HasServed shared.now 1 nonce result.0.1 result.0.0 }
    ensures second { HasServed shared.now 2 nonce result.1.1 result.1.0 }
{
    join(
        rt,
        move || begin_and_draw(rt, shared, one, 1, nonce),
        move || begin_and_draw(rt, shared, two, 2, nonce),
    )
}

// Takes both callers back, and gives the book up.
fn closed<B: Controller>(
    shared: SharedBook<B>,
    mut callers: Callers<B>,
    one: Caller<B>,
    two: Caller<B>,
) -> B
    requires two { shared.callers ≡ 2 }
    requires room { (callers.list ≡ []) × (2 ≤ callers.room) }
    requires callers { IsCallerOf shared one × IsCallerOf shared two }
    ensures known { IsKnown (B.told result) one × IsKnown (B.told result) two }
    ensures owned { IsOwned 2 (B.told result) }
    ensures fresh { IsFresh
        (two.drawn ++ one.drawn) (epoch (B.names result) (past (B.told result))) }
{
    let Ok(()) = callers.push(one) else {
        unreachable!()
    };
    let Ok(()) = callers.push(two) else {
        unreachable!()
    };
    shared.close(callers)
}

/// The book behind two requests, and what was drawn for each.
#[derive(Drop)]
pub struct Served<B> {
    pub book: B,
    pub first: Drawn,
    pub second: Drawn,
}

/// Begins the first two requests of an empty book side by side, and draws a count of the nonce for
/// each. Both stand in the book, in some order, and of the counts one is 1 and the other 2. An
/// `Err` is want of memory, and gives the book back.
pub fn serve_two<R: Threads + Wait + Sync, B: Controller + Send>(
    rt: &R,
    alloc: Global,
    book: B,
    nonces: u32,
    nonce: u32,
) -> Result<Served<B>, NotShared<B>>
    requires empty { B.told book ≡ [] }
    requires two { 2 ≤ length (B.roster book).requests }
    requires nonces { (nonces ≡ 16 * length (B.roster book).requests) × (nonces ≤ 32768) }
    requires nonce { (1 ≤ nonce) × (nonce ≤ nonces) }
    ensures begun { IfOk result (λ served. IsInSomeOrder (Made (begun 1 1)) (Made (begun 2 2))
        (B.told served.book)) }
    ensures counts { IfOk result (λ served. IsInSomeOrder 1 2
        (served.first.count ∷ served.second.count ∷ [])) }
    ensures err { IfErr result (λ refused. refused.book ≡ book) }
{
    let (shared, mut callers) = SharedBook::new(alloc, book, nonces, 2)?;
    let one = next_caller(&shared, &mut callers);
    let two = next_caller(&shared, &mut callers);
    let ((one, first), (two, second)) = side_by_side(rt, &shared, one, two, nonce);
    let book = closed(shared, callers, one, two);
    Ok(Served {
        book,
        first,
        second,
    })
}
