//! What a caller of a shared book does in a history. A call is made where it is allowed, and has
//! the reply that the history says.

ghost use Rattle.std.specs.Prelude.{◌≡◌, ◌≤◌, ◌<◌, ◌+◌, ◌*◌, ◌++◌, ◌∷◌, [], All, length, IsTrue};
ghost use Rattle.auth_events.specs.declared.journal.BookReply.TheVariants.{Begun};
ghost use Rattle.auth_events.specs.declared.journal.Call.TheVariants.{Begin};
ghost use Rattle.auth_events.specs.declared.told.Told.TheVariants.{Made, TextNamed};
ghost use Rattle.book_laws.specs.Shares.{HasSpaceLeft, HasTextLeft, begun, terms_named};
ghost use Rattle.shared_book.specs.Callers.{IsCallerOf, IsSameCaller};
ghost use Rattle.worked_callers.specs.Crews.{HasSameCounts, IsNumbered};

use crate::may_call;
use auth_events::{BookReply, Call};
use auth_text::Identity;
use plain_book::PlainBook;
use shared_book::{Caller, SharedBook};
use spaces::{Roster, Space};
use std::process::Abort;
use std::sync::Wait;

pub(crate) type Shared = SharedBook<PlainBook>;

pub(crate) type One = Caller<PlainBook>;

/// The call of the request that has the caller's number, where it is allowed.
pub(crate) fn calls<R: Wait + Abort>(
    rt: &R,
    shared: &Shared,
    roster: &Roster,
    caller: One,
    number: u32,
    call: Call,
) -> (One, BookReply)
    requires caller { IsNumbered shared.now number caller }
    requires number { (1 ≤ number) × (number ≤ shared.now.callers) }
    requires roster { shared.now.roster ≡ roster.now }
    ensures caller { IsNumbered shared.now number result.0 }
    ensures quota { result.0.quota ≡ caller.quota }
{
    let (caller, may) = may_call(rt, shared, roster, caller, number, number, call);
    assert!(rt; may);
    shared.call(rt, caller, number, call)
}

/// Waits for the end of a prompt that the caller's request follows.
pub(crate) fn waits<R: Wait + Abort>(
    rt: &R,
    shared: &Shared,
    roster: &Roster,
    caller: One,
    number: u32,
    prompt: u32,
) -> (One, BookReply)
    requires caller { IsNumbered shared.now number caller }
    requires number { (1 ≤ number) × (number ≤ shared.now.callers) }
    requires roster { shared.now.roster ≡ roster.now }
    ensures caller { IsNumbered shared.now number result.0 }
    ensures quota { result.0.quota ≡ caller.quota }
{
    let take = Call::Take { prompt };
    let (caller, may) = may_call(rt, shared, roster, caller, number, number, take);
    assert!(rt; may);
    shared.wait_answer(rt, caller, number, prompt)
}

// Names the space of number 1.
#[tactic(auto, using(crate::proofs::Left::space_counts))]
fn names_space<R: Wait + Abort>(rt: &R, shared: &Shared, caller: One, space: &Space) -> One
    requires caller { IsCallerOf shared.now caller }
    requires left { HasSpaceLeft caller.mine caller.seen space.now }
    ensures caller { IsCallerOf shared.now result }
    ensures same { IsSameCaller caller result }
    ensures counts { HasSameCounts caller.mine result.mine }
{
    let (caller, named) = shared.space_no(rt, caller, space);
    let Ok(named) = named else {
        panic!(rt; "no memory");
    };
    assert!(rt; named == 1);
    caller
}

// Names a text, and tells its number.
fn names_text<R: Wait + Abort>(rt: &R, shared: &Shared, caller: One, text: &Identity) -> (One, u32)
    requires caller { IsCallerOf shared.now caller }
    requires left { HasTextLeft caller.mine }
    ensures caller { IsCallerOf shared.now result.0 }
    ensures same { IsSameCaller caller result.0 }
    ensures mine { result.0.mine ≡ caller.mine ++ TextNamed caller.number text.now ∷ [] }
{
    let (caller, named) = shared.text_no(rt, caller, text);
    let Ok(named) = named else {
        panic!(rt; "no memory");
    };
    (caller, named)
}

// Begins the caller's first request.
fn begins_first<R: Wait + Abort>(
    rt: &R,
    shared: &Shared,
    roster: &Roster,
    caller: One,
    number: u32,
) -> One
    requires caller { IsCallerOf shared.now caller }
    requires first { caller.mine ≡ [] }
    requires number { (caller.number ≡ number) × (1 ≤ number) × (number ≤ shared.now.callers) }
    requires roster { shared.now.roster ≡ roster.now }
    ensures caller { IsCallerOf shared.now result }
    ensures same { IsSameCaller caller result }
    ensures mine { result.mine
        ≡ Made (record { caller = number; request = number; call = Begin; reply = Begun }) ∷ [] }
{
    let (caller, may) = may_call(rt, shared, roster, caller, number, number, Call::Begin);
    assert!(rt; may);
    let (caller, reply) = shared.call(rt, caller, number, Call::Begin);
    assert!(rt; reply == BookReply::Begun);
    caller
}

/// Begins the caller's first request, and names the space and two texts.
pub(crate) fn begins_and_names<R: Wait + Abort>(
    rt: &R,
    shared: &Shared,
    roster: &Roster,
    caller: One,
    number: u32,
    space: &Space,
    text: &Identity,
) -> One
    requires caller { IsCallerOf shared.now caller }
    requires first { caller.mine ≡ [] }
    requires number { (caller.number ≡ number) × (1 ≤ number) × (number ≤ shared.now.callers) }
    requires roster { shared.now.roster ≡ roster.now }
    ensures caller { IsCallerOf shared.now result }
    ensures number { result.number ≡ number }
    ensures quota { result.quota ≡ caller.quota }
    ensures begun { 1 ≤ begun result.mine }
    ensures none { terms_named result.mine ≡ 0 }
{
    let caller = begins_first(rt, shared, roster, caller, number);
    let (caller, first) = names_text(rt, shared, caller, text);
    let (caller, second) = names_text(rt, shared, caller, text);
    assert!(rt; first < second);
    names_space(rt, shared, caller, space)
}
