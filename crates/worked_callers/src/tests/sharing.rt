//! What a caller does in a thread of its own: it names what all name, shares prompts with others,
//! draws with the gifts that it has, and has them rejected.

ghost use Rattle.std.specs.Prelude.{◌≡◌, ◌+◌, ◌<◌, ◌≤◌, []};
ghost use Rattle.shared_book.specs.Callers.{IsCallerOf};
ghost use Rattle.worked_callers.specs.Crews.{IsNumbered};

use crate::tests::callers::{One, Shared, begins_and_names, calls, waits};
use crate::tests::naming::names_terms;
use crate::tests::readings::sees_identity;
use auth_events::{BookReply, Call, Gift};
use auth_text::Identity;
use spaces::{Roster, Space, Terms};
use std::process::Abort;
use std::sync::{Barrier, Wait};

const SELECT: Call = Call::Select { space: 1, terms: 1 };

const FIRST: Gift = Gift {
    space: 1,
    ordinal: 1,
};

/// What all callers name, and where they meet once each of them has asked for a gift.
#[derive(Drop)]
pub(crate) struct Things {
    pub(crate) space: Space,
    pub(crate) terms: Terms,
    pub(crate) text: Identity,
    pub(crate) asked: Barrier,
}

// Answers the prompt that it leads, or waits for the answer of the one that it follows.
fn settles<R: Wait + Abort>(
    rt: &R,
    shared: &Shared,
    roster: &Roster,
    caller: One,
    number: u32,
    reply: BookReply,
) -> (One, BookReply)
    requires caller { IsNumbered shared.now number caller }
    requires number { (1 ≤ number) × (number ≤ shared.now.callers) }
    requires roster { shared.now.roster ≡ roster.now }
    ensures caller { IsNumbered shared.now number result.0 }
    ensures quota { result.0.quota ≡ caller.quota }
{
    match reply {
        BookReply::Lead { prompt, .. } => {
            let answer = Call::Answer {
                prompt,
                text: 1,
                terms: 1,
            };
            calls(rt, shared, roster, caller, number, answer)
        }
        BookReply::Follow { prompt } => waits(rt, shared, roster, caller, number, prompt),
        _ => (caller, reply),
    }
}

// The call that has the gift rejected.
fn rejection(reply: BookReply) -> Option<Call> {
    match reply {
        BookReply::Given { gift, .. } | BookReply::Gave { gift } | BookReply::Cached { gift } => {
            Some(Call::Reject {
                space: gift.space,
                ordinal: gift.ordinal,
            })
        }
        _ => None,
    }
}

// Has a gift, draws with it, and has it rejected.
fn draws<R: Wait + Abort>(
    rt: &R,
    shared: &Shared,
    roster: &Roster,
    caller: One,
    number: u32,
    reply: BookReply,
) -> (One, u32)
    requires caller { IsNumbered shared.now number caller }
    requires number { (1 ≤ number) × (number ≤ shared.now.callers) }
    requires roster { shared.now.roster ≡ roster.now }
    requires quota { 0 < caller.quota }
    requires nonces { 1 ≤ shared.now.nonces }
    ensures caller { IsNumbered shared.now number result.0 }
    ensures quota { result.0.quota + 1 ≡ caller.quota }
{
    let (mut caller, reply) = settles(rt, shared, roster, caller, number, reply);
    let Some(reject) = rejection(reply) else {
        panic!(rt; "request {number} has no gift");
    };
    let drawn = shared.draw(&mut caller, 1);
    let (caller, _reply) = calls(rt, shared, roster, caller, number, reject);
    (caller, drawn.count)
}

// The bit of a count.
fn bit(count: u32) -> u64 {
    if count < 64 { 1 << count } else { 0 }
}

// Asks for a gift twice, at first when all others ask too, and draws with both. The counts come
// with it, a bit each.
fn shares<R: Wait + Abort>(
    rt: &R,
    shared: &Shared,
    roster: &Roster,
    caller: One,
    number: u32,
    asked: &Barrier,
) -> (One, u64)
    requires caller { IsNumbered shared.now number caller }
    requires number { (1 ≤ number) × (number ≤ shared.now.callers) }
    requires roster { shared.now.roster ≡ roster.now }
    requires quota { 2 ≤ caller.quota }
    requires nonces { 1 ≤ shared.now.nonces }
    ensures { IsNumbered shared.now number result.0 }
{
    let (caller, reply) = calls(rt, shared, roster, caller, number, SELECT);
    asked.wait(rt);
    let (caller, first) = draws(rt, shared, roster, caller, number, reply);
    let (caller, reply) = calls(rt, shared, roster, caller, number, SELECT);
    let (caller, second) = draws(rt, shared, roster, caller, number, reply);
    let (caller, _reply) = calls(rt, shared, roster, caller, number, Call::End);
    (caller, bit(first) | bit(second))
}

/// What one caller does. At the end it reads the identity of the first gift.
pub(crate) fn works<R: Wait + Abort>(
    rt: &R,
    shared: &Shared,
    roster: &Roster,
    caller: One,
    number: u32,
    things: &Things,
) -> (One, u64)
    requires caller { IsNumbered shared.now number caller }
    requires first { caller.mine ≡ [] }
    requires number { (1 ≤ number) × (number ≤ shared.now.callers) }
    requires roster { shared.now.roster ≡ roster.now }
    requires quota { 2 ≤ caller.quota }
    requires nonces { 1 ≤ shared.now.nonces }
    ensures { IsCallerOf shared.now result.0 }
{
    let caller = begins_and_names(
        rt,
        shared,
        roster,
        caller,
        number,
        &things.space,
        &things.text,
    );
    let caller = names_terms(rt, shared, caller, 1, &things.terms);
    let (caller, counts) = shares(rt, shared, roster, caller, number, &things.asked);
    let caller = sees_identity(rt, shared, caller, FIRST, &things.text);
    (caller, counts)
}
