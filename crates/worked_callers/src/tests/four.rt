//! Four threads of one book. What they did is judged when all of them are back.

ghost use Rattle.std.specs.Prelude.{◌≡◌, ◌+◌, ◌<◌, ◌≤◌, [], All, length};
ghost use Rattle.shared_book.specs.Callers.{AreNewCallers, IsCallerOf};

use crate::tests::callers::Shared;
use crate::tests::ground::{digest, identity, roster_of_four, terms};
use crate::tests::sharing::{Things, works};
use crate::{next_caller, put_back};
use auth_events::{BookReply, Controller, Entry, Names};
use auth_text::NoMemory;
use plain_book::{PlainBook, is_allowed};
use shared_book::{Callers, SharedBook};
use spaces::Roster;
use std::alloc::Global;
use std::process::Abort;
use std::sync::{Barrier, Wait};
use std::test::Fail;
use std::thread::{Threads, join};

// What each caller of the list does, in a thread each. The last of it has the number that is given.
// The counts that they drew come with them, a bit each.
fn all_work<R: Wait + Abort + Threads + Sync>(
    rt: &R,
    shared: &Shared,
    roster: &Roster,
    mut callers: Callers<PlainBook>,
    number: u32,
    things: &Things,
) -> (Callers<PlainBook>, u64)
    requires new { AreNewCallers shared.now callers.list }
    requires number { (number + length callers.list ≡ shared.now.callers + 1) × (1 ≤ number) }
    requires few { shared.now.callers ≤ 16 }
    requires roster { shared.now.roster ≡ roster.now }
    requires nonces { 1 ≤ shared.now.nonces }
    ensures all { All (IsCallerOf shared.now) result.0.list }
    ensures len { length result.0.list ≡ length callers.list }
    ensures room { callers.room ≤ result.0.room }
{
    if callers.len() == 0 {
        return (callers, 0);
    }
    let caller = next_caller(shared, &mut callers);
    let ((caller, counts), (mut callers, others)) = join(
        rt,
        move ||
            requires caller { IsCallerOf shared.now caller × (caller.number ≡ number) }
            requires first { (caller.mine ≡ []) × (2 ≤ caller.quota) }
            requires number { (1 ≤ number) × (number ≤ shared.now.callers) }
            requires roster { shared.now.roster ≡ roster.now }
            requires nonces { 1 ≤ shared.now.nonces }
        { works(rt, shared, roster, caller, number, things) },
        move ||
            requires new { AreNewCallers shared.now callers.list }
            requires number { number + 1 + length callers.list ≡ shared.now.callers + 1 }
            requires few { shared.now.callers ≤ 16 }
            requires roster { shared.now.roster ≡ roster.now }
            requires nonces { 1 ≤ shared.now.nonces }
            ensures all { All (IsCallerOf shared.entry.now) result.0.list }
            ensures len { length result.0.list ≡ length callers.list }
            ensures room { callers.room ≤ result.0.room }
        { all_work(rt, shared, roster, callers, number + 1, things) },
    );
    put_back(shared, &mut callers, caller);
    (callers, counts | others)
}

// Each entry's call was allowed by those before it. It says how many of them followed a prompt.
fn follows(rt: &impl Abort, roster: &Roster, names: &Names, entries: &[Entry]) -> usize {
    let mut follows = 0usize;
    for at in 0..entries.len() {
        let entry = entries[at];
        let (caller, request) = (entry.caller, entry.request);
        let may = is_allowed(roster, names, &entries[..at], caller, request, entry.call);
        assert!(rt; may, "{entry:?}");
        if matches!(entry.reply, BookReply::Follow { .. }) {
            follows = follows.saturating_add(1);
        }
    }
    follows
}

// The counts that four callers of a new book draw, and how often they followed a prompt.
fn drawn_with<R: Wait + Abort + Threads + Sync>(
    rt: &R,
    alloc: Global,
    roster: &Roster,
    things: &Things,
) -> Result<(u64, usize), NoMemory>
    requires { length roster.now.requests ≡ 4 }
{
    let book = PlainBook::new(alloc, roster)?;
    let Ok((shared, callers)) = SharedBook::new(alloc, book, 64, 4) else {
        return Err(NoMemory);
    };
    let (callers, counts) = all_work(rt, &shared, roster, callers, 1, things);
    let book = shared.close(callers);
    let follows = follows(rt, roster, book.names(), book.journal().entries());
    Ok((counts, follows))
}

// The same, with what they all name.
fn drawn_by_four<R: Wait + Abort + Threads + Sync>(
    rt: &R,
    alloc: Global,
    roster: &Roster,
) -> Result<(u64, usize), NoMemory>
    requires { length roster.now.requests ≡ 4 }
{
    let things = Things {
        space: digest(alloc)?,
        terms: terms(alloc)?,
        text: identity(alloc)?,
        asked: Barrier::new(4),
    };
    drawn_with(rt, alloc, roster, &things)
}

fn drawn<R: AllocGlobal + Wait + Abort + Threads + Sync>(rt: &R) -> Result<(u64, usize), NoMemory> {
    let roster = roster_of_four(rt.alloc())?;
    drawn_by_four(rt, rt.alloc(), &roster)
}

#[test]
fn four_threads_make_one_legal_history(rt: HostRuntime) -> Result<(), Fail> {
    let (counts, follows) = drawn(&rt).map_err(|_| "no memory")?;
    assert_eq!(rt; counts, 0b1_1111_1110);
    assert!(rt; follows >= 3);
    Ok(())
}
