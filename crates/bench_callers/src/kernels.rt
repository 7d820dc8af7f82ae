//! The kernels: takes of an answer that isn't there, and callers that sleep until one is.

ghost use Rattle.std.specs.Prelude.{◌≡◌, ◌≤◌, ◌+◌, [], All, length};
ghost use Rattle.book_laws.specs.Owners.{owner};
ghost use Rattle.shared_book.specs.Callers.{AreNewCallers, IsCallerOf};

use crate::callers::{One, Shared, calls};
use crate::crew::each_works;
use crate::ground::{basic, roster_of};
use crate::works::{SELECT, Work, works};
use auth_events::Call;
use auth_text::NoMemory;
use plain_book::PlainBook;
use shared_book::{Callers, SharedBook};
use spaces::{Roster, Space};
use std::alloc::Global;
use std::sync::{Barrier, Wait};
use std::thread::{Threads, join};
use worked_callers::{may_call, next_caller, put_back};

// The first caller begins its first request, names the space, and leads the space's prompt.
fn leads<R: Wait>(rt: &R, shared: &Shared, roster: &Roster, caller: One, space: &Space) -> One
    requires caller { IsCallerOf shared.now caller }
    requires first { caller.mine ≡ [] }
    requires number { caller.number ≡ 1 }
    requires roster { shared.now.roster ≡ roster.now }
    ensures caller { IsCallerOf shared.now result }
    ensures number { result.number ≡ 1 }
{
    let (caller, may) = may_call(rt, shared, roster, caller, 1, 1, Call::Begin);
    if !may {
        return caller;
    }
    let (caller, _begun) = shared.call(rt, caller, 1, Call::Begin);
    let (caller, _named) = shared.space_no(rt, caller, space);
    let (caller, _leads) = calls(rt, shared, roster, caller, (1, 1), SELECT);
    caller
}

// The second request of the first of so many callers.
#[tactic(auto, using(crate::proofs::Second::second_request))]
fn second_request(callers: u32) -> u32
    requires { callers ≤ 16 }
    ensures { 1 ≡ owner callers result }
{
    callers + 1
}

// All callers take the answer of the prompt that the first one leads, at its second request too.
fn all_take<R: Wait + Threads + Sync>(
    rt: &R,
    shared: &Shared,
    roster: &Roster,
    mut callers: Callers<PlainBook>,
    space: &Space,
    times: (u32, u32),
) -> (Callers<PlainBook>, u32)
    requires new { AreNewCallers shared.now callers.list }
    requires some { (1 ≤ shared.now.callers) × (shared.now.callers ≤ 16) }
    requires len { length callers.list ≡ shared.now.callers }
    requires roster { shared.now.roster ≡ roster.now }
    ensures all { All (IsCallerOf shared.now) result.0.list }
    ensures len { length result.0.list ≡ shared.now.callers }
{
    let barrier = Barrier::new(callers.len());
    let asked = &barrier;
    let (first, each) = (Work::Takes(times.0), Work::Takes(times.1));
    let second = second_request(callers.len() as u32);
    let leader = next_caller(shared, &mut callers);
    let leader = leads(rt, shared, roster, leader, space);
    let ((leader, done), (mut callers, others)) = join(
        rt,
        move ||
            requires leader { IsCallerOf shared.now leader × (leader.number ≡ 1) }
            requires second { 1 ≡ owner shared.now.callers second }
            requires roster { shared.now.roster ≡ roster.now }
            ensures { IsCallerOf shared.entry.now result.0 }
        { works(rt, shared, roster, leader, (1, second), first, asked) },
        move ||
            requires new { AreNewCallers shared.now callers.list }
            requires number { 2 + length callers.list ≡ shared.now.callers + 1 }
            requires few { shared.now.callers ≤ 16 }
            requires roster { shared.now.roster ≡ roster.now }
            ensures all { All (IsCallerOf shared.entry.now) result.0.list }
            ensures len { length result.0.list ≡ length callers.list }
            ensures room { callers.room ≤ result.0.room }
        { each_works(rt, shared, roster, callers, 2, each, asked) },
    );
    put_back(shared, &mut callers, leader);
    (callers, done.saturating_add(others))
}

// Once all other callers follow the prompt, answers it when the input has ended.
fn answers<R: AllocGlobal + Input + Wait>(
    rt: &R,
    shared: &Shared,
    roster: &Roster,
    leader: One,
    asked: &Barrier,
) -> One
    requires leader { IsCallerOf shared.now leader × (leader.number ≡ 1) }
    requires some { 1 ≤ shared.now.callers }
    requires roster { shared.now.roster ≡ roster.now }
    ensures { IsCallerOf shared.now result }
{
    asked.wait(rt);
    for line in rt.lines(rt.alloc()) {
        if line.is_err() {
            break;
        }
    }
    let cancel = Call::Answer {
        prompt: 1,
        text: 0,
        terms: 0,
    };
    let (leader, _cancelled) = calls(rt, shared, roster, leader, (1, 1), cancel);
    leader
}

// All callers but the first wait for the answer of the prompt that the first one leads.
fn all_wait<R: AllocGlobal + Input + Wait + Threads + Sync>(
    rt: &R,
    shared: &Shared,
    roster: &Roster,
    mut callers: Callers<PlainBook>,
    space: &Space,
) -> (Callers<PlainBook>, u32)
    requires new { AreNewCallers shared.now callers.list }
    requires some { (1 ≤ shared.now.callers) × (shared.now.callers ≤ 16) }
    requires len { length callers.list ≡ shared.now.callers }
    requires roster { shared.now.roster ≡ roster.now }
    ensures all { All (IsCallerOf shared.now) result.0.list }
    ensures len { length result.0.list ≡ shared.now.callers }
{
    let barrier = Barrier::new(callers.len());
    let asked = &barrier;
    let leader = next_caller(shared, &mut callers);
    let leader = leads(rt, shared, roster, leader, space);
    let ((mut callers, answered), leader) = join(
        rt,
        move ||
            requires new { AreNewCallers shared.now callers.list }
            requires number { 2 + length callers.list ≡ shared.now.callers + 1 }
            requires few { shared.now.callers ≤ 16 }
            requires roster { shared.now.roster ≡ roster.now }
            ensures all { All (IsCallerOf shared.entry.now) result.0.list }
            ensures len { length result.0.list ≡ length callers.list }
            ensures room { callers.room ≤ result.0.room }
        { each_works(rt, shared, roster, callers, 2, Work::Waits, asked) },
        move ||
            requires leader { IsCallerOf shared.now leader × (leader.number ≡ 1) }
            requires some { 1 ≤ shared.now.callers }
            requires roster { shared.now.roster ≡ roster.now }
            ensures { IsCallerOf shared.entry.now result }
        { answers(rt, shared, roster, leader, asked) },
    );
    put_back(shared, &mut callers, leader);
    (callers, answered)
}

/// A prompt's answer is asked for so often in all, by so many callers in a thread each, while there
/// is none. The first caller leads the prompt. It says how often the answer was pending.
pub(crate) fn hold_takes<R: Wait + Threads + Sync>(
    rt: &R,
    alloc: Global,
    callers: u32,
    times: u32,
) -> Result<u32, NoMemory>
    requires { (1 ≤ callers) × (callers ≤ 16) }
{
    let roster = roster_of(alloc, callers + 1)?;
    let space = basic(alloc)?;
    let book = PlainBook::new(alloc, &roster)?;
    let Ok((shared, list)) = SharedBook::new(alloc, book, 16 * (callers + 1), callers) else {
        return Err(NoMemory);
    };
    let each = times / callers;
    let first = times.saturating_sub(each.saturating_mul(callers - 1));
    let (list, done) = all_take(rt, &shared, &roster, list, &space, (first, each));
    shared.close(list);
    Ok(done)
}

/// All of so many callers but the first wait in a thread each for the answer of the prompt that the
/// first one leads. It answers once standard input has ended. It says how many had an answer.
pub(crate) fn hold_waits<R: AllocGlobal + Input + Wait + Threads + Sync>(
    rt: &R,
    alloc: Global,
    callers: u32,
) -> Result<u32, NoMemory>
    requires { (1 ≤ callers) × (callers ≤ 16) }
{
    let roster = roster_of(alloc, callers)?;
    let space = basic(alloc)?;
    let book = PlainBook::new(alloc, &roster)?;
    let Ok((shared, list)) = SharedBook::new(alloc, book, 16 * callers, callers) else {
        return Err(NoMemory);
    };
    let (list, answered) = all_wait(rt, &shared, &roster, list, &space);
    shared.close(list);
    Ok(answered)
}
