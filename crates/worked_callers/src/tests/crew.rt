//! Three callers of one book on one thread, and the rows of a history that they play.

ghost use Rattle.std.specs.Prelude.{◌≡◌, ◌≤◌, ◌<◌, [], All, length};
ghost use Rattle.shared_book.specs.Callers.{AreNewCallers, IsCallerOf};
ghost use Rattle.worked_callers.specs.Crews.{IsNumbered};

use crate::tests::callers::{One, Shared, calls, waits};
use crate::{next_caller, put_back};
use auth_events::{BookReply, Call};
use plain_book::PlainBook;
use shared_book::Callers;
use spaces::Roster;
use std::process::Abort;
use std::sync::Wait;

/// The callers 1, 2 and 3. Each makes the calls of the request that has its number.
#[derive(Drop)]
pub(crate) struct Crew {
    pub(crate) one: One,
    pub(crate) two: One,
    pub(crate) three: One,
}

/// What a caller does, and the reply that it gets.
#[derive(Clone, Copy)]
pub(crate) enum Step {
    /// It makes the call.
    Asks(Call, BookReply),
    /// It waits for the answer of that prompt.
    Waits(u32, BookReply),
}

/// The number of a caller, and what it does.
pub(crate) type Row = (u32, Step);

/// Takes the three callers out of the list.
pub(crate) fn take_three(shared: &Shared, callers: &mut Callers<PlainBook>) -> Crew
    requires new { AreNewCallers shared.now callers.old.list }
    requires three { (length callers.old.list ≡ 3) × (shared.now.callers ≡ 3) }
    ensures one { IsNumbered shared.now 1 result.one }
    ensures two { IsNumbered shared.now 2 result.two }
    ensures three { IsNumbered shared.now 3 result.three }
    ensures first { result.one.mine ≡ [] }
    ensures empty { length callers.new.list ≡ 0 }
    ensures room { 3 ≤ callers.new.room }
{
    let one = next_caller(shared, callers);
    let two = next_caller(shared, callers);
    let three = next_caller(shared, callers);
    Crew { one, two, three }
}

/// Puts the three callers back.
pub(crate) fn put_three(shared: &Shared, callers: &mut Callers<PlainBook>, crew: Crew)
    requires empty { length callers.old.list ≡ 0 }
    requires room { 3 ≤ callers.old.room }
    requires one { IsCallerOf shared.now crew.one }
    requires two { IsCallerOf shared.now crew.two }
    requires three { IsCallerOf shared.now crew.three }
    ensures all { All (IsCallerOf shared.now) callers.new.list }
    ensures len { length callers.new.list ≡ 3 }
{
    let Crew { one, two, three } = crew;
    put_back(shared, callers, one);
    put_back(shared, callers, two);
    put_back(shared, callers, three);
}

// What the caller of that number does.
fn does<R: Wait + Abort>(
    rt: &R,
    shared: &Shared,
    roster: &Roster,
    caller: One,
    number: u32,
    step: Step,
) -> One
    requires caller { IsNumbered shared.now number caller }
    requires number { (1 ≤ number) × (number ≤ shared.now.callers) }
    requires roster { shared.now.roster ≡ roster.now }
    ensures { IsNumbered shared.now number result }
{
    match step {
        Step::Asks(call, wanted) => {
            let (caller, reply) = calls(rt, shared, roster, caller, number, call);
            assert!(rt; reply == wanted);
            caller
        }
        Step::Waits(prompt, wanted) => {
            let (caller, reply) = waits(rt, shared, roster, caller, number, prompt);
            assert!(rt; reply == wanted);
            caller
        }
    }
}

// One row.
fn play_one<R: Wait + Abort>(rt: &R, shared: &Shared, roster: &Roster, crew: Crew, row: Row) -> Crew
    requires callers { shared.now.callers ≡ 3 }
    requires roster { shared.now.roster ≡ roster.now }
    requires one { IsNumbered shared.now 1 crew.one }
    requires two { IsNumbered shared.now 2 crew.two }
    requires three { IsNumbered shared.now 3 crew.three }
    ensures one { IsNumbered shared.now 1 result.one }
    ensures two { IsNumbered shared.now 2 result.two }
    ensures three { IsNumbered shared.now 3 result.three }
{
    let Crew { one, two, three } = crew;
    match row.0 {
        1 => {
            let one = does(rt, shared, roster, one, 1, row.1);
            Crew { one, two, three }
        }
        2 => {
            let two = does(rt, shared, roster, two, 2, row.1);
            Crew { one, two, three }
        }
        _ => {
            let three = does(rt, shared, roster, three, 3, row.1);
            Crew { one, two, three }
        }
    }
}

/// Plays the rows. Each call is allowed, and has its row's reply.
pub(crate) fn play<R: Wait + Abort>(
    rt: &R,
    shared: &Shared,
    roster: &Roster,
    mut crew: Crew,
    rows: &[Row],
) -> Crew
    requires callers { shared.now.callers ≡ 3 }
    requires roster { shared.now.roster ≡ roster.now }
    requires one { IsNumbered shared.now 1 crew.one }
    requires two { IsNumbered shared.now 2 crew.two }
    requires three { IsNumbered shared.now 3 crew.three }
    ensures one { IsNumbered shared.now 1 result.one }
    ensures two { IsNumbered shared.now 2 result.two }
    ensures three { IsNumbered shared.now 3 result.three }
{
    for row in rows {
        crew = play_one(rt, shared, roster, crew, *row);
    }
    crew
}
