//! Turns that one thread, two, four or sixteen take on one list of notes. Each turn adds a note.

ghost use Rattle.std.specs.Prelude.{◌≡◌, ◌+◌, ◌-◌, ◌++◌, ◌∷◌, [], ◌<◌, ◌≤◌, ◌^◌, All, length};
ghost use Rattle.std.specs.Prelude.{vec_len, IsTrue, MatchBool, IfOk};
ghost use Rattle.turnstile.specs.Passes.{IsOf, IsNewPass, AreNewPasses};
ghost use Rattle.bench_core.specs.Turns.{turns_of};

use auth_text::NoMemory;
use std::alloc::Global;
use std::sync::Wait;
use std::thread::{Threads, join};
use turnstile::{Pass, Passes, Told, Turnstile};

/// What a turn adds: by which pass, and at which of its turns.
#[derive(Clone, Copy)]
pub struct Note {
    pub pass: u32,
    pub turn: u32,
}

/// The notes of all turns.
#[derive(Drop)]
pub struct Notes {
    list: Vec<Note>,
    ghost short: { vec_len list < 2 ^ 32 },
}

impl Told for Notes {
    type Item = Note;

    type Fixed = u32;

    ghost items = { λ notes. notes.list.items };

    ghost by = { λ note. note.pass };

    ghost fixed = { λ notes. 0 };

    fn length(&self) -> u32 {
        self.list.len() as u32
    }
}

/// The notes with one more, where there is room for it.
fn with_note(notes: Notes, note: Note) -> (Notes, bool)
    ensures { MatchBool result.1 (result.0.list.items
        ≡ notes.list.items ++ note ∷ []) (result.0.list.items ≡ notes.list.items) }
{
    let Notes { mut list } = notes;
    let added = list.len() < 4_000_000_000 && list.push(note).is_ok();
    (Notes { list }, added)
}

/// One turn, which tells whether there was room for its note.
fn take_turn<R: Wait>(
    rt: &R,
    lock: &Turnstile<Notes>,
    pass: Pass<Notes>,
    note: Note,
) -> (Pass<Notes>, bool)
    requires of { IsOf lock.now pass }
    requires own { note.pass ≡ pass.number }
    ensures of { IsOf lock.now result.0 × (result.0.number ≡ pass.number) }
    ensures mine { MatchBool result.1 (result.0.mine
        ≡ pass.mine ++ note ∷ []) (result.0.mine ≡ pass.mine) }
{
    let (notes, inside) = lock.enter(rt, pass);
    let (notes, added) = with_note(notes, note);
    (lock.leave(inside, notes), added)
}

/// A pass and its number.
#[derive(Drop)]
pub struct Worker {
    pass: Pass<Notes>,
    number: u32,
    ghost numbered: { pass.number ≡ number },
}

/// The turns of one thread: so many, unless there is no more room.
fn take_turns<R: Wait>(
    rt: &R,
    lock: &Turnstile<Notes>,
    worker: Worker,
    times: u32,
) -> (Worker, bool)
    requires { IsOf lock.now worker.pass }
    ensures worker { IsOf lock.now result.0.pass }
    ensures turns { IsTrue result.1 → length result.0.pass.mine ≡ length worker.pass.mine + times }
{
    let Worker { mut pass, number } = worker;
    for turn in 0..times {
        let (next, added) = take_turn(rt, lock, pass, Note { pass: number, turn });
        pass = next;
        if !added {
            return (Worker { pass, number }, false);
        }
    }
    (Worker { pass, number }, true)
}

/// A list of notes with room for so many, behind a turnstile with so many passes.
fn opened(
    alloc: Global,
    passes: u32,
    notes: u32,
) -> Result<(Turnstile<Notes>, Passes<Notes>), NoMemory>
    requires { 0 < passes }
    ensures passes { IfOk result (λ r. r.0.passes ≡ passes) }
    ensures len { IfOk result (λ r. length r.1.list ≡ passes) }
    ensures new { IfOk result (λ r. AreNewPasses r.0 r.1.list) }
{
    let list = Vec::with_capacity(alloc, notes as usize)?;
    match Turnstile::new(alloc, Notes { list }, passes) {
        Ok(made) => Ok(made),
        Err(_) => Err(NoMemory),
    }
}

/// The last pass of a new turnstile.
fn last_pass(lock: &Turnstile<Notes>, passes: &mut Passes<Notes>) -> Pass<Notes>
    requires some { 0 < length passes.old.list }
    requires new { AreNewPasses lock.now passes.old.list }
    ensures pass { IsNewPass lock.now (length passes.old.list) result }
    ensures rest { AreNewPasses lock.now passes.new.list }
    ensures len { length passes.new.list + 1 ≡ length passes.old.list }
    ensures room { (passes.new.room ≡ passes.old.room)
        × (length passes.old.list ≤ passes.new.room) }
{
    let Some(last) = passes.pop() else {
        unreachable!()
    };
    last
}

/// The worker of the last pass, which has this number.
fn last_worker(lock: &Turnstile<Notes>, passes: &mut Passes<Notes>, number: u32) -> Worker
    requires number { (0 < number) × (length passes.old.list ≡ number) }
    requires new { AreNewPasses lock.now passes.old.list }
    ensures worker { IsOf lock.now result.pass × (result.pass.mine ≡ []) }
    ensures rest { AreNewPasses lock.now passes.new.list }
    ensures len { length passes.new.list + 1 ≡ length passes.old.list }
    ensures room { (passes.new.room ≡ passes.old.room)
        × (length passes.old.list ≤ passes.new.room) }
{
    let pass = last_pass(lock, passes);
    Worker { pass, number }
}

/// Puts a worker's pass back where there is room for it.
fn put_back(lock: &Turnstile<Notes>, passes: &mut Passes<Notes>, worker: Worker)
    requires room { length passes.old.list < passes.old.room }
    requires all { All (IsOf lock.now) passes.old.list }
    requires worker { IsOf lock.now worker.pass }
    ensures list { passes.new.list ≡ passes.old.list ++ worker.pass ∷ [] }
    ensures len { length passes.new.list ≡ length passes.old.list + 1 }
    ensures all { All (IsOf lock.now) passes.new.list }
    ensures room { passes.old.room ≤ passes.new.room }
{
    let Worker { pass, number: _ } = worker;
    let Ok(()) = passes.push(pass) else {
        unreachable!()
    };
}

/// How many notes there are once all passes are back.
fn closed(lock: Turnstile<Notes>, passes: Passes<Notes>) -> u32
    requires all { length passes.list ≡ lock.passes }
    requires passes { All (IsOf lock) passes.list }
{
    lock.close(passes).length()
}

fn counted(notes: u32, is_complete: bool) -> Result<u32, NoMemory> {
    if is_complete {
        Ok(notes)
    } else {
        Err(NoMemory)
    }
}

/// So many turns in all, by the passes of the list in a thread each. It tells whether there was
/// room for all notes.
fn take_turns_by_all<R: Wait + Threads + Sync>(
    rt: &R,
    lock: &Turnstile<Notes>,
    mut passes: Passes<Notes>,
    times: u32,
) -> (Passes<Notes>, bool)
    requires few { length passes.list ≤ 16 }
    requires new { AreNewPasses lock.now passes.list }
    ensures all { All (IsOf lock.now) result.0.list }
    ensures len { length result.0.list ≡ length passes.list }
    ensures room { passes.room ≤ result.0.room }
    ensures turns { IsTrue result.1 → turns_of result.0.list ≡ times }
{
    let number = passes.len() as u32;
    if number == 0 {
        return (passes, times == 0);
    }
    let share = times / number;
    let worker = last_worker(lock, &mut passes, number);
    let ((worker, done), (mut passes, others)) = join(
        rt,
        move || take_turns(rt, lock, worker, share),
        move ||
            requires few { length passes.list ≤ 16 }
            requires new { AreNewPasses lock.now passes.list }
            requires share { share ≤ times }
            ensures all { All (IsOf lock.entry.now) result.0.list }
            ensures len { length result.0.list ≡ length passes.list }
            ensures room { passes.room ≤ result.0.room }
            ensures turns { IsTrue result.1 → turns_of result.0.list ≡ times - share }
        { take_turns_by_all(rt, lock, passes, times - share) },
    );
    put_back(lock, &mut passes, worker);
    (passes, done && others)
}

/// Takes so many turns by so many threads, and tells how many notes there are at the end. There are
/// 1 to 16 threads; by none, or by more, no turn is taken.
pub fn run<R: Wait + Threads + Sync>(
    rt: &R,
    alloc: Global,
    threads: u32,
    times: u32,
) -> Result<u32, NoMemory> {
    if threads == 0 || threads > 16 {
        return Ok(0);
    }
    let (lock, passes) = opened(alloc, threads, times)?;
    let (passes, is_complete) = take_turns_by_all(rt, &lock, passes, times);
    counted(closed(lock, passes), is_complete)
}
