//! A list of notes behind a turnstile: turns of one thread, and of two threads that run side by
//! side. What a run shows beside the proofs: that a turn comes, that memory suffices, and that both
//! threads get on.
ghost use Rattle.std.specs.Prelude.{◌≡◌, ◌+◌, ◌++◌, ◌∷◌, [], ◌<◌, ◌≤◌, ◌^◌, length, vec_len};
ghost use Rattle.turnstile.specs.Passes.{IsOf, IsNewPass, AreNewPasses};

use super::*;
use crate::notes::{Notes, add_note};
use std::alloc::AllocError;
use std::process::Abort;
use std::sync::Wait;
use std::test::Fail;
use std::thread::join;

// The last pass of a new turnstile.
fn last_pass(lock: &Turnstile<Notes>, passes: &mut Passes<Notes>) -> Pass<Notes>
    requires some { 0 < length passes.old.list }
    requires new { AreNewPasses lock.now passes.old.list }
    ensures pass { IsNewPass lock.now (length passes.old.list) result }
    ensures rest { AreNewPasses lock.now passes.new.list }
    ensures len { length passes.new.list + 1 ≡ length passes.old.list }
    ensures room { (passes.new.room ≡ passes.old.room)
        × (length passes.old.list ≤ passes.new.room) }
{
    let Some(last) = passes.pop() else {
        unreachable!()
    };
    last
}

// A thousand turns, each of which adds one note.
fn take_turns<R: Wait + Abort>(
    rt: &R,
    lock: &Turnstile<Notes>,
    mut pass: Pass<Notes>,
    number: u32,
) -> Pass<Notes>
    requires { IsOf lock.now pass × (pass.number ≡ number) }
    ensures { IsOf lock.now result × (result.number ≡ number) }
{
    for value in 0..1000 {
        let (back, added) = add_note(rt, lock, pass, (number, value));
        assert!(rt; added);
        pass = back;
    }
    pass
}

// How many notes have the number, if their values count up from 0.
fn counted_up(notes: &Notes, number: u32) -> Option<u32> {
    let mut next = 0u32;
    for (by, value) in notes.list.iter() {
        if *by == number {
            if *value != next {
                return None;
            }
            next = next.checked_add(1)?;
        }
    }
    Some(next)
}

#[test]
fn two_threads_take_a_thousand_turns_each(rt: HostRuntime) -> Result<(), Fail> {
    let list = Vec::with_capacity(rt.alloc(), 2000)?;
    let notes = Notes::new(7, list);
    let Ok((lock, mut passes)) = Turnstile::new(rt.alloc(), notes, 2) else {
        return Err(AllocError.into());
    };
    let second = last_pass(&lock, &mut passes);
    let first = last_pass(&lock, &mut passes);
    let (host, shared) = (&rt, &lock);
    let (first, second) = join(
        &rt,
        move || take_turns(host, shared, first, 1),
        move || take_turns(host, shared, second, 2),
    );
    let Ok(()) = passes.push(first) else {
        unreachable!()
    };
    let Ok(()) = passes.push(second) else {
        unreachable!()
    };
    let notes = lock.close(passes);
    assert!(rt; notes.list.len() == 2000 && notes.label == 7);
    for number in [1, 2] {
        assert!(rt; counted_up(&notes, number) == Some(1000), "pass {number}");
    }
    Ok(())
}

#[test]
fn a_pass_comes_back_in_another_list(rt: HostRuntime) -> Result<(), Fail> {
    let mut back = Passes::with_capacity(rt.alloc(), 1)?;
    let list = Vec::with_capacity(rt.alloc(), 2)?;
    let notes = Notes::new(3, list);
    let Ok((lock, mut passes)) = Turnstile::new(rt.alloc(), notes, 1) else {
        return Err(AllocError.into());
    };
    let pass = last_pass(&lock, &mut passes);
    let (pass, added) = add_note(&rt, &lock, pass, (1, 0));
    assert!(rt; added);
    let (notes, inside) = lock.enter(&rt, pass);
    assert!(rt; notes.label == 3 && notes.length() == 1);
    let pass = lock.leave(inside, notes);
    let Ok(()) = back.push(pass) else {
        unreachable!()
    };
    assert!(rt; back.len() == 1 && back.get(0).is_some() && back.get(1).is_none());
    let notes = lock.close(back);
    assert!(rt; notes.label == 3 && counted_up(&notes, 1) == Some(1));
    Ok(())
}
