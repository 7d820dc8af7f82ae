//! Notes behind a turnstile: the smallest value that can lie there, and one turn on it.
//! The tests run it, and it shows what `leave` asks of a turn: keep what was there, and add items
//! of one's own.
ghost use Rattle.std.specs.Prelude.{◌≡◌, ◌++◌, ◌∷◌, [], ◌<◌, ◌^◌, vec_len, MatchBool};
ghost use Rattle.turnstile.specs.Passes.{IsOf};

use crate::pass::Pass;
use crate::told::Told;
use crate::turnstile::Turnstile;
use std::sync::Wait;

/// Pairs of a pass's number and a value, under a label that no turn changes.
#[derive(Drop)]
pub struct Notes {
    pub(crate) label: u32,
    pub(crate) list: Vec<(u32, u32)>,
    ghost short: { vec_len list < 2 ^ 32 },
}

impl Told for Notes {
    type Item = (u32, u32);

    type Fixed = u32;

    ghost items = { λ notes. notes.list.items };

    ghost by = { λ note. note.0 };

    ghost fixed = { λ notes. notes.label };

    fn length(&self) -> u32 {
        self.list.len() as u32
    }
}

impl Notes {
    pub(crate) fn new(label: u32, list: Vec<(u32, u32)>) -> Notes
        requires { vec_len list < 2 ^ 32 }
        ensures { (result.label ≡ label) × (result.list ≡ list) }
    {
        Notes { label, list }
    }

    // The notes with one more, where there is room for it.
    fn with(self, note: (u32, u32)) -> (Notes, bool)
        ensures list { MatchBool result.1 (result.0.list.items
            ≡ self.list.items ++ note ∷ []) (result.0.list.items ≡ self.list.items) }
        ensures label { result.0.label ≡ self.label }
    {
        let Notes { label, mut list } = self;
        let added = list.len() < 4_000_000_000 && list.push(note).is_ok();
        (Notes { label, list }, added)
    }
}

/// One turn, which adds a note of the pass's own, and says whether there was room for it.
pub(crate) fn add_note<R: Wait>(
    rt: &R,
    lock: &Turnstile<Notes>,
    pass: Pass<Notes>,
    note: (u32, u32),
) -> (Pass<Notes>, bool)
    requires of { IsOf lock.now pass }
    requires own { note.0 ≡ pass.number }
    ensures of { IsOf lock.now result.0 × (result.0.number ≡ pass.number) }
    ensures mine { MatchBool result.1 (result.0.mine
        ≡ pass.mine ++ note ∷ []) (result.0.mine ≡ pass.mine) }
{
    let (notes, inside) = lock.enter(rt, pass);
    let (notes, added) = notes.with(note);
    let pass = lock.leave(inside, notes);
    (pass, added)
}
