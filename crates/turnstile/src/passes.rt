//! The passes of a turnstile as a list. It keeps its room, so that a pass that was taken out can
//! always be put back.
ghost use Rattle.std.specs.Prelude.{◌≡◌, ◌<◌, ◌≤◌, [], ◌∷◌, ◌++◌, length, slice_get, MatchOption};
ghost use Rattle.std.specs.Prelude.{OnSome, OnOk, OnErr, IfErr, IfOk, IsOk};
ghost use Rattle.std.specs.Option.{option_copied};

use crate::pass::Pass;
use crate::told::Told;
use std::alloc::{AllocError, AllocFailed, Global};
use std::marker::Model;

/// A list of passes. Contracts see the list and, beside it, its room: how many it holds without
/// asking for memory.
#[derive(Drop)]
pub struct Passes<S: Told> {
    pub(crate) list: Vec<Pass<S>>,
}

impl<S: Told> Model for Passes<S> {
    ghost use Rattle.std.specs.Prelude.{vec_capacity};
    ghost use Rattle.turnstile.specs.Passes.{PassesView};

    ghost Value = { PassesView S.Item S.Fixed };

    ghost view = { λ p. record { list = p.list.items; room = vec_capacity p.list } };
}

impl<S: Told> Passes<S> {
    /// An empty list, with no room.
    pub fn new(alloc: Global) -> Passes<S>
        ensures { result.list ≡ [] }
    {
        Passes {
            list: Vec::new(alloc),
        }
    }

    /// An empty list with room for this many passes: so many can be put into it without fail. An
    /// `Err` is want of memory.
    pub fn with_capacity(alloc: Global, capacity: usize) -> Result<Passes<S>, AllocError>
        ensures empty { IfOk result (λ passes. passes.list ≡ []) }
        ensures room { IfOk result (λ passes. capacity ≤ passes.room) }
    {
        let list = Vec::with_capacity(alloc, capacity)?;
        Ok(Passes { list })
    }

    /// How many passes there are.
    pub fn len(&self) -> usize
        ensures { result ≡ length self.now.list }
    {
        self.list.len()
    }

    /// The pass at a place, counted from 0.
    pub fn get(&self, at: usize) -> Option<&Pass<S>>
        ensures { option_copied result ≡ slice_get self.now.list at }
    {
        self.list.get(at)
    }

    /// Takes out the last pass. There is then room to put it back.
    pub fn pop(&mut self) -> Option<Pass<S>>
        ensures last { MatchOption result ((self.old.list ≡ [])
            × (self.new.list ≡ [])) (λ last. self.old.list ≡ self.new.list ++ last ∷ []) }
        ensures room { self.new.room ≡ self.old.room }
        ensures back { OnSome result (length self.new.list < self.new.room) }
    {
        self.list.pop()
    }

    /// Puts a pass at the end. An `Err` hands it back, leaves the list as it was, and comes only
    /// where the list has no room.
    pub fn push(&mut self, pass: Pass<S>) -> Result<(), AllocFailed<Pass<S>>>
        ensures ok { OnOk result (self.new.list ≡ self.old.list ++ pass ∷ []) }
        ensures err { OnErr result (self.new.list ≡ self.old.list) }
        ensures back { IfErr result (λ refused. refused.value ≡ pass) }
        ensures room { length self.old.list < self.old.room → IsOk result }
        ensures kept { self.old.room ≤ self.new.room }
    {
        self.list.push(pass)
    }
}
