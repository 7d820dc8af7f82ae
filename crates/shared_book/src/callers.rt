//! The callers of a shared book as a list. It keeps its room, so that a caller that was taken out
//! can always be put back.

ghost use Rattle.std.specs.Prelude.{◌≡◌, ◌<◌, ◌≤◌, [], ◌∷◌, ◌++◌, length, MatchOption, OnSome};
ghost use Rattle.std.specs.Prelude.{OnOk, OnErr, IfErr, IsOk, slice_get};
ghost use Rattle.std.specs.Option.{option_copied};

use crate::caller::Caller;
use auth_events::Controller;
use std::alloc::{AllocFailed, Global};
use std::marker::Model;

/// A list of callers. Contracts see the list and, beside it, its room: how many it holds without
/// asking for memory.
#[derive(Drop)]
pub struct Callers<B: Controller> {
    pub(crate) list: Vec<Caller<B>>,
}

impl<B: Controller> Model for Callers<B> {
    ghost use Rattle.std.specs.Prelude.{vec_capacity};
    ghost use Rattle.shared_book.specs.Callers.{CallersView};

    ghost Value = { CallersView };

    ghost view = { λ c. record { list = c.list.items; room = vec_capacity c.list } };
}

impl<B: Controller> Callers<B> {
    /// An empty list, with no room.
    pub fn new(alloc: Global) -> Callers<B>
        ensures { result.list ≡ [] }
    {
        Callers {
            list: Vec::new(alloc),
        }
    }

    /// How many callers there are.
    pub fn len(&self) -> usize
        ensures { result ≡ length self.now.list }
    {
        self.list.len()
    }

    /// The caller at a place, counted from 0.
    pub fn get(&self, at: usize) -> Option<&Caller<B>>
        ensures { option_copied result ≡ slice_get self.now.list at }
    {
        self.list.get(at)
    }

    /// Takes out the last caller. There is then room to put it back.
    pub fn pop(&mut self) -> Option<Caller<B>>
        ensures last { MatchOption result ((self.old.list ≡ []) × (self.new.list ≡ []))
            (λ last. self.old.list ≡ self.new.list ++ last ∷ []) }
        ensures room { self.new.room ≡ self.old.room }
        ensures back { OnSome result (length self.new.list < self.new.room) }
    {
        self.list.pop()
    }

    /// Puts a caller at the end. An `Err` hands it back, leaves the list as it was, and comes only
    /// where the list has no room.
    pub fn push(&mut self, caller: Caller<B>) -> Result<(), AllocFailed<Caller<B>>>
        ensures ok { OnOk result (self.new.list ≡ self.old.list ++ caller ∷ []) }
        ensures err { OnErr result (self.new.list ≡ self.old.list) }
        ensures back { IfErr result (λ refused. refused.value ≡ caller) }
        ensures room { length self.old.list < self.old.room → IsOk result }
        ensures kept { self.old.room ≤ self.new.room }
    {
        self.list.push(caller)
    }
}
