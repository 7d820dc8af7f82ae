//! What a thread holds: a pass between turns, and what the pass has become inside a turn.
//! Each is one seat of the history's table and one of the turns'; contracts see only what the pass
//! knows.
use crate::history::Past;
use crate::told::Told;
use crate::turns::{Deposit, Turn};
use atomic_table::Seat;
use std::marker::Model;

/// The right to take turns. It has a number, has seen a beginning of the history, and knows its own
/// items in it. It takes no bytes. A pass that is dropped is missed at `close`.
#[derive(Drop)]
pub struct Pass<S: Told> {
    pub(crate) past: Seat<(), Past<S::Item>>,
    pub(crate) turn: Seat<Option<Deposit<S>>, Turn<S::Fixed>>,
}

impl<S: Told> Model for Pass<S> {
    ghost use Rattle.std.specs.Prelude.{◌≡◌, ◌<◌, []};
    ghost use Rattle.turnstile.specs.Passes.{PassView};
    ghost use Rattle.turnstile.specs.Names.{id_of};

    ghost Value = { PassView S.Item S.Fixed };

    ghost view = { λ p.
        record {
          number = p.past.me.0.number;
          seen = p.past.me.0.seen;
          mine = p.past.me.0.mine;
          fixed = p.turn.me.0.fixed;
          history = p.past.table_id;
          turns = p.turn.table_id;
        } };

    ghost invariant = { λ p.
        ((p.past.me.1 ≡ []) × (p.past.me.0.home ≡ 0) × (0 < p.past.me.0.number))
        × ((p.turn.me.1 ≡ []) × (p.turn.me.0.tickets ≡ []) × (p.turn.me.0.holds ≡ 0)
        × (p.turn.me.0.parts ≡ 1)) × (id_of p.turn.me.0.history.table ≡ p.past.table_id) };
}

/// A turn. It is no `Drop`, so it ends in `leave` and nowhere else.
pub struct Inside<S: Told> {
    pub(crate) past: Seat<(), Past<S::Item>>,
    pub(crate) turn: Seat<Option<Deposit<S>>, Turn<S::Fixed>>,
    pub(crate) taken: u32,
}

impl<S: Told> Model for Inside<S> {
    ghost use Rattle.std.specs.Prelude.{◌≡◌, ◌<◌, [], ◌∷◌, length, None};
    ghost use Rattle.turnstile.specs.Passes.{PassView};
    ghost use Rattle.turnstile.specs.Names.{id_of};

    ghost Value = { PassView S.Item S.Fixed };

    ghost view = { λ p.
        record {
          number = p.past.me.0.number;
          seen = p.past.me.0.seen;
          mine = p.past.me.0.mine;
          fixed = p.turn.me.0.fixed;
          history = p.past.table_id;
          turns = p.turn.table_id;
        } };

    ghost invariant = { λ p. ((p.past.me.1 ≡ [])
        × (p.past.me.0.home ≡ 1) × (0 < p.past.me.0.number) × (p.taken ≡ length p.past.me.0.seen))
        × ((p.turn.me.0.holds ≡ 1) × (p.turn.me.0.parts ≡ 1) × (p.turn.me.1 ≡ (0, None) ∷ []))
        × (id_of p.turn.me.0.history.table ≡ p.past.table_id)
        × (p.past.me.0.made ≡ p.turn.me.0.history.passes) };
}
