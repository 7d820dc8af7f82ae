//! The turns' table: what its seats know, its rule, and the names of its steps.
//! A ticket is drawn at one word, the other says whose turn it is, and the value lies in the one
//! slot between turns.
ghost use Rattle.std.specs.Prelude.{◌≡◌, []};

use crate::history::{HistoryName, Past};
use crate::told::Told;
use atomic_table::{Join, Play, Seat, Split, TableRule};
use std::collections::LinkedList;
use std::marker::PhantomData;
use std::snapshot::Snapshot;

/// What a seat of the turns knows. No value of it is made.
pub struct Turn<F> {
    /// How many passes it stands for.
    pub parts: u64,
    /// Its ticket, if it has one.
    pub tickets: LinkedList<u64>,
    /// 1 where it holds the turn, and else 0.
    pub holds: u64,
    /// The fixed part of the value.
    pub fixed: Option<F>,
    /// The history that the value's items stand in.
    pub history: HistoryName,
}

/// It needs the bound, so that a type may have a field with it.
#[derive(Drop)]
pub struct Of<S: Told>(PhantomData<S>);

impl<S: Told> Of<S> {
    pub(crate) fn new() -> Of<S> {
        Of(PhantomData)
    }
}

/// The value between turns, with the home seat, which has seen just what the value tells.
pub struct Deposit<S: Told> {
    pub(crate) of: Of<S>,
    pub(crate) state: S,
    pub(crate) home: Seat<(), Past<S::Item>>,
    ghost tells: { (S.items state ≡ home.me.0.seen) × (home.me.0.home ≡ 1) × (home.me.0.number ≡ 0) × (home.me.0.kept ≡ []) × (home.me.1 ≡ []) },
}

/// What the turns' table is told when it is made.
#[derive(Drop)]
pub struct Key<S: Told> {
    pub(crate) passes: u32,
    pub(crate) state: Snapshot<S>,
    pub(crate) home: Snapshot<Seat<(), Past<S::Item>>>,
}

/// The rule of the turns.
pub struct TurnRule<S>(PhantomData<S>);

impl<S: Told> TableRule<Option<Deposit<S>>, Turn<S::Fixed>, Key<S>> for TurnRule<S> {
    ghost use Rattle.turnstile.specs.Turns.{Ordered, turn};
    ghost use Rattle.turnstile.specs.Names.{history_of, id_of};
    ghost use Rattle.std.specs.Prelude.{Some};

    ghost holds = { λ key. Ordered (λ z f a. (a.home.table_id ≡ id_of z.table)
        × (a.home.me.0.made ≡ z.passes) × (f ≡ Some (S.fixed a.state))) key.passes
        (history_of key.passes key.home.value.table_id) (Some (S.fixed key.state.value)) };

    ghost first = { λ key. turn key.passes [] 0
        (Some (S.fixed key.state.value)) (history_of key.passes key.home.value.table_id) };
}

/// A ticket is drawn where it is the one that was looked for.
pub(crate) struct DrawsAt;

impl<A, F> Play<Option<A>, Turn<F>> for DrawsAt {
    ghost use Rattle.turnstile.specs.Turns.{draws_at};

    ghost then = { draws_at };
}

/// A look at whose turn it is, which takes the turn where it is one's own.
pub(crate) struct Takes<S>(PhantomData<S>);

impl<S: Told> Play<Option<Deposit<S>>, Turn<S::Fixed>> for Takes<S> {
    ghost use Rattle.turnstile.specs.Turns.{takes};
    ghost use Rattle.turnstile.specs.Names.{id_of};
    ghost use Rattle.std.specs.Prelude.{Some};

    ghost then = { takes (λ z f a. (a.home.table_id ≡ id_of z.table)
        × (a.home.me.0.made ≡ z.passes) × (f ≡ Some (S.fixed a.state))) };
}

/// The turn goes to the next ticket.
pub(crate) struct Advances;

impl<A, F> Play<Option<A>, Turn<F>> for Advances {
    ghost use Rattle.turnstile.specs.Turns.{advances};

    ghost then = { advances };
}

/// A pass is split off.
pub(crate) struct Cuts;

impl<F> Split<Turn<F>> for Cuts {
    ghost use Rattle.turnstile.specs.Turns.{fewer, single};

    ghost left = { fewer };

    ghost right = { single };
}

/// A pass is joined into another.
pub(crate) struct Together;

impl<F> Join<Turn<F>> for Together {
    ghost use Rattle.turnstile.specs.Turns.{both, gone};

    ghost both = { both };

    ghost spent = { gone };
}
