//! The history's table: what its seats know, its rule, and the names of its steps.
//! Nothing of the history is stored but its length, in one word; the rest exists in proofs alone.
ghost use Rattle.std.specs.Prelude.{ℕ, List};
ghost use Rattle.turnstile.specs.History.{Recorded, founder, spent, founds, founded, without_home};
ghost use Rattle.turnstile.specs.History.{with_home_only, brings, joined, looks, publishes};

use crate::told::Told;
use atomic_table::{Join, Play, Split, TableRule};
use std::collections::LinkedList;
use std::marker::{Brand, PhantomData};

/// Which table of atomic words it is, as plain data, so that a view or a fixed part can hold it. No
/// value of it is made.
pub struct TableName {
    pub words: u64,
    pub slots: u64,
    pub views_name: u64,
    pub atom: u64,
    pub block: u64,
    pub offset: u64,
    pub slot_names: LinkedList<u64>,
}

/// The history's table, and for how many passes it was made. No value of it is made.
pub struct HistoryName {
    pub table: TableName,
    pub passes: u64,
}

/// The items of a pass that was joined into another. No value of it is made.
pub struct Kept<I> {
    pub number: u64,
    pub mine: LinkedList<I>,
}

/// What a seat of the history knows. No value of it is made.
pub struct Past<I> {
    /// The number of its pass, or 0.
    pub number: u64,
    /// 1 where it has the home, and else 0.
    pub home: u64,
    /// Where it has the home, how many passes were made, and else 0.
    pub made: u64,
    /// The beginning of the history that it has seen.
    pub seen: LinkedList<I>,
    /// The items of its number.
    pub mine: LinkedList<I>,
    /// What it and the seats that were joined into it had seen before.
    pub olds: LinkedList<LinkedList<I>>,
    /// The passes that were joined into it.
    pub kept: LinkedList<Kept<I>>,
}

/// The rule of the history.
pub struct HistoryRule<S>(PhantomData<S>);

impl<S: Told, X> TableRule<X, Past<S::Item>, ()> for HistoryRule<S> {
    ghost holds = { λ _. Recorded S.by };

    ghost first = { λ _. founder };
}

/// A pass is made.
pub(crate) struct Founds;

impl<I> Split<Past<I>> for Founds {
    ghost left = { founds };

    ghost right = { founded };
}

/// The home leaves a pass.
pub(crate) struct HomeOut;

impl<I> Split<Past<I>> for HomeOut {
    ghost left = { without_home };

    ghost right = { with_home_only };
}

/// The home comes to a pass.
pub(crate) struct HomeIn;

impl<I> Join<Past<I>> for HomeIn {
    ghost both = { brings };

    ghost spent = { spent };
}

/// A pass is joined into another.
pub(crate) struct Joins;

impl<I> Join<Past<I>> for Joins {
    ghost both = { joined };

    ghost spent = { spent };
}

/// A look at the history, by the seat that has the home.
pub(crate) struct Looks<S>(PhantomData<S>);

impl<S: Told, X> Play<X, Past<S::Item>> for Looks<S> {
    ghost then = { looks S.by };
}

/// The items that are published, which each call picks.
pub(crate) trait News<I> {
    ghost news: { List I };
}

impl<I> News<I> for Brand {
    ghost use Rattle.std.specs.Prelude.{[]};

    ghost news = { [] };
}

/// The new items are added to the history.
pub(crate) struct Publishes<J>(PhantomData<J>);

impl<I, X, J: News<I>> Play<X, Past<I>> for Publishes<J> {
    ghost then = { publishes J.news };
}
