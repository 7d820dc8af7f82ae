//! The rule that every step on the words keeps, and a name for each kind of step.
//!
//! What a seat knows is a `Tally`. It stands in proofs alone, so no value of it is ever made.

ghost use Rattle.std.specs.Prelude.{ℕ};
ghost use Rattle.nonce_words.specs.Rule.{IsKept, opened, drew, retired, book_part, draw_part};
ghost use Rattle.nonce_words.specs.Rule.{without, only, noted, joined, spent};

use crate::draw::NonceDraw;
use atomic_table::{Join, Play, Split, TableRule};
use std::collections::LinkedList;
use std::marker::Brand;

// What a seat has drawn, may draw, knows and made. Epochs are lists by nonce, 0 where the list is
// shorter.
pub(crate) struct Tally {
    pub(crate) quota: u64,
    pub(crate) drawn: LinkedList<NonceDraw>,
    pub(crate) known: LinkedList<u64>,
    // 1 at the book's seat, and 0 at all others.
    pub(crate) books: u64,
    pub(crate) made: LinkedList<u64>,
}

pub(crate) struct Drawing;

impl<S> TableRule<S, Tally, u32> for Drawing {
    ghost holds = { IsKept };

    ghost first = { λ _. opened };
}

// A draw: one more is added to the word.
pub(crate) struct Draws;

impl<S> Play<S, Tally> for Draws {
    ghost then = { drew };
}

// A retirement: 2^32 more are added to the word.
pub(crate) struct Retires;

impl<S> Play<S, Tally> for Retires {
    ghost then = { retired };
}

// The first seat becomes the book's, and the first drawing seat is split off.
pub(crate) struct Opens;

impl Split<Tally> for Opens {
    ghost left = { book_part };

    ghost right = { draw_part };
}

// How much quota a split moves. The call that splits picks it.
pub(crate) trait Amount {
    ghost amount: { ℕ };
}

impl Amount for Brand {
    ghost amount = { 0 };
}

// Quota is moved to a new seat.
pub(crate) struct Moves<A: Amount>(A);

impl<A: Amount> Split<Tally> for Moves<A> {
    ghost left = { without A.amount };

    ghost right = { only A.amount };
}

// The book's seat gives a note of the epochs that it made.
pub(crate) struct Notes;

impl Split<Tally> for Notes {
    ghost left = { λ v. v };

    ghost right = { noted };
}

// A seat or a note is joined into a seat.
pub(crate) struct Joins;

impl Join<Tally> for Joins {
    ghost both = { joined };

    ghost spent = { spent };
}
