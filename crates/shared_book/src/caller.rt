//! A caller of a shared book: its pass, and its seat on the words.

use crate::locked::Locked;
use auth_events::Controller;
use nonce_words::DrawSeat;
use std::marker::Model;
use turnstile::Pass;

/// One caller of a shared book. It has a number, has seen a beginning of what the book tells, and
/// knows its own items there. It has a share of the draws. It takes no bytes beside its number. A
/// caller that is dropped is missed when the book is closed.
#[derive(Drop)]
pub struct Caller<B: Controller> {
    pub(crate) pass: Pass<Locked<B>>,
    pub(crate) seat: DrawSeat,
    pub(crate) number: u32,
}

impl<B: Controller> Model for Caller<B> {
    ghost use Rattle.shared_book.specs.Callers.{CallerView, IsCaller};

    ghost Value = { CallerView };

    ghost view = { λ c. record {
      number = c.number;
      seen = c.pass.seen;
      mine = c.pass.mine;
      quota = c.seat.quota;
      drawn = c.seat.drawn;
      fixed = c.pass.fixed;
      history = c.pass.history;
      turns = c.pass.turns;
      words = c.seat.table;
    } };

    ghost invariant = { λ c. IsCaller c.number c.pass c.seat };
}
