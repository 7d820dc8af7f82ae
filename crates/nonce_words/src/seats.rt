//! The seats: what lets a thread step on the words. A seat has no bytes, and contracts see what it
//! did and knows.

use crate::rule::Tally;
use atomic_table::Seat;
use std::marker::Model;

/// The one seat that retires nonces. Contracts see which words it is of, and the epochs that it
/// made.
#[derive(Drop)]
pub struct BookSeat {
    pub(crate) seat: Seat<(), Tally>,
}

impl Model for BookSeat {
    ghost use Rattle.std.specs.Prelude.{◌≡◌, []};
    ghost use Rattle.nonce_words.specs.Views.{BookView};

    ghost Value = { BookView };

    ghost view = { λ b. record { table = b.seat.table_id; made = b.seat.me.0.made } };

    ghost invariant = { λ b. (b.seat.me.0.books ≡ 1)
        × (b.seat.me.0.quota ≡ 0) × (b.seat.me.0.drawn ≡ []) × (b.seat.me.1 ≡ []) };
}

/// A seat that draws. Contracts see which words it is of, how many draws are left to it, what it
/// drew, and the epochs that it knows.
#[derive(Drop)]
pub struct DrawSeat {
    pub(crate) seat: Seat<(), Tally>,
}

impl Model for DrawSeat {
    ghost use Rattle.std.specs.Prelude.{◌≡◌, []};
    ghost use Rattle.nonce_words.specs.Views.{DrawView};

    ghost Value = { DrawView };

    ghost view = { λ d. record {
      table = d.seat.table_id;
      quota = d.seat.me.0.quota;
      drawn = d.seat.me.0.drawn;
      known = d.seat.me.0.known;
    } };

    ghost invariant = { λ d. (d.seat.me.0.books ≡ 0) × (d.seat.me.1 ≡ []) };
}
