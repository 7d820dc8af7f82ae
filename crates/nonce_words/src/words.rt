//! The words, and the calls on them: each draw and each retirement is one atomic step.

ghost use Rattle.std.specs.Prelude.{◌≡◌, ◌≢◌, ℕ, ◌+◌, ◌-◌, ◌^◌, ◌<◌, ◌≤◌, ◌++◌, ◌∷◌, [], length};
ghost use Rattle.std.specs.Prelude.{max, sum, IfOk};
ghost use Rattle.nonce_words.specs.Views.{epoch_at};
ghost use Rattle.nonce_words.specs.Fresh.{IsFresh};

use crate::rule::{Amount, Drawing, Draws, Joins, Moves, Opens, Retires, Tally};
use crate::seats::{BookSeat, DrawSeat};
use atomic_table::Table;
use auth_events::Drawn;
use auth_text::NoMemory;
use std::alloc::Global;
use std::marker::{Brand, Model};

/// A word for each nonce, which is `epoch * 2^32 + count`. Word 0 is of no nonce and stays 0.
#[derive(Drop)]
pub struct NonceWords {
    pub(crate) table: Table<(), Tally, u32, Drawing, Global>,
    nonces: u32,
}

impl Model for NonceWords {
    ghost use Rattle.std.specs.Prelude.{◌≡◌, ◌+◌};
    ghost use Rattle.nonce_words.specs.Views.{WordsView};

    ghost Value = { WordsView };

    ghost view = { λ w. record { table = w.table.shared.table_id; nonces = w.nonces } };

    ghost invariant = { λ w. (w.table.shared.table_id.words ≡ w.nonces + 1)
        × (w.table.shared.table_id.slots ≡ 0) × (w.table.shared.key ≡ w.nonces) };
}

impl NonceWords {
    /// Words for the nonces 1 to `nonces`, all 0, with the book's seat and the first drawing seat,
    /// which may draw 2^30 counts in all.
    pub fn new(alloc: Global, nonces: u32) -> Result<(NonceWords, BookSeat, DrawSeat), NoMemory>
        ensures words { IfOk result (λ r. r.0.nonces ≡ nonces) }
        ensures book { IfOk result (λ r. r.1 ≡ record { table = r.0.table; made = [] }) }
        ensures draws { IfOk result (λ r. r.2
            ≡ record { table = r.0.table; quota = 2 ^ 30; drawn = []; known = [] }) }
    {
        let words = vec![in alloc; 0u64; nonces as usize + 1]?;
        let (table, mut seat) = Table::of_words(alloc, words.as_slice(), &nonces)?;
        let draws = table.shared.split_seat::<Opens>(&mut seat);
        Ok((
            NonceWords { table, nonces },
            BookSeat { seat },
            DrawSeat { seat: draws },
        ))
    }

    /// Moves quota to a new seat, which knows the same epochs.
    pub fn split(&self, from: &mut DrawSeat, quota: u32) -> DrawSeat
        requires words { from.old.table ≡ self.now.table }
        requires quota { quota ≤ from.old.quota }
        ensures from { from.new ≡ record from.old { quota = from.old.quota - quota } }
        ensures new { result ≡ record from.old { quota = quota; drawn = [] } }
    {
        self.split_by::<Brand>(from, quota)
    }

    // A step takes no value, so the amount goes by a type, which the caller picks in its proof.
    fn split_by<A: Amount>(&self, from: &mut DrawSeat, quota: u32) -> DrawSeat
        requires words { from.old.table ≡ self.now.table }
        requires quota { (quota ≤ from.old.quota) × (quota ≡ A.amount) }
        ensures from { from.new ≡ record from.old { quota = from.old.quota - quota } }
        ensures new { result ≡ record from.old { quota = quota; drawn = [] } }
    {
        let seat = self.table.shared.split_seat::<Moves<A>>(&mut from.seat);
        DrawSeat { seat }
    }

    /// Draws the next count of the nonce, from 1 on, with the nonce's epoch: one `fetch_add` of 1.
    /// It waits for nobody and takes no memory. Whose count comes next among several seats is free.
    pub fn draw(&self, seat: &mut DrawSeat, nonce: u32) -> Drawn
        requires words { seat.old.table ≡ self.now.table }
        requires quota { 0 < seat.old.quota }
        requires nonce { (0 < nonce) × (nonce ≤ self.now.nonces) }
        ensures seat { seat.new
            ≡ record seat.old {
              quota = seat.old.quota - 1;
              drawn = seat.old.drawn
                  ++ record { nonce = nonce; count = result.count; epoch = result.epoch } ∷ [];
            } }
        ensures count { (0 < result.count) × (result.count ≤ 2 ^ 30) }
        ensures epoch { epoch_at seat.old.known nonce ≤ result.epoch }
    {
        let word = self
            .table
            .shared
            .fetch_add::<Draws>(&mut seat.seat, nonce as usize, 1);
        Drawn {
            count: (word % (1 << 32)) as u32 + 1,
            epoch: (word / (1 << 32)) as u32,
        }
    }

    /// Begins a new epoch of the nonce, whose count goes on: one `fetch_add` of 2^32. A seat
    /// retires fewer than 2^31 times before that, over all nonces, so that no epoch carries out of
    /// its word.
    pub fn retire(&self, seat: &mut BookSeat, nonce: u32)
        requires words { seat.old.table ≡ self.now.table }
        requires retirements { sum seat.old.made < 2 ^ 31 }
        requires nonce { (0 < nonce) × (nonce ≤ self.now.nonces) }
        ensures words { seat.new.table ≡ seat.old.table }
        ensures retirements { sum seat.new.made ≡ sum seat.old.made + 1 }
        ensures nonce { epoch_at seat.new.made nonce ≡ epoch_at seat.old.made nonce + 1 }
        ensures others { (n : ℕ) → n ≢ nonce → epoch_at seat.new.made n ≡ epoch_at seat.old.made n }
    {
        self.table
            .shared
            .fetch_add::<Retires>(&mut seat.seat, nonce as usize, 1 << 32);
    }

    /// Joins a seat into another, which then has the quota and the draws of both, and knows of each
    /// nonce the greater epoch.
    pub fn join(&self, into: &mut DrawSeat, from: DrawSeat)
        requires words { (into.old.table ≡ self.now.table) × (from.table ≡ self.now.table) }
        ensures words { into.new.table ≡ into.old.table }
        ensures quota { into.new.quota ≡ into.old.quota + from.quota }
        ensures drawn { into.new.drawn ≡ into.old.drawn ++ from.drawn }
        ensures known { (n : ℕ) → epoch_at into.new.known n
            ≡ max (epoch_at into.old.known n) (epoch_at from.known n) }
    {
        let DrawSeat { seat } = from;
        self.table.shared.join_seat::<Joins>(&mut into.seat, seat);
    }

    /// Ends the words. All other drawing seats were joined into this one: its quota and its draws
    /// are 2^30 together.
    pub fn close(self, book: BookSeat, seat: DrawSeat)
        requires words { (book.table ≡ self.table) × (seat.table ≡ self.table) }
        requires all { seat.quota + length seat.drawn ≡ 2 ^ 30 }
        ensures { IsFresh seat.drawn (epoch_at book.made) }
    {
        let BookSeat { seat: mut last } = book;
        let DrawSeat { seat } = seat;
        self.table.shared.join_seat::<Joins>(&mut last, seat);
        let NonceWords { table, nonces: _ } = self;
        table.close_with(last).free();
    }
}
