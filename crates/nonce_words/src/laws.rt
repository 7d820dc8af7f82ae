//! What holds of the words and their seats together: a drawing seat can be told the epochs that the
//! book's seat made, and threads may share the words and pass the seats on.

ghost use Rattle.std.specs.Prelude.{◌≡◌, ℕ, max};
ghost use Rattle.nonce_words.specs.Views.{epoch_at};

use crate::rule::{Joins, Notes};
use crate::seats::{BookSeat, DrawSeat};
use crate::words::NonceWords;

/// Joins a note of the epochs that the book's seat made into a drawing seat. Each later draw of the
/// seat then has at least these epochs.
pub fn inform(words: &NonceWords, book: &mut BookSeat, seat: &mut DrawSeat)
    requires words { (book.old.table ≡ words.now.table) × (seat.old.table ≡ words.now.table) }
    ensures book { book.new ≡ book.old }
    ensures seat { (seat.new.table ≡ seat.old.table)
        × (seat.new.quota ≡ seat.old.quota) × (seat.new.drawn ≡ seat.old.drawn) }
    ensures known { (n : ℕ)
        → epoch_at seat.new.known n ≡ max (epoch_at seat.old.known n) (epoch_at book.old.made n) }
{
    let note = words.table.shared.split_seat::<Notes>(&mut book.seat);
    words.table.shared.join_seat::<Joins>(&mut seat.seat, note);
}

fn is_shared<T: Send + Sync>() {}

fn is_sent<T: Send>() {}

/// Threads may share the words, and a seat may go to another thread.
pub fn cross_threads() {
    is_shared::<NonceWords>();
    is_sent::<BookSeat>();
    is_sent::<DrawSeat>();
}
