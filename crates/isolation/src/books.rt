//! What holds of each book of credentials, whatever it finds its replies by.

ghost use Rattle.std.specs.Prelude.{ℕ, List};
ghost use Rattle.auth_events.specs.Book.{IsLegal};
ghost use Rattle.auth_events.specs.Told.{journal};
ghost use Rattle.isolation.specs.Partitions.{alone_in};

use auth_events::Controller;

/// What each partition has alone of a book's journal is legal by itself, under the book's
/// roster and names.
pub fn journal_is_alone_in_each_partition<B: Controller>(book: &B)
    ensures { (partition : List ℕ)
        → IsLegal (B.roster book.now) (B.names book.now)
        (alone_in (B.roster book.now) partition (journal (B.told book.now))) }
{}
