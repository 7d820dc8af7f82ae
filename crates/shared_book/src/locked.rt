//! What lies behind the turn lock: the book, and the seat that retires the nonces that it takes
//! out. What is done in one turn is done here, by methods that take the whole and give it back.

ghost use Rattle.std.specs.Prelude.{◌≡◌, ℕ, ◌+◌, ◌*◌, ◌^◌, ◌<◌, ◌≤◌, ◌==◌, if◌then◌else◌, IsTrue};
ghost use Rattle.std.specs.Prelude.{IfOk, OnErr, OnOk, [], ◌++◌, length, sum};
ghost use Rattle.nonce_words.specs.Views.{epoch_at};
ghost use Rattle.auth_events.specs.Book.{allowed, answer, epoch};
ghost use Rattle.auth_events.specs.Told.{journal, past, told_after};
ghost use Rattle.book_laws.specs.Owners.{AddsOwn, IsOwned, maker, owner};
ghost use Rattle.book_laws.specs.Shares.{IsWithinShares};
ghost use Rattle.shared_book.specs.Turns.{IsFixed, IsInformed};

use crate::namings::Naming;
use crate::readings::Reading;
use auth_events::{BookReply, Call, Controller, Did, Told as Item};
use auth_text::NoMemory;
use nonce_words::laws::inform;
use nonce_words::{BookSeat, DrawSeat, NonceWords};
use spaces::Roster;
use turnstile::{TableName, Told};

/// What no turn changes: the book's roster, the number of callers, and which words are the book's.
/// No value of it is made.
pub struct Fixed {
    pub roster: Roster,
    pub callers: u32,
    pub words: TableName,
}

/// The book behind the lock, with the seat by which its nonces are retired.
pub struct Locked<B: Controller> {
    pub(crate) book: B,
    pub(crate) seat: BookSeat,
    // The draws that no caller has.
    pub(crate) spare: DrawSeat,
    pub(crate) callers: u32,
    ghost few: { length (B.roster book).requests ≤ 2048 },
    ghost owned: { IsOwned callers (B.told book) },
    ghost epochs: { (n : ℕ) → 0 < n
        → epoch_at seat.made n ≡ epoch (B.names book) (past (B.told book)) n },
    ghost counted: { sum seat.made ≤ length (journal (B.told book)) },
    ghost shares: { IsWithinShares (B.told book) },
    ghost rest: { (spare.table ≡ seat.table) × (spare.drawn ≡ [])
        × (spare.quota + callers * 2 ^ 20 ≡ 2 ^ 30) },
}

impl<B: Controller> Told for Locked<B> {
    ghost use Rattle.turnstile.specs.Names.{name_of};

    type Item = Item;

    type Fixed = Fixed;

    ghost items = { λ s. B.told s.book };

    ghost by = { maker };

    ghost fixed = { λ s. record {
      roster = B.roster s.book;
      callers = s.callers;
      words = name_of s.seat.table;
    } };

    fn length(&self) -> u32 {
        let names = self.book.names();
        let entries = self.book.journal().entries().len();
        entries as u32 + names.spaces_len() + names.terms_len() + names.texts_len()
    }
}

// Retires the nonce, unless it is 0.
fn retire_some(words: &NonceWords, mark: &mut BookSeat, retired: u32)
    requires words { mark.old.table ≡ words.now.table }
    requires few { sum mark.old.made < 2 ^ 31 }
    requires within { retired ≤ words.now.nonces }
    ensures words { mark.new.table ≡ mark.old.table }
    ensures one { sum mark.new.made ≡ sum mark.old.made + (if retired == 0 then 0 else 1) }
    ensures made { (n : ℕ) → 0 < n → epoch_at mark.new.made n
        ≡ epoch_at mark.old.made n + (if retired == n then 1 else 0) }
{
    if retired != 0 {
        words.retire(mark, retired);
    }
}

impl<B: Controller> Locked<B> {
    /// One call: the book's entry, the retirement that it causes, and the note of the epochs.
    pub(crate) fn call(
        self,
        words: &NonceWords,
        seat: &mut DrawSeat,
        caller: u32,
        request: u32,
        call: Call,
    ) -> (Locked<B>, BookReply)
        requires words { (self.seat.table ≡ words.now.table) × (seat.old.table ≡ words.now.table) }
        requires nonces { words.now.nonces ≡ 16 * length (B.roster self.book).requests }
        requires own { caller ≡ owner self.callers request }
        requires allowed { IsTrue (allowed (B.roster self.book) (B.names self.book)
            (past (B.told self.book)) caller request call) }
        ensures reply { result.1 ≡ answer
            (B.roster self.book) (B.names self.book) (past (B.told self.book)) request call }
        ensures told { B.told result.0.book ≡ told_after (B.told self.book)
            (record { caller = caller; request = request; call = call; reply = result.1 }) }
        ensures roster { B.roster result.0.book ≡ B.roster self.book }
        ensures fixed { IsFixed self.callers self.seat.table result.0.callers result.0.seat.table }
        ensures seat { IsInformed seat.old seat.new }
        ensures knows { (n : ℕ) → 0 < n
            → epoch (B.names result.0.book) (past (B.told result.0.book)) n
            ≤ epoch_at seat.new.known n }
    {
        let Locked {
            mut book,
            seat: mut mark,
            spare,
            callers,
        } = self;
        let _entries = book.journal().entries();
        let Did { reply, retired } = book.call(caller, request, call);
        retire_some(words, &mut mark, retired);
        inform(words, &mut mark, seat);
        (
            Locked {
                book,
                seat: mark,
                spare,
                callers,
            },
            reply,
        )
    }

    /// One reading, and the note of the epochs.
    pub(crate) fn read<L: Reading<B>>(
        self,
        words: &NonceWords,
        seat: &mut DrawSeat,
        reading: &L,
    ) -> (Locked<B>, L::Found)
        requires words { (self.seat.table ≡ words.now.table) × (seat.old.table ≡ words.now.table) }
        requires needs { L.needs reading.now self.book }
        ensures found { L.is_found reading.now self.book result.1 }
        ensures book { result.0.book ≡ self.book }
        ensures fixed { IsFixed self.callers self.seat.table result.0.callers result.0.seat.table }
        ensures seat { IsInformed seat.old seat.new }
        ensures knows { (n : ℕ) → 0 < n
            → epoch (B.names self.book) (past (B.told self.book)) n ≤ epoch_at seat.new.known n }
    {
        let Locked {
            book,
            seat: mut mark,
            spare,
            callers,
        } = self;
        let found = reading.read(&book);
        inform(words, &mut mark, seat);
        (
            Locked {
                book,
                seat: mark,
                spare,
                callers,
            },
            found,
        )
    }

    /// One naming, and the note of the epochs. An `Err` changes nothing.
    pub(crate) fn name<N: Naming<B>>(
        self,
        words: &NonceWords,
        seat: &mut DrawSeat,
        caller: u32,
        naming: &N,
    ) -> (Locked<B>, Result<N::Number, NoMemory>)
        requires words { (self.seat.table ≡ words.now.table) × (seat.old.table ≡ words.now.table) }
        requires caller { (1 ≤ caller) × (caller ≤ self.callers) }
        requires needs { N.needs naming.now self.book caller }
        ensures number { IfOk result.1 (N.is_number naming.now (B.names result.0.book)) }
        ensures told { OnOk result.1 (B.told result.0.book
            ≡ B.told self.book ++ N.news naming.now caller (B.names self.book)) }
        ensures told_err { OnErr result.1 (B.told result.0.book ≡ B.told self.book) }
        ensures adds { AddsOwn caller (B.told self.book) (B.told result.0.book) }
        ensures roster { B.roster result.0.book ≡ B.roster self.book }
        ensures fixed { IsFixed self.callers self.seat.table result.0.callers result.0.seat.table }
        ensures seat { IsInformed seat.old seat.new }
        ensures knows { (n : ℕ) → 0 < n
            → epoch (B.names result.0.book) (past (B.told result.0.book)) n
            ≤ epoch_at seat.new.known n }
    {
        let Locked {
            mut book,
            seat: mut mark,
            spare,
            callers,
        } = self;
        let _entries = book.journal().entries();
        let number = naming.name(&mut book, caller);
        inform(words, &mut mark, seat);
        (
            Locked {
                book,
                seat: mark,
                spare,
                callers,
            },
            number,
        )
    }
}
