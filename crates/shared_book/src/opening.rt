//! How a shared book is opened: the words, the lock round the book, and a caller for each pass; and
//! how it is closed again.

ghost use Rattle.std.specs.Prelude.{◌≡◌, ℕ, ◌+◌, ◌*◌, ◌^◌, ◌≤◌, ◌++◌, ◌∷◌, [], All, List, IfErr};
ghost use Rattle.std.specs.Prelude.{IfOk, length, vec_capacity, vec_len};
ghost use Rattle.nonce_words.specs.Fresh.{IsFresh};
ghost use Rattle.turnstile.specs.Passes.{AreNewPasses, IsOf};
ghost use Rattle.auth_events.specs.Book.{IsLegal, epoch};
ghost use Rattle.auth_events.specs.Told.{journal, past};
ghost use Rattle.book_laws.specs.Owners.{IsOwned};
ghost use Rattle.isolation.specs.Partitions.{alone_in};
ghost use Rattle.shared_book.specs.Callers.{AreNewCallers, IsCallerOf, IsKnown, drawn_by};
ghost use Rattle.shared_book.specs.Opening.{AreHired, IsJoined, IsShare};

use crate::bell::Bell;
use crate::caller::Caller;
use crate::callers::Callers;
use crate::locked::Locked;
use crate::room::Room;
use crate::shared::{NotShared, SharedBook};
use auth_events::Controller;
use isolation::journal_is_alone_in_each_partition;
use nonce_words::{DrawSeat, NonceWords};
use std::alloc::Global;
use std::sync::Mutex;
use turnstile::{NotMade, Passes, Turnstile};

// A share of the draws for each caller.
fn share(
    words: &NonceWords,
    spare: &mut DrawSeat,
    callers: u32,
    mut seats: Vec<DrawSeat>,
) -> Vec<DrawSeat>
    requires words { spare.old.table ≡ words.now.table }
    requires spare { (spare.old.drawn ≡ []) × (callers * 2 ^ 20 ≤ spare.old.quota) }
    requires room { (vec_len seats ≡ 0) × (callers ≤ vec_capacity seats) }
    ensures spare { (spare.new.table ≡ spare.old.table) × (spare.new.drawn ≡ [])
        × (spare.new.quota + callers * 2 ^ 20 ≡ spare.old.quota) }
    ensures seats { All (IsShare words.now) result.items }
    ensures len { vec_len result ≡ callers }
{
    for _shared in 0..callers {
        let seat = words.split(spare, 1 << 20);
        seats.push_reserved(seat);
    }
    seats
}

// A caller for each pass, the last first, with a share of the draws each.
fn hire<B: Controller>(
    turnstile: &Turnstile<Locked<B>>,
    words: &NonceWords,
    mut seats: Vec<DrawSeat>,
    mut passes: Passes<Locked<B>>,
    mut list: Vec<Caller<B>>,
) -> Vec<Caller<B>>
    requires seats { All (IsShare words.now) seats.items }
    requires count { vec_len seats ≡ length passes.list }
    requires few { length passes.list ≤ 16 }
    requires passes { AreNewPasses turnstile.now passes.list }
    requires callers { turnstile.now.fixed.callers ≡ length passes.list }
    requires room { (vec_len list ≡ 0) × (length passes.list ≤ vec_capacity list) }
    ensures hired { AreHired turnstile.now words.now (length passes.list) result.items }
    ensures len { vec_len result ≡ length passes.list }
{
    while let Some(pass) = passes.pop() {
        let Some(seat) = seats.pop() else {
            unreachable!()
        };
        let number = passes.len() as u32 + 1;
        list.push_reserved(Caller { pass, seat, number });
    }
    list
}

// Takes the callers apart: their passes as a list, and their draws joined into one seat.
fn gather<B: Controller>(
    words: &NonceWords,
    first: Caller<B>,
    mut passes: Passes<Locked<B>>,
    mut callers: Vec<Caller<B>>,
) -> (Passes<Locked<B>>, DrawSeat)
    requires first { first.words ≡ words.now.table }
    requires callers { All (λ c. c.words ≡ words.now.table) callers.items }
    requires room { (passes.list ≡ []) × (vec_len callers + 1 ≤ passes.room) }
    ensures joined { IsJoined (callers.items ++ first ∷ []) result.0.list result.1.drawn }
    ensures words { result.1.table ≡ words.now.table }
    ensures quota { result.1.quota + length result.1.drawn ≡ (vec_len callers + 1) * 2 ^ 20 }
    ensures len { length result.0.list ≡ vec_len callers + 1 }
{
    let Caller {
        pass,
        mut seat,
        number: _,
    } = first;
    let Ok(()) = passes.push(pass) else {
        unreachable!()
    };
    while let Some(caller) = callers.pop() {
        let Caller {
            pass,
            seat: other,
            number: _,
        } = caller;
        words.join(&mut seat, other);
        let Ok(()) = passes.push(pass) else {
            unreachable!()
        };
    }
    (passes, seat)
}

impl<B: Controller> SharedBook<B> {
    /// A book that this many callers share. They are numbered from 1, and number 1 is the last of
    /// the list, which `pop` takes out first. The nonces are 16 for each request of the book.
    pub fn new(
        alloc: Global,
        book: B,
        nonces: u32,
        callers: u32,
    ) -> Result<(SharedBook<B>, Callers<B>), NotShared<B>>
        requires callers { (1 ≤ callers) × (callers ≤ 16) }
        requires empty { B.told book ≡ [] }
        requires nonces { (nonces ≡ 16 * length (B.roster book).requests) × (nonces ≤ 32768) }
        ensures roster { IfOk result (λ r. r.0.roster ≡ B.roster book) }
        ensures count { IfOk result (λ r. (r.0.callers ≡ callers) × (r.0.nonces ≡ nonces)) }
        ensures len { IfOk result (λ r. length r.1.list ≡ callers) }
        ensures callers { IfOk result (λ r. AreNewCallers r.0 r.1.list) }
        ensures err { IfErr result (λ e. e.book ≡ book) }
    {
        let Ok(list) = Vec::with_capacity(alloc, callers as usize) else {
            return Err(NotShared { book });
        };
        let Ok(seats) = Vec::with_capacity(alloc, callers as usize) else {
            return Err(NotShared { book });
        };
        let Ok(passes) = Passes::with_capacity(alloc, 16) else {
            return Err(NotShared { book });
        };
        let room = Mutex::new(Room { passes });
        let Ok((words, mark, mut spare)) = NonceWords::new(alloc, nonces) else {
            return Err(NotShared { book });
        };
        let seats = share(&words, &mut spare, callers, seats);
        let locked = Locked {
            book,
            seat: mark,
            spare,
            callers,
        };
        match Turnstile::new(alloc, locked, callers) {
            Ok((turnstile, passes)) => {
                let list = hire(&turnstile, &words, seats, passes, list);
                let shared = SharedBook {
                    turnstile,
                    words,
                    room,
                    bell: Bell::new(),
                    callers,
                };
                Ok((shared, Callers { list }))
            }
            Err(refused) => {
                let NotMade { state } = refused;
                let Locked {
                    book,
                    seat: _,
                    spare: _,
                    callers: _,
                } = state;
                Err(NotShared { book })
            }
        }
    }

    /// Gives the book up, once all callers are back. It tells all that any caller has seen, and
    /// each caller's own items are those of its number. Of each nonce the counts that were drawn
    /// are 1 to some number, each once, their epochs don't fall as the counts rise, and none is
    /// above the journal's. What each partition has alone of the journal is legal by itself.
    pub fn close(self, callers: Callers<B>) -> B
        requires all { length callers.list ≡ self.callers }
        requires callers { All (IsCallerOf self) callers.list }
        ensures known { All (IsKnown (B.told result)) callers.list }
        ensures owned { IsOwned self.callers (B.told result) }
        ensures roster { B.roster result ≡ self.roster }
        ensures fresh { IsFresh (drawn_by callers.list)
            (epoch (B.names result) (past (B.told result))) }
        ensures few { length (drawn_by callers.list) ≤ 2 ^ 30 }
        ensures alone { (partition : List ℕ) → IsLegal (B.roster result) (B.names result)
            (alone_in (B.roster result) partition (journal (B.told result))) }
    {
        let SharedBook {
            turnstile,
            words,
            room,
            bell: _,
            callers: _,
        } = self;
        let Callers { mut list } = callers;
        let Some(first) = list.pop() else {
            unreachable!()
        };
        let Room { passes } = room.into_inner();
        let (passes, seat) = gather(&words, first, passes, list);
        let Locked {
            book,
            seat: mark,
            mut spare,
            callers: _,
        } = turnstile.close(passes);
        words.join(&mut spare, seat);
        words.close(mark, spare);
        journal_is_alone_in_each_partition(&book);
        book
    }
}
