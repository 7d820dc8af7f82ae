//! The shared book: each call of a caller is one turn, and each draw is one step on a word without
//! a turn.

ghost use Rattle.std.specs.Prelude.{false, ◌≡◌, ℕ, ◌-◌, ◌<◌, ◌≤◌, ◌++◌, ◌∷◌, [], IsTrue, IfOk};
ghost use Rattle.std.specs.Prelude.{OnErr, OnOk};
ghost use mathlib.Core.List.{IsPrefix};
ghost use Rattle.auth_events.specs.Book.{allowed, epoch};
ghost use Rattle.auth_events.specs.Told.{is_pending, names_told, past};
ghost use Rattle.auth_events.specs.declared.journal.Call.TheVariants.{Take};
ghost use Rattle.book_laws.specs.Owners.{owner};
ghost use Rattle.shared_book.specs.Callers.{HadTurn, HasDrawn, HasNamed, IsAllowed, IsBookOf};
ghost use Rattle.shared_book.specs.Callers.{IsCallerOf, IsSameCaller, epoch_seen};

use crate::bell::Bell;
use crate::caller::Caller;
use crate::locked::Locked;
use crate::namings::Naming;
use crate::readings::Reading;
use crate::room::Room;
use auth_events::{BookReply, Call, Controller, Drawn};
use auth_text::NoMemory;
use nonce_words::NonceWords;
use std::marker::Model;
use std::sync::{Mutex, Wait};
use turnstile::Turnstile;

/// There was no memory. The book comes back as it was.
#[derive(Drop)]
pub struct NotShared<B> {
    pub book: B,
}

/// A book that many callers call. Threads share it by reference.
pub struct SharedBook<B: Controller> {
    pub(crate) turnstile: Turnstile<Locked<B>>,
    pub(crate) words: NonceWords,
    // For the callers' passes, when the book is closed. It lies under a lock so that threads may
    // share the shared book where the book in it may only be sent.
    pub(crate) room: Mutex<Room<B>>,
    pub(crate) bell: Bell,
    pub(crate) callers: u32,
}

impl<B: Controller> Model for SharedBook<B> {
    ghost use Rattle.std.specs.Prelude.{◌≡◌, ◌*◌, ◌≤◌, length};
    ghost use Rattle.shared_book.specs.Callers.{SharedView, fixed_of, shown};

    ghost Value = { SharedView };

    ghost view = { λ s. shown s.turnstile s.words s.callers };

    ghost invariant = { λ s. (s.turnstile.fixed ≡ fixed_of (shown s.turnstile s.words s.callers))
        × (s.words.nonces ≡ 16 * length s.turnstile.fixed.roster.requests)
        × (s.turnstile.passes ≡ s.callers)
        × (1 ≤ s.callers)
        × (s.callers ≤ 16) };
}

// Whether the call ends a prompt.
fn ends_prompt(call: Call) -> bool {
    matches!(call, Call::Answer { .. } | Call::Lose { .. })
}

fn is_pending(reply: BookReply) -> bool
    ensures { result ≡ is_pending reply }
{
    matches!(reply, BookReply::Pending)
}

impl<B: Controller> SharedBook<B> {
    /// One call, in one turn. The caller has then seen all that was told up to its own entry.
    pub fn call<R: Wait>(
        &self,
        rt: &R,
        caller: Caller<B>,
        request: u32,
        call: Call,
    ) -> (Caller<B>, BookReply)
        requires caller { IsCallerOf self.now caller }
        requires own { caller.number ≡ owner self.now.callers request }
        requires allowed { IsAllowed self.now caller request call }
        ensures caller { IsCallerOf self.now result.0 }
        ensures turn { HadTurn self.now.roster caller result.0 request call result.1 }
        ensures same { IsSameCaller caller result.0 }
    {
        let Caller {
            pass,
            mut seat,
            number,
        } = caller;
        let (locked, inside) = self.turnstile.enter(rt, pass);
        let (locked, reply) = locked.call(&self.words, &mut seat, number, request, call);
        let pass = self.turnstile.leave(inside, locked);
        if ends_prompt(call) {
            self.bell.ring(rt);
        }
        (Caller { pass, seat, number }, reply)
    }

    /// One reading, in one turn. It is of a book that tells what the caller has then seen.
    pub fn read<R: Wait, L: Reading<B>>(
        &self,
        rt: &R,
        caller: Caller<B>,
        reading: &L,
    ) -> (Caller<B>, L::Found)
        requires caller { IsCallerOf self.now caller }
        requires needs { (book : B) → IsBookOf self.now caller (B.roster book) (B.told book)
            → L.needs reading.now book }
        ensures caller { IsCallerOf self.now result.0 }
        ensures found { (book : B) × IsBookOf self.now caller (B.roster book) (B.told book)
            × (B.told book ≡ result.0.seen) × L.is_found reading.now book result.1 }
        ensures seen { IsPrefix caller.seen result.0.seen }
        ensures mine { result.0.mine ≡ caller.mine }
        ensures same { IsSameCaller caller result.0 }
    {
        let Caller {
            pass,
            mut seat,
            number,
        } = caller;
        let (locked, inside) = self.turnstile.enter(rt, pass);
        let (locked, found) = locked.read(&self.words, &mut seat, reading);
        let pass = self.turnstile.leave(inside, locked);
        (Caller { pass, seat, number }, found)
    }

    /// One naming, in one turn. A new name is an item of the caller. An `Err` names nothing.
    pub(crate) fn name<R: Wait, N: Naming<B>>(
        &self,
        rt: &R,
        caller: Caller<B>,
        naming: &N,
    ) -> (Caller<B>, Result<N::Number, NoMemory>)
        requires caller { IsCallerOf self.now caller }
        requires needs { (book : B) → IsBookOf self.now caller (B.roster book) (B.told book)
            → N.needs naming.now book caller.number }
        ensures caller { IsCallerOf self.now result.0 }
        ensures number { IfOk result.1 (N.is_number naming.now (names_told result.0.seen)) }
        ensures named { OnOk result.1 (HasNamed (N.news naming.now caller.number) caller result.0) }
        ensures mine_err { OnErr result.1 (result.0.mine ≡ caller.mine) }
        ensures seen { IsPrefix caller.seen result.0.seen }
        ensures same { IsSameCaller caller result.0 }
    {
        let Caller {
            pass,
            mut seat,
            number,
        } = caller;
        let (locked, inside) = self.turnstile.enter(rt, pass);
        let (locked, named) = locked.name(&self.words, &mut seat, number, naming);
        let pass = self.turnstile.leave(inside, locked);
        (Caller { pass, seat, number }, named)
    }

    /// One draw, without a turn. It waits for nobody and takes no memory.
    pub fn draw(&self, caller: &mut Caller<B>, nonce: u32) -> Drawn
        requires caller { IsCallerOf self.now caller.old }
        requires quota { 0 < caller.old.quota }
        requires nonce { (1 ≤ nonce) × (nonce ≤ self.now.nonces) }
        ensures caller { HasDrawn caller.old caller.new
            (record { nonce = nonce; count = result.count; epoch = result.epoch }) }
        ensures epoch { epoch_seen caller.old nonce ≤ result.epoch }
    {
        self.words.draw(&mut caller.seat, nonce)
    }

    /// Takes the prompt's answer, once it has one. Between its turns it sleeps until some prompt is
    /// answered or lost.
    pub fn wait_answer<R: Wait>(
        &self,
        rt: &R,
        mut caller: Caller<B>,
        request: u32,
        prompt: u32,
    ) -> (Caller<B>, BookReply)
        requires caller { IsCallerOf self.now caller }
        requires own { caller.number ≡ owner self.now.callers request }
        requires allowed { IsAllowed self.now caller request (Take prompt) }
        ensures caller { IsCallerOf self.now result.0 }
        ensures turn { HadTurn self.now.roster caller result.0 request (Take prompt) result.1 }
        ensures answered { is_pending result.1 ≡ false }
        ensures same { IsSameCaller caller result.0 }
    {
        for _ in rt.forever() {
            let heard = self.bell.heard(rt);
            let (back, reply) = self.call(rt, caller, request, Call::Take { prompt });
            if !is_pending(reply) {
                return (back, reply);
            }
            caller = back;
            self.bell.sleep(rt, heard);
        }
        unreachable!()
    }
}
