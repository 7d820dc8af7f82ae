//! The index decides a call: its reply is read off the index, and then each part of the index is
//! told the entry. The journal isn't at hand.

ghost use Rattle.std.specs.Prelude.{◌≡◌, ℕ, IsTrue, List, length};
ghost use Rattle.auth_events.specs.declared.journal.Entry.{Entry};
ghost use Rattle.auth_events.specs.Book as Book;
ghost use Rattle.auth_events.specs.Told.{is_pending, retired_by};
ghost use Rattle.auth_book.specs.Indices.{StandsFor};
ghost use Rattle.auth_book.specs.Fits.{AreOfBook, CacheFits, CanTell, MayDecide, PathsFit, made};
ghost use Rattle.auth_book.specs.Fits.{past_after};
ghost use Rattle.auth_book.specs.Steps.{IsTold, nonce_out, parts_by_row, retired_in};
ghost use Rattle.auth_book.specs.Parts.{notes_at};
ghost use Rattle.auth_book.specs.Replies.{entries_in, part_in};
ghost use Rattle.auth_cache.specs.Histories.{change};
ghost use Rattle.spaces.specs.Sites.{numbered};

use crate::index::BookIndex;
use crate::tells::{
    retired, space_about, tell_epochs, tell_led, tell_prompts, tell_request, tell_spaces,
};
use auth_events::{BookReply, Call, Did, Names};
use spaces::Roster;

pub fn is_pending(reply: BookReply) -> bool
    ensures { result ≡ is_pending reply }
{
    matches!(reply, BookReply::Pending)
}

impl BookIndex {
    /// The nonce that an entry about the space takes out of a live space, or 0.
    fn retired(&self, names: &Names, space: u32, call: Call, reply: BookReply) -> u32
        ensures { result ≡ nonce_out names.now (change call reply) (entries_in self.now space) }
    {
        match self.part(space) {
            Some(part) => retired(names, &part.cache, call, reply),
            None => 0,
        }
    }

    /// Tells the record of the space's partition an entry about that space.
    fn tell_part(
        &mut self,
        roster: &Roster,
        names: &Names,
        space: u32,
        request: u32,
        call: Call,
        reply: BookReply,
    )
        requires cache { CacheFits call reply (entries_in self.old space) }
        requires paths { PathsFit roster.now request call reply
            (notes_at (part_in self.old space)) }
        ensures { self.new ≡ record self.old {
          partitions = parts_by_row roster.now names.now
              request call reply self.old.partitions (numbered self.old.spaces.items space);
        } }
    {
        if let Some(row) = self.spaces.get(space) {
            self.partitions.tell(row.partition, roster, names, row.site, request, call, reply);
        }
    }

    /// Tells each part of the index the entry, and answers the nonce that it retires, or 0.
    fn tell(
        &mut self,
        roster: &Roster,
        names: &Names,
        request: u32,
        call: Call,
        reply: BookReply,
    ) -> u32
        requires { CanTell roster.now request call reply self.old }
        ensures told { IsTold roster.now names.now request call reply self.old self.new }
        ensures retired { result ≡ retired_in names.now call reply self.old }
    {
        let space = space_about(call, reply);
        let out = self.retired(names, space, call, reply);
        self.tell_part(roster, names, space, request, call, reply);
        tell_prompts(&mut self.prompts, request, call, reply);
        tell_spaces(&mut self.spaces, reply);
        tell_led(&mut self.led, call, reply);
        tell_request(&mut self.requests, names, request, call, reply);
        tell_epochs(&mut self.epochs, out);
        out
    }

    /// Decides the call. It takes no memory. For every legal history that the index stands for and
    /// on which the call may be made, the reply is the book's, and the index then stands for the
    /// history with this entry.
    pub fn decide(&mut self, roster: &Roster, names: &Names, request: u32, call: Call) -> Did
        requires book { AreOfBook roster.now names.now }
        requires may { ∥ MayDecide self.old roster.now names.now request call ∥₁ }
        ensures reply { (past : List Entry) (caller : ℕ)
            → Book.IsLegalPast roster.now names.now past
            → StandsFor self.old roster.now names.now past
            → IsTrue (Book.allowed roster.now names.now past caller request call)
            → result.reply ≡ Book.answer roster.now names.now past request call }
        ensures retired { (past : List Entry) (caller : ℕ)
            → Book.IsLegalPast roster.now names.now past
            → StandsFor self.old roster.now names.now past
            → IsTrue (Book.allowed roster.now names.now past caller request call)
            → result.retired ≡ retired_by names.now past (made caller request call result.reply) }
        ensures stands { (past : List Entry) (caller : ℕ)
            → Book.IsLegalPast roster.now names.now past
            → StandsFor self.old roster.now names.now past
            → IsTrue (Book.allowed roster.now names.now past caller request call)
            → StandsFor self.new roster.now names.now
            (past_after past (made caller request call result.reply)) }
        ensures rows { length self.new.spaces.items ≡ length self.old.spaces.items }
    {
        let reply = self.reply(roster, names, request, call);
        if is_pending(reply) {
            return Did { reply, retired: 0 };
        }
        let retired = self.tell(roster, names, request, call, reply);
        Did { reply, retired }
    }
}
