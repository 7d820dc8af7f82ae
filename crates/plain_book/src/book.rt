//! A book that finds every reply by going over its journal. It is the definitions' plain program,
//! and other books are held against the same clauses.

use crate::nonces::retired;
use crate::reply::{is_pending, reply_to};
use auth_events::{Call, Controller, Did, Entry, Gift, Journal, Ledger, Names, TermsRef};
use auth_text::{Identity, NoMemory};
use spaces::{Roster, Space, Terms};
use std::alloc::Global;

/// A book that finds every reply by going over its journal.
#[derive(Drop)]
pub struct PlainBook {
    ledger: Ledger,
}

impl PlainBook {
    ghost use Rattle.std.specs.Prelude.{◌≡◌, ◌≤◌, ◌++◌, ◌∷◌, [], length, reverse, IsTrue, IfOk};
    ghost use Rattle.std.specs.Prelude.{if◌then◌else◌};
    ghost use Rattle.auth_events.specs.Tables.{no_names};
    ghost use Rattle.auth_events.specs.Book as Book;
    ghost use Rattle.auth_events.specs.Told.{is_pending, journal, names_told};

    /// A book with no entries and no names, which takes the journal's room at once.
    pub fn new(alloc: Global, roster: &Roster) -> Result<PlainBook, NoMemory>
        requires { length roster.now.requests ≤ 2048 }
        ensures roster { IfOk result (λ book. ⟦<PlainBook as Controller>⟧.roster book
            ≡ roster.now) }
        ensures names { IfOk result (λ book. ⟦<PlainBook as Controller>⟧.names book ≡ no_names) }
        ensures told { IfOk result (λ book. ⟦<PlainBook as Controller>⟧.told book ≡ []) }
    {
        let ledger = Ledger::new(alloc, roster)?;
        Ok(PlainBook { ledger })
    }

    /// What it was opened with and what it recorded: its roster, its names and its journal.
    pub fn into_parts(self) -> (Roster, Names, Journal)
        ensures roster { result.0 ≡ ⟦<PlainBook as Controller>⟧.roster self }
        ensures names { result.1 ≡ names_told (⟦<PlainBook as Controller>⟧.told self) }
        ensures entries { result.2.entries ≡ journal (⟦<PlainBook as Controller>⟧.told self) }
        ensures requests { result.2.requests
            ≡ length (⟦<PlainBook as Controller>⟧.roster self).requests }
    {
        self.ledger.into_parts()
    }

    /// Answers the call. It takes no memory.
    fn answer_call(&mut self, caller: u32, request: u32, call: Call) -> Did
        requires { IsTrue (Book.allowed self.old.ledger.roster self.old.ledger.names
            (reverse self.old.ledger.journal.entries) caller request call) }
        ensures reply { result.reply ≡ Book.answer self.old.ledger.roster self.old.ledger.names
            (reverse self.old.ledger.journal.entries) request call }
        ensures journal { self.new.ledger.journal.entries
            ≡ (if is_pending result.reply then self.old.ledger.journal.entries
            else self.old.ledger.journal.entries ++ record {
              caller = caller;
              request = request;
              call = call;
              reply = result.reply;
            } ∷ []) }
        ensures retired { result.retired ≡ (if is_pending result.reply then 0
            else Book.retired self.old.ledger.names (record {
              caller = caller;
              request = request;
              call = call;
              reply = result.reply;
            }) (reverse self.old.ledger.journal.entries)) }
        ensures roster { self.new.ledger.roster ≡ self.old.ledger.roster }
        ensures names { self.new.ledger.names ≡ self.old.ledger.names }
        ensures made { self.new.ledger.made ≡ self.old.ledger.made }
    {
        let reply = reply_to(
            self.ledger.roster(),
            self.ledger.names(),
            self.ledger.entries(),
            request,
            call,
        );
        if is_pending(reply) {
            return Did { reply, retired: 0 };
        }
        let entry = Entry {
            caller,
            request,
            call,
            reply,
        };
        let retired = retired(self.ledger.names(), self.ledger.entries(), &entry);
        self.ledger.append(entry);
        Did { reply, retired }
    }
}

impl Controller for PlainBook {
    ghost use Rattle.std.proofs.Common.{sym, subst, ap, ◌∙◌};
    ghost use Rattle.std.proofs.Math.Logic.{∥∥₁_elim};
    ghost use Rattle.auth_events.specs.Ledgers.{told_of};
    ghost use Rattle.auth_events.proofs.LedgerLaws.{legal, legal_throughout, no_draw, told_names};
    ghost use Rattle.auth_events.proofs.LedgerLaws.{are_names, few};

    ghost roster = { λ book. book.ledger.roster };

    ghost told = { λ book.
        told_of book.ledger.names book.ledger.made.items book.ledger.journal.entries };

    ghost names = { λ book. book.ledger.names };

    ghost legal = { λ book. legal book.ledger.roster
        book.ledger.names book.ledger.made.items book.ledger.journal.entries book.ledger.kept };

    ghost legal_throughout = { λ book. legal_throughout book.ledger.roster
        book.ledger.names book.ledger.made.items book.ledger.journal.entries book.ledger.kept };

    ghost no_draw = { λ book. no_draw book.ledger.roster
        book.ledger.names book.ledger.made.items book.ledger.journal.entries book.ledger.kept };

    ghost told_names = { λ book. told_names book.ledger.roster
        book.ledger.names book.ledger.made.items book.ledger.journal.entries book.ledger.kept };

    ghost are_names = { λ book. are_names book.ledger.roster
        book.ledger.names book.ledger.made.items book.ledger.journal.entries book.ledger.kept };

    ghost few = { λ book. few book.ledger.roster
        book.ledger.names book.ledger.made.items book.ledger.journal.entries book.ledger.kept };

    fn call(&mut self, caller: u32, request: u32, call: Call) -> Did {
        self.answer_call(caller, request, call)
    }

    fn space_no(&mut self, caller: u32, space: &Space) -> Result<u32, NoMemory> {
        self.ledger.space_no(caller, space)
    }

    fn terms_no(&mut self, caller: u32, space: u32, terms: &Terms) -> Result<TermsRef, NoMemory> {
        self.ledger.terms_no(caller, space, terms)
    }

    fn text_no(&mut self, caller: u32, identity: &Identity) -> Result<u32, NoMemory> {
        self.ledger.text_no(caller, identity)
    }

    fn identity_of(&self, gift: Gift) -> Result<Identity, NoMemory> {
        self.ledger.identity_of(gift)
    }

    fn terms_of(&self, terms: u32) -> Result<(Terms, u32), NoMemory> {
        self.ledger.terms_of(terms)
    }

    fn space_of(&self, space: u32) -> Result<Space, NoMemory> {
        self.ledger.space_of(space)
    }

    fn journal(&self) -> &Journal {
        self.ledger.journal()
    }

    fn names(&self) -> &Names {
        self.ledger.names()
    }
}
