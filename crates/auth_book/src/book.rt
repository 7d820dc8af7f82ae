//! A book that records in a ledger, and decides by its index. The journal is kept for those who
//! read it; no reply is looked for in it, and no name among the names: their numbers are found in
//! maps.

ghost use Rattle.std.specs.Prelude.{◌≡◌, ◌≤◌, ◌<◌, ◌*◌, IsTrue, Some, is_some, length, option_map};
ghost use Rattle.std.specs.Prelude.{reverse};
ghost use Rattle.spaces.specs.Sites.{numbered};
ghost use Rattle.gift_log.specs.Gifts.{givings_of};
ghost use Rattle.auth_book.specs.Indices.{StandsFor};
ghost use Rattle.name_index.specs.Found.{KnowsNames};
ghost use Rattle.name_index.proofs.Knowing.{KnowsNames-prop};

use crate::decide::is_pending;
use crate::index::BookIndex;
use auth_events::{Call, Controller, Did, Entry, Gift, Journal, Ledger, Names, TermsRef};
use auth_text::{Identity, NoMemory};
use gift_log::GiftLog;
use name_index::NameIndex;
use spaces::{Roster, Space, Terms, copy_identity};
use std::alloc::Global;

/// A book that decides by its index, and finds names by ordered maps. The index stands for its
/// journal, and the maps know its names.
#[derive(Drop)]
pub struct AuthBook {
    ledger: Ledger,
    index: BookIndex,
    numbers: NameIndex,
    gifts: GiftLog,
    ghost rows: { length index.spaces.items ≡ length ledger.names.spaces },
    ghost stands: { ∥ StandsFor index ledger.roster ledger.names
        (reverse ledger.journal.entries) ∥₁ },
    ghost knows: { KnowsNames numbers ledger.names } by { KnowsNames-prop numbers ledger.names },
    ghost given: { gifts.givings ≡ givings_of ledger.journal.entries },
    ghost room: { 64 * length ledger.roster.requests ≤ gifts.room },
    ghost known: { length ledger.names.spaces < gifts.spaces },
}

/// The number of terms, with that of their nonce.
fn terms_ref(names: &Names, terms: u32) -> TermsRef
    requires { IsTrue (is_some (numbered names.now.terms terms)) }
    ensures terms { result.terms ≡ terms }
    ensures nonce { option_map (λ name. name.nonce) (numbered names.now.terms terms)
        ≡ Some result.nonce }
{
    match names.terms(terms) {
        Some(name) => TermsRef {
            terms,
            nonce: name.nonce,
        },
        None => unreachable!(),
    }
}

impl AuthBook {
    ghost use Rattle.std.specs.Prelude.{◌≡◌, ◌≤◌, ◌++◌, ◌∷◌, [], length, reverse, IsTrue, IfOk};
    ghost use Rattle.std.specs.Prelude.{IfSome, Some, None, OnErr, OnOk, if◌then◌else◌};
    ghost use Rattle.spaces.specs.Sites.{numbered};
    ghost use Rattle.auth_events.specs.Tables.{is_home, no_names, space_number, terms_number};
    ghost use Rattle.auth_events.specs.Tables.{with_new_space};
    ghost use Rattle.auth_events.specs.Book as Book;
    ghost use Rattle.auth_events.specs.Ledgers.{told_of};
    ghost use Rattle.auth_book.specs.Fits.{made};
    ghost use Rattle.auth_events.specs.Told.{MayNameSpace, MayNameTerms, is_pending, journal};
    ghost use Rattle.auth_events.specs.Told.{names_told, told_space, told_terms};

    /// A book with no entries and no names. It takes the journal and the prompts at once; the cache
    /// and the directories of a partition are taken by the first `space_no` in it.
    pub fn new(alloc: Global, roster: &Roster) -> Result<AuthBook, NoMemory>
        requires { length roster.now.requests ≤ 2048 }
        ensures roster { IfOk result (λ book. ⟦<AuthBook as Controller>⟧.roster book ≡ roster.now) }
        ensures names { IfOk result (λ book. ⟦<AuthBook as Controller>⟧.names book ≡ no_names) }
        ensures told { IfOk result (λ book. ⟦<AuthBook as Controller>⟧.told book ≡ []) }
    {
        let ledger = Ledger::new(alloc, roster)?;
        let index = BookIndex::new(alloc, roster)?;
        let numbers = NameIndex::new(alloc);
        let mut gifts = GiftLog::new(alloc, 64 * roster.requests.len() as u32)?;
        gifts.reserve_space(0)?;
        Ok(AuthBook {
            ledger,
            index,
            numbers,
            gifts,
        })
    }

    /// The index, which stands for the journal after every call.
    pub fn index(&self) -> &BookIndex
        ensures index { result.now ≡ self.now.index }
        ensures stands { ∥ StandsFor result.now (⟦<AuthBook as Controller>⟧.roster self.now)
            (⟦<AuthBook as Controller>⟧.names self.now)
            (reverse (journal (⟦<AuthBook as Controller>⟧.told self.now))) ∥₁ }
    {
        &self.index
    }

    /// What it was opened with and what it recorded: its roster, its names and its journal.
    pub fn into_parts(self) -> (Roster, Names, Journal)
        ensures roster { result.0 ≡ ⟦<AuthBook as Controller>⟧.roster self }
        ensures names { result.1 ≡ names_told (⟦<AuthBook as Controller>⟧.told self) }
        ensures entries { result.2.entries ≡ journal (⟦<AuthBook as Controller>⟧.told self) }
        ensures requests { result.2.requests
            ≡ length (⟦<AuthBook as Controller>⟧.roster self).requests }
    {
        self.ledger.into_parts()
    }

    /// Answers the call. It takes no memory.
    fn answer_call(&mut self, caller: u32, request: u32, call: Call) -> Did
        requires { IsTrue (Book.allowed self.old.ledger.roster self.old.ledger.names
            (reverse self.old.ledger.journal.entries) caller request call) }
        ensures reply { result.reply ≡ Book.answer self.old.ledger.roster self.old.ledger.names
            (reverse self.old.ledger.journal.entries) request call }
        ensures journal { self.new.ledger.journal.entries ≡ (if is_pending result.reply
            then self.old.ledger.journal.entries
            else self.old.ledger.journal.entries ++ made caller request call result.reply ∷ []) }
        ensures retired { result.retired ≡ (if is_pending result.reply then 0
            else Book.retired self.old.ledger.names (made caller request call result.reply)
            (reverse self.old.ledger.journal.entries)) }
        ensures roster { self.new.ledger.roster ≡ self.old.ledger.roster }
        ensures names { self.new.ledger.names ≡ self.old.ledger.names }
        ensures made { self.new.ledger.made ≡ self.old.ledger.made }
    {
        let did = self
            .index
            .decide(self.ledger.roster(), self.ledger.names(), request, call);
        if !is_pending(did.reply) {
            let entry = Entry {
                caller,
                request,
                call,
                reply: did.reply,
            };
            self.ledger.append(entry);
            self.gifts.tell(entry);
        }
        did
    }

    /// Names a space that has no number, and gives it its row. An `Err` changes nothing.
    fn name_space(&mut self, caller: u32, space: &Space) -> Result<u32, NoMemory>
        requires may { MayNameSpace self.old.ledger.roster self.old.ledger.names space.now }
        requires new { space_number self.old.ledger.names space.now ≡ None }
        ensures number { IfOk result
            (λ number. numbered self.new.ledger.names.spaces number ≡ Some space.now) }
        ensures told { OnOk result (told_of self.new.ledger.names self.new.ledger.made.items
            self.new.ledger.journal.entries ≡ told_space caller self.old.ledger.names
            (told_of self.old.ledger.names
            self.old.ledger.made.items self.old.ledger.journal.entries) space.now) }
        ensures entries { self.new.ledger.journal ≡ self.old.ledger.journal }
        ensures roster { self.new.ledger.roster ≡ self.old.ledger.roster }
        ensures names { OnErr result (self.new.ledger.names ≡ self.old.ledger.names) }
        ensures made { OnErr result (self.new.ledger.made.items ≡ self.old.ledger.made.items) }
    {
        let next = self.ledger.names().spaces_len() + 1;
        self.index.prepare(next, &space.site().partition)?;
        self.gifts.reserve_space(next)?;
        let site = self.numbers.note_space(self.ledger.names(), space)?;
        let number = self.ledger.name_space(caller, space)?;
        self.index.add_space_at(self.ledger.names(), site);
        Ok(number)
    }

    /// Names terms that have no number. An `Err` changes nothing.
    fn name_terms(&mut self, caller: u32, space: u32, terms: &Terms) -> Result<TermsRef, NoMemory>
        requires home { IsTrue (is_home self.old.ledger.names space terms.now) }
        requires few { MayNameTerms self.old.ledger.roster self.old.ledger.names space terms.now }
        requires new { terms_number self.old.ledger.names space terms.now ≡ None }
        ensures number { IfOk result (λ numbers.
            numbered self.new.ledger.names.terms numbers.terms
            ≡ Some (record { space = space; terms = terms.now; nonce = numbers.nonce })) }
        ensures told { OnOk result (told_of self.new.ledger.names self.new.ledger.made.items
            self.new.ledger.journal.entries ≡ told_terms caller self.old.ledger.names
            (told_of self.old.ledger.names
            self.old.ledger.made.items self.old.ledger.journal.entries) space terms.now) }
        ensures entries { self.new.ledger.journal ≡ self.old.ledger.journal }
        ensures roster { self.new.ledger.roster ≡ self.old.ledger.roster }
        ensures names { OnErr result (self.new.ledger.names ≡ self.old.ledger.names) }
        ensures made { OnErr result (self.new.ledger.made.items ≡ self.old.ledger.made.items) }
    {
        let nonce = self.numbers.nonce_for(self.ledger.names(), space, terms)?;
        self.numbers
            .note_terms(self.ledger.names(), space, terms, nonce)?;
        self.ledger.name_terms(caller, space, terms, nonce)
    }
}

impl Controller for AuthBook {
    ghost use Rattle.std.proofs.Common.{sym, subst, ap, ◌∙◌};
    ghost use Rattle.std.proofs.Math.Logic.{∥∥₁_elim};
    ghost use Rattle.auth_events.specs.Ledgers.{told_of};
    ghost use Rattle.auth_events.proofs.LedgerLaws.{legal, legal_throughout, no_draw, told_names};
    ghost use Rattle.auth_events.proofs.LedgerLaws.{are_names, few};

    ghost roster = { λ book. book.ledger.roster };

    ghost told = { λ book.
        told_of book.ledger.names book.ledger.made.items book.ledger.journal.entries };

    ghost names = { λ book. book.ledger.names };

    ghost legal = { λ book. legal book.ledger.roster book.ledger.names
        book.ledger.made.items book.ledger.journal.entries book.ledger.kept };

    ghost legal_throughout = { λ book. legal_throughout book.ledger.roster book.ledger.names
        book.ledger.made.items book.ledger.journal.entries book.ledger.kept };

    ghost no_draw = { λ book. no_draw book.ledger.roster book.ledger.names
        book.ledger.made.items book.ledger.journal.entries book.ledger.kept };

    ghost told_names = { λ book. told_names book.ledger.roster book.ledger.names
        book.ledger.made.items book.ledger.journal.entries book.ledger.kept };

    ghost are_names = { λ book. are_names book.ledger.roster book.ledger.names
        book.ledger.made.items book.ledger.journal.entries book.ledger.kept };

    ghost few = { λ book. few book.ledger.roster book.ledger.names
        book.ledger.made.items book.ledger.journal.entries book.ledger.kept };

    fn call(&mut self, caller: u32, request: u32, call: Call) -> Did {
        self.answer_call(caller, request, call)
    }

    fn space_no(&mut self, caller: u32, space: &Space) -> Result<u32, NoMemory> {
        match self.numbers.space_number(self.ledger.names(), space)? {
            Some(number) => Ok(number),
            None => self.name_space(caller, space),
        }
    }

    fn terms_no(&mut self, caller: u32, space: u32, terms: &Terms) -> Result<TermsRef, NoMemory> {
        match self
            .numbers
            .terms_number(self.ledger.names(), space, terms)?
        {
            Some(number) => Ok(terms_ref(self.ledger.names(), number)),
            None => self.name_terms(caller, space, terms),
        }
    }

    fn text_no(&mut self, caller: u32, identity: &Identity) -> Result<u32, NoMemory> {
        self.ledger.text_no(caller, identity)
    }

    fn identity_of(&self, gift: Gift) -> Result<Identity, NoMemory> {
        let (roster, names) = (self.ledger.roster(), self.ledger.names());
        match self.gifts.identity(roster, names, gift) {
            Some(found) => copy_identity(found),
            None => unreachable!(),
        }
    }

    fn terms_of(&self, terms: u32) -> Result<(Terms, u32), NoMemory> {
        self.ledger.terms_of(terms)
    }

    fn space_of(&self, space: u32) -> Result<Space, NoMemory> {
        self.ledger.space_of(space)
    }

    fn journal(&self) -> &Journal {
        self.ledger.journal()
    }

    fn names(&self) -> &Names {
        self.ledger.names()
    }
}
