//! The part of a book that only records: the roster, the names, the journal, and the order in which
//! names and entries were made. A book keeps beside it what it finds its replies by.

ghost use Rattle.std.specs.Prelude.{◌≡◌, ◌≤◌, length, IfOk, IfSome, Some, option_map};
ghost use Rattle.spaces.specs.Sites.{numbered};
ghost use Rattle.auth_events.specs.Tables.{terms_number, nonce_for};
ghost use Rattle.auth_events.specs.Ledgers.{IsKept};

use crate::controller::TermsRef;
use crate::identities::{giving, identity_given};
use crate::journal::{Entry, Gift, Journal};
use crate::names::{Names, TermsName};
use crate::told::{NameKind, NewName};
use auth_text::{Identity, NoMemory};
use spaces::{Roster, Space, Terms, copy_identity, copy_roster, copy_space, copy_terms};
use std::alloc::Global;

/// What a book records. Its journal is legal under its roster and names.
#[derive(Drop)]
pub struct Ledger {
    roster: Roster,
    names: Names,
    journal: Journal,
    made: Vec<NewName>,
    ghost few: { length roster.requests ≤ 2048 },
    ghost requests: { journal.requests ≡ length roster.requests },
    ghost kept: { ∥ IsKept roster names made.items journal.entries ∥₁ },
}

/// The numbers of the space's terms and of their nonce, where they have them.
fn numbers_of(names: &Names, space: u32, terms: &Terms) -> Option<TermsRef>
    ensures number { option_map (λ numbers. numbers.terms) result
        ≡ terms_number names.now space terms.now }
    ensures name { IfSome result (λ numbers. numbered names.now.terms numbers.terms
        ≡ Some (record { space = space; terms = terms.now; nonce = numbers.nonce })) }
{
    let number = names.terms_number(space, terms)?;
    match names.terms(number) {
        Some(name) => Some(TermsRef {
            terms: number,
            nonce: name.nonce,
        }),
        None => unreachable!(),
    }
}

impl Ledger {
    ghost use Rattle.std.specs.Prelude.{◌≡◌, ◌≤◌, ◌++◌, ◌∷◌, [], ◌+◌, ◌<◌, ◌*◌, length, reverse};
    ghost use Rattle.std.specs.Prelude.{IsTrue, IfOk, OnOk, OnErr, Some, None, is_some};
    ghost use Rattle.std.specs.Prelude.{option_copied, option_map, false};
    ghost use Rattle.spaces.specs.Sites.{numbered};
    ghost use Rattle.auth_events.specs.Tables.{no_names, is_home, space_number, terms_number};
    ghost use Rattle.auth_events.specs.Tables.{with_new_space, with_new_terms, with_text};
    ghost use Rattle.auth_events.specs.Pages.{IsWithinRoom};
    ghost use Rattle.auth_events.specs.Book.{allowed, answer};
    ghost use Rattle.auth_events.specs.Identities.{giving, identity};
    ghost use Rattle.auth_events.specs.Ledgers.{told_of};
    ghost use Rattle.auth_events.specs.Told.{is_pending, told_space, told_terms, MayNameSpace};
    ghost use Rattle.auth_events.specs.Told.{MayNameTerms};
    ghost use Rattle.auth_events.specs.declared.told.Told.TheVariants.{TextNamed};

    /// An empty journal with its room, and no names.
    pub fn new(alloc: Global, roster: &Roster) -> Result<Ledger, NoMemory>
        requires { length roster.now.requests ≤ 2048 }
        ensures roster { IfOk result (λ ledger. ledger.roster ≡ roster.now) }
        ensures names { IfOk result (λ ledger. ledger.names ≡ no_names) }
        ensures entries { IfOk result (λ ledger. ledger.journal.entries ≡ []) }
        ensures made { IfOk result (λ ledger. ledger.made.items ≡ []) }
    {
        let roster = copy_roster(alloc, roster)?;
        let journal = Journal::new(alloc, roster.requests.len() as u32)?;
        Ok(Ledger {
            roster,
            names: Names::new(alloc),
            journal,
            made: Vec::new(alloc),
        })
    }

    /// The requests that the book serves.
    pub fn roster(&self) -> &Roster
        ensures { result.now ≡ self.now.roster }
    {
        &self.roster
    }

    /// The names.
    pub fn names(&self) -> &Names
        ensures { result.now ≡ self.now.names }
    {
        &self.names
    }

    /// Its roster, its names and its journal.
    pub fn into_parts(self) -> (Roster, Names, Journal)
        ensures roster { result.0 ≡ self.roster }
        ensures names { result.1 ≡ self.names }
        ensures entries { result.2.entries ≡ self.journal.entries }
        ensures requests { result.2.requests ≡ length self.roster.requests }
    {
        (self.roster, self.names, self.journal)
    }

    /// The journal.
    pub fn journal(&self) -> &Journal
        ensures entries { result.now.entries ≡ self.now.journal.entries }
        ensures requests { result.now.requests ≡ length self.now.roster.requests }
    {
        &self.journal
    }

    /// The entries, fewer than a u32 can count.
    pub fn entries(&self) -> &[Entry]
        ensures entries { result.now ≡ self.now.journal.entries }
        ensures few { length result.now ≤ 131072 }
    {
        self.journal.entries()
    }

    /// Adds the entry of a call. It takes no memory.
    pub fn append(&mut self, entry: Entry)
        requires may { IsTrue (allowed self.old.roster self.old.names
            (reverse self.old.journal.entries) entry.caller entry.request entry.call) }
        requires reply { entry.reply ≡ answer self.old.roster self.old.names
            (reverse self.old.journal.entries) entry.request entry.call }
        requires done { is_pending entry.reply ≡ false }
        ensures entries { self.new.journal.entries ≡ self.old.journal.entries ++ entry ∷ [] }
        ensures roster { self.new.roster ≡ self.old.roster }
        ensures names { self.new.names ≡ self.old.names }
        ensures made { self.new.made ≡ self.old.made }
    {
        self.journal.push(entry);
    }

    /// The number of the space, which is named where it has none. An `Err` changes nothing.
    pub fn space_no(&mut self, caller: u32, space: &Space) -> Result<u32, NoMemory>
        requires { MayNameSpace self.old.roster self.old.names space.now }
        ensures number { IfOk result (λ number. numbered self.new.names.spaces number
            ≡ Some space.now) }
        ensures told { OnOk result
            (told_of self.new.names self.new.made.items self.new.journal.entries
            ≡ told_space caller self.old.names
            (told_of self.old.names self.old.made.items self.old.journal.entries) space.now) }
        ensures entries { self.new.journal ≡ self.old.journal }
        ensures roster { self.new.roster ≡ self.old.roster }
        ensures named { OnOk result (self.new.names ≡ with_new_space self.old.names space.now) }
        ensures names { OnErr result (self.new.names ≡ self.old.names) }
        ensures made { OnErr result (self.new.made.items ≡ self.old.made.items) }
    {
        match self.names.space_number(space) {
            Some(number) => Ok(number),
            None => self.name_space(caller, space),
        }
    }

    /// Names a space that has no number; who keeps numbers of its own looks there first. An `Err`
    /// changes nothing.
    pub fn name_space(&mut self, caller: u32, space: &Space) -> Result<u32, NoMemory>
        requires may { MayNameSpace self.old.roster self.old.names space.now }
        requires new { space_number self.old.names space.now ≡ None }
        ensures number { IfOk result (λ number. numbered self.new.names.spaces number
            ≡ Some space.now) }
        ensures told { OnOk result
            (told_of self.new.names self.new.made.items self.new.journal.entries
            ≡ told_space caller self.old.names
            (told_of self.old.names self.old.made.items self.old.journal.entries) space.now) }
        ensures entries { self.new.journal ≡ self.old.journal }
        ensures roster { self.new.roster ≡ self.old.roster }
        ensures named { OnOk result (self.new.names ≡ with_new_space self.old.names space.now) }
        ensures names { OnErr result (self.new.names ≡ self.old.names) }
        ensures made { OnErr result (self.new.made.items ≡ self.old.made.items) }
    {
        let copy = copy_space(space)?;
        self.made.reserve(1)?;
        let before = self.journal.entries().len() as u32;
        self.names.push_space(copy)?;
        let number = self.names.spaces_len();
        self.made.push_reserved(NewName {
            kind: NameKind::Space,
            number,
            caller,
            before,
        });
        Ok(number)
    }

    /// The numbers of the space's terms and of their nonce; the terms are named where they have
    /// none. An `Err` changes nothing.
    pub fn terms_no(&mut self, caller: u32, space: u32, terms: &Terms) -> Result<TermsRef, NoMemory>
        requires home { IsTrue (is_home self.old.names space terms.now) }
        requires few { MayNameTerms self.old.roster self.old.names space terms.now }
        ensures number { IfOk result (λ numbers. numbered self.new.names.terms numbers.terms
            ≡ Some (record { space = space; terms = terms.now; nonce = numbers.nonce })) }
        ensures told { OnOk result
            (told_of self.new.names self.new.made.items self.new.journal.entries
            ≡ told_terms caller self.old.names
            (told_of self.old.names self.old.made.items self.old.journal.entries)
            space terms.now) }
        ensures entries { self.new.journal ≡ self.old.journal }
        ensures roster { self.new.roster ≡ self.old.roster }
        ensures named { OnOk result (self.new.names
            ≡ with_new_terms self.old.names space terms.now) }
        ensures names { OnErr result (self.new.names ≡ self.old.names) }
        ensures made { OnErr result (self.new.made.items ≡ self.old.made.items) }
    {
        match numbers_of(&self.names, space, terms) {
            Some(numbers) => Ok(numbers),
            None => {
                let nonce = self.names.nonce_for(space, terms);
                self.name_terms(caller, space, terms, nonce)
            }
        }
    }

    /// Names terms that have no number, with the number of their nonce in the space's site, 0 where
    /// it has none. An `Err` changes nothing.
    pub fn name_terms(
        &mut self,
        caller: u32,
        space: u32,
        terms: &Terms,
        nonce: u32,
    ) -> Result<TermsRef, NoMemory>
        requires home { IsTrue (is_home self.old.names space terms.now) }
        requires may { MayNameTerms self.old.roster self.old.names space terms.now }
        requires new { terms_number self.old.names space terms.now ≡ None }
        requires nonce { nonce ≡ nonce_for self.old.names space terms.now }
        ensures number { IfOk result (λ numbers. numbered self.new.names.terms numbers.terms
            ≡ Some (record { space = space; terms = terms.now; nonce = numbers.nonce })) }
        ensures told { OnOk result
            (told_of self.new.names self.new.made.items self.new.journal.entries
            ≡ told_terms caller self.old.names
            (told_of self.old.names self.old.made.items self.old.journal.entries)
            space terms.now) }
        ensures entries { self.new.journal ≡ self.old.journal }
        ensures roster { self.new.roster ≡ self.old.roster }
        ensures named { OnOk result (self.new.names
            ≡ with_new_terms self.old.names space terms.now) }
        ensures names { OnErr result (self.new.names ≡ self.old.names) }
        ensures made { OnErr result (self.new.made.items ≡ self.old.made.items) }
    {
        let copy = copy_terms(terms)?;
        self.made.reserve(1)?;
        let before = self.journal.entries().len() as u32;
        self.names.push_terms(TermsName {
            space,
            terms: copy,
            nonce,
        })?;
        let number = self.names.terms_len();
        self.made.push_reserved(NewName {
            kind: NameKind::Terms,
            number,
            caller,
            before,
        });
        Ok(TermsRef {
            terms: number,
            nonce,
        })
    }

    /// The next number of a text, which stands for the identity. An `Err` changes nothing.
    pub fn text_no(&mut self, caller: u32, identity: &Identity) -> Result<u32, NoMemory>
        requires { length self.old.names.texts < 64 * length self.old.roster.requests }
        ensures number { IfOk result (λ number. number ≡ length self.old.names.texts + 1) }
        ensures told { OnOk result
            (told_of self.new.names self.new.made.items self.new.journal.entries
            ≡ told_of self.old.names self.old.made.items self.old.journal.entries
            ++ TextNamed caller identity.now ∷ []) }
        ensures entries { self.new.journal ≡ self.old.journal }
        ensures roster { self.new.roster ≡ self.old.roster }
        ensures named { OnOk result (self.new.names ≡ with_text self.old.names identity.now) }
        ensures names { OnErr result (self.new.names ≡ self.old.names) }
        ensures made { OnErr result (self.new.made.items ≡ self.old.made.items) }
    {
        let copy = copy_identity(identity)?;
        self.made.reserve(1)?;
        let before = self.journal.entries().len() as u32;
        self.names.push_text(copy)?;
        let number = self.names.texts_len();
        self.made.push_reserved(NewName {
            kind: NameKind::Text,
            number,
            caller,
            before,
        });
        Ok(number)
    }

    /// The space of that number.
    pub fn space_of(&self, space: u32) -> Result<Space, NoMemory>
        requires { IsTrue (is_some (numbered self.now.names.spaces space)) }
        ensures { IfOk result (λ found. numbered self.now.names.spaces space ≡ Some found) }
    {
        match self.names.space(space) {
            Some(found) => copy_space(found),
            None => unreachable!(),
        }
    }

    /// The terms of that number, and the number of their nonce.
    pub fn terms_of(&self, terms: u32) -> Result<(Terms, u32), NoMemory>
        requires { IsTrue (is_some (numbered self.now.names.terms terms)) }
        ensures { IfOk result (λ found.
            option_map (λ name. (name.terms, name.nonce)) (numbered self.now.names.terms terms)
            ≡ Some found) }
    {
        match self.names.terms(terms) {
            Some(found) => Ok((copy_terms(&found.terms)?, found.nonce)),
            None => unreachable!(),
        }
    }

    /// The identity that the gift stands for.
    pub fn identity_of(&self, gift: Gift) -> Result<Identity, NoMemory>
        requires { IsTrue (is_some (giving (reverse self.now.journal.entries) gift)) }
        ensures { IfOk result (λ found.
            identity self.now.roster self.now.names (reverse self.now.journal.entries) gift
            ≡ Some found) }
    {
        match self.identity(gift) {
            Some(found) => copy_identity(found),
            None => unreachable!(),
        }
    }

    fn identity(&self, gift: Gift) -> Option<&Identity>
        ensures { option_copied result
            ≡ identity self.now.roster self.now.names (reverse self.now.journal.entries) gift }
    {
        match giving(self.journal.entries(), gift) {
            Some(entry) => identity_given(&self.roster, &self.names, entry),
            None => None,
        }
    }
}
