//! A journal that knows the entries of each request.

ghost use Rattle.std.specs.Prelude.{◌≡◌, ◌≤◌, ◌++◌, ◌∷◌, [], IfOk, IsTrue, OnErr, OnOk};
ghost use Rattle.report_reading.specs.Cuts.{lines};
ghost use Rattle.auth_events.specs.Pages.{fits};
ghost use Rattle.auth_report.specs.Steps.{all_own, has_room, own};
ghost use Rattle.auth_report.specs.Reading.{journal_front};

use auth_events::{Entry, Journal};
use auth_text::{Items, NoMemory};
use report_reading::{entry_at, next_line};
use std::alloc::Global;
use std::marker::Model;

/// A journal, and beside it the entries of each request.
#[derive(Drop)]
pub struct Book {
    requests: u32,
    journal: Journal,
    own: Vec<Items<Entry>>,
}

impl Model for Book {
    ghost use Rattle.std.specs.Prelude.{◌≡◌, ◌≤◌};
    ghost use Rattle.auth_events.specs.Pages.{Pages};
    ghost use Rattle.auth_report.specs.Steps.{all_own};

    ghost Value = { Pages };

    ghost view = { λ b. b.journal };

    ghost invariant = { λ b. (b.journal.requests ≡ b.requests)
        × (b.own.items ≡ all_own b.journal.entries b.requests 1) };
}

#[tactic(auto, using(crate::proofs::Owning::none_more))]
fn no_entries(alloc: Global, requests: u32) -> Result<Vec<Items<Entry>>, NoMemory>
    ensures { IfOk result (λ own. own.items ≡ all_own [] requests 1) }
{
    let mut own = Vec::new(alloc);
    for request in 0..requests {
        prove!(request < requests);
        own.push(Items::new(alloc))?;
    }
    Ok(own)
}

/// Adds an entry to those of its request.
#[tactic(auto, using(crate::proofs::Owning::own_pushed, crate::proofs::Owning::length_all_own))]
fn push_own(
    own: &mut Vec<Items<Entry>>,
    journal: &Journal,
    requests: u32,
    entry: Entry,
) -> Result<(), NoMemory>
    requires own { own.old.items ≡ all_own journal.now.entries requests 1 }
    requires first { 1 ≤ entry.request }
    requires last { entry.request ≤ requests }
    ensures ok { OnOk result (own.new.items
        ≡ all_own (journal.now.entries ++ entry ∷ []) requests 1) }
    ensures err { OnErr result (own.new.items ≡ own.old.items) }
{
    own[entry.request as usize - 1].push(entry)?;
    Ok(())
}

impl Book {
    /// Nothing was called yet.
    pub fn new(alloc: Global, requests: u32) -> Result<Book, NoMemory>
        requires { requests ≤ 2048 }
        ensures { IfOk result (λ book. book ≡ record { requests = requests; entries = [] }) }
    {
        let journal = Journal::new(alloc, requests)?;
        let own = no_entries(alloc, requests)?;
        Ok(Book {
            requests,
            journal,
            own,
        })
    }

    /// Whether the entry's request is in the roster and has room for it.
    #[tactic(auto, using(crate::proofs::Owning::length_own))]
    fn has_room(&self, entry: Entry) -> bool
        ensures { result ≡ has_room self.now.requests self.now.entries entry }
    {
        1 <= entry.request && entry.request <= self.requests && self.own(entry.request).len() < 64
    }

    /// Adds an entry.
    fn push(&mut self, entry: Entry) -> Result<(), NoMemory>
        requires room { IsTrue (has_room self.old.requests self.old.entries entry) }
        requires fit { IsTrue (fits entry.call entry.reply) }
        ensures { OnOk result (self.new
            ≡ record self.old { entries = self.old.entries ++ entry ∷ [] }) }
    {
        push_own(&mut self.own, &self.journal, self.requests, entry)?;
        self.journal.push(entry);
        Ok(())
    }

    /// The entries of the request.
    #[tactic(auto, using(crate::proofs::Owning::own_at, crate::proofs::Owning::length_all_own))]
    pub fn own(&self, request: u32) -> &[Entry]
        requires { (1 ≤ request) × (request ≤ self.now.requests) }
        ensures { result.now ≡ own self.now.entries request }
    {
        self.own[request as usize - 1].as_slice()
    }

    /// The journal alone.
    pub fn into_journal(self) -> Journal
        ensures { result ≡ self }
    {
        self.journal
    }
}

/// The journal that the text begins with, and what stands behind its lines.
pub fn read_journal(alloc: Global, requests: u32, text: &[u8]) -> Result<(Book, &[u8]), NoMemory>
    requires { requests ≤ 2048 }
    ensures read { IfOk result (λ got. journal_front requests (lines text.now)
        ≡ (got.0.entries, lines got.1.now)) }
    ensures requests { IfOk result (λ got. got.0.requests ≡ requests) }
{
    let mut book = Book::new(alloc, requests)?;
    let mut rest = text;
    'lines: loop {
        let Some((line, left)) = next_line(rest) else {
            return Ok((book, rest));
        };
        let Some(entry) = entry_at(alloc, line)? else {
            return Ok((book, rest));
        };
        if !book.has_room(entry) {
            return Ok((book, rest));
        }
        book.push(entry)?;
        rest = left;
    }
}
