//! What a book's replies are found by: of each partition the live spaces and their directories, the
//! prompts, and a row of each space, request and nonce. It has no entry of the journal.

ghost use Rattle.std.specs.Prelude.{◌≡◌, ◌≤◌, ◌<◌, ◌+◌, ◌*◌, [], IfOk, length};

use crate::partitions::PartRows;
use crate::rows::Rows;
use crate::sites::site_no;
use crate::{Epochs, PromptSpaces, RequestRows, SpaceRows};
use auth_events::Names;
use auth_text::NoMemory;
use prompt_queue::PromptQueue;
use spaces::{Partition, Roster};
use std::alloc::Global;

/// What is kept of a named space.
#[derive(Clone, Copy, Debug, PartialEq, Eq)]
pub struct SpaceRow {
    /// The number of the first named space of its site.
    pub site: u32,
    /// How often credentials of it were given.
    pub givings: u32,
    /// The number of its partition's record, from 1.
    pub partition: u32,
}

/// What was answered to a request: `Url`, and `Default` for a space of each target.
#[derive(Clone, Copy, Debug, PartialEq, Eq)]
pub struct RequestRow {
    pub url: bool,
    pub default_server: bool,
    pub default_proxy: bool,
    pub default_socks: bool,
}

/// The part of a book that decides.
#[derive(Drop)]
pub struct BookIndex {
    /// The record of each partition.
    pub partitions: PartRows,
    pub prompts: PromptQueue,
    /// A row of each named space.
    pub spaces: SpaceRows,
    /// The space of each prompt.
    pub led: PromptSpaces,
    /// A row of each request.
    pub requests: RequestRows,
    /// The epoch of each nonce.
    pub epochs: Epochs,
    /// There is room for the rows of so many spaces.
    pub prepared: u32,
    ghost rows: { length spaces.items ≤ prepared },
    ghost next: { prepared ≤ length spaces.items + 1 },
    ghost room: { prepared ≤ spaces.room },
    ghost added: { 1 ≤ prepared → prepared < prompts.spaces },
}

/// Nothing was answered yet.
const FRESH: RequestRow = RequestRow {
    url: false,
    default_server: false,
    default_proxy: false,
    default_socks: false,
};

impl BookIndex {
    ghost use Rattle.std.specs.Prelude.{◌≡◌, ◌≤◌, ◌<◌, ◌+◌, ◌++◌, ◌∷◌, [], IfOk, IfSome, IsTrue};
    ghost use Rattle.std.specs.Prelude.{OnOk, OnErr, List, is_some, length, max};
    ghost use Rattle.spaces.specs.declared.roster.Roster.{Roster};
    ghost use Rattle.auth_events.specs.declared.journal.Entry.{Entry};
    ghost use Rattle.spaces.specs.ProtectionSpaces.{ProtectionSpace};
    ghost use Rattle.spaces.specs.Sites.{numbered};
    ghost use Rattle.auth_events.specs.Tables.{AreNames, Tables, no_names, with_space};
    ghost use Rattle.auth_events.specs.Book.{IsLegalPast};
    ghost use Rattle.auth_book.specs.SiteNumbers.{site_no};
    ghost use Rattle.auth_book.specs.Parts.{part_of};
    ghost use Rattle.auth_book.specs.Indices.{StandsFor, part_no, space_row};

    /// Takes all memory but that of the spaces and partitions. The index stands for the empty
    /// history.
    pub fn new(alloc: Global, roster: &Roster) -> Result<BookIndex, NoMemory>
        requires { length roster.now.requests ≤ 2048 }
        ensures stands { IfOk result (λ index. StandsFor index roster.now no_names []) }
        ensures rows { IfOk result (λ index. index.spaces.items ≡ []) }
    {
        let requests = roster.requests.len();
        Ok(BookIndex {
            partitions: PartRows::new(alloc),
            prompts: PromptQueue::new(alloc, requests as u32)?,
            spaces: Rows::with_room(alloc, 0)?,
            led: Rows::with_room(alloc, 32 * requests)?,
            requests: Rows::filled(alloc, requests, FRESH)?,
            epochs: Rows::filled(alloc, 16 * requests, 0)?,
            prepared: 0,
        })
    }

    /// Takes all memory that the space of that number needs, and makes the record of its partition,
    /// where there is none. It may be repeated. The index stands for the same histories as before,
    /// also after `NoMemory`.
    pub fn prepare(&mut self, space: u32, partition: &Partition) -> Result<(), NoMemory>
        requires { space ≡ length self.old.spaces.items + 1 }
        ensures ok { OnOk result (self.new.prepared ≡ max self.old.prepared space) }
        ensures record { OnOk result
            (IsTrue (is_some (part_of self.new.partitions partition.now))) }
        ensures err { OnErr result (self.new.prepared ≡ self.old.prepared) }
        ensures rows { self.new.spaces.items ≡ self.old.spaces.items }
        ensures stands { (roster : Roster) (names : Tables) (past : List Entry)
            → StandsFor self.old roster names past → StandsFor self.new roster names past }
    {
        self.spaces.reserve(space as usize)?;
        self.prompts.add_space(space)?;
        self.partitions.prepare(partition)?;
        if self.prepared < space {
            self.prepared = space;
        }
        Ok(())
    }

    /// Gives the space that was named last its row. It takes no memory. Under these names the index
    /// then stands for the histories for which it stood under the names without that space.
    pub fn add_space(&mut self, names: &Names)
        requires count { length names.now.spaces ≡ length self.old.spaces.items + 1 }
        requires prepared { self.old.prepared ≡ length names.now.spaces }
        requires record { IfSome (numbered names.now.spaces (length names.now.spaces))
            (λ space. IsTrue (is_some (part_of self.old.partitions space.site.partition))) }
        ensures stands { (roster : Roster)
            (before : Tables) (space : ProtectionSpace) (past : List Entry) → names.now
            ≡ with_space before space → AreNames before → IsLegalPast roster before past
            → StandsFor self.old roster before past → StandsFor self.new roster names.now past }
        ensures row { self.new.spaces.items ≡ self.old.spaces.items
            ++ space_row names.now self.old.partitions [] (length names.now.spaces) ∷ [] }
        ensures partitions { self.new.partitions ≡ self.old.partitions }
        ensures prompts { self.new.prompts ≡ self.old.prompts }
        ensures led { self.new.led ≡ self.old.led }
        ensures requests { self.new.requests ≡ self.old.requests }
        ensures epochs { self.new.epochs ≡ self.old.epochs }
    {
        let site = site_no(names, names.spaces_len());
        self.add_space_at(names, site);
    }

    /// The same where the number of the space's site is known.
    pub(crate) fn add_space_at(&mut self, names: &Names, site: u32)
        requires site { site ≡ site_no names.now (length names.now.spaces) }
        requires count { length names.now.spaces ≡ length self.old.spaces.items + 1 }
        requires prepared { self.old.prepared ≡ length names.now.spaces }
        requires record { IfSome (numbered names.now.spaces (length names.now.spaces))
            (λ space. IsTrue (is_some (part_of self.old.partitions space.site.partition))) }
        ensures stands { (roster : Roster)
            (before : Tables) (space : ProtectionSpace) (past : List Entry) → names.now
            ≡ with_space before space → AreNames before → IsLegalPast roster before past
            → StandsFor self.old roster before past → StandsFor self.new roster names.now past }
        ensures row { self.new.spaces.items ≡ self.old.spaces.items
            ++ space_row names.now self.old.partitions [] (length names.now.spaces) ∷ [] }
        ensures partitions { self.new.partitions ≡ self.old.partitions }
        ensures prompts { self.new.prompts ≡ self.old.prompts }
        ensures led { self.new.led ≡ self.old.led }
        ensures requests { self.new.requests ≡ self.old.requests }
        ensures epochs { self.new.epochs ≡ self.old.epochs }
    {
        let partition = self.part_no(names, names.spaces_len());
        self.spaces.push_reserved(SpaceRow {
            site,
            givings: 0,
            partition,
        });
    }

    /// The number of the record of the space's partition, or 0.
    fn part_no(&self, names: &Names, space: u32) -> u32
        ensures { result ≡ part_no names.now self.now.partitions space }
    {
        match names.space(space) {
            Some(named) => self.partitions.number_of(&named.site().partition),
            None => 0,
        }
    }
}
