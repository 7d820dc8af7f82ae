//! What an index keeps of each partition: its live spaces and their directories. One partition
//! never puts a space of another out, so each has a cache and directories of its own.

ghost use Rattle.std.specs.Prelude.{◌≡◌, [], IfOk, IfSome, IsTrue, OnErr, OnOk, option_copied};
ghost use Rattle.spaces.specs.Sites.{numbered};
ghost use Rattle.auth_cache.specs.Cached.{held_in};
ghost use Rattle.auth_book.specs.Parts.{entries_at, new_part, notes_at, part_number, part_of};
ghost use Rattle.auth_book.specs.Parts.{with_part};
ghost use Rattle.auth_book.specs.Fits.{CacheFits, PathsFit};
ghost use Rattle.auth_book.specs.Steps.{part_told, parts_told};

use crate::tells::{tell_cache, tell_paths};
use auth_cache::AuthCache;
use auth_events::{BookReply, Call, Names};
use auth_text::NoMemory;
use path_lookup::PathIndex;
use spaces::{Partition, Roster};
use std::alloc::Global;
use std::collections::BTreeMap;
use std::marker::Model;

/// The record of a partition.
#[derive(Drop)]
pub struct PartRow {
    pub partition: Partition,
    /// Its live spaces, 32 at most.
    pub cache: AuthCache,
    /// Their directories.
    pub paths: PathIndex,
}

/// A record of each partition that has a named space. Seen as the list of the records.
#[derive(Drop)]
pub struct PartRows {
    rows: Vec<PartRow>,
    /// The number of each record, by the name of its partition.
    numbers: BTreeMap<Vec<u8>, u32>,
    alloc: Global,
}

impl Model for PartRows {
    ghost use Rattle.std.specs.Prelude.{List, length, ◌≤◌};
    ghost use Rattle.auth_book.specs.declared.partitions.PartRow.{PartRow};
    ghost use Rattle.auth_book.specs.Parts.{ArePartRows, HasNumbers};

    ghost Value = { List PartRow };

    ghost view = { λ p. p.rows.items };

    ghost invariant = { λ p. ArePartRows p.rows.items × (length p.rows.items ≤ 4294967295)
        × HasNumbers p.numbers p.rows.items };
}

fn row_at(rows: &[PartRow], number: u32) -> Option<&PartRow>
    ensures { option_copied result ≡ numbered rows.now number }
{
    if number == 0 {
        return None;
    }
    rows.get(number as usize - 1)
}

/// A record that has nothing yet, with all the room that it will need.
fn new_row(alloc: Global, partition: &Partition) -> Result<PartRow, NoMemory>
    ensures { IfOk result (λ row. row ≡ new_part partition.now) }
{
    let paths = PathIndex::new(alloc, 32)?;
    Ok(PartRow {
        partition: partition.clone()?,
        cache: AuthCache::new(32),
        paths,
    })
}

/// Tells the record of a partition an entry about one of its spaces.
fn tell_row(
    row: &mut PartRow,
    roster: &Roster,
    names: &Names,
    site: u32,
    request: u32,
    call: Call,
    reply: BookReply,
)
    requires bound { row.old.cache.bound ≡ 32 }
    requires room { row.old.paths.spaces ≡ 32 }
    requires cache { CacheFits call reply row.old.cache.entries }
    requires paths { PathsFit roster.now request call reply row.old.paths.notes }
    ensures { row.new ≡ part_told roster.now names.now site request call reply row.old }
{
    tell_cache(&mut row.cache, call, reply);
    tell_paths(&mut row.paths, roster, names, site, request, call, reply);
}

impl PartRows {
    /// No records.
    pub fn new(alloc: Global) -> PartRows
        ensures { result ≡ [] }
    {
        PartRows {
            rows: Vec::new(alloc),
            numbers: BTreeMap::new(alloc),
            alloc,
        }
    }

    /// The number of the partition's record, or 0.
    pub fn number_of(&self, partition: &Partition) -> u32
        ensures { result ≡ part_number self.now partition.now }
    {
        match self.numbers.get(partition.name()) {
            Some(number) => *number,
            None => 0,
        }
    }

    /// The record of that number.
    pub fn get(&self, number: u32) -> Option<&PartRow>
        ensures row { option_copied result ≡ numbered self.now number }
        ensures bound { IfSome result (λ row. row.now.cache.bound ≡ 32) }
    {
        row_at(self.rows.as_slice(), number)
    }

    /// The record of the partition.
    pub fn of(&self, partition: &Partition) -> Option<&PartRow>
        ensures { option_copied result ≡ part_of self.now partition.now }
    {
        self.get(self.number_of(partition))
    }

    /// Makes the record of the partition, where it has none. An `Err` changes nothing.
    pub fn prepare(&mut self, partition: &Partition) -> Result<(), NoMemory>
        ensures ok { OnOk result (self.new ≡ with_part self.old partition.now) }
        ensures err { OnErr result (self.new ≡ self.old) }
    {
        if self.number_of(partition) != 0 {
            return Ok(());
        }
        if self.rows.len() >= u32::MAX as usize {
            return Err(NoMemory);
        }
        let row = new_row(self.alloc, partition)?;
        let name = Vec::from_slice(self.alloc, partition.name())?;
        self.rows.reserve(1)?;
        self.numbers.insert(name, self.rows.len() as u32 + 1)?;
        self.rows.push_reserved(row);
        Ok(())
    }

    /// Tells the record of that number an entry about one of its spaces, which is of that site.
    pub fn tell(
        &mut self,
        number: u32,
        roster: &Roster,
        names: &Names,
        site: u32,
        request: u32,
        call: Call,
        reply: BookReply,
    )
        requires cache { CacheFits call reply (entries_at (numbered self.old number)) }
        requires paths { PathsFit roster.now request call reply
            (notes_at (numbered self.old number)) }
        ensures { self.new ≡ parts_told self.old number
            (part_told roster.now names.now site request call reply) }
    {
        if number == 0 || self.rows.len() < number as usize {
            return;
        }
        let row = &mut self.rows[number as usize - 1];
        tell_row(row, roster, names, site, request, call, reply);
    }
}
