//! Worked histories, played on a book that scans its journal and on one that decides by its index.

mod apart;
mod book;
mod draws;
mod histories;
mod index;
mod rivals;
mod rows;
mod sources;

use crate::tests::book::{played, played_on, roster_of_hosts};
use crate::tests::draws::counts_go_on;
use crate::tests::histories::History;
use crate::tests::index::keeps_second_gift;
use crate::tests::rivals::Rivals;
use crate::tests::sources::all_sources;
use auth_text::NoMemory;
use std::alloc::Global;
use std::process::Abort;
use std::test::Fail;

/// Each book replies as the history says, and then has so many entries.
fn ends_with(
    rt: &impl Abort,
    alloc: Global,
    history: History,
    entries: usize,
) -> Result<(), NoMemory> {
    assert!(rt; played(rt, alloc, history)? == entries);
    Ok(())
}

/// Only the waiting call has no entry.
#[test]
fn followers_take_the_one_end(rt: HostRuntime) -> Result<(), Fail> {
    ends_with(&rt, rt.alloc(), History::Cancelled, 12)?;
    ends_with(&rt, rt.alloc(), History::Lost, 12)?;
    Ok(())
}

#[test]
fn an_old_gift_is_not_rejected(rt: HostRuntime) -> Result<(), Fail> {
    ends_with(&rt, rt.alloc(), History::LateRejection, 12)?;
    Ok(())
}

#[test]
fn an_index_keeps_the_second_gift(rt: HostRuntime) -> Result<(), Fail> {
    keeps_second_gift(&rt, rt.alloc())?;
    Ok(())
}

#[test]
fn identities_go_by_directory_and_partition(rt: HostRuntime) -> Result<(), Fail> {
    ends_with(&rt, rt.alloc(), History::Directories, 16)?;
    ends_with(&rt, rt.alloc(), History::Partitions, 12)?;
    Ok(())
}

#[test]
fn another_partition_changes_no_reply(rt: HostRuntime) -> Result<(), Fail> {
    ends_with(&rt, rt.alloc(), History::Together, 22)?;
    ends_with(&rt, rt.alloc(), History::OneAlone, 8)?;
    ends_with(&rt, rt.alloc(), History::OtherAlone, 14)?;
    Ok(())
}

#[test]
fn counts_of_a_nonce_go_on(rt: HostRuntime) -> Result<(), Fail> {
    counts_go_on(&rt, rt.alloc())?;
    Ok(())
}

#[test]
fn gifts_stand_for_their_identities(rt: HostRuntime) -> Result<(), Fail> {
    all_sources(&rt, rt.alloc())?;
    Ok(())
}

/// Each book of these requests replies as the rows say.
fn plays(rt: &impl Abort, alloc: Global, rivals: Rivals) -> Result<(), NoMemory> {
    assert!(rt; rivals.hosts().len() == rivals.sides().len());
    let roster = roster_of_hosts(alloc, rivals.hosts(), rivals.sides())?;
    let rows = rivals.rows(alloc)?;
    played_on(rt, alloc, &roster, rows.as_slice())?;
    Ok(())
}

#[test]
fn the_space_goes_that_was_not_touched_for_longest(rt: HostRuntime) -> Result<(), Fail> {
    plays(&rt, rt.alloc(), Rivals::OfOneSide)?;
    Ok(())
}

#[test]
fn nobody_is_evicted_for_another_partition(rt: HostRuntime) -> Result<(), Fail> {
    plays(&rt, rt.alloc(), Rivals::BesideAnother)?;
    plays(&rt, rt.alloc(), Rivals::OfTwoSides)?;
    Ok(())
}
