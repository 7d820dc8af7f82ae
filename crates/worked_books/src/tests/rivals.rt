//! Spaces that compete for room: 32 of one partition may be live.

ghost use Rattle.std.specs.Prelude.{◌≤◌};

use crate::tests::rows::{NO, Row};
use auth_text::NoMemory;
use std::alloc::Global;

/// What competes.
#[derive(Clone, Copy)]
pub(crate) enum Rivals {
    /// The spaces of one partition.
    OfOneSide,
    /// The same behind a space of another partition, on the first host too.
    BesideAnother,
    /// The spaces of two partitions by turns.
    OfTwoSides,
}

impl Rivals {
    /// The hosts of the requests: of the 32 spaces that are given, then of the first, of one more
    /// and of the one that is evicted for it, and then of each that stays.
    pub(crate) fn hosts(self) -> &'static [u8] {
        match self {
            Rivals::OfOneSide => {
                b"abcdefghijklmnopqrstuvwxyz012345a6bacdefghijklmnopqrstuvwxyz0123456"
            }
            Rivals::BesideAnother => {
                b"aabcdefghijklmnopqrstuvwxyz012345a6baacdefghijklmnopqrstuvwxyz0123456"
            }
            Rivals::OfTwoSides => {
                b"abcdefghijklmnopqrstuvwxyz012345a6abcdefghijklmnopqrstuvwxyz0123456"
            }
        }
    }

    /// The partitions of the requests.
    pub(crate) fn sides(self) -> &'static [u8] {
        match self {
            Rivals::OfOneSide => {
                b"1111111111111111111111111111111111111111111111111111111111111111111"
            }
            Rivals::BesideAnother => {
                b"211111111111111111111111111111111111211111111111111111111111111111111"
            }
            Rivals::OfTwoSides => {
                b"1212121212121212121212121212121211121212121212121212121212121212121"
            }
        }
    }

    /// The calls and the replies.
    pub(crate) fn rows(self, alloc: Global) -> Result<Vec<Row>, NoMemory> {
        match self {
            Rivals::OfOneSide => full_cache(alloc),
            Rivals::BesideAnother => full_cache_beside(alloc),
            Rivals::OfTwoSides => two_sides(alloc),
        }
    }
}

/// The request begins, and nothing is ready for it.
fn push_begun(rows: &mut Vec<Row>, request: u32) -> Result<(), NoMemory> {
    rows.push(Row(request, "begin", NO, "begun", NO))?;
    rows.push(Row(request, "preempt", NO, "nothing", NO))?;
    Ok(())
}

/// The request leads the prompt of the same number as its space and text, and is given its gift.
fn push_given(rows: &mut Vec<Row>, request: u32, space: u32, evicted: u32) -> Result<(), NoMemory> {
    push_begun(rows, request)?;
    rows.push(Row(request, "select", [space, 0, 0], "lead", [space, 1, 0]))?;
    rows.push(Row(
        request,
        "answer",
        [space, space, 0],
        "given",
        [space, 1, evicted],
    ))?;
    Ok(())
}

/// The request finds the space live.
fn push_live(rows: &mut Vec<Row>, request: u32, space: u32) -> Result<(), NoMemory> {
    push_begun(rows, request)?;
    rows.push(Row(request, "select", [space, 0, 0], "cached", [space, 1, 0]))?;
    Ok(())
}

/// Behind so many others 32 requests are each given credentials in a space of their own. One more
/// finds the first of these spaces, and the next is given credentials in a 33rd, for which one is
/// evicted.
fn push_filling(rows: &mut Vec<Row>, others: u32, evicted: u32) -> Result<(), NoMemory>
    requires { others ≤ 1 }
{
    for number in others + 1..others + 33 {
        push_given(rows, number, number, 0)?;
    }
    push_live(rows, others + 33, others + 1)?;
    push_given(rows, others + 34, others + 33, evicted)?;
    Ok(())
}

/// The requests from one on find the spaces up to a number live, in order, but for one.
fn push_all_live(rows: &mut Vec<Row>, first: u32, spaces: u32, gone: u32) -> Result<(), NoMemory>
    requires { (first ≤ 100) × (spaces ≤ 100) }
{
    let mut request = first;
    for space in 1..spaces + 1 {
        if space != gone && request < 1000 {
            push_live(rows, request, space)?;
            request += 1;
        }
    }
    Ok(())
}

/// A partition is full, and one giving more evicts the space that was not touched for longest.
fn full_cache(alloc: Global) -> Result<Vec<Row>, NoMemory> {
    let mut rows = Vec::new(alloc);
    push_filling(&mut rows, 0, 2)?;
    push_begun(&mut rows, 35)?;
    rows.push(Row(35, "select", [2, 0, 0], "lead", [34, 2, 0]))?;
    push_all_live(&mut rows, 36, 33, 2)?;
    Ok(rows)
}

/// The same behind a space of another partition, which stays.
fn full_cache_beside(alloc: Global) -> Result<Vec<Row>, NoMemory> {
    let mut rows = Vec::new(alloc);
    push_given(&mut rows, 1, 1, 0)?;
    push_filling(&mut rows, 1, 3)?;
    push_begun(&mut rows, 36)?;
    rows.push(Row(36, "select", [3, 0, 0], "lead", [35, 2, 0]))?;
    push_all_live(&mut rows, 37, 34, 3)?;
    Ok(rows)
}

/// The spaces stand in two partitions by turns, so nobody is evicted.
fn two_sides(alloc: Global) -> Result<Vec<Row>, NoMemory> {
    let mut rows = Vec::new(alloc);
    push_filling(&mut rows, 0, 0)?;
    push_all_live(&mut rows, 35, 33, 0)?;
    Ok(rows)
}
