//! The index of a book, taken apart after a rejection that came too late.

use crate::tests::book::{opened_with_index, play_all};
use crate::tests::histories::History;
use auth_book::{BookIndex, PartRow, RequestRow, SpaceRow};
use auth_cache::Held;
use auth_events::Gift;
use auth_text::NoMemory;
use std::alloc::Global;
use std::process::Abort;

/// The space was given twice.
const TWICE: SpaceRow = SpaceRow {
    site: 1,
    givings: 2,
    partition: 1,
};

/// Its second gift, which has no terms.
const SECOND: Held = Held {
    gift: Gift {
        space: 1,
        ordinal: 2,
    },
    terms: 0,
};

/// A request that was told no identity of its URL and no default one.
const SILENT: RequestRow = RequestRow {
    url: false,
    default_server: false,
    default_proxy: false,
    default_socks: false,
};

/// The partition's record holds the gift.
fn holds_second(rt: &impl Abort, part: &PartRow) {
    let PartRow {
        partition,
        cache,
        paths: _,
    } = part;
    assert!(rt; partition.name() == b"main".as_slice());
    assert!(rt; cache.entries() == [SECOND].as_slice());
}

/// One partition with one space, two prompts of it, and two requests that may draw on 16 nonces
/// each.
fn shows_second(rt: &impl Abort, index: &BookIndex) {
    let BookIndex {
        partitions,
        prompts: _,
        spaces,
        led,
        requests,
        epochs,
        prepared,
    } = index;
    assert!(rt; spaces.as_slice() == [TWICE].as_slice());
    assert!(rt; led.as_slice() == [1, 1].as_slice());
    assert!(rt; requests.as_slice() == [SILENT, SILENT].as_slice());
    assert!(rt; epochs.as_slice() == [0; 32].as_slice());
    assert!(rt; *prepared == 1);
    match partitions.get(1) {
        Some(part) => holds_second(rt, part),
        None => panic!(rt; "no record of the partition"),
    }
}

/// The index that is left by a rejection of an old gift.
pub(crate) fn keeps_second_gift(rt: &impl Abort, alloc: Global) -> Result<(), NoMemory> {
    let roster = History::LateRejection.roster(alloc)?;
    let rows = History::LateRejection.rows(alloc)?;
    let mut book = opened_with_index(rt, alloc, &roster)?;
    play_all(rt, alloc, &mut book, &roster, rows.as_slice())?;
    shows_second(rt, book.index());
    Ok(())
}
