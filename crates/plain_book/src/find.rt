//! What the roster, the names and a past say together: schemes, targets, and who is evicted.

ghost use Rattle.std.specs.Prelude.{◌≡◌, ◌+◌, ◌^◌, ◌<◌, ◌&&◌, bytes_eq, reverse, length};
ghost use Rattle.auth_events.specs.Book as Book;
ghost use Rattle.auth_events.specs.Past as Past;
ghost use Rattle.std.specs.List.{list_any};
ghost use Rattle.spaces.specs.Sites.{same_origin};

use crate::scan;
use auth_events::{Entry, Gift, Names};
use spaces::{Origin, Partition, Roster, Scheme, Target, same_origin};

pub fn live(entries: &[Entry], space: u32) -> bool
    ensures { result ≡ Past.live (reverse entries.now) space }
{
    scan::current(entries, space).is_some()
}

pub fn is_digest(names: &Names, space: u32) -> bool
    ensures { result ≡ Book.scheme_is names.now Book.is_digest space }
{
    match names.space(space) {
        Some(named) => matches!(named.scheme(), Scheme::Digest),
        None => false,
    }
}

pub fn is_basic(names: &Names, space: u32) -> bool
    ensures { result ≡ Book.scheme_is names.now Book.is_basic space }
{
    match names.space(space) {
        Some(named) => matches!(named.scheme(), Scheme::Basic),
        None => false,
    }
}

pub fn is_negotiate(names: &Names, space: u32) -> bool
    ensures { result ≡ Book.scheme_is names.now Book.is_negotiate space }
{
    match names.space(space) {
        Some(named) => matches!(named.scheme(), Scheme::Negotiate),
        None => false,
    }
}

pub fn target_of(names: &Names, space: u32) -> Target
    ensures { result ≡ Book.target_of names.now space }
{
    match names.space(space) {
        Some(named) => named.site().target,
        None => Target::Server,
    }
}

pub fn nonce_of(names: &Names, terms: u32) -> u32
    ensures { result ≡ Book.nonce_of names.now terms }
{
    match names.terms(terms) {
        Some(named) => named.nonce,
        None => 0,
    }
}

pub fn has_url_identity(roster: &Roster, request: u32) -> bool
    ensures { result ≡ Book.has_url_identity roster.now request }
{
    match roster.requests.get(request) {
        Some(found) => found.place.identity.is_some(),
        None => false,
    }
}

fn contains_origin(origins: &[Origin], wanted: &Origin) -> bool
    ensures { result ≡ list_any (same_origin wanted.now) origins.now }
{
    origins.iter().any(|origin| same_origin(wanted, origin))
}

pub fn is_allowed_origin(roster: &Roster, names: &Names, space: u32) -> bool
    ensures { result ≡ Book.is_allowed_origin roster.now names.now space }
{
    match names.space(space) {
        Some(named) => contains_origin(roster.allowed.as_slice(), &named.site().origin),
        None => false,
    }
}

/// Whether two partitions have one name.
fn same_partition(a: &Partition, b: &Partition) -> bool
    ensures { result ≡ bytes_eq a.now b.now }
{
    a.name() == b.name()
}

/// The space that the entry gives for the first time.
pub fn first_given(entry: &Entry) -> Option<u32>
    ensures { result ≡ Past.first_given entry.now }
{
    match scan::gift_given(entry.reply) {
        Some(gift) if gift.ordinal == 1 => Some(gift.space),
        _ => None,
    }
}

/// Whether giving the one space may evict the other: both are of one partition.
fn is_rival(names: &Names, space: u32, other: u32) -> bool
    ensures { result ≡ Book.is_rival names.now space other }
{
    match (names.space(space), names.space(other)) {
        (Some(given), Some(other)) => same_partition(
            &other.site().partition,
            &given.site().partition,
        ),
        _ => false,
    }
}

/// Whether the other space is live and may be evicted for the space.
fn is_live_rival(names: &Names, entries: &[Entry], space: u32, other: u32) -> bool
    ensures { result
        ≡ (Past.live (reverse entries.now) other && Book.is_rival names.now space other) }
{
    live(entries, other) && is_rival(names, space, other)
}

/// How many live spaces may be evicted for the space.
fn rival_count(names: &Names, entries: &[Entry], space: u32) -> usize
    ensures { result
        ≡ length (Past.live_rivals (Book.is_rival names.now space) (reverse entries.now)) }
{
    let mut count = 0;
    for entry in entries {
        if let Some(other) = first_given(entry) {
            if is_live_rival(names, entries, space, other) {
                count += 1;
            }
        }
    }
    count
}

/// Of a space and the best so far the one that was not touched for longer.
fn older(entries: &[Entry], space: u32, best: u32) -> u32
    requires { length entries.now < 2 ^ 32 }
    ensures { result ≡ Past.greater_by (Past.age (reverse entries.now)) space best }
{
    if best == 0 || scan::age(entries, best) < scan::age(entries, space) {
        space
    } else {
        best
    }
}

/// The live rival that was not touched for longest.
fn victim(names: &Names, entries: &[Entry], space: u32) -> u32
    requires { length entries.now < 2 ^ 32 }
    ensures { result ≡ Past.victim (Book.is_rival names.now space) (reverse entries.now) }
{
    let mut best = 0;
    for entry in entries {
        if let Some(other) = first_given(entry) {
            if is_live_rival(names, entries, space, other) {
                best = older(entries, other, best);
            }
        }
    }
    best
}

/// The space that a giving of this one evicts, or 0.
pub fn evicted(names: &Names, entries: &[Entry], space: u32) -> u32
    requires { length entries.now < 2 ^ 32 }
    ensures { result ≡ Past.evicted (Book.is_rival names.now space) (reverse entries.now) space }
{
    if !live(entries, space) && rival_count(names, entries, space) >= 32 {
        victim(names, entries, space)
    } else {
        0
    }
}

pub fn next_gift(entries: &[Entry], space: u32) -> Gift
    requires { length entries.now + 1 < 2 ^ 32 }
    ensures { result ≡ Book.next_gift (reverse entries.now) space }
{
    Gift {
        space,
        ordinal: scan::givings(entries, space) + 1,
    }
}
