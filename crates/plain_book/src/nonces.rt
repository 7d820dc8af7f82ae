//! The nonces that entries take out of live spaces. An entry can move two spaces alone, the one
//! whose terms it sets and the one that it takes away, so no other is looked at.

ghost use Rattle.std.specs.Prelude.{◌≡◌, ◌∷◌, ◌^◌, ◌<◌, ◌==◌, reverse, length};
ghost use Rattle.std.specs.List.{list_any};
ghost use Rattle.auth_events.specs.Book as Book;
ghost use Rattle.auth_events.specs.Past as Past;
ghost use Rattle.plain_book.specs.Moves as Moves;

use crate::find::{first_given, live, nonce_of};
use crate::scan;
use auth_events::{BookReply, Call, Entry, Gift, Names};

/// The space whose terms the entry sets.
fn space_set(entry: &Entry) -> Option<u32>
    ensures { result ≡ Moves.space_set entry.now }
{
    if scan::is_ready(entry.reply) {
        return None;
    }
    match scan::gift_used(entry.call, entry.reply) {
        Some(gift) => Some(gift.space),
        None => None,
    }
}

fn space_rejected(call: Call) -> Option<u32>
    ensures { result ≡ Moves.space_rejected call }
{
    match call {
        Call::Reject { space, .. } => Some(space),
        _ => None,
    }
}

/// The space that the entry takes away.
fn space_taken(entry: &Entry) -> Option<u32>
    ensures { result ≡ Moves.space_taken entry.now }
{
    if matches!(entry.reply, BookReply::Removed) {
        return space_rejected(entry.call);
    }
    let evicted = scan::evicted_by(entry.reply);
    if evicted == 0 { None } else { Some(evicted) }
}

/// The gift that the space holds once the entry is made.
fn current_after(before: &[Entry], entry: &Entry, space: u32) -> Option<Gift>
    ensures { result ≡ Past.current (entry.now ∷ reverse before.now) space }
{
    if scan::takes_away(entry, space) {
        None
    } else if scan::gives(entry, space) {
        scan::gift_given(entry.reply)
    } else {
        scan::current(before, space)
    }
}

/// The terms of the space once the entry is made.
fn terms_after(before: &[Entry], entry: &Entry, space: u32) -> u32
    ensures { result ≡ Past.terms (entry.now ∷ reverse before.now) space }
{
    if scan::touches(entry, space) && !scan::is_ready(entry.reply) {
        scan::terms_in(entry.call)
    } else {
        scan::terms(before, space)
    }
}

/// Whether the space is live and its terms have the nonce.
fn holds_nonce(names: &Names, entries: &[Entry], nonce: u32, space: u32) -> bool
    ensures { result ≡ Book.holds_nonce names.now (reverse entries.now) nonce space }
{
    let terms = scan::terms(entries, space);
    terms != 0 && nonce_of(names, terms) == nonce && live(entries, space)
}

/// The same, once the entry is made.
fn holds_nonce_after(names: &Names, before: &[Entry], entry: &Entry, nonce: u32, space: u32) -> bool
    ensures { result ≡ Book.holds_nonce names.now (entry.now ∷ reverse before.now) nonce space }
{
    let terms = terms_after(before, entry, space);
    terms != 0 && nonce_of(names, terms) == nonce && current_after(before, entry, space).is_some()
}

/// Whether a live space that had the nonce before hasn't it once the entry is made.
fn is_left(names: &Names, before: &[Entry], entry: &Entry, nonce: u32, space: u32) -> bool
    ensures { result ≡ Book.is_left names.now
        (reverse before.now) (entry.now ∷ reverse before.now) nonce space }
{
    holds_nonce(names, before, nonce, space)
        && !holds_nonce_after(names, before, entry, nonce, space)
}

/// Whether the space was ever given.
fn was_given(entries: &[Entry], space: u32) -> bool
    ensures { result
        ≡ list_any (λ given. given == space) (Past.spaces_given (reverse entries.now)) }
{
    let mut found = false;
    for entry in entries {
        if let Some(given) = first_given(entry) {
            if given == space {
                found = true;
            }
        }
    }
    found
}

/// Whether there is a space that was given, and it leaves the nonce.
fn leaves(names: &Names, before: &[Entry], entry: &Entry, nonce: u32, space: Option<u32>) -> bool
    ensures { result ≡ Moves.passes_in
        (Book.is_left names.now (reverse before.now) (entry.now ∷ reverse before.now) nonce)
        (Past.spaces_given (reverse before.now)) space }
{
    match space {
        Some(space) => is_left(names, before, entry, nonce, space) && was_given(before, space),
        None => false,
    }
}

/// Whether the entry takes the nonce out of a live space.
#[tactic(auto, using(crate::proofs::Moved::takes_out_of_two))]
fn takes_out(names: &Names, before: &[Entry], entry: &Entry, nonce: u32) -> bool
    ensures { result ≡ Book.takes_out names.now entry.now (reverse before.now) nonce }
{
    leaves(names, before, entry, nonce, space_set(entry))
        || leaves(names, before, entry, nonce, space_taken(entry))
}

/// How many entries have taken the nonce out.
pub fn epoch(names: &Names, entries: &[Entry], nonce: u32) -> u32
    requires { length entries.now < 2 ^ 32 }
    ensures { result ≡ Book.epoch names.now (reverse entries.now) nonce }
{
    let mut count = 0;
    for at in 0..entries.len() {
        if takes_out(names, &entries[..at], &entries[at], nonce) {
            count += 1;
        }
    }
    count
}

/// The epoch of the terms' nonce.
pub fn epoch_of_terms(names: &Names, entries: &[Entry], terms: u32) -> u32
    requires { length entries.now < 2 ^ 32 }
    ensures { result ≡ Book.epoch_of_terms names.now (reverse entries.now) terms }
{
    if terms == 0 {
        0
    } else {
        epoch(names, entries, nonce_of(names, terms))
    }
}

/// The nonce that is left by a space that was given, or 0.
fn nonce_left(names: &Names, before: &[Entry], entry: &Entry) -> u32
    ensures { result ≡ Book.retired names.now entry.now (reverse before.now) }
{
    let mut found = None;
    for other in before {
        if let Some(space) = first_given(other) {
            let nonce = nonce_of(names, scan::terms(before, space));
            if is_left(names, before, entry, nonce, space) {
                found = Some(space);
            }
        }
    }
    match found {
        Some(space) => nonce_of(names, scan::terms(before, space)),
        None => 0,
    }
}

/// The nonce that the entry takes out of a live space, or 0.
#[tactic(auto, using(crate::proofs::Moved::none_is_retired))]
pub fn retired(names: &Names, before: &[Entry], entry: &Entry) -> u32
    ensures { result ≡ Book.retired names.now entry.now (reverse before.now) }
{
    if space_set(entry).is_none() && space_taken(entry).is_none() {
        return 0;
    }
    nonce_left(names, before, entry)
}
