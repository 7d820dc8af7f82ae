//! What gifts and numbers stand for, whatever source the identities came from.

ghost use Rattle.std.specs.Prelude.{◌≡◌, reverse};
ghost use Rattle.auth_events.specs.Past.{gift_given};
ghost use Rattle.auth_events.specs.Book.{is_that_gift};
ghost use Rattle.auth_events.specs.Identities.{giving};

use crate::tests::book::{
    name_space, name_text, opened, opened_with_index, place, play_one, request, request_over,
    site_of,
};
use crate::tests::draws::name_realm;
use crate::tests::rows::{NO, Row};
use auth_events::{BookReply, Controller, Entry, Gift, TermsRef};
use auth_text::{Bytes, NoMemory};
use spaces::{Origins, Requests, Roster, Scheme, Space, Target};
use std::alloc::Global;
use std::process::Abort;

const PROXY: &[u8] = b"http://p.example:3128/";

/// The origin for which the default identity is allowed.
const ALLOWED: &[u8] = b"http://n.example/";

/// Whose credentials a gift is: its space, its ordinal and its user.
fn gift_row(n: u32) -> (u32, u32, &'static [u8]) {
    match n {
        0 => (1, 1, b"u1"),
        1 => (2, 1, b"ann"),
        2 => (2, 2, b"u2"),
        _ => (3, 1, b"u3"),
    }
}

/// A proxy's gift comes by an answer and the server's from the URL, whose terms are renewed and are
/// then ready for another request. That one has them removed and is given others, which a third one
/// shares. The default identity is told once.
fn source_row(n: u32) -> Option<Row> {
    let row = match n {
        0 => Row(1, "begin", NO, "begun", NO),
        1 => Row(1, "preempt", [1, 0, 0], "nothing", NO),
        2 => Row(1, "preempt", NO, "nothing", NO),
        3 => Row(1, "select", [1, 0, 0], "lead", [1, 1, 0]),
        4 => Row(1, "answer", [1, 1, 0], "given", [1, 1, 0]),
        5 => Row(1, "select", [2, 1, 0], "url", [2, 1, 0]),
        6 => Row(1, "renew", [2, 1, 2], "renewed", NO),
        7 => Row(1, "note", [1, 1, 0], "noted", NO),
        8 => Row(1, "note", [2, 1, 0], "noted", NO),
        9 => Row(1, "end", NO, "ended", NO),
        10 => Row(2, "begin", NO, "begun", NO),
        11 => Row(2, "preempt", NO, "ready", [2, 1, 2]),
        12 => Row(2, "reject", [2, 1, 0], "removed", NO),
        13 => Row(2, "select", [2, 1, 0], "lead", [2, 1, 0]),
        14 => Row(2, "answer", [2, 2, 1], "given", [2, 2, 0]),
        15 => Row(2, "end", NO, "ended", NO),
        16 => Row(3, "begin", NO, "begun", NO),
        17 => Row(3, "preempt", NO, "nothing", NO),
        18 => Row(3, "select", [2, 1, 0], "cached", [2, 2, 0]),
        19 => Row(3, "end", NO, "ended", NO),
        20 => Row(4, "begin", NO, "begun", NO),
        21 => Row(4, "preempt", NO, "nothing", NO),
        22 => Row(4, "select", [3, 0, 0], "default", NO),
        23 => Row(4, "reject", [3, 0, 0], "kept", NO),
        24 => Row(4, "select", [3, 0, 0], "lead", [3, 1, 0]),
        25 => Row(4, "answer", [3, 3, 0], "given", [3, 1, 0]),
        26 => Row(4, "end", NO, "ended", NO),
        _ => return None,
    };
    Some(row)
}

/// A request over a proxy with an identity in its URL, two of the same host, and one that may have
/// the default identity.
fn roster(alloc: Global) -> Result<Roster, NoMemory> {
    let mut requests = Requests::new(alloc);
    requests.push(request_over(alloc, b"main", b"http://ann:pw@a.example/", PROXY)?)?;
    requests.push(request(alloc, b"main", b"http://a.example/x")?)?;
    requests.push(request(alloc, b"main", b"http://a.example/y")?)?;
    requests.push(request(alloc, b"main", ALLOWED)?)?;
    let mut allowed = Origins::new(alloc);
    allowed.push(place(alloc, ALLOWED)?.origin)?;
    Ok(Roster { requests, allowed })
}

fn proxy_space(alloc: Global) -> Result<Space, NoMemory> {
    let site = site_of(alloc, Target::Proxy, PROXY)?;
    let realm = Bytes::from_slice(alloc, b"x")?;
    Ok(Space::new(site, Scheme::Basic, realm))
}

fn negotiate_space(alloc: Global) -> Result<Space, NoMemory> {
    let site = site_of(alloc, Target::Server, ALLOWED)?;
    Ok(Space::new(site, Scheme::Negotiate, Bytes::new(alloc)))
}

/// Names three spaces, two terms of the second, and three texts.
fn name_things<B: Controller>(
    rt: &impl Abort,
    alloc: Global,
    book: &mut B,
    roster: &Roster,
) -> Result<(), NoMemory>
    requires { B.roster book.old ≡ roster.now }
    ensures { B.roster book.new ≡ roster.now }
{
    name_space(rt, book, roster, &proxy_space(alloc)?)?;
    let first = name_realm(rt, alloc, book, roster, b"d", b"n")?;
    assert!(rt; first == TermsRef { terms: 1, nonce: 1 });
    let second = name_realm(rt, alloc, book, roster, b"d", b"m")?;
    assert!(rt; second == TermsRef { terms: 2, nonce: 2 });
    name_space(rt, book, roster, &negotiate_space(alloc)?)?;
    name_text(rt, alloc, book, roster, b"u1")?;
    name_text(rt, alloc, book, roster, b"u2")?;
    name_text(rt, alloc, book, roster, b"u3")?;
    Ok(())
}

fn gives(reply: BookReply, gift: Gift) -> bool
    ensures { result ≡ is_that_gift (gift_given reply) gift }
{
    match reply {
        BookReply::Url { gift: given, .. } | BookReply::Given { gift: given, .. } => {
            given.space == gift.space && given.ordinal == gift.ordinal
        }
        _ => false,
    }
}

/// The entry that gave the gift.
fn giving(entries: &[Entry], gift: Gift) -> Option<Entry>
    ensures { result ≡ giving (reverse entries.now) gift }
{
    let mut found = None;
    for entry in entries {
        if gives(entry.reply, gift) {
            found = Some(*entry);
        }
    }
    found
}

/// Sees that the gift stands for an identity of that user.
fn stands_for<B: Controller>(
    rt: &impl Abort,
    book: &B,
    gift: Gift,
    user: &[u8],
) -> Result<(), NoMemory> {
    assert!(rt; giving(book.journal().entries(), gift).is_some());
    let identity = book.identity_of(gift)?;
    assert!(rt; identity.user() == user);
    Ok(())
}

/// Sees that the terms of that number have that nonce, which has the same number.
fn has_nonce<B: Controller>(
    rt: &impl Abort,
    book: &B,
    number: u32,
    nonce: &[u8],
) -> Result<(), NoMemory> {
    assert!(rt; book.names().terms(number).is_some());
    let (terms, named) = book.terms_of(number)?;
    assert!(rt; terms.nonce.as_slice() == nonce && named == number);
    Ok(())
}

/// Sees that the number stands for the space.
pub(crate) fn is_space<B: Controller>(
    rt: &impl Abort,
    book: &B,
    number: u32,
    wanted: &Space,
) -> Result<(), NoMemory> {
    assert!(rt; book.names().space(number).is_some());
    let space = book.space_of(number)?;
    assert!(rt; space == *wanted);
    Ok(())
}

/// Plays the calls of all sources.
fn play_sources<B: Controller>(rt: &impl Abort, book: &mut B, roster: &Roster)
    requires { B.roster book.old ≡ roster.now }
    ensures { B.roster book.new ≡ roster.now }
{
    for n in 0..100 {
        if let Some(row) = source_row(n) {
            play_one(rt, book, roster, row);
        }
    }
}

/// What the numbers stand for afterwards: gifts for their users, terms for their nonces, and
/// spaces.
fn stand_still<B: Controller>(rt: &impl Abort, alloc: Global, book: &B) -> Result<(), NoMemory> {
    for n in 0..4 {
        let (space, ordinal, user) = gift_row(n);
        stands_for(rt, book, Gift { space, ordinal }, user)?;
    }
    has_nonce(rt, book, 1, b"n")?;
    has_nonce(rt, book, 2, b"m")?;
    is_space(rt, book, 1, &proxy_space(alloc)?)?;
    is_space(rt, book, 3, &negotiate_space(alloc)?)
}

/// Identities of answers, of a URL and by default, and what their numbers stand for afterwards.
fn sources_on<B: Controller>(
    rt: &impl Abort,
    alloc: Global,
    book: &mut B,
    roster: &Roster,
) -> Result<(), NoMemory>
    requires { B.roster book.old ≡ roster.now }
{
    name_things(rt, alloc, book, roster)?;
    play_sources(rt, book, roster);
    stand_still(rt, alloc, book)
}

fn sources_by_index(rt: &impl Abort, alloc: Global, roster: &Roster) -> Result<(), NoMemory> {
    let mut book = opened_with_index(rt, alloc, roster)?;
    sources_on(rt, alloc, &mut book, roster)
}

/// The same on a book that scans its journal and on one that decides by its index.
pub(crate) fn all_sources(rt: &impl Abort, alloc: Global) -> Result<(), NoMemory> {
    let roster = roster(alloc)?;
    sources_by_index(rt, alloc, &roster)?;
    let mut book = opened(rt, alloc, &roster)?;
    sources_on(rt, alloc, &mut book, &roster)
}
