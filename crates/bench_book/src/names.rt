//! The names that the calls of a day speak of: five spaces of each partition, a nonce for each
//! visit of a Digest host, and one text. All are made before the first call.

ghost use Rattle.std.specs.Prelude.{◌≡◌, ◌<◌, ◌*◌, length, IsTrue};
ghost use Rattle.auth_events.specs.Tables.{is_home};

use crate::roster::space;
use auth_events::{Controller, Names};
use auth_text::{Bytes, Identity, NoMemory};
use spaces::{Algorithm, Qop, Roster, Scheme, Terms};
use std::alloc::Global;

/// How often a host is visited in one partition at most.
const VISITS: u32 = 137;

/// The number of the space of a host in a partition. The host 0 stands for the proxy.
pub fn space_number(side: u32, host: u32) -> u32 {
    5 * (side % 3) + host % 5 + 1
}

/// The number of the terms of a Digest host's visit, and 0 for other hosts.
pub fn terms_number(request: u32) -> u32 {
    match request % 5 {
        2 => (request % 3 * 2) * VISITS + request / 15 % VISITS + 1,
        3 => (request % 3 * 2 + 1) * VISITS + request / 15 % VISITS + 1,
        _ => 0,
    }
}

/// Whether the book may name one more of each kind.
fn has_room<B: Controller>(book: &B, roster: &Roster) -> bool
    requires { B.roster book.now ≡ roster.now }
    ensures spaces { IsTrue result
        → length (B.names book.now).spaces < 64 * length (B.roster book.now).requests }
    ensures terms { IsTrue result
        → length (B.names book.now).terms < 64 * length (B.roster book.now).requests }
    ensures nonces { IsTrue result
        → length (B.names book.now).nonces < 16 * length (B.roster book.now).requests }
    ensures texts { IsTrue result
        → length (B.names book.now).texts < 64 * length (B.roster book.now).requests }
{
    let names = book.names();
    let requests = roster.requests.len();
    requests <= 2048
        && (names.spaces_len() as usize) < 64 * requests
        && (names.terms_len() as usize) < 64 * requests
        && (names.nonces_len() as usize) < 16 * requests
        && (names.texts_len() as usize) < 64 * requests
}

/// Whether the space is a Digest space with the terms' realm.
fn is_home(names: &Names, space: u32, terms: &Terms) -> bool
    ensures { result ≡ is_home names.now space terms.now }
{
    match names.space(space) {
        Some(named) => named.scheme() == Scheme::Digest && named.realm() == terms.realm.as_slice(),
        None => false,
    }
}

fn terms(alloc: Global, visit: u8) -> Result<Terms, NoMemory> {
    let realm = Bytes::from_slice(alloc, b"r")?;
    let nonce = Bytes::from_slice(alloc, &[b'n', visit])?;
    Ok(Terms {
        algorithm: Algorithm::Md5,
        said: true,
        realm,
        nonce,
        opaque: None,
        qop: Qop::Auth,
        userhash: false,
    })
}

/// Names the terms of a visit.
fn name_terms<B: Controller>(
    alloc: Global,
    book: &mut B,
    roster: &Roster,
    space: u32,
    visit: u8,
) -> Result<(), NoMemory>
    requires { B.roster book.old ≡ roster.now }
    ensures { B.roster book.new ≡ roster.now }
{
    let terms = terms(alloc, visit)?;
    if !is_home(book.names(), space, &terms) || !has_room(book, roster) {
        return Err(NoMemory);
    }
    book.terms_no(1, space, &terms)?;
    Ok(())
}

/// Names the space of a host, and the terms of its visits where it is a Digest host.
fn name_host<B: Controller>(
    alloc: Global,
    book: &mut B,
    roster: &Roster,
    side: u8,
    host: u8,
) -> Result<(), NoMemory>
    requires { B.roster book.old ≡ roster.now }
    ensures { B.roster book.new ≡ roster.now }
{
    let space = space(alloc, side, host)?;
    if !has_room(book, roster) {
        return Err(NoMemory);
    }
    let number = book.space_no(1, &space)?;
    if host == 2 || host == 3 {
        for visit in 0..VISITS {
            name_terms(alloc, book, roster, number, visit as u8)?;
        }
    }
    Ok(())
}

/// Names the spaces of a partition.
fn name_side<B: Controller>(
    alloc: Global,
    book: &mut B,
    roster: &Roster,
    side: u8,
) -> Result<(), NoMemory>
    requires { B.roster book.old ≡ roster.now }
    ensures { B.roster book.new ≡ roster.now }
{
    for host in 0..5 {
        name_host(alloc, book, roster, side, host)?;
    }
    Ok(())
}

/// Names the text that each prompt is answered with.
fn name_text<B: Controller>(alloc: Global, book: &mut B, roster: &Roster) -> Result<(), NoMemory>
    requires { B.roster book.old ≡ roster.now }
    ensures { B.roster book.new ≡ roster.now }
{
    let Ok(identity) = Identity::new(alloc, b"u", b"p") else {
        return Err(NoMemory);
    };
    if !has_room(book, roster) {
        return Err(NoMemory);
    }
    book.text_no(1, &identity)?;
    Ok(())
}

/// Names all things of the day.
pub fn name_all<B: Controller>(alloc: Global, book: &mut B, roster: &Roster) -> Result<(), NoMemory>
    requires { B.roster book.old ≡ roster.now }
    ensures { B.roster book.new ≡ roster.now }
{
    for side in 0..3 {
        name_side(alloc, book, roster, side)?;
    }
    name_text(alloc, book, roster)
}
