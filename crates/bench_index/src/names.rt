//! The names that the calls of a pair of requests speak of: a Digest space, two terms of it, and
//! one text.

ghost use Rattle.std.specs.Prelude.{◌≡◌, ◌<◌, ◌*◌, length, IsTrue};
ghost use Rattle.auth_events.specs.Tables.{is_home};

use crate::roster::space;
use auth_events::{Controller, Names};
use auth_text::{Bytes, Identity, NoMemory};
use spaces::{Algorithm, Qop, Roster, Scheme, Terms};
use std::alloc::Global;

/// The numbers of a pair's space, of the terms that it is selected with, and of those that it is
/// renewed with.
#[derive(Clone, Copy)]
pub struct Numbers {
    pub space: u32,
    pub terms: u32,
    pub renewed: u32,
}

/// Whether the book may name one more of each kind.
fn has_room<B: Controller>(book: &B, roster: &Roster) -> bool
    requires { B.roster book.now ≡ roster.now }
    ensures spaces { IsTrue result
        → length (B.names book.now).spaces < 64 * length (B.roster book.now).requests }
    ensures terms { IsTrue result
        → length (B.names book.now).terms < 64 * length (B.roster book.now).requests }
    ensures nonces { IsTrue result
        → length (B.names book.now).nonces < 16 * length (B.roster book.now).requests }
    ensures texts { IsTrue result
        → length (B.names book.now).texts < 64 * length (B.roster book.now).requests }
{
    let names = book.names();
    let requests = roster.requests.len();
    requests <= 2048
        && (names.spaces_len() as usize) < 64 * requests
        && (names.terms_len() as usize) < 64 * requests
        && (names.nonces_len() as usize) < 16 * requests
        && (names.texts_len() as usize) < 64 * requests
}

/// Whether the space is a Digest space with the terms' realm.
fn is_home(names: &Names, space: u32, terms: &Terms) -> bool
    ensures { result ≡ is_home names.now space terms.now }
{
    match names.space(space) {
        Some(named) => named.scheme() == Scheme::Digest && named.realm() == terms.realm.as_slice(),
        None => false,
    }
}

fn terms(alloc: Global, nonce: u8) -> Result<Terms, NoMemory> {
    let realm = Bytes::from_slice(alloc, b"r")?;
    let nonce = Bytes::from_slice(alloc, &[b'n', nonce])?;
    Ok(Terms {
        algorithm: Algorithm::Md5,
        said: true,
        realm,
        nonce,
        opaque: None,
        qop: Qop::Auth,
        userhash: false,
    })
}

/// The number of the terms with that nonce.
fn name_terms<B: Controller>(
    alloc: Global,
    book: &mut B,
    roster: &Roster,
    space: u32,
    nonce: u8,
) -> Result<u32, NoMemory>
    requires { B.roster book.old ≡ roster.now }
    ensures { B.roster book.new ≡ roster.now }
{
    let terms = terms(alloc, nonce)?;
    if !is_home(book.names(), space, &terms) || !has_room(book, roster) {
        return Err(NoMemory);
    }
    Ok(book.terms_no(1, space, &terms)?.terms)
}

/// The number of the pair's space.
fn name_space<B: Controller>(
    alloc: Global,
    book: &mut B,
    roster: &Roster,
    pair: u32,
) -> Result<u32, NoMemory>
    requires { B.roster book.old ≡ roster.now }
    ensures { B.roster book.new ≡ roster.now }
{
    let space = space(alloc, pair)?;
    if !has_room(book, roster) {
        return Err(NoMemory);
    }
    Ok(book.space_no(1, &space)?)
}

/// Names the things of a pair.
pub fn name_pair<B: Controller>(
    alloc: Global,
    book: &mut B,
    roster: &Roster,
    pair: u32,
) -> Result<Numbers, NoMemory>
    requires { B.roster book.old ≡ roster.now }
    ensures { B.roster book.new ≡ roster.now }
{
    let space = name_space(alloc, book, roster, pair)?;
    let terms = name_terms(alloc, book, roster, space, 0)?;
    let renewed = name_terms(alloc, book, roster, space, 1)?;
    Ok(Numbers {
        space,
        terms,
        renewed,
    })
}

/// Names the text that each prompt is answered with.
pub fn name_text<B: Controller>(
    alloc: Global,
    book: &mut B,
    roster: &Roster,
) -> Result<(), NoMemory>
    requires { B.roster book.old ≡ roster.now }
    ensures { B.roster book.new ≡ roster.now }
{
    let Ok(identity) = Identity::new(alloc, b"u", b"p") else {
        return Err(NoMemory);
    };
    if !has_room(book, roster) {
        return Err(NoMemory);
    }
    book.text_no(1, &identity)?;
    Ok(())
}
