//! Offers of whole replies, by examples of the RFCs.

ghost use Rattle.std.specs.Prelude.{IsTrue};
ghost use Rattle.spaces.specs.ProtectionSpaces.{has_realm};

use auth_text::{Bytes, NoMemory};
use challenge_offers::{Offer, best_offer, deciding_offer, next_nonce};
use spaces::{Algorithm, Origin, Partition, Scheme, Site, Space, Target};
use std::alloc::Global;
use std::test::Fail;
use wire_head::{Fields, Reply};

fn fields(alloc: Global, values: &[&[u8]]) -> Result<Fields, NoMemory> {
    let mut fields = Fields::new(alloc);
    for value in values {
        fields.push(Bytes::from_slice(alloc, value)?)?;
    }
    Ok(fields)
}

/// A 401 with these challenges.
fn challenged(alloc: Global, values: &[&[u8]]) -> Result<Reply, NoMemory> {
    Ok(Reply {
        code: 401,
        stays: true,
        body: 0,
        fields: fields(alloc, values)?,
        server_info: Fields::new(alloc),
        proxy_info: Fields::new(alloc),
    })
}

/// What is looked at of an offer.
#[derive(Clone, Copy, Debug, PartialEq, Eq)]
enum Taken {
    Basic,
    Digest(Algorithm, bool),
    Negotiate,
    Nothing,
}

fn seen(offer: Option<&Offer>) -> Taken {
    match offer {
        None => Taken::Nothing,
        Some(Offer::Basic { realm: _ }) => Taken::Basic,
        Some(Offer::Digest { terms, stale }) => Taken::Digest(terms.algorithm, *stale),
        Some(Offer::Negotiate) => Taken::Negotiate,
    }
}

/// The challenges of RFC 7616 section 3.9.1 without their opaque, and one whose nonce was stale.
const SHA_256: &[u8] =
    b"Digest realm=\"http-auth@example.org\", qop=\"auth, auth-int\", algorithm=SHA-256, nonce=\"7y\"";

const MD5: &[u8] =
    b"Digest realm=\"http-auth@example.org\", qop=\"auth, auth-int\", algorithm=MD5, nonce=\"7y\"";

const STALE: &[u8] = b"Digest realm=\"http-auth@example.org\", nonce=\"8z\", stale=TRUE";

/// RFC 7616 section 3.9.2: an algorithm that is passed over.
const SHA_512: &[u8] =
    b"Digest realm=\"api@example.org\", qop=\"auth\", algorithm=SHA-512-256, nonce=\"5T\"";

/// RFC 7235 section 4.1.
const TWO: &[u8] = b"Newauth realm=\"apps\", type=1, title=\"Login\", Basic realm=\"simple\"";

/// The challenges of a reply, whether tokens can be made, and what is taken.
fn best_row(n: u32) -> (&'static [&'static [u8]], bool, Taken) {
    match n {
        0 => (&[TWO], true, Taken::Basic),
        1 => (&[TWO, MD5], true, Taken::Digest(Algorithm::Md5, false)),
        2 => (
            &[SHA_256, MD5],
            true,
            Taken::Digest(Algorithm::Sha256, false),
        ),
        3 => (&[SHA_512, STALE], true, Taken::Digest(Algorithm::Md5, true)),
        4 => (&[SHA_512], true, Taken::Nothing),
        5 => (&[MD5, b"Negotiate"], true, Taken::Negotiate),
        6 => (
            &[MD5, b"Negotiate"],
            false,
            Taken::Digest(Algorithm::Md5, false),
        ),
        _ => (
            &[b"Basic QWxhZGRpbg==", b"Negotiate a=b"],
            true,
            Taken::Nothing,
        ),
    }
}

fn best(alloc: Global, values: &[&[u8]], negotiates: bool) -> Result<Taken, NoMemory> {
    let reply = challenged(alloc, values)?;
    let offer = best_offer(alloc, negotiates, &reply)?;
    Ok(seen(offer.as_ref()))
}

#[test]
fn the_best_challenge_is_taken(rt: HostRuntime) -> Result<(), Fail> {
    for n in 0..8 {
        let (values, negotiates, expected) = best_row(n);
        let taken = best(rt.alloc(), values, negotiates)?;
        assert_eq!(rt; taken, expected, "row {n}");
    }
    Ok(())
}

/// The server of the examples.
fn server(alloc: Global) -> Result<Site, NoMemory> {
    let Ok(partition) = Partition::new(alloc, b"main") else {
        return Err(NoMemory);
    };
    let host = Bytes::from_slice(alloc, b"www.example.org")?;
    Ok(Site {
        partition,
        target: Target::Server,
        origin: Origin { host, port: 80 },
    })
}

/// A space's scheme and realm, and the challenge that decides on what is held of it.
fn deciding_row(n: u32) -> (Scheme, &'static [u8], Taken)
    ensures { IsTrue (has_realm result.0 result.1.now) }
{
    match n {
        0 => (Scheme::Basic, b"simple", Taken::Basic),
        1 => (Scheme::Basic, b"apps", Taken::Nothing),
        2 => (
            Scheme::Digest,
            b"http-auth@example.org",
            Taken::Digest(Algorithm::Md5, true),
        ),
        _ => (Scheme::Digest, b"simple", Taken::Nothing),
    }
}

fn deciding(alloc: Global, reply: &Reply, scheme: Scheme, realm: &[u8]) -> Result<Taken, NoMemory>
    requires { IsTrue (has_realm scheme realm.now) }
{
    let space = Space::new(server(alloc)?, scheme, Bytes::from_slice(alloc, realm)?);
    let offer = deciding_offer(alloc, &server(alloc)?, &space, reply)?;
    Ok(seen(offer.as_ref()))
}

#[test]
fn the_first_challenge_of_a_space_decides(rt: HostRuntime) -> Result<(), Fail> {
    let reply = challenged(rt.alloc(), &[TWO, STALE, MD5])?;
    for n in 0..4 {
        let (scheme, realm, expected) = deciding_row(n);
        let taken = deciding(rt.alloc(), &reply, scheme, realm)?;
        assert_eq!(rt; taken, expected, "row {n}");
    }
    Ok(())
}

#[test]
fn an_offer_has_its_space(rt: HostRuntime) -> Result<(), Fail> {
    let alloc = rt.alloc();
    let realm = Bytes::from_slice(alloc, b"simple")?;
    let offer = Offer::Basic { realm };
    let space = offer.space_at(alloc, server(alloc)?)?;
    assert_eq!(rt; space.realm(), b"simple".as_slice());
    assert!(rt; offer.is_of_space(&server(alloc)?, &space));
    Ok(())
}

/// Infos of a reply, and the nonce that they have.
fn nonce_row(n: u32) -> (&'static [&'static [u8]], Option<&'static [u8]>) {
    match n {
        0 => (
            &[
                b"qop=auth",
                b"rspauth=\"\", nextnonce=\"b\"",
                b"nextnonce=c",
            ],
            Some(b"b"),
        ),
        1 => (&[b"qop=auth"], None),
        _ => (&[], None),
    }
}

/// Whether the first next nonce of the infos is that one, or there is none.
fn has_nonce(alloc: Global, values: &[&[u8]], expected: Option<&[u8]>) -> Result<bool, NoMemory> {
    let values = fields(alloc, values)?;
    let nonce = next_nonce(alloc, values.as_slice())?;
    Ok(match (&nonce, expected) {
        (Some(nonce), Some(expected)) => nonce.as_slice() == expected,
        (None, None) => true,
        _ => false,
    })
}

#[test]
fn the_first_next_nonce_is_read(rt: HostRuntime) -> Result<(), Fail> {
    for n in 0..3 {
        let (values, expected) = nonce_row(n);
        assert!(rt; has_nonce(rt.alloc(), values, expected)?, "row {n}");
    }
    Ok(())
}
