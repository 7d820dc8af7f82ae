//! The servers and the proxy of the examples. The Basic credentials are those of RFC 7617,
//! section 2, and those of `test` with the password `123`.

use auth_text::{Bytes, NoMemory};
use origin_sim::{Kind, Rule, Rules};
use spaces::{Algorithm, Origin, Target};
use std::alloc::Global;

pub(crate) fn bytes(alloc: Global, text: &[u8]) -> Result<Bytes, NoMemory> {
    Bytes::from_slice(alloc, text)
}

pub(crate) fn origin(alloc: Global, host: &[u8]) -> Result<Origin, NoMemory> {
    Ok(Origin {
        host: bytes(alloc, host)?,
        port: 80,
    })
}

fn rule(alloc: Global, host: &[u8], target: Target, kind: Kind) -> Result<Rule, NoMemory> {
    Ok(Rule {
        origin: origin(alloc, host)?,
        target,
        kind,
    })
}

fn basic(alloc: Global, realm: &[u8], user: &[u8], password: &[u8]) -> Result<Kind, NoMemory> {
    Ok(Kind::Basic {
        realm: bytes(alloc, realm)?,
        user: bytes(alloc, user)?,
        password: bytes(alloc, password)?,
    })
}

fn digest(alloc: Global) -> Result<Kind, NoMemory> {
    Ok(Kind::Digest {
        realm: bytes(alloc, b"d")?,
        user: bytes(alloc, b"u")?,
        password: bytes(alloc, b"p")?,
        algorithm: Algorithm::Md5,
        uses: 2,
    })
}

pub(crate) fn rules(alloc: Global) -> Result<Rules, NoMemory> {
    let mut rules = Rules::new(alloc);
    rules.push(rule(alloc, b"open.example", Target::Server, Kind::Open)?)?;
    rules.push(rule(alloc, b"digest.example", Target::Server, digest(alloc)?)?)?;
    let kind = basic(alloc, b"a \"b\"", b"Aladdin", b"open sesame")?;
    rules.push(rule(alloc, b"basic.example", Target::Server, kind)?)?;
    let kind = basic(alloc, b"p", b"test", b"123")?;
    rules.push(rule(alloc, b"proxy.example", Target::Proxy, kind)?)?;
    Ok(rules)
}
