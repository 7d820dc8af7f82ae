//! The credentials of a Digest request, written field by field. The response is made here and
//! nowhere else, over the texts that the formulas name.

ghost use Rattle.std.specs.Prelude.{◌≡◌, ◌++◌, ◌∷◌, codes, IfOk, OnOk};
ghost use Rattle.digest_handler.specs.Credentials as spec;

use crate::hash::{AuthHash, Md5Hash, Sha256Hash, hex_bytes};
use auth_text::{Bytes, Identity, NoMemory, push_quoted};
use spaces::{Algorithm, Method, Qop, Terms};
use std::alloc::Global;

/// H of the formulas.
fn hex_of(alloc: Global, algorithm: Algorithm, message: &[u8]) -> Result<Bytes, NoMemory>
    ensures { IfOk result (λ text. text ≡ spec.hex_hash algorithm message.now) }
{
    match algorithm {
        Algorithm::Md5 => Md5Hash::hex_of(alloc, message),
        Algorithm::Sha256 => Sha256Hash::hex_of(alloc, message),
    }
}

/// The parts with a colon between each two.
fn with_colons(alloc: Global, a: &[u8], b: &[u8], c: &[u8]) -> Result<Bytes, NoMemory>
    ensures { IfOk result (λ text. text ≡ spec.with_colons a.now b.now c.now) }
{
    let mut text = Bytes::from_slice(alloc, a)?;
    text.extend_from_slice(b":")?;
    text.extend_from_slice(b)?;
    text.extend_from_slice(b":")?;
    text.extend_from_slice(c)?;
    Ok(text)
}

/// The count in eight hexadecimal digits.
fn count_digits(alloc: Global, count: u32) -> Result<Bytes, NoMemory>
    ensures { IfOk result (λ text. text ≡ spec.count_text count) }
{
    hex_bytes(alloc, count.to_be_bytes().as_slice())
}

/// Appends `name="value"`.
fn push_named(out: &mut Bytes, name: &[u8], value: &[u8]) -> Result<(), NoMemory>
    ensures { OnOk result (out.new ≡ out.old ++ spec.named name.now value.now) }
{
    out.extend_from_slice(name)?;
    out.extend_from_slice(b"=")?;
    push_quoted(out, value)
}

/// H of user, colon, realm (RFC 7616 section 3.4.4).
fn hashed_user(alloc: Global, terms: &Terms, user: &[u8]) -> Result<Bytes, NoMemory>
    ensures { IfOk result (λ text. text
        ≡ spec.hex_hash terms.now.algorithm (user.now ++ 58 ∷ terms.now.realm)) }
{
    let mut text = Bytes::from_slice(alloc, user)?;
    text.extend_from_slice(b":")?;
    text.extend_from_slice(terms.realm.as_slice())?;
    hex_of(alloc, terms.algorithm, text.as_slice())
}

/// Appends the user name, hashed where the terms ask for that.
fn push_user(alloc: Global, out: &mut Bytes, terms: &Terms, user: &[u8]) -> Result<(), NoMemory>
    ensures { OnOk result (out.new
        ≡ out.old ++ spec.named (codes "username") (spec.sent_user terms.now user.now)) }
{
    if !terms.userhash {
        return push_named(out, b"username", user);
    }
    let hash = hashed_user(alloc, terms, user)?;
    push_named(out, b"username", hash.as_slice())
}

/// Appends the user name, the realm, the nonce and the uri.
#[tactic(auto, unfolding(crate::specs::Credentials::first_fields))]
fn push_first(
    alloc: Global,
    out: &mut Bytes,
    terms: &Terms,
    user: &[u8],
    uri: &[u8],
) -> Result<(), NoMemory>
    ensures { OnOk result (out.new ≡ out.old ++ spec.first_fields terms.now user.now uri.now) }
{
    push_user(alloc, out, terms, user)?;
    out.extend_from_slice(b", ")?;
    push_named(out, b"realm", terms.realm.as_slice())?;
    out.extend_from_slice(b", ")?;
    push_named(out, b"nonce", terms.nonce.as_slice())?;
    out.extend_from_slice(b", ")?;
    push_named(out, b"uri", uri)
}

fn algorithm_name(algorithm: Algorithm) -> &'static [u8]
    ensures { result.now ≡ spec.algorithm_name algorithm }
{
    match algorithm {
        Algorithm::Md5 => b"MD5",
        Algorithm::Sha256 => b"SHA-256",
    }
}

fn push_said(out: &mut Bytes, algorithm: Algorithm) -> Result<(), NoMemory>
    ensures { OnOk result (out.new
        ≡ out.old ++ (codes ", algorithm=" ++ spec.algorithm_name algorithm)) }
{
    out.extend_from_slice(b", algorithm=")?;
    out.extend_from_slice(algorithm_name(algorithm))?;
    Ok(())
}

fn push_algorithm(out: &mut Bytes, said: bool, algorithm: Algorithm) -> Result<(), NoMemory>
    ensures { OnOk result (out.new ≡ out.old ++ spec.algorithm_field said algorithm) }
{
    if said {
        push_said(out, algorithm)
    } else {
        Ok(())
    }
}

fn push_opaque(out: &mut Bytes, opaque: &Option<Bytes>) -> Result<(), NoMemory>
    ensures { OnOk result (out.new ≡ out.old ++ spec.opaque_field opaque.now) }
{
    match opaque {
        None => Ok(()),
        Some(opaque) => {
            out.extend_from_slice(b", ")?;
            push_named(out, b"opaque", opaque.as_slice())
        }
    }
}

fn push_auth(alloc: Global, out: &mut Bytes, count: u32, cnonce: &[u8]) -> Result<(), NoMemory>
    ensures { OnOk result (out.new ≡ out.old ++ spec.qop_fields Qop.Auth count cnonce.now) }
{
    let digits = count_digits(alloc, count)?;
    out.extend_from_slice(b", qop=auth, nc=")?;
    out.extend_from_slice(digits.as_slice())?;
    out.extend_from_slice(b", ")?;
    push_named(out, b"cnonce", cnonce)?;
    Ok(())
}

fn push_qop(
    alloc: Global,
    out: &mut Bytes,
    qop: Qop,
    count: u32,
    cnonce: &[u8],
) -> Result<(), NoMemory>
    ensures { OnOk result (out.new ≡ out.old ++ spec.qop_fields qop count cnonce.now) }
{
    match qop {
        Qop::Missing => Ok(()),
        Qop::Auth => push_auth(alloc, out, count, cnonce),
    }
}

fn push_userhash(out: &mut Bytes, userhash: bool) -> Result<(), NoMemory>
    ensures { OnOk result (out.new ≡ out.old ++ spec.userhash_field userhash) }
{
    if userhash {
        out.extend_from_slice(b", userhash=true")
    } else {
        Ok(())
    }
}

/// What is hashed last.
fn last_text(
    alloc: Global,
    terms: &Terms,
    a1: &[u8],
    a2: &[u8],
    count: u32,
    cnonce: &[u8],
) -> Result<Bytes, NoMemory>
    ensures { IfOk result (λ text. text
        ≡ spec.last_text terms.now.qop terms.now.nonce a1.now a2.now count cnonce.now) }
{
    match terms.qop {
        Qop::Missing => with_colons(alloc, a1, terms.nonce.as_slice(), a2),
        Qop::Auth => {
            let digits = count_digits(alloc, count)?;
            let mut text = with_colons(alloc, a1, terms.nonce.as_slice(), digits.as_slice())?;
            text.extend_from_slice(b":")?;
            text.extend_from_slice(cnonce)?;
            text.extend_from_slice(b":auth:")?;
            text.extend_from_slice(a2)?;
            Ok(text)
        }
    }
}

/// A2.
fn request_text(alloc: Global, method: Method, uri: &[u8]) -> Result<Bytes, NoMemory>
    ensures { IfOk result (λ text. text ≡ spec.request_text method uri.now) }
{
    let mut text = Bytes::from_slice(alloc, method.name())?;
    text.extend_from_slice(b":")?;
    text.extend_from_slice(uri)?;
    Ok(text)
}

/// The response.
fn response_of(
    alloc: Global,
    terms: &Terms,
    identity: &Identity,
    method: Method,
    uri: &[u8],
    count: u32,
    cnonce: &[u8],
) -> Result<Bytes, NoMemory>
    ensures { IfOk result (λ text. text
        ≡ spec.response terms.now identity.now method uri.now count cnonce.now) }
{
    let algorithm = terms.algorithm;
    let login = with_colons(
        alloc,
        identity.user(),
        terms.realm.as_slice(),
        identity.password(),
    )?;
    let a1 = hex_of(alloc, algorithm, login.as_slice())?;
    let request = request_text(alloc, method, uri)?;
    let a2 = hex_of(alloc, algorithm, request.as_slice())?;
    let last = last_text(alloc, terms, a1.as_slice(), a2.as_slice(), count, cnonce)?;
    hex_of(alloc, algorithm, last.as_slice())
}

/// The value of `Authorization` or `Proxy-Authorization` that answers a Digest challenge of these
/// terms (RFC 7616 section 3.4). `uri` is the request target as it is sent. The count, which is
/// sent in eight digits, and the client's nonce play no part where the terms have no qop. The user
/// name is sent hashed where the terms have `userhash` (section 3.4.4); the response is made of the
/// one given.
pub fn respond(
    alloc: Global,
    terms: &Terms,
    identity: &Identity,
    method: Method,
    uri: &[u8],
    count: u32,
    cnonce: &[u8],
) -> Result<Bytes, NoMemory>
    ensures { IfOk result (λ text. text
        ≡ spec.digest_credentials terms.now identity.now method uri.now count cnonce.now) }
{
    let response = response_of(alloc, terms, identity, method, uri, count, cnonce)?;
    let mut text = Bytes::from_slice(alloc, b"Digest ")?;
    push_first(alloc, &mut text, terms, identity.user(), uri)?;
    push_algorithm(&mut text, terms.said, terms.algorithm)?;
    text.extend_from_slice(b", ")?;
    push_named(&mut text, b"response", response.as_slice())?;
    push_opaque(&mut text, &terms.opaque)?;
    push_qop(alloc, &mut text, terms.qop, count, cnonce)?;
    push_userhash(&mut text, terms.userhash)?;
    Ok(text)
}
