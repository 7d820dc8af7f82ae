//! What a simulated server writes: replies and challenges.

ghost use Rattle.std.specs.Prelude.{◌≡◌, ◌++◌, IfOk, OnOk, decimal};
ghost use Rattle.auth_text.specs.Quoted.{quoted_text};
ghost use Rattle.digest_handler.specs.Credentials.{algorithm_name};
ghost use Rattle.origin_sim.specs.Texts as spec;

use auth_text::{Bytes, NoMemory, push_quoted};
use base64::engine::general_purpose::STANDARD;
use challenge_tokens::write_token68;
use itoa::Buffer;
use spaces::{Algorithm, Method};
use std::alloc::Global;

fn push_line(out: &mut Bytes, text: &[u8]) -> Result<(), NoMemory>
    ensures { OnOk result (out.new ≡ out.old ++ spec.line text.now) }
{
    out.extend_from_slice(text)?;
    out.extend_from_slice(b"\r\n")
}

fn push_challenge(out: &mut Bytes, name: &[u8], challenge: &[u8]) -> Result<(), NoMemory>
    ensures { OnOk result (out.new ≡ out.old ++ spec.line (name.now ++ challenge.now)) }
{
    out.extend_from_slice(name)?;
    out.extend_from_slice(challenge)?;
    out.extend_from_slice(b"\r\n")
}

fn push_no_body(out: &mut Bytes) -> Result<(), NoMemory>
    ensures { OnOk result (out.new ≡ out.old ++ spec.no_body) }
{
    push_line(out, b"Content-Length: 0")?;
    out.extend_from_slice(b"\r\n")
}

fn push_body(out: &mut Bytes, method: Method) -> Result<(), NoMemory>
    ensures { OnOk result (out.new ≡ out.old ++ spec.body method) }
{
    match method {
        Method::Get => out.extend_from_slice(b"ok"),
        Method::Head => Ok(()),
    }
}

/// The reply to a head that is accepted.
pub(crate) fn accepted(alloc: Global, method: Method) -> Result<Bytes, NoMemory>
    ensures { IfOk result (λ text. text ≡ spec.accepted method) }
{
    let mut text = Bytes::new(alloc);
    push_line(&mut text, b"HTTP/1.1 200 OK")?;
    push_line(&mut text, b"Content-Length: 2")?;
    text.extend_from_slice(b"\r\n")?;
    push_body(&mut text, method)?;
    Ok(text)
}

/// The reply to a head that a server refuses by a challenge.
pub(crate) fn refused_by_server(alloc: Global, challenge: &[u8]) -> Result<Bytes, NoMemory>
    ensures { IfOk result (λ text. text ≡ spec.refused_by_server challenge.now) }
{
    let mut text = Bytes::new(alloc);
    push_line(&mut text, b"HTTP/1.1 401 Unauthorized")?;
    push_challenge(&mut text, b"WWW-Authenticate: ", challenge)?;
    push_no_body(&mut text)?;
    Ok(text)
}

/// The reply to a head that a proxy refuses by a challenge.
pub(crate) fn refused_by_proxy(alloc: Global, challenge: &[u8]) -> Result<Bytes, NoMemory>
    ensures { IfOk result (λ text. text ≡ spec.refused_by_proxy challenge.now) }
{
    let mut text = Bytes::new(alloc);
    push_line(&mut text, b"HTTP/1.1 407 Proxy Authentication Required")?;
    push_challenge(&mut text, b"Proxy-Authenticate: ", challenge)?;
    push_no_body(&mut text)?;
    Ok(text)
}

/// The reply where nobody judges the head, or it can't be read.
pub(crate) fn not_found(alloc: Global) -> Result<Bytes, NoMemory>
    ensures { IfOk result (λ text. text ≡ spec.not_found) }
{
    let mut text = Bytes::new(alloc);
    push_line(&mut text, b"HTTP/1.1 404 Not Found")?;
    push_no_body(&mut text)?;
    Ok(text)
}

pub(crate) fn push_number(out: &mut Bytes, number: usize) -> Result<(), NoMemory>
    ensures { OnOk result (out.new ≡ out.old ++ decimal number) }
{
    let mut digits = Buffer::new();
    out.extend_from_slice(digits.format(number).as_bytes())
}

/// The nonce of a rule's numbered challenge.
pub(crate) fn nonce_text(
    alloc: Global,
    world: u32,
    rule: usize,
    challenge: usize,
) -> Result<Bytes, NoMemory>
    ensures { IfOk result (λ text. text ≡ spec.nonce_text world rule challenge) }
{
    let mut text = Bytes::from_slice(alloc, b"w")?;
    push_number(&mut text, world as usize)?;
    text.push(b'h')?;
    push_number(&mut text, rule)?;
    text.push(b'k')?;
    push_number(&mut text, challenge)?;
    Ok(text)
}

/// A Basic challenge.
pub(crate) fn basic_challenge(alloc: Global, realm: &[u8]) -> Result<Bytes, NoMemory>
    ensures { IfOk result (λ text. text ≡ spec.basic_challenge realm.now) }
{
    let mut text = Bytes::from_slice(alloc, b"Basic realm=")?;
    push_quoted(&mut text, realm)?;
    Ok(text)
}

/// The name of an algorithm, as challenges and credentials have it.
pub(crate) fn algorithm_name(algorithm: Algorithm) -> &'static [u8]
    ensures { result.now ≡ algorithm_name algorithm }
{
    match algorithm {
        Algorithm::Md5 => b"MD5",
        Algorithm::Sha256 => b"SHA-256",
    }
}

fn push_stale(out: &mut Bytes, stale: bool) -> Result<(), NoMemory>
    ensures { OnOk result (out.new ≡ out.old ++ spec.stale_text stale) }
{
    if stale {
        out.extend_from_slice(b", stale=true")
    } else {
        Ok(())
    }
}

fn push_named(out: &mut Bytes, name: &[u8], value: &[u8]) -> Result<(), NoMemory>
    ensures { OnOk result (out.new ≡ out.old ++ (name.now ++ quoted_text value.now)) }
{
    out.extend_from_slice(name)?;
    push_quoted(out, value)
}

fn push_algorithm(out: &mut Bytes, algorithm: Algorithm) -> Result<(), NoMemory>
    ensures { OnOk result (out.new ≡ out.old ++ spec.algorithm_text algorithm) }
{
    match algorithm {
        Algorithm::Md5 => out.extend_from_slice(b", algorithm=MD5"),
        Algorithm::Sha256 => out.extend_from_slice(b", algorithm=SHA-256"),
    }
}

/// A Digest challenge.
pub(crate) fn digest_challenge(
    alloc: Global,
    realm: &[u8],
    nonce: &[u8],
    algorithm: Algorithm,
    stale: bool,
) -> Result<Bytes, NoMemory>
    ensures { IfOk result (λ text. text ≡ spec.digest_challenge realm.now nonce.now algorithm
        stale) }
{
    let mut text = Bytes::new(alloc);
    push_named(&mut text, b"Digest realm=", realm)?;
    push_named(&mut text, b", nonce=", nonce)?;
    push_algorithm(&mut text, algorithm)?;
    push_named(&mut text, b", qop=", b"auth")?;
    push_stale(&mut text, stale)?;
    Ok(text)
}

/// Negotiate with a token, as a challenge and as credentials have it.
pub(crate) fn negotiate_text(alloc: Global, token: &[u8]) -> Result<Bytes, NoMemory>
    ensures { IfOk result (λ text. text ≡ spec.negotiate_text token.now) }
{
    let token = STANDARD.encode(alloc, token)?;
    write_token68(alloc, b"Negotiate", token.as_bytes())
}
