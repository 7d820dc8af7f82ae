//! What Digest credentials name. They are read in the one order in which they are written; whether
//! they are right is no question here.

ghost use Rattle.std.specs.Prelude.{◌≡◌, ◌+◌, length, take, drop, option_map, IfOk, IfSome};
ghost use Rattle.hex.specs.Hex.{decode_sized};
ghost use Rattle.wire_head.specs.HeadLines.{behind_name};
ghost use Rattle.origin_sim.specs.Named as spec;

use auth_text::{Bytes, NoMemory, QuoteFault, read_quoted};
use std::alloc::Global;

/// The parts of Digest credentials that the client chose.
#[derive(Drop)]
pub(crate) struct Named {
    pub(crate) nonce: Bytes,
    pub(crate) count: u32,
    pub(crate) cnonce: Bytes,
}

/// What stands behind the first n bytes; of a shorter text nothing.
fn behind(text: &[u8], n: usize) -> &[u8]
    ensures { result.now ≡ drop n text.now }
{
    if text.len() < n { b"" } else { &text[n..] }
}

/// The first n bytes; of a shorter text all.
fn front_at_most(text: &[u8], n: usize) -> &[u8]
    ensures { result.now ≡ take n text.now }
{
    if text.len() < n { text } else { &text[..n] }
}

/// What stands behind a name.
pub(crate) fn behind_name<'a>(name: &[u8], text: &'a [u8]) -> Option<&'a [u8]>
    ensures value { option_map (λ v. v.now) result ≡ behind_name name.now text.now }
    ensures fit { IfSome result (λ rest. length rest.now + length name.now ≡ length text.now) }
{
    text.strip_prefix(name)
}

/// The quoted string behind a name, and how many bytes stand for both.
fn next_value(alloc: Global, name: &[u8], text: &[u8]) -> Result<Option<(Bytes, usize)>, NoMemory>
    ensures { IfOk result (λ value. value ≡ spec.next_value name.now text.now) }
{
    let Some(rest) = behind_name(name, text) else {
        return Ok(None);
    };
    match read_quoted(alloc, rest) {
        Ok((value, n)) => Ok(Some((value, text.len() - rest.len() + n))),
        Err(QuoteFault::NoMemory) => Err(NoMemory),
        Err(_) => Ok(None),
    }
}

/// The count of eight hexadecimal digits.
fn count_of(digits: &[u8]) -> Option<u32>
    ensures { result ≡ spec.count_of (decode_sized digits.now 4) }
{
    let mut bytes = [0u8; 4];
    match hex::decode_to_slice(digits, &mut bytes) {
        Ok(()) => Some(u32::from_be_bytes(bytes)),
        Err(_) => None,
    }
}

/// The client's nonce behind a count, as the last field.
fn named_with(
    alloc: Global,
    nonce: Bytes,
    text: &[u8],
    count: u32,
) -> Result<Option<Named>, NoMemory>
    ensures { IfOk result (λ it. it ≡ spec.named_with nonce text.now count) }
{
    match next_value(alloc, b", cnonce=", behind(text, 8))? {
        Some((cnonce, _)) => Ok(Some(Named {
            nonce,
            count,
            cnonce,
        })),
        None => Ok(None),
    }
}

/// The count, and what stands behind it.
fn named_last(alloc: Global, nonce: Bytes, text: &[u8]) -> Result<Option<Named>, NoMemory>
    ensures { IfOk result (λ it. it ≡ spec.named_last nonce text.now) }
{
    match count_of(front_at_most(text, 8)) {
        Some(count) => named_with(alloc, nonce, text, count),
        None => Ok(None),
    }
}

/// The qop, and the fields behind it.
fn named_qop(alloc: Global, nonce: Bytes, text: &[u8]) -> Result<Option<Named>, NoMemory>
    ensures { IfOk result (λ it. it ≡ spec.named_qop nonce text.now) }
{
    match behind_name(b", qop=auth, nc=", text) {
        Some(rest) => named_last(alloc, nonce, rest),
        None => Ok(None),
    }
}

/// The fields behind the algorithm.
fn named_behind(alloc: Global, nonce: Bytes, text: &[u8]) -> Result<Option<Named>, NoMemory>
    ensures { IfOk result (λ it. it ≡ spec.named_behind nonce text.now) }
{
    match next_value(alloc, b", response=", text)? {
        Some((_, n)) => named_qop(alloc, nonce, behind(text, n)),
        None => Ok(None),
    }
}

/// The fields behind the nonce.
fn named_between(
    alloc: Global,
    algorithm: &[u8],
    nonce: Bytes,
    text: &[u8],
) -> Result<Option<Named>, NoMemory>
    ensures { IfOk result (λ it. it ≡ spec.named_between algorithm.now nonce text.now) }
{
    let Some((_, n)) = next_value(alloc, b", uri=", text)? else {
        return Ok(None);
    };
    let Some(rest) = behind_name(b", algorithm=", behind(text, n)) else {
        return Ok(None);
    };
    match behind_name(algorithm, rest) {
        Some(rest) => named_behind(alloc, nonce, rest),
        None => Ok(None),
    }
}

/// The fields from the realm on.
fn named_in(alloc: Global, algorithm: &[u8], text: &[u8]) -> Result<Option<Named>, NoMemory>
    ensures { IfOk result (λ it. it ≡ spec.named_in algorithm.now text.now) }
{
    let Some((_, n)) = next_value(alloc, b", realm=", text)? else {
        return Ok(None);
    };
    let text = behind(text, n);
    match next_value(alloc, b", nonce=", text)? {
        Some((nonce, n)) => named_between(alloc, algorithm, nonce, behind(text, n)),
        None => Ok(None),
    }
}

/// What credentials with that algorithm name.
pub(crate) fn read_named(
    alloc: Global,
    algorithm: &[u8],
    credentials: &[u8],
) -> Result<Option<Named>, NoMemory>
    ensures { IfOk result (λ it. it ≡ spec.named algorithm.now credentials.now) }
{
    match next_value(alloc, b"Digest username=", credentials)? {
        Some((_, n)) => named_in(alloc, algorithm, behind(credentials, n)),
        None => Ok(None),
    }
}
