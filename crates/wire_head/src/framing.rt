//! What a reply's head says of what follows it: how the body ends, whether the connection stays
//! open (RFC 7230, sections 3.3.3 and 6.3), and the challenges or the infos (RFC 7615).

ghost use Rattle.std.specs.Prelude.{◌≡◌, ◌+◌, ◌<◌, ◌≤◌, length, ◌==◌, IfOk, codes, false};
ghost use Rattle.std.specs.List.{prefix_len, list_all, list_any};
ghost use Rattle.std.specs.Str.{str_eq_ignore_ascii_case};
ghost use Rattle.std.specs.Str.Parse.{digits_value};
ghost use Rattle.std.specs.Char.{is_ascii_digit};
ghost use Rattle.wire_head.specs.Replies as spec;

use crate::chunked_body::digit_of;
use crate::header_fields::{is_same_name, values_of};
use crate::reply::{Fields, Reply, is_challenge};
use crate::response_head::ReplyHead;
use auth_text::{Bytes, NoMemory, are_digits, rest_of};
use field_lists::elements;
use spaces::Method;
use std::alloc::Global;

/// How a body ends.
#[derive(Clone, Copy, Debug, PartialEq, Eq)]
pub(crate) enum Framing {
    /// After so many bytes.
    Length(u32),
    /// With its last chunk.
    Chunked,
    /// With the stream.
    ToEnd,
    /// The lengths are no numbers, or contradict each other.
    Bad,
    /// The length is past the limit.
    TooLong,
}

fn is_bodiless(method: Method, code: u16) -> bool
    ensures { result ≡ spec.is_bodiless method code }
{
    matches!(method, Method::Head) || code == 204 || code == 304
}

fn without_zeros(digits: &[u8]) -> &[u8]
    ensures { result.now ≡ spec.without_zeros digits.now }
{
    rest_of(digits, zeros(digits))
}

/// How many zeros stand in front.
fn zeros(digits: &[u8]) -> usize
    ensures value { result ≡ prefix_len (λ d. d == 48) digits.now }
    ensures within { result ≤ length digits.now }
{
    digits.iter().take_while(|d| **d == b'0').count()
}

fn is_number_as(e: &[u8], f: &[u8]) -> bool
    ensures { result ≡ spec.is_number_as e.now f.now }
{
    are_digits(f) && without_zeros(e) == without_zeros(f)
}

/// A length, where it is within the limit.
fn by_number(digits: &[u8]) -> Framing
    ensures { result ≡ spec.by_number (digits_value 10 digits.now) }
{
    let mut number: u32 = 0;
    for digit in digits {
        number = number * 10 + digit_of(*digit) as u32;
        if 1048576 < number {
            return Framing::TooLong;
        }
    }
    Framing::Length(number)
}

fn all_as(first: &[u8], elements: &[Bytes]) -> bool
    ensures { result ≡ list_all (spec.is_number_as first.now) elements.now }
{
    elements.iter().all(|e| is_number_as(first, e.as_slice()))
}

fn by_lengths(elements: &[Bytes]) -> Framing
    ensures { result ≡ spec.by_lengths elements.now }
{
    let [first, ..] = elements else {
        return Framing::Bad;
    };
    if all_as(first.as_slice(), elements) {
        by_number(first.as_slice())
    } else {
        Framing::Bad
    }
}

fn ends_chunked(elements: &Fields) -> bool
    ensures { result ≡ spec.ends_chunked elements.now }
{
    match elements.get(elements.len().saturating_sub(1)) {
        Some(last) => is_same_name(last.as_slice(), b"chunked"),
        None => false,
    }
}

fn by_length_fields(alloc: Global, values: &Fields) -> Result<Framing, NoMemory>
    ensures { IfOk result (λ f. f ≡ spec.by_length_fields values.now) }
{
    if values.len() == 0 {
        return Ok(Framing::ToEnd);
    }
    let elements = elements(alloc, values.as_slice())?;
    Ok(by_lengths(elements.as_slice()))
}

fn by_fields(alloc: Global, codings: &Fields, lengths: &Fields) -> Result<Framing, NoMemory>
    ensures { IfOk result (λ f. f ≡ spec.by_fields codings.now lengths.now) }
{
    if codings.len() == 0 {
        return by_length_fields(alloc, lengths);
    }
    let elements = elements(alloc, codings.as_slice())?;
    if ends_chunked(&elements) {
        Ok(Framing::Chunked)
    } else {
        Ok(Framing::ToEnd)
    }
}

/// How the body behind this head ends.
pub(crate) fn framing_of(
    alloc: Global,
    method: Method,
    head: &ReplyHead,
) -> Result<Framing, NoMemory>
    ensures { IfOk result (λ f. f ≡ spec.framing method head.now) }
{
    if is_bodiless(method, head.code) {
        return Ok(Framing::Length(0));
    }
    let codings = values_of(alloc, b"Transfer-Encoding", head.fields.as_slice())?;
    let lengths = values_of(alloc, b"Content-Length", head.fields.as_slice())?;
    by_fields(alloc, &codings, &lengths)
}

fn has_close(elements: &[Bytes]) -> bool
    ensures { result ≡ list_any (λ e. str_eq_ignore_ascii_case e (codes "close")) elements.now }
{
    elements
        .iter()
        .any(|e| is_same_name(e.as_slice(), b"close"))
}

fn is_to_end(framing: Framing) -> bool
    ensures { result ≡ spec.is_to_end framing }
{
    matches!(framing, Framing::ToEnd)
}

fn stays(alloc: Global, framing: Framing, head: &ReplyHead) -> Result<bool, NoMemory>
    ensures { IfOk result (λ b. b ≡ spec.stays framing head.now) }
{
    let values = values_of(alloc, b"Connection", head.fields.as_slice())?;
    let elements = elements(alloc, values.as_slice())?;
    let closes = has_close(elements.as_slice());
    Ok(head.minor == 1 && !is_to_end(framing) && !closes)
}

fn challenges(alloc: Global, head: &ReplyHead) -> Result<Fields, NoMemory>
    ensures { IfOk result (λ them. them ≡ spec.challenges head.now) }
{
    if head.code == 401 {
        values_of(alloc, b"WWW-Authenticate", head.fields.as_slice())
    } else if head.code == 407 {
        values_of(alloc, b"Proxy-Authenticate", head.fields.as_slice())
    } else {
        Ok(Fields::new(alloc))
    }
}

/// The values of a field of infos; a challenge has none.
fn infos(alloc: Global, name: &[u8], head: &ReplyHead) -> Result<Fields, NoMemory>
    ensures { IfOk result (λ them. them ≡ spec.infos name.now head.now) }
{
    if is_challenge(head.code) {
        return Ok(Fields::new(alloc));
    }
    values_of(alloc, name, head.fields.as_slice())
}

pub(crate) fn reply_of(
    alloc: Global,
    framing: Framing,
    head: &ReplyHead,
    body: u32,
) -> Result<Reply, NoMemory>
    ensures { IfOk result (λ reply. reply ≡ spec.reply_of framing head.now body) }
{
    let stays = stays(alloc, framing, head)?;
    let fields = challenges(alloc, head)?;
    let server_info = infos(alloc, b"Authentication-Info", head)?;
    let proxy_info = infos(alloc, b"Proxy-Authentication-Info", head)?;
    Ok(Reply {
        code: head.code,
        stays,
        body,
        fields,
        server_info,
        proxy_info,
    })
}
