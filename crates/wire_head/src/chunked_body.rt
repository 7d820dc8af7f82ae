//! Chunked bodies (RFC 7230, section 4.1). Chunk lines are read here and not by `httparse`, whose
//! profile of them is another one.

ghost use Rattle.std.specs.Prelude.{◌≡◌, ◌+◌, ◌*◌, ◌<◌, ◌≤◌, ◌^◌, length, drop, take, IfSome, ◌==◌};
ghost use Rattle.std.specs.List.{prefix_len, position_from};
ghost use Rattle.std.specs.Char.{is_ascii_hexdigit, digit_value};
ghost use Rattle.std.specs.Str.Parse.{digits_value};
ghost use Rattle.wire_head.specs.Lines as lines;
ghost use Rattle.wire_head.specs.ChunkedBodies as spec;
ghost use Rattle.wire_head.specs.Within.{IsFrontWithin, IsChunkWithin, IsBodyWithin, IsFewIfWhole};

use crate::lines::{Front, blank_len, head_len, lf_at, line_end};
use auth_text::{front_of, rest_of};

/// The chunk at the front of a text.
#[derive(Clone, Copy, Debug, PartialEq, Eq)]
pub(crate) enum Chunk {
    /// One of so many bytes, and so many bytes of data among them.
    Data(usize, usize),
    /// The last one, with its trailer, of so many bytes.
    Last(usize),
    /// The byte of this place can't stand there.
    Wrong(usize),
    /// It hasn't ended yet.
    Part,
}

/// The chunked body at the front of a text.
#[derive(Clone, Copy, Debug, PartialEq, Eq)]
pub(crate) enum ChunkedBody {
    /// One of so many bytes, and so many bytes of data among them.
    Ends(usize, usize),
    /// The byte of this place can't stand there.
    Wrong(usize),
    /// It hasn't ended yet.
    Part,
}

/// The bytes up to and with the first LF.
fn line_len(text: &[u8]) -> Front
    ensures value { result ≡ spec.up_to (position_from (λ c. c == 10) 0 text.now) }
    ensures within { IsFrontWithin (length text.now) result }
{
    match lf_at(text) {
        Some(i) => Front::Whole(i + 1),
        None => Front::Part,
    }
}

/// What ends a size line: a line's end, or an extension and a line's end.
fn size_end(text: &[u8]) -> Front
    ensures value { result ≡ spec.size_end text.now }
    ensures within { IsFrontWithin (length text.now) result }
{
    match text {
        [b' ' | b'\t' | b';', ..] => line_len(text),
        _ => line_end(text),
    }
}

/// How many hexadecimal digits stand in lines.
fn digits_len(text: &[u8]) -> usize
    ensures value { result ≡ prefix_len is_ascii_hexdigit text.now }
    ensures within { result ≤ length text.now }
{
    text.iter().take_while(|b| b.is_ascii_hexdigit()).count()
}

/// The size line at the front, which begins with so many digits.
fn size_line(text: &[u8], digits: usize) -> Front
    requires { digits ≤ length text.now }
    ensures value { result ≡ spec.size_line_of digits text.now }
    ensures within { IsFrontWithin (length text.now) result }
    ensures few { IsFewIfWhole digits result }
{
    if digits == 0 {
        if text.is_empty() {
            Front::Part
        } else {
            Front::Wrong(0)
        }
    } else if 8 < digits {
        Front::Wrong(8)
    } else {
        match size_end(rest_of(text, digits)) {
            Front::Whole(n) => Front::Whole(digits + n),
            Front::Wrong(n) => Front::Wrong(digits + n),
            Front::Part => Front::Part,
        }
    }
}

/// The trailer at the front: lines up to and with an empty one.
fn trailer_len(text: &[u8]) -> Option<usize>
    ensures value { result ≡ spec.trailer_len text.now }
    ensures within { IfSome result (λ n. n ≤ length text.now) }
{
    match blank_len(text) {
        Some(n) => Some(n),
        None => head_len(text),
    }
}

/// The value of a digit, in either case, or 36.
pub(crate) fn digit_of(b: u8) -> usize
    ensures value { result ≡ digit_value b }
    ensures small { result ≤ 36 }
{
    match b {
        b'0'..=b'9' => (b - b'0') as usize,
        b'a'..=b'z' => (b - b'a') as usize + 10,
        b'A'..=b'Z' => (b - b'A') as usize + 10,
        _ => 36,
    }
}

/// The number of at most eight hexadecimal digits.
fn size_of(digits: &[u8]) -> usize
    requires { length digits.now ≤ 8 }
    ensures { result ≡ digits_value 16 digits.now }
{
    let mut size = 0;
    for digit in digits {
        size = size * 16 + digit_of(*digit);
    }
    size
}

/// The chunk of so many bytes of data behind n bytes.
fn data_chunk(n: usize, size: usize, rest: &[u8]) -> Chunk
    requires few { n + length rest.now < 2 ^ 63 }
    requires some { 0 < n }
    ensures value { result ≡ spec.data_chunk n size (lines.line_end (drop size rest.now)) }
    ensures within { IsChunkWithin (n + length rest.now) result }
{
    if rest.len() < size {
        return Chunk::Part;
    }
    match line_end(rest_of(rest, size)) {
        Front::Part => Chunk::Part,
        Front::Wrong(k) => Chunk::Wrong(n + size + k),
        Front::Whole(k) => Chunk::Data(n + size + k, size),
    }
}

/// The last chunk, whose trailer comes behind n bytes.
fn last_chunk(n: usize, rest: &[u8]) -> Chunk
    requires few { n + length rest.now < 2 ^ 63 }
    ensures value { result ≡ spec.last_chunk n (spec.trailer_len rest.now) }
    ensures within { IsChunkWithin (n + length rest.now) result }
{
    match trailer_len(rest) {
        Some(k) => Chunk::Last(n + k),
        None => Chunk::Part,
    }
}

/// The chunk at the lines.
pub(crate) fn first_chunk(text: &[u8]) -> Chunk
    ensures value { result ≡ spec.chunk text.now }
    ensures within { IsChunkWithin (length text.now) result }
{
    let digits = digits_len(text);
    match size_line(text, digits) {
        Front::Part => Chunk::Part,
        Front::Wrong(n) => Chunk::Wrong(n),
        Front::Whole(n) => {
            let size = size_of(front_of(text, digits));
            let rest = rest_of(text, n);
            if size == 0 {
                last_chunk(n, rest)
            } else {
                data_chunk(n, size, rest)
            }
        }
    }
}

/// The chunked body at the lines.
pub(crate) fn chunks(text: &[u8]) -> ChunkedBody
    ensures value { result ≡ spec.chunks 0 text.now }
    ensures within { IsBodyWithin (length text.now) result }
{
    let mut at = 0;
    let mut size = 0;
    'chunks: loop {
        match first_chunk(rest_of(text, at)) {
            Chunk::Part => return ChunkedBody::Part,
            Chunk::Wrong(k) => return ChunkedBody::Wrong(at + k),
            Chunk::Last(n) => return ChunkedBody::Ends(at + n, size),
            Chunk::Data(n, more) => {
                at += n;
                size += more;
            }
        }
    }
}
