//! The reading of a parameter's value from the front of a text in one pass: the place where its
//! piece ends is where the reading stops, and is not looked for first.

ghost use Rattle.std.specs.Prelude.{◌≡◌, ◌≤◌, true, false, length, take, drop, IfOk, IfSome};
ghost use Rattle.auth_text.specs.Quoted.{quoted};
ghost use Rattle.challenge_tokens.specs.Forms as forms;
ghost use Rattle.challenge_tokens.specs.Front.{front, sized};
ghost use Rattle.challenge_tokens.specs.Front as spec;

use crate::piece::token_len;
use auth_text::{Bytes, NoMemory, QuoteFault, front_of, read_quoted, rest_of};
use field_lists::blank_len;
use std::alloc::Global;

/// A comma or the end stands in front.
pub fn is_over(text: &[u8]) -> bool
    ensures { result ≡ spec.is_over text.now }
{
    match text {
        [] => true,
        [b, ..] => *b == b',',
    }
}

/// This byte stands in front.
pub fn starts(text: &[u8], first: u8) -> bool
    ensures value { result ≡ spec.starts first text.now }
    ensures some { result ≡ true → 1 ≤ length text.now }
{
    match text {
        [] => false,
        [b, ..] => *b == first,
    }
}

/// How many blanks stand before a comma or the end, where nothing else does.
pub fn blank_piece(text: &[u8]) -> Option<usize>
    ensures value { result ≡ spec.blank_piece text.now }
    ensures within { IfSome result (λ n. n ≤ length text.now) }
{
    let n = blank_len(text);
    if is_over(rest_of(text, n)) {
        return Some(n);
    }
    None
}

fn token_value(alloc: Global, text: &[u8]) -> Result<Option<(Bytes, usize)>, NoMemory>
    requires { spec.starts 34 text.now ≡ false }
    ensures value { IfOk result (λ read. read ≡ sized (forms.value_of (front text.now)) text.now) }
    ensures within { IfOk result (λ read. IfSome read (λ x. x.1 ≤ length text.now)) }
{
    let n = token_len(text);
    if n == 0 {
        return Ok(None);
    }
    match blank_piece(rest_of(text, n)) {
        Some(blank) => Ok(Some((Bytes::from_slice(alloc, front_of(text, n))?, n + blank))),
        None => Ok(None),
    }
}

fn quoted_front(alloc: Global, text: &[u8]) -> Result<Option<(Bytes, usize)>, NoMemory>
    ensures { IfOk result (λ read. read ≡ spec.if_read (quoted text.now)) }
{
    match read_quoted(alloc, text) {
        Ok(read) => Ok(Some(read)),
        Err(QuoteFault::NoMemory) => Err(NoMemory),
        Err(_) => Ok(None),
    }
}

fn ended(value: Bytes, n: usize, text: &[u8]) -> Option<(Bytes, usize)>
    requires { n ≤ length text.now }
    ensures value { result ≡ spec.then_blank value n (spec.blank_piece (drop n text.now)) }
    ensures within { IfSome result (λ x. x.1 ≤ length text.now) }
{
    match blank_piece(rest_of(text, n)) {
        Some(blank) => Some((value, n + blank)),
        None => None,
    }
}

fn quoted_value(alloc: Global, text: &[u8]) -> Result<Option<(Bytes, usize)>, NoMemory>
    requires { spec.starts 34 text.now ≡ true }
    ensures value { IfOk result (λ read. read ≡ sized (forms.value_of (front text.now)) text.now) }
    ensures within { IfOk result (λ read. IfSome read (λ x. x.1 ≤ length text.now)) }
{
    match quoted_front(alloc, text)? {
        Some((value, n)) => Ok(ended(value, n, text)),
        None => Ok(None),
    }
}

/// The value that is the piece in front, and how many bytes that piece has.
pub fn value(alloc: Global, text: &[u8]) -> Result<Option<(Bytes, usize)>, NoMemory>
    ensures value { IfOk result (λ read. read ≡ sized (forms.value_of (front text.now)) text.now) }
    ensures within { IfOk result (λ read. IfSome read (λ x. x.1 ≤ length text.now)) }
{
    if starts(text, b'"') {
        return quoted_value(alloc, text);
    }
    token_value(alloc, text)
}

/// The value behind the `=` that the piece in front begins with, and how many bytes that piece has.
pub fn value_behind(alloc: Global, text: &[u8]) -> Result<Option<(Bytes, usize)>, NoMemory>
    ensures value { IfOk result (λ read. read
        ≡ sized (forms.value_behind (front text.now)) text.now) }
    ensures within { IfOk result (λ read. IfSome read (λ x. x.1 ≤ length text.now)) }
{
    if !starts(text, b'=') {
        return Ok(None);
    }
    let more = rest_of(text, 1);
    let n = blank_len(more);
    match value(alloc, rest_of(more, n))? {
        Some((value, len)) => Ok(Some((value, 1 + n + len))),
        None => Ok(None),
    }
}
