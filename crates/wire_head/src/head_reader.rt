//! The heads of requests, read back: what `write_head` writes of fit parts, and nothing else. A
//! head is read by its lines, and is taken only where writing what was read gives its very bytes.

ghost use Rattle.std.specs.Prelude.{◌≡◌, Some, ◌≤◌, ◌==◌, ◌||◌, ◌&&◌, ◌<◌, length, bytes_eq};
ghost use Rattle.std.specs.Prelude.{reverse, not, option_map, take, drop, IfOk, IfSome};
ghost use Rattle.std.specs.Prelude.{MatchResult};
ghost use Rattle.std.specs.List.{list_all, prefix_len, position_from};
ghost use Rattle.std.specs.Str.Parse.{digits_value};
ghost use Rattle.wire_head.specs.Lines.{cut_at};
ghost use Rattle.wire_head.specs.HeadLines as spec;
ghost use Rattle.wire_head.specs.ReadHeads as fit;

use crate::chunked_body::digit_of;
use crate::lines::{head_len, lf_at};
use crate::request_head::{HeadParts, write_head};
use auth_text::{Bytes, Items, NoMemory, front_of};
use spaces::{Method, Origin};
use std::alloc::Global;
use thiserror::Error;

/// A request's head that was read.
#[derive(Clone, Debug, Drop, PartialEq, Eq)]
pub struct ReadHead {
    pub method: Method,
    pub target: Bytes,
    /// The server's.
    pub origin: Origin,
    /// The value of `Proxy-Authorization`.
    pub proxy: Option<Bytes>,
    /// The value of `Authorization`.
    pub server: Option<Bytes>,
    /// Whether the connection is to stay open.
    pub keep: bool,
    /// The number of its bytes, those of the empty line included.
    pub length: usize,
}

/// Why no head was read.
#[derive(Clone, Copy, Debug, PartialEq, Eq, Error)]
pub enum HeadFault {
    /// There is no blank line.
    #[error("the head has no end yet")]
    Unfinished,
    /// The bytes up to the first blank line aren't a head that `write_head` writes of fit parts.
    #[error("the head is none of ours")]
    NotOurs,
    #[error("no memory")]
    NoMemory,
}

fn ends_bracketed(text: &[u8]) -> bool
    ensures { result ≡ fit.first_is 93 (reverse text.now) }
{
    match text.iter().rev().next() {
        Some(b) => *b == b']',
        None => false,
    }
}

fn has_colon(text: &[u8]) -> bool
    ensures { result ≡ fit.has_colon text.now }
{
    text.contains(&b':')
}

fn port_len(text: &[u8]) -> usize
    ensures value { result ≡ spec.port_len text.now }
    ensures within { result ≤ length text.now }
{
    text.iter().rev().take_while(|b| **b != b':').count()
}

fn has_port(text: &[u8]) -> bool
    ensures { result ≡ spec.has_port text.now }
{
    has_colon(text) && !ends_bracketed(text)
}

fn bare(line: &[u8]) -> &[u8]
    ensures { result.now ≡ spec.bare line.now }
{
    &line[..line.len().saturating_sub(1)]
}

/// A line without its CR.
fn line_at(lines: &Items<Bytes>, at: usize) -> &[u8]
    ensures { result.now ≡ spec.line_at at lines.now }
{
    match lines.get(at) {
        Some(line) => bare(line.as_slice()),
        None => b"",
    }
}

fn word_len(text: &[u8]) -> usize
    ensures value { result ≡ prefix_len (λ b. not (b == 32)) text.now }
    ensures within { result ≤ length text.now }
{
    text.iter().take_while(|b| **b != b' ').count()
}

fn word(text: &[u8]) -> &[u8]
    ensures { result.now ≡ spec.word text.now }
{
    &text[..word_len(text)]
}

/// The first n bytes, or all.
fn front_at_most(text: &[u8], n: usize) -> &[u8]
    ensures { result.now ≡ take n text.now }
{
    if text.len() < n { text } else { &text[..n] }
}

/// What is behind the first n bytes, or nothing.
fn behind_at_most(text: &[u8], n: usize) -> &[u8]
    ensures { result.now ≡ drop n text.now }
{
    if text.len() < n { b"" } else { &text[n..] }
}

/// What stands behind a name.
fn behind_name<'a>(name: &[u8], line: &'a [u8]) -> Option<&'a [u8]>
    ensures { option_map (λ v. v.now) result ≡ spec.behind_name name.now line.now }
{
    if front_at_most(line, name.len()) == name {
        Some(behind_at_most(line, name.len()))
    } else {
        None
    }
}

fn host_of(text: &[u8]) -> &[u8]
    ensures { result.now ≡ spec.host_of text.now }
{
    if has_port(text) {
        front_at_most(text, text.len().saturating_sub(port_len(text) + 1))
    } else {
        text
    }
}

fn is_in_line(b: u8) -> bool
    ensures { result ≡ fit.in_line b }
{
    !(b == b'\r' || b == b'\n')
}

fn are_in_line(text: &[u8]) -> bool
    ensures { result ≡ list_all fit.in_line text.now }
{
    text.iter().all(|b| is_in_line(*b))
}

fn are_in_target(text: &[u8]) -> bool
    ensures { result ≡ list_all fit.in_target text.now }
{
    text.iter().all(|b| is_in_line(*b) && *b != b' ')
}

fn begins_bracketed(text: &[u8]) -> bool
    ensures { result ≡ fit.first_is 91 text.now }
{
    match text {
        [b, ..] => *b == b'[',
        [] => false,
    }
}

fn is_fit_host(host: &[u8]) -> bool
    ensures { result ≡ fit.is_fit_host host.now }
{
    are_in_line(host) && (!has_colon(host) || (begins_bracketed(host) && ends_bracketed(host)))
}

fn is_fit_value(value: &Option<Bytes>) -> bool
    ensures { result ≡ fit.is_fit_value value.now }
{
    match value {
        None => true,
        Some(value) => are_in_line(value.as_slice()),
    }
}

/// Whether the parts are fit to be written; of its type, a port is one.
fn is_fit(head: &ReadHead) -> bool
    ensures { result ≡ fit.is_fit head.now }
{
    are_in_target(head.target.as_slice())
        && is_fit_value(&head.proxy)
        && is_fit_value(&head.server)
        && is_fit_host(head.origin.host.as_slice())
        && (head.origin.port as u32) < 65536
}

/// The lines of a text.
fn lines(alloc: Global, text: &[u8]) -> Result<Items<Bytes>, NoMemory>
    ensures { IfOk result (λ them. them ≡ cut_at 10 text.now) }
{
    let mut them = Items::new(alloc);
    let mut rest = text;
    'lines: loop {
        match lf_at(rest) {
            Some(i) => {
                them.push(Bytes::from_slice(alloc, front_at_most(rest, i))?)?;
                rest = behind_at_most(rest, i + 1);
            }
            None => {
                them.push(Bytes::from_slice(alloc, rest)?)?;
                return Ok(them);
            }
        }
    }
}

/// Whether the line begins with the method HEAD.
fn is_head_line(line: &[u8]) -> bool
    ensures { result ≡ spec.is_head_line line.now }
{
    front_at_most(line, 5) == b"HEAD ".as_slice()
}

fn method_of(line: &[u8]) -> Method
    ensures { result ≡ spec.method_of line.now }
{
    if is_head_line(line) {
        Method::Head
    } else {
        Method::Get
    }
}

fn target_of(line: &[u8]) -> &[u8]
    ensures { result.now ≡ spec.target_of line.now }
{
    if is_head_line(line) {
        word(behind_at_most(line, 5))
    } else {
        word(behind_at_most(line, 4))
    }
}

/// The number of the digits, where it is a port.
fn port_number(digits: &[u8]) -> Option<u16>
    ensures { result ≡ spec.port_number (digits_value 10 digits.now) }
{
    let mut number: u32 = 0;
    for digit in digits {
        number = number * 10 + digit_of(*digit) as u32;
        if 65535 < number {
            return None;
        }
    }
    Some(number as u16)
}

fn port_of(text: &[u8]) -> Option<u16>
    ensures { result ≡ spec.port_of text.now }
{
    if has_port(text) {
        port_number(behind_at_most(text, text.len().saturating_sub(port_len(text))))
    } else {
        Some(80)
    }
}

/// The host and the port of a `Host` field, where the port is one.
fn origin_of(alloc: Global, text: &[u8]) -> Result<Option<Origin>, NoMemory>
    ensures { IfOk result (λ origin. origin ≡ spec.origin_of text.now) }
{
    let Some(port) = port_of(text) else {
        return Ok(None);
    };
    let host = Bytes::from_slice(alloc, host_of(text))?;
    Ok(Some(Origin { host, port }))
}

fn is_keep_alive(line: &[u8]) -> bool
    ensures { result ≡ spec.is_keep_alive line.now }
{
    line == b"Connection: keep-alive".as_slice()
}

/// The number of the line behind a field, where there is one.
fn next_line(value: Option<&[u8]>, at: usize) -> usize
    requires { at < 8 }
    ensures { result ≡ spec.next_line (option_map (λ v. v.now) value.entry) at }
{
    match value {
        Some(_) => at + 1,
        None => at,
    }
}

fn copied(alloc: Global, value: Option<&[u8]>) -> Result<Option<Bytes>, NoMemory>
    ensures { IfOk result (λ copy. copy ≡ option_map (λ v. v.now) value.entry) }
{
    match value {
        None => Ok(None),
        Some(value) => Ok(Some(Bytes::from_slice(alloc, value)?)),
    }
}

/// The parts that the lines of a head of so many bytes give.
fn from_lines(
    alloc: Global,
    lines: &Items<Bytes>,
    length: usize,
) -> Result<Option<ReadHead>, NoMemory>
    ensures { IfOk result (λ head. head ≡ spec.from_lines length lines.now) }
{
    let first = line_at(lines, 0);
    let proxy = behind_name(b"Proxy-Authorization: ", line_at(lines, 2));
    let at = next_line(proxy, 2);
    let server = behind_name(b"Authorization: ", line_at(lines, at));
    let keep = is_keep_alive(line_at(lines, next_line(server, at)));
    let Some(origin) = origin_of(alloc, behind_at_most(line_at(lines, 1), 6))? else {
        return Ok(None);
    };
    Ok(Some(ReadHead {
        method: method_of(first),
        target: Bytes::from_slice(alloc, target_of(first))?,
        origin,
        proxy: copied(alloc, proxy)?,
        server: copied(alloc, server)?,
        keep,
        length,
    }))
}

fn slice_of(value: &Option<Bytes>) -> Option<&[u8]>
    ensures { option_map (λ v. v.now) result ≡ value.now }
{
    match value {
        None => None,
        Some(value) => Some(value.as_slice()),
    }
}

/// Whether the head of the parts is the text.
fn is_written(alloc: Global, head: &ReadHead, text: &[u8]) -> Result<bool, NoMemory>
    ensures { IfOk result (λ same. same ≡ bytes_eq (fit.written head.now) text.now) }
{
    let parts = HeadParts {
        method: head.method,
        target: head.target.as_slice(),
        origin: &head.origin,
        proxy: slice_of(&head.proxy),
        server: slice_of(&head.server),
        keep: head.keep,
    };
    let written = write_head(alloc, &parts)?;
    Ok(written.as_slice() == text)
}

/// The head, where its parts are fit and it is the text.
fn if_written(alloc: Global, head: ReadHead, text: &[u8]) -> Result<Option<ReadHead>, NoMemory>
    ensures { IfOk result (λ read. read ≡ spec.if_written text.now (Some head)) }
{
    if !is_fit(&head) {
        return Ok(None);
    }
    if is_written(alloc, &head, text)? {
        Ok(Some(head))
    } else {
        Ok(None)
    }
}

/// The head that the text is, where it is one of fit parts.
fn whole_head(alloc: Global, text: &[u8]) -> Result<Option<ReadHead>, NoMemory>
    ensures { IfOk result (λ head. head ≡ spec.head_read text.now) }
{
    let lines = lines(alloc, text)?;
    match from_lines(alloc, &lines, text.len())? {
        Some(head) => if_written(alloc, head, text),
        None => Ok(None),
    }
}

/// The request's head at the front of the bytes.
pub fn read_head(alloc: Global, bytes: &[u8]) -> Result<ReadHead, HeadFault>
    ensures { MatchResult result (fit.IsHeadOf bytes.now) (fit.IsNoHeadBy bytes.now) }
{
    let Some(length) = head_len(bytes) else {
        return Err(HeadFault::Unfinished);
    };
    match whole_head(alloc, front_of(bytes, length)) {
        Ok(Some(head)) => Ok(head),
        Ok(None) => Err(HeadFault::NotOurs),
        Err(NoMemory) => Err(HeadFault::NoMemory),
    }
}
