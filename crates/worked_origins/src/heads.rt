//! The heads of requests that are sent, and the replies to them.

use auth_text::{Bytes, NoMemory};
use std::alloc::Global;

/// The bytes, one behind the other.
pub(crate) fn joined(alloc: Global, parts: &[&[u8]]) -> Result<Bytes, NoMemory> {
    let mut text = Bytes::new(alloc);
    for part in parts {
        text.extend_from_slice(part)?;
    }
    Ok(text)
}

/// The head that asks for a target of a host, with field lines.
pub(crate) fn asking(
    alloc: Global,
    target: &[u8],
    host: &[u8],
    lines: &[u8],
) -> Result<Bytes, NoMemory> {
    joined(
        alloc,
        &[
            b"GET ",
            target,
            b" HTTP/1.1\r\nHost: ",
            host,
            b"\r\n",
            lines,
            b"Connection: close\r\n\r\n",
        ],
    )
}

/// The reply with a challenge.
pub(crate) fn refusal(alloc: Global, line: &[u8], challenge: &[u8]) -> Result<Bytes, NoMemory> {
    joined(
        alloc,
        &[
            b"HTTP/1.1 ",
            line,
            challenge,
            b"\r\nContent-Length: 0\r\n\r\n",
        ],
    )
}

pub(crate) const OK: &[u8] = b"HTTP/1.1 200 OK\r\nContent-Length: 2\r\n\r\nok";

pub(crate) const NOT_FOUND: &[u8] = b"HTTP/1.1 404 Not Found\r\nContent-Length: 0\r\n\r\n";
