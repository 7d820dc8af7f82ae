//! Replies at the limits of heads and bodies. Heads are fed byte by byte too, long bodies only at
//! their ends.

use crate::cuts::{
    BAD_FRAMING, BAD_HEAD, BODY_TOO_LONG, CUT, HEAD_TOO_LONG, Seen, is_read_in_blocks,
    is_read_in_bytes,
};
use auth_text::{Bytes, NoMemory};
use std::alloc::Global;
use std::test::Fail;

/// A front, so many times a text, a back, and what that comes out as.
type Row = (&'static [u8], usize, &'static [u8], &'static [u8], Seen);

const OK: &[u8] = b"HTTP/1.1 200 OK\r\n";

const INTERIM: &[u8] = b"HTTP/1.1 100 OK\r\nA: ";

/// Heads at their limits.
fn head_row(n: u32) -> Row {
    match n {
        // bytes without a blank line
        0 => (b"", 65537, b"a", b"", HEAD_TOO_LONG),
        1 => (b"", 65536, b"a", b"", CUT),
        // 256 lines, and one more, which is the blank one
        2 => (
            OK,
            254,
            b"A:\r\n",
            b"\r\nx",
            Seen::Whole(200, false, 1, 1036),
        ),
        3 => (OK, 255, b"A:\r\n", b"\r\n", HEAD_TOO_LONG),
        // 257 lines in two heads
        4 => (
            b"HTTP/1.1 100 OK\r\n\r\nHTTP/1.1 200 OK\r\n",
            253,
            b"A:\r\n",
            b"\r\nx",
            Seen::Whole(200, false, 1, 1051),
        ),
        // an interim head of 65,536 bytes
        5 => (INTERIM, 65512, b"b", b"\r\n\r\n", CUT),
        6 => (INTERIM, 65512, b"b", b"\r\n\r\nH", HEAD_TOO_LONG),
        // the first blank line decides, long before the limit
        _ => (b"\n\n", 65537, b"a", b"", BAD_HEAD),
    }
}

const CHUNK: &[u8] = b"HTTP/1.1 200 OK\r\nTransfer-Encoding: chunked\r\n\r\nFFFF8\r\n";

const LENGTH: &[u8] = b"HTTP/1.1 200 OK\r\nContent-Length: 1048576\r\n\r\n";

const TO_END: &[u8] = b"HTTP/1.1 200 OK\r\n\r\n";

const EIGHT: &[u8] = b"aaaaaaaa";

/// Bodies at their limits.
fn body_row(n: u32) -> Row {
    match n {
        0 => (
            LENGTH,
            131072,
            EIGHT,
            b"x",
            Seen::Whole(200, true, 1048576, 1048620),
        ),
        1 => (LENGTH, 131071, EIGHT, b"aaaaaaa", CUT),
        2 => (
            TO_END,
            131072,
            EIGHT,
            b"",
            Seen::Whole(200, false, 1048576, 1048595),
        ),
        3 => (TO_END, 131072, EIGHT, b"a", BODY_TOO_LONG),
        // byte 1,048,577 of a chunked body: right, wrong, and not there
        4 => (CHUNK, 131071, EIGHT, b"\r\n", BODY_TOO_LONG),
        5 => (CHUNK, 131071, EIGHT, b"\rx", BAD_FRAMING),
        6 => (CHUNK, 131071, EIGHT, b"\r", CUT),
        _ => (CHUNK, 131071, EIGHT, b"\n0", BODY_TOO_LONG),
    }
}

/// Adds a text, so many times another, and a third.
fn push_text(
    text: &mut Bytes,
    front: &[u8],
    times: usize,
    middle: &[u8],
    back: &[u8],
) -> Result<(), NoMemory> {
    text.extend_from_slice(front)?;
    for _ in 0..times {
        text.extend_from_slice(middle)?;
    }
    text.extend_from_slice(back)
}

/// Whether the row comes out as it says, in blocks, and byte by byte behind all but so many bytes.
fn is_read(alloc: Global, row: Row, last: usize) -> Result<bool, NoMemory> {
    let (front, times, middle, back, want) = row;
    let mut text = Bytes::new(alloc);
    push_text(&mut text, front, times, middle, back)?;
    let text = text.as_slice();
    let front = text.len().saturating_sub(last);
    Ok(is_read_in_blocks(alloc, text, want)? && is_read_in_bytes(alloc, text, front, want)?)
}

#[test]
fn the_limits_are_kept(rt: HostRuntime) -> Result<(), Fail> {
    for n in 0..8 {
        assert!(rt; is_read(rt.alloc(), head_row(n), 70000)?, "head {n}");
        assert!(rt; is_read(rt.alloc(), body_row(n), 16)?, "body {n}");
    }
    Ok(())
}

const CHUNKED: &[u8] = b"HTTP/1.1 200 OK\r\nTransfer-Encoding: chunked\r\n\r\n";

/// A chunked body of exactly 1,048,576 bytes with its framing: fifteen chunks of 65,536 bytes, one of
/// 65,531, and the last.
fn longest_chunked(alloc: Global) -> Result<Bytes, NoMemory> {
    let mut text = Bytes::from_slice(alloc, CHUNKED)?;
    for _ in 0..15 {
        push_text(&mut text, b"FFF8\r\n", 65528, b"a", b"\r\n")?;
    }
    push_text(&mut text, b"FFF3\r\n", 65523, b"a", b"\r\n")?;
    text.extend_from_slice(b"0\r\n\r\n")?;
    Ok(text)
}

#[test]
fn the_longest_chunked_body_is_read(rt: HostRuntime) -> Result<(), Fail> {
    let text = longest_chunked(rt.alloc())?;
    let text = text.as_slice();
    let want = Seen::Whole(200, true, 1048443, 1048623);
    assert!(rt; is_read_in_blocks(rt.alloc(), text, want)?);
    assert!(rt; is_read_in_bytes(rt.alloc(), text, 0, want)?);
    Ok(())
}
