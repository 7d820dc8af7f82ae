//! Replies to GET and HEAD. Each text is fed to both readers, cut in two at each place and in pieces
//! of each size, and must come out the same.

use crate::cuts::{BAD_FRAMING, BAD_HEAD, BODY_TOO_LONG, CUT, Seen, is_read_in_each_cut};
use auth_text::{Bytes, NoMemory};
use spaces::Method;
use std::alloc::Global;
use std::process::Abort;
use std::test::Fail;

/// The front of a text, the rest of it, and what it comes out as.
type Row = (&'static [u8], &'static [u8], Seen);

const OK: &[u8] = b"HTTP/1.1 200 OK\r\n";

const CHUNKED: &[u8] = b"HTTP/1.1 200 OK\r\nTransfer-Encoding: chunked\r\n\r\n";

const CONTINUE: &[u8] = b"HTTP/1.1 100 Continue\r\n\r\n";

/// A 200 with a body of so many bytes, after which the connection stays.
fn whole(body: u32, used: usize) -> Seen {
    Seen::Whole(200, true, body, used)
}

/// The same with a connection that doesn't stay.
fn last(body: u32, used: usize) -> Seen {
    Seen::Whole(200, false, body, used)
}

/// Where a body has a length, or has none.
fn length_row(n: u32) -> Option<Row> {
    let row: Row = match n {
        0 => (OK, b"Content-Length: 5\r\n\r\nabc", CUT),
        1 => (OK, b"Content-Length: 5\r\n\r\nabcdefg", whole(5, 43)),
        2 => (OK, b"Content-Length: 5, 6\r\n\r\n", BAD_FRAMING),
        3 => (OK, b"Content-Length: 5, 005\r\n\r\nabcde", whole(5, 48)),
        4 => (
            OK,
            b"Content-Length: 5\r\ncontent-length: 6\r\n\r\nabcde",
            BAD_FRAMING,
        ),
        5 => (OK, b"Content-Length: 1048577\r\n\r\n", BODY_TOO_LONG),
        6 => (
            OK,
            b"Content-Length: 10000000000000000000000\r\n\r\n",
            BODY_TOO_LONG,
        ),
        7 => (OK, b"Content-Length: 5, 99999999\r\n\r\n", BAD_FRAMING),
        8 => (OK, b"Content-Length: 1x\r\n\r\n", BAD_FRAMING),
        9 => (OK, b"Content-Length: -1\r\n\r\n", BAD_FRAMING),
        10 => (OK, b"Content-Length:\r\n\r\n", BAD_FRAMING),
        11 => (OK, b"Content-Length: ,\r\n\r\n", BAD_FRAMING),
        12 => (
            b"HTTP/1.1 204 No\r\n",
            b"Content-Length: 5, 6\r\n\r\nabc",
            Seen::Whole(204, true, 0, 41),
        ),
        13 => (
            b"HTTP/1.1 304 No\r\n",
            b"Transfer-Encoding: gzip\r\n\r\n",
            Seen::Whole(304, true, 0, 44),
        ),
        _ => return None,
    };
    Some(row)
}

const NO_BODY: &[u8] = b"Content-Length: 0\r\n\r\n";

/// Which bytes are a head.
fn head_row(n: u32) -> Option<Row> {
    let row: Row = match n {
        0 => (b"HTP\r\n", b"\r\n", BAD_HEAD),
        1 => (b"HTP\n", b"\n", BAD_HEAD),
        2 => (b"HTP", b"", CUT),
        3 => (b"\r\nHTTP/1.1 200 OK\r\n", NO_BODY, whole(0, 40)),
        4 => (b"\n\n", b"", BAD_HEAD),
        5 => (b"\r\n\r\nHTTP/1.1 200 OK\r\n", b"\r\n", BAD_HEAD),
        6 => (b"HTTP/1.1 200 OK\n", b"Content-Length: 0\n\n", whole(0, 35)),
        7 => (b"HTTP/2.0 200 OK\r\n", NO_BODY, BAD_HEAD),
        8 => (b"HTTP/1.1 20 OK\r\n", NO_BODY, BAD_HEAD),
        9 => (OK, b"Content Length: 0\r\n\r\n", BAD_HEAD),
        10 => (b"HTTP/1.1 600 \r\n", NO_BODY, Seen::Whole(600, true, 0, 36)),
        11 => (b"HTTP/1.1 099\r\n", NO_BODY, Seen::Whole(99, true, 0, 35)),
        _ => return None,
    };
    Some(row)
}

/// Heads that come before the final one.
fn interim_row(n: u32) -> Option<Row> {
    let row: Row = match n {
        0 => (
            CONTINUE,
            b"HTTP/1.1 200 OK\r\nContent-Length: 1\r\n\r\na",
            whole(1, 64),
        ),
        1 => (
            b"HTTP/1.1 101 Switching\r\n\r\nHTTP/1.1 103 Early\r\n\r\n",
            b"HTTP/1.1 200 OK\r\nContent-Length: 0\r\n\r\n",
            whole(0, 86),
        ),
        2 => (CONTINUE, b"", CUT),
        3 => (CONTINUE, b"HTP\r\n\r\n", BAD_HEAD),
        _ => return None,
    };
    Some(row)
}

const CODINGS: &[u8] =
    b"HTTP/1.1 200 OK\r\nTransfer-Encoding: gzip\r\ntransfer-encoding: Chunked,\r\n";

/// Chunked bodies.
fn chunk_row(n: u32) -> Option<Row> {
    let row: Row = match n {
        0 => (CHUNKED, b"3\r\nabc\r\n0\r\n\r\n", whole(3, 60)),
        1 => (
            CODINGS,
            b"Content-Length: 9, 8\r\n\r\n3\nabc\n000\nA: b\n\nHTTP",
            whole(3, 111),
        ),
        2 => (CHUNKED, b"3;\r x\nabc\n0\n\n", whole(3, 60)),
        3 => (CHUNKED, b"3 \tq\r\nabc\n0\n\n", whole(3, 60)),
        4 => (CHUNKED, b"3\rx", BAD_FRAMING),
        5 => (CHUNKED, b"3\r\nabcd", BAD_FRAMING),
        6 => (CHUNKED, b"3\r\nabc\rd", BAD_FRAMING),
        7 => (CHUNKED, b"3q", BAD_FRAMING),
        8 => (CHUNKED, b"\r\n", BAD_FRAMING),
        9 => (CHUNKED, b"00000003\r\nabc\r\n0\r\n\r\n", whole(3, 67)),
        10 => (CHUNKED, b"000000003\r\nabc\r\n0\r\n\r\n", BAD_FRAMING),
        11 => (CHUNKED, b"FFFFFFFF\r\nabc", CUT),
        12 => (CHUNKED, b"0\r\n\r\r\nA\r\n\r\nHTTP", whole(0, 58)),
        13 => (CHUNKED, b"0\r\n\r\r\n", CUT),
        14 => (
            b"HTTP/1.0 200 OK\r\n",
            b"Transfer-Encoding: chunked\r\n\r\n0\r\n\r\n",
            last(0, 52),
        ),
        _ => return None,
    };
    Some(row)
}

/// Bodies that go to the end of the stream, and connections that stay or don't.
fn connection_row(n: u32) -> Option<Row> {
    let row: Row = match n {
        0 => (OK, b"\r\nabc", last(3, 22)),
        1 => (
            OK,
            b"Transfer-Encoding:\r\nContent-Length: 5, 6\r\n\r\nabc",
            last(3, 64),
        ),
        2 => (
            OK,
            b"Transfer-Encoding: chunked;q=1\r\n\r\n3\r\n",
            last(3, 54),
        ),
        3 => (
            OK,
            b"Transfer-Encoding: chunked, gzip\r\nContent-Length: 1\r\n\r\nab",
            last(2, 74),
        ),
        4 => (b"HTTP/1.0 200 OK\r\n", NO_BODY, last(0, 38)),
        5 => (
            b"HTTP/1.1 200 OK\r\nConnection: keep-alive, CLOSE\r\n",
            NO_BODY,
            last(0, 69),
        ),
        6 => (
            b"HTTP/1.1 200 OK\r\nConnection: closed\r\n",
            NO_BODY,
            whole(0, 58),
        ),
        _ => return None,
    };
    Some(row)
}

/// A reply to HEAD has no body, whatever its fields say.
fn row_to_head(n: u32) -> Option<Row> {
    let row: Row = match n {
        0 => (OK, b"Content-Length: 5, 6\r\n\r\nHTTP", whole(0, 41)),
        1 => (OK, b"Transfer-Encoding: gzip\r\n\r\n", whole(0, 44)),
        2 => (CONTINUE, b"HTTP/1.1 200 OK\r\n\r\n", whole(0, 44)),
        _ => return None,
    };
    Some(row)
}

#[derive(Clone, Copy, Debug)]
enum Table {
    Lengths,
    Heads,
    Interim,
    Chunks,
    Connections,
    ToHead,
}

impl Table {
    /// Its row of that number, from 0.
    fn row(self, n: u32) -> Option<Row> {
        match self {
            Table::Lengths => length_row(n),
            Table::Heads => head_row(n),
            Table::Interim => interim_row(n),
            Table::Chunks => chunk_row(n),
            Table::Connections => connection_row(n),
            Table::ToHead => row_to_head(n),
        }
    }

    fn method(self) -> Method {
        match self {
            Table::ToHead => Method::Head,
            _ => Method::Get,
        }
    }
}

/// Whether the row comes out as it says, however it is cut.
fn is_read(alloc: Global, method: Method, row: Row) -> Result<bool, NoMemory> {
    let (front, back, want) = row;
    let mut text = Bytes::from_slice(alloc, front)?;
    text.extend_from_slice(back)?;
    is_read_in_each_cut(alloc, method, text.as_slice(), want)
}

/// Each row of the table comes out as it says. Answers how many there are.
fn are_read(rt: &impl Abort, alloc: Global, table: Table) -> Result<u32, NoMemory> {
    for n in 0..100 {
        let Some(row) = table.row(n) else {
            return Ok(n);
        };
        assert!(rt; is_read(alloc, table.method(), row)?, "{table:?} {n}");
    }
    Ok(100)
}

#[test]
fn replies_come_out_so(rt: HostRuntime) -> Result<(), Fail> {
    assert_eq!(rt; are_read(&rt, rt.alloc(), Table::Lengths)?, 14);
    assert_eq!(rt; are_read(&rt, rt.alloc(), Table::Heads)?, 12);
    assert_eq!(rt; are_read(&rt, rt.alloc(), Table::Interim)?, 4);
    assert_eq!(rt; are_read(&rt, rt.alloc(), Table::Chunks)?, 15);
    assert_eq!(rt; are_read(&rt, rt.alloc(), Table::Connections)?, 7);
    assert_eq!(rt; are_read(&rt, rt.alloc(), Table::ToHead)?, 3);
    Ok(())
}
