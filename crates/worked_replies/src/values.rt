//! What a reply carries of its head: challenges or infos.

ghost use Rattle.std.specs.Prelude.{◌<◌};

use crate::cuts::{LONGEST, Read, Reader, read};
use auth_text::{Bytes, NoMemory};
use spaces::Method;
use std::alloc::Global;
use std::test::Fail;
use wire_head::{Fields, PlainReader, ReplyReader};

/// A text, and the values of its reply: of challenges, of the server's and of the proxy's infos.
type Row = (&'static [u8], &'static [u8]);

fn challenge_row(n: u32) -> Option<Row> {
    let row: Row = match n {
        0 => (
            b"HTTP/1.1 401 No\r\nWWW-Authenticate: Basic realm=\"x\" \r\nContent-Length: 0\r\nProxy-Authenticate: a\r\nwww-authenticate: Negotiate\r\n\r\n",
            b"Basic realm=\"x\"|Negotiate|;;",
        ),
        1 => (
            b"HTTP/1.1 407 No\r\nWWW-Authenticate: Basic realm=\"x\"\r\nContent-Length: 0\r\nProxy-Authenticate: a, b\r\n\r\n",
            b"a, b|;;",
        ),
        2 => (
            b"HTTP/1.1 200 OK\r\nWWW-Authenticate: Basic realm=\"x\"\r\nContent-Length: 0\r\n\r\n",
            b";;",
        ),
        // a challenge has no infos
        3 => (
            b"HTTP/1.1 401 Unauthorized\r\nWWW-Authenticate: Basic realm=\"x\"\r\nAuthentication-Info: nextnonce=\"b\"\r\nContent-Length: 0\r\n\r\n",
            b"Basic realm=\"x\"|;;",
        ),
        4 => (
            b"HTTP/1.1 407 No\r\nProxy-Authentication-Info: a=1\r\nAuthentication-Info: b=2\r\nContent-Length: 0\r\n\r\n",
            b";;",
        ),
        _ => return None,
    };
    Some(row)
}

fn info_row(n: u32) -> Option<Row> {
    let row: Row = match n {
        // a next nonce, and infos of both
        0 => (
            b"HTTP/1.1 200 OK\r\nContent-Length: 0\r\nAuthentication-Info: nextnonce=\"b\"\r\n\r\n",
            b";nextnonce=\"b\"|;",
        ),
        1 => (
            b"HTTP/1.1 200 OK\r\nproxy-authentication-info: a=1\r\nAuthentication-Info: nextnonce=\"b\"\r\nContent-Length: 0\r\nAUTHENTICATION-INFO: qop=auth\r\nProxy-Authentication-Info: b=2\r\n\r\n",
            b";nextnonce=\"b\"|qop=auth|;a=1|b=2|",
        ),
        // an interim head's are dropped with it
        2 => (
            b"HTTP/1.1 103 Early\r\nAuthentication-Info: a=1\r\n\r\nHTTP/1.1 404 No\r\nAuthentication-Info:\r\n\r\nno",
            b";|;",
        ),
        _ => return None,
    };
    Some(row)
}

/// Adds each value, with `|` behind it.
fn push_values(out: &mut Bytes, values: &Fields) -> Result<(), NoMemory> {
    for value in values.as_slice() {
        out.extend_from_slice(value.as_slice())?;
        out.extend_from_slice(b"|")?;
    }
    Ok(())
}

/// The values of a reply; none of a fault.
fn values_of(alloc: Global, read: Read) -> Result<Bytes, NoMemory> {
    let mut out = Bytes::new(alloc);
    let Ok((reply, _)) = read else {
        return Ok(out);
    };
    push_values(&mut out, &reply.fields)?;
    out.extend_from_slice(b";")?;
    push_values(&mut out, &reply.server_info)?;
    out.extend_from_slice(b";")?;
    push_values(&mut out, &reply.proxy_info)?;
    Ok(out)
}

/// Whether the reader finds these values in the text, cut in two at each place and in pieces of each
/// size.
fn carries<R: Reader>(alloc: Global, text: &[u8], want: &[u8]) -> Result<bool, NoMemory> {
    for at in 0..text.len() {
        let in_two = read::<R>(alloc, Method::Get, text, at, LONGEST)?;
        let in_pieces = read::<R>(alloc, Method::Get, text, 0, at + 1)?;
        let values_in_two = values_of(alloc, in_two)?;
        let values_in_pieces = values_of(alloc, in_pieces)?;
        if values_in_two.as_slice() != want || values_in_pieces.as_slice() != want {
            return Ok(false);
        }
    }
    Ok(true)
}

/// Whether both readers find the row's values.
fn is_carried(alloc: Global, row: Row) -> Result<bool, NoMemory> {
    let (text, want) = row;
    Ok(carries::<ReplyReader>(alloc, text, want)? && carries::<PlainReader>(alloc, text, want)?)
}

#[test]
fn values_are_kept(rt: HostRuntime) -> Result<(), Fail> {
    for n in 0..5 {
        if let Some(row) = challenge_row(n) {
            assert!(rt; is_carried(rt.alloc(), row)?, "challenge {n}");
        }
        if let Some(row) = info_row(n) {
            assert!(rt; is_carried(rt.alloc(), row)?, "info {n}");
        }
    }
    Ok(())
}
