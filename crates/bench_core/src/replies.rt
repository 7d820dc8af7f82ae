//! One reply with a chunked body, fed to a new reader again and again, whole or in pieces.

ghost use Rattle.std.specs.Prelude.{◌≡◌, ◌<◌, if◌then◌else◌, false, IfOk};
ghost use Rattle.spaces.specs.declared.roster.Method.TheVariants.{Get};
ghost use Rattle.wire_head.specs.Replies.{reply};
ghost use Rattle.bench_core.specs.Replies.{is_whole};

use auth_text::{Bytes, NoMemory};
use spaces::Method;
use std::alloc::Global;
use wire_head::{At, ReplyReader};

const HEAD: &[u8] =
    b"HTTP/1.1 401 Unauthorized\r\nDate: Mon, 07 Oct 2024 09:30:00 GMT\r\nServer: Apache/2.4.62 (Debian)\r\nWWW-Authenticate: Digest realm=\"the north, wing\", nonce=\"5f2d9a7c41e0b83d6\", algorithm=SHA-256, qop=\"auth\"\r\nWWW-Authenticate: Basic realm=\"lobby\"\r\nContent-Type: text/html; charset=utf-8\r\nTransfer-Encoding: chunked\r\nKeep-Alive: timeout=5, max=100\r\nConnection: Keep-Alive\r\n\r\n";

/// A chunk of 80 bytes.
const CHUNK: &[u8] =
    b"50\r\nThis page answers to those who are known here alone; others find nothing on it.\n\r\n";

const CHUNKS: u32 = 700;

/// A piece that has all of it.
pub const WHOLE: usize = 2_097_152;

/// The reply's text.
fn text(alloc: Global) -> Result<Bytes, NoMemory> {
    let mut text = Bytes::from_slice(alloc, HEAD)?;
    for _ in 0..CHUNKS {
        text.extend_from_slice(CHUNK)?;
    }
    text.extend_from_slice(b"0\r\n\r\n")?;
    Ok(text)
}

/// Tells whether the text begins with a whole reply, fed to a new reader in pieces of a size.
fn is_whole_reply(alloc: Global, text: &[u8], size: usize) -> Result<bool, NoMemory>
    requires { 0 < size }
    ensures { IfOk result (λ is. is ≡ is_whole (reply Get text.now false)) }
{
    let mut reader = ReplyReader::new(alloc, Method::Get)?;
    for piece in text.chunks(size) {
        match reader.feed(piece).at {
            At::More => {}
            At::Whole(_) => return Ok(true),
            At::Fault(_) => return Ok(false),
            At::NoMemory => return Err(NoMemory),
        }
    }
    Ok(false)
}

/// Reads the text so often, and tells how many of the readings found a whole reply.
fn whole_replies(alloc: Global, text: &[u8], size: usize, times: u32) -> Result<u32, NoMemory>
    requires { 0 < size }
    ensures { IfOk result (λ whole. whole
        ≡ (if is_whole (reply Get text.now false) then times else 0)) }
{
    let mut whole = 0;
    for _reading in 0..times {
        if is_whole_reply(alloc, text, size)? {
            whole += 1;
        }
    }
    Ok(whole)
}

/// Reads a reply of 60,000 bytes so often, whole. Each reading finds it whole.
pub fn run(alloc: Global, times: u32) -> Result<u32, NoMemory> {
    let text = text(alloc)?;
    whole_replies(alloc, text.as_slice(), WHOLE, times)
}

/// Adds a chunk whose size line is given.
fn push_chunk(text: &mut Bytes, line: &[u8], size: u32) -> Result<(), NoMemory> {
    text.extend_from_slice(line)?;
    for _ in 0..size {
        text.extend_from_slice(b"a")?;
    }
    text.extend_from_slice(b"\r\n")
}

/// A reply with so many chunks of 1,024 bytes, and what brings its body to 1,024 bytes more.
fn long_text(alloc: Global, chunks: u32) -> Result<Bytes, NoMemory> {
    let mut text = Bytes::from_slice(alloc, HEAD)?;
    for _ in 0..chunks {
        push_chunk(&mut text, b"3F9\r\n", 1017)?;
    }
    push_chunk(&mut text, b"3F4\r\n", 1012)?;
    text.extend_from_slice(b"0\r\n\r\n")?;
    Ok(text)
}

/// Reads a reply of so many chunks so often, in pieces of a size. Each reading finds it whole.
pub fn run_long(alloc: Global, chunks: u32, size: usize, times: u32) -> Result<u32, NoMemory>
    requires { 0 < size }
{
    let text = long_text(alloc, chunks)?;
    whole_replies(alloc, text.as_slice(), size, times)
}
