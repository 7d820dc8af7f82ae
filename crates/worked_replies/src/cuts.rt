//! One text, read in many cuts by both readers.

ghost use Rattle.std.specs.Prelude.{◌<◌};

use auth_text::NoMemory;
use spaces::Method;
use std::alloc::Global;
use wire_head::{At, Fed, PlainReader, Reply, ReplyReader, WireFault};

/// What a text comes out as.
#[derive(Debug, PartialEq, Eq, Clone, Copy)]
pub(crate) enum Seen {
    /// A reply: its code, whether the connection stays, the bytes of its body, and all its bytes.
    Whole(u16, bool, u32, usize),
    Fault(WireFault),
}

pub(crate) const BAD_HEAD: Seen = Seen::Fault(WireFault::BadHead);

pub(crate) const HEAD_TOO_LONG: Seen = Seen::Fault(WireFault::HeadTooLong);

pub(crate) const BAD_FRAMING: Seen = Seen::Fault(WireFault::BadFraming);

pub(crate) const BODY_TOO_LONG: Seen = Seen::Fault(WireFault::BodyTooLong);

pub(crate) const CUT: Seen = Seen::Fault(WireFault::Cut);

/// No text is longer.
pub(crate) const LONGEST: usize = 4194304;

/// A reader of replies: the one that is used, or the plain one, which keeps all bytes.
pub(crate) trait Reader: Drop {
    fn begin(alloc: Global, method: Method) -> Result<Self, NoMemory>;

    fn feed(&mut self, piece: &[u8]) -> Fed;

    fn end(self) -> Result<Reply, WireFault>;
}

impl Reader for ReplyReader {
    fn begin(alloc: Global, method: Method) -> Result<ReplyReader, NoMemory> {
        ReplyReader::new(alloc, method)
    }

    fn feed(&mut self, piece: &[u8]) -> Fed {
        ReplyReader::feed(self, piece)
    }

    fn end(self) -> Result<Reply, WireFault> {
        ReplyReader::end(self)
    }
}

impl Reader for PlainReader {
    fn begin(alloc: Global, method: Method) -> Result<PlainReader, NoMemory> {
        PlainReader::new(alloc, method)
    }

    fn feed(&mut self, piece: &[u8]) -> Fed {
        PlainReader::feed(self, piece)
    }

    fn end(self) -> Result<Reply, WireFault> {
        PlainReader::end(self)
    }
}

/// What is read of a text: the reply and how many bytes it has, or a fault.
pub(crate) type Read = Result<(Reply, usize), WireFault>;

/// Feeds a piece, behind so many bytes that belong to the reply: how many do with it, or what is
/// read.
fn fed<R: Reader>(
    reader: &mut R,
    used: usize,
    piece: &[u8],
) -> Result<Result<usize, Read>, NoMemory> {
    let Fed { used: more, at } = reader.feed(piece);
    let used = used.saturating_add(more);
    match at {
        At::More => Ok(Ok(used)),
        At::Whole(reply) => Ok(Err(Ok((reply, used)))),
        At::Fault(fault) => Ok(Err(Err(fault))),
        At::NoMemory => Err(NoMemory),
    }
}

/// Feeds so many bytes of the text, the others in pieces of a size, and then its end.
pub(crate) fn read<R: Reader>(
    alloc: Global,
    method: Method,
    text: &[u8],
    front: usize,
    size: usize,
) -> Result<Read, NoMemory>
    requires { 0 < size }
{
    let (front, back) = text.split_at(front.min(text.len()));
    let mut reader = R::begin(alloc, method)?;
    let mut used = match fed(&mut reader, 0, front)? {
        Ok(used) => used,
        Err(read) => return Ok(read),
    };
    for piece in back.chunks(size) {
        match fed(&mut reader, used, piece)? {
            Ok(more) => used = more,
            Err(read) => return Ok(read),
        }
    }
    match reader.end() {
        Ok(reply) => Ok(Ok((reply, used))),
        Err(fault) => Ok(Err(fault)),
    }
}

fn is_seen(read: Read, want: Seen) -> bool {
    let seen = match read {
        Ok((reply, used)) => Seen::Whole(reply.code, reply.stays, reply.body, used),
        Err(fault) => Seen::Fault(fault),
    };
    seen == want
}

/// Whether the reader reads the text so, cut in two at each place and in pieces of each size.
fn is_read_so<R: Reader>(
    alloc: Global,
    method: Method,
    text: &[u8],
    want: Seen,
) -> Result<bool, NoMemory> {
    for at in 0..text.len() {
        let in_two = read::<R>(alloc, method, text, at, LONGEST)?;
        let in_pieces = read::<R>(alloc, method, text, 0, at + 1)?;
        if !is_seen(in_two, want) || !is_seen(in_pieces, want) {
            return Ok(false);
        }
    }
    Ok(true)
}

/// Whether both readers read the text so, however it is cut.
pub(crate) fn is_read_in_each_cut(
    alloc: Global,
    method: Method,
    text: &[u8],
    want: Seen,
) -> Result<bool, NoMemory> {
    Ok(
        is_read_so::<ReplyReader>(alloc, method, text, want)?
            && is_read_so::<PlainReader>(alloc, method, text, want)?,
    )
}

/// Whether a long text is read so in pieces of 8,192 bytes and whole, and by the plain reader whole.
pub(crate) fn is_read_in_blocks(alloc: Global, text: &[u8], want: Seen) -> Result<bool, NoMemory> {
    let in_blocks = read::<ReplyReader>(alloc, Method::Get, text, 0, 8192)?;
    let whole = read::<ReplyReader>(alloc, Method::Get, text, 0, LONGEST)?;
    let plain = read::<PlainReader>(alloc, Method::Get, text, 0, LONGEST)?;
    Ok(is_seen(in_blocks, want) && is_seen(whole, want) && is_seen(plain, want))
}

/// Whether a long text is read so byte by byte behind so many bytes.
pub(crate) fn is_read_in_bytes(
    alloc: Global,
    text: &[u8],
    front: usize,
    want: Seen,
) -> Result<bool, NoMemory> {
    let read = read::<ReplyReader>(alloc, Method::Get, text, front, 1)?;
    Ok(is_seen(read, want))
}
