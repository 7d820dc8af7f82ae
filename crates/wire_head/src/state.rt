//! What the reader of a reply keeps of the bytes that it was fed: the current head, and once the
//! final head was read, in its place what the reply carries of it, and numbers.

use crate::chunk_place::Place;
use crate::progress::Progress;
use crate::reply::Reply;
use auth_text::Bytes;

/// A state of the reader. A reply in it carries what its final head says.
#[derive(Debug, Drop)]
pub(crate) enum State {
    /// In a head, of which these bytes are there, behind so many bytes of interim heads.
    InHead {
        at: usize,
        front: Bytes,
    },
    /// In a body of a length, of which so much is left, behind so many bytes.
    InLength {
        reply: Reply,
        at: usize,
        left: usize,
    },
    /// In a body that goes to the end of the stream, behind so many bytes of it.
    InOpen {
        reply: Reply,
        count: usize,
    },
    /// In a chunked body that begins behind `at` bytes: behind `count` bytes of it, whose size lines
    /// say `size` bytes of data, at this place.
    InChunks {
        reply: Reply,
        at: usize,
        count: usize,
        size: usize,
        place: Place,
    },
}

/// What comes behind a byte.
#[derive(Debug, Drop)]
pub(crate) enum Next {
    On(State),
    /// It decides.
    Over(Progress),
}
