//! The rest of a chunked body, in steps: a run of data is one, and else a byte.

ghost use Rattle.std.specs.Prelude.{◌≡◌, ◌<◌, ◌≤◌, length};
ghost use Rattle.wire_head.specs.ReadingRuns.{IsChunkRun, IsForward, IsAllRun};
ghost use Rattle.wire_head.specs.ReadingStates.{IsWithin};
ghost use Rattle.wire_head.specs.declared.chunk_place.Place.TheVariants.{Bytes};

use crate::chunk_place::{Move, Place, moved};
use crate::reply::WireFault;
use auth_text::rest_of;

/// What bytes do to a chunked body.
#[derive(Clone, Copy, Debug, PartialEq, Eq)]
pub(crate) enum ChunkRun {
    /// They belong to it, so many of them, and it is at this place then, behind `count` bytes whose
    /// size lines say `size` bytes of data.
    On {
        used: usize,
        count: usize,
        size: usize,
        place: Place,
    },
    /// It ends behind so many of them, and has so many bytes of data.
    Ends {
        used: usize,
        size: usize,
    },
    /// One of them can't stand there, or is one too many.
    Fault(WireFault),
}

/// Data, of which so much is left: as much of it as is there.
fn data_run(count: usize, size: usize, left: usize, text: &[u8]) -> ChunkRun
    requires some { 0 < left }
    requires bytes { 0 < length text.now }
    requires within { IsWithin count size (Bytes left) }
    ensures run { IsChunkRun count size (Bytes left) text.now result }
    ensures forward { IsForward result }
{
    let used = left.min(text.len());
    if 1048576 < count + used {
        return ChunkRun::Fault(WireFault::BodyTooLong);
    }
    ChunkRun::On {
        used,
        count: count + used,
        size,
        place: Place::Bytes { left: left - used },
    }
}

/// One byte.
fn byte_run(count: usize, size: usize, place: Place, text: &[u8]) -> ChunkRun
    requires bytes { 0 < length text.now }
    requires within { IsWithin count size place }
    ensures run { IsChunkRun count size place text.now result }
    ensures forward { IsForward result }
{
    match moved(place, text[0]) {
        Move::Bad => ChunkRun::Fault(WireFault::BadFraming),
        Move::Done => {
            if 1048576 < count + 1 {
                return ChunkRun::Fault(WireFault::BodyTooLong);
            }
            ChunkRun::Ends { used: 1, size }
        }
        Move::Goes { place, size: more } => {
            if 1048576 < count + 1 {
                return ChunkRun::Fault(WireFault::BodyTooLong);
            }
            ChunkRun::On {
                used: 1,
                count: count + 1,
                size: size + more,
                place,
            }
        }
    }
}

fn step(count: usize, size: usize, place: Place, text: &[u8]) -> ChunkRun
    requires bytes { 0 < length text.now }
    requires within { IsWithin count size place }
    ensures run { IsChunkRun count size place text.now result }
    ensures forward { IsForward result }
{
    match place {
        Place::Bytes { left } if 0 < left => data_run(count, size, left, text),
        _ => byte_run(count, size, place, text),
    }
}

/// What all bytes of the text do to a chunked body.
pub(crate) fn chunk_run(count: usize, size: usize, place: Place, text: &[u8]) -> ChunkRun
    requires within { IsWithin count size place }
    ensures run { IsChunkRun count size place text.now result }
    ensures all { IsAllRun (length text.now) result }
{
    let mut at = 0;
    let mut on = (count, size, place);
    'steps: while at < text.len() {
        match step(on.0, on.1, on.2, rest_of(text, at)) {
            ChunkRun::On {
                used,
                count,
                size,
                place,
            } => {
                at += used;
                on = (count, size, place);
            }
            ChunkRun::Ends { used, size } => {
                return ChunkRun::Ends {
                    used: at + used,
                    size,
                };
            }
            ChunkRun::Fault(fault) => return ChunkRun::Fault(fault),
        }
    }
    ChunkRun::On {
        used: at,
        count: on.0,
        size: on.1,
        place: on.2,
    }
}
