//! The reading of a reply, piece by piece: what the bytes of a piece do to what the reader keeps.

ghost use Rattle.std.specs.Prelude.{◌≡◌, ◌+◌, ◌<◌, ◌≤◌, ◌^◌, length, take, false, IfOk};
ghost use Rattle.spaces.specs.declared.roster.Method.{Method};
ghost use Rattle.wire_head.specs.Replies as replies;
ghost use Rattle.wire_head.specs.ReadingStates as spec;
ghost use Rattle.wire_head.specs.ReadingStates.{IsState};
ghost use Rattle.wire_head.specs.ReadingRuns as runs;
ghost use Rattle.wire_head.specs.ReadingRuns.{IsStepped, IsRead, IsAll};
ghost use Rattle.wire_head.specs.declared.state.State.TheVariants.{InHead, InLength, InOpen};
ghost use Rattle.wire_head.specs.declared.state.State.TheVariants.{InChunks};

use crate::chunk_place::Place;
use crate::chunk_run::{ChunkRun, chunk_run};
use crate::framing::{Framing, framing_of, reply_of};
use crate::head_limits::{is_interim, is_too_long, is_too_long_behind};
use crate::lines::head_len_behind;
use crate::progress::Progress;
use crate::reply::{Reply, WireFault};
use crate::response_head::{ReplyHead, head_of};
use crate::state::{Next, State};
use auth_text::{Bytes, NoMemory, front_of, rest_of};
use spaces::Method;
use std::alloc::Global;

/// So many bytes are looked over in a head at a time, so that few of its body are copied.
const HEAD_STEP: usize = 2048;

/// What the first bytes of a piece did, so many of them.
#[derive(Debug, Drop)]
pub(crate) struct Stepped {
    pub used: usize,
    pub next: Next,
}

/// Behind a final head: in its body, or over.
fn begun(alloc: Global, head: &ReplyHead, at: usize, framing: Framing) -> Result<Next, NoMemory>
    requires { at ≤ 65536 }
    ensures { IfOk result (λ next. next ≡ spec.begun head.now at framing) }
{
    match framing {
        Framing::Bad => Ok(Next::Over(Progress::Fault(WireFault::BadFraming))),
        Framing::TooLong => Ok(Next::Over(Progress::Fault(WireFault::BodyTooLong))),
        Framing::Length(n) => {
            let reply = reply_of(alloc, framing, head, n)?;
            let left = n as usize;
            if left == 0 {
                return Ok(Next::Over(Progress::Whole(reply, at + left)));
            }
            Ok(Next::On(State::InLength { reply, at, left }))
        }
        Framing::ToEnd => {
            let reply = reply_of(alloc, framing, head, 0)?;
            Ok(Next::On(State::InOpen { reply, count: 0 }))
        }
        Framing::Chunked => {
            let reply = reply_of(alloc, framing, head, 0)?;
            Ok(Next::On(State::InChunks {
                reply,
                at,
                count: 0,
                size: 0,
                place: Place::Fresh,
            }))
        }
    }
}

/// Behind a head of these bytes, which end with its blank line.
fn ended_head(alloc: Global, method: Method, at: usize, front: &[u8]) -> Result<Next, NoMemory>
    requires { at + length front.now < 2 ^ 63 }
    ensures { IfOk result (λ next. next ≡ runs.ended_head method at front.now) }
{
    if is_too_long(at, front) {
        return Ok(Next::Over(Progress::Fault(WireFault::HeadTooLong)));
    }
    let at = at + front.len();
    let Some(head) = head_of(alloc, front)? else {
        return Ok(Next::Over(Progress::Fault(WireFault::BadHead)));
    };
    if is_interim(head.code) {
        return Ok(Next::On(State::InHead {
            at,
            front: Bytes::new(alloc),
        }));
    }
    let framing = framing_of(alloc, method, &head)?;
    begun(alloc, &head, at, framing)
}

/// In a head.
fn in_head(
    alloc: Global,
    method: Method,
    at: usize,
    front: Bytes,
    text: &[u8],
) -> Result<Stepped, NoMemory>
    requires state { IsState (InHead at front) }
    requires bytes { 0 < length text.now }
    ensures { IfOk result (IsStepped method (InHead at front) text.now) }
{
    let mut front = front;
    let before = front.len();
    let used = text.len().min(HEAD_STEP).min(65537 - (at + before));
    front.extend_from_slice(front_of(text, used))?;
    match head_len_behind(front.as_slice(), before) {
        None => Ok(Stepped {
            used,
            next: unended_head(at, front, before),
        }),
        Some(n) => {
            let next = ended_head(alloc, method, at, front_of(front.as_slice(), n))?;
            Ok(Stepped {
                used: n - before,
                next,
            })
        }
    }
}

/// In a head that has no blank line yet, and whose so many first bytes are within the limits.
fn unended_head(at: usize, front: Bytes, before: usize) -> Next
    requires few { at + length front < 2 ^ 63 }
    requires within { before ≤ length front }
    requires short { replies.is_too_long at (take before front) ≡ false }
    ensures { result ≡ runs.unended_head at front }
{
    if is_too_long_behind(at, front.as_slice(), before) {
        Next::Over(Progress::Fault(WireFault::HeadTooLong))
    } else {
        Next::On(State::InHead { at, front })
    }
}

/// In a body of a length.
fn in_length(reply: Reply, at: usize, left: usize, text: &[u8]) -> Stepped
    requires state { IsState (InLength reply at left) }
    requires bytes { 0 < length text.now }
    ensures { (method : Method) → IsStepped method (InLength reply at left) text.now result }
{
    if left <= text.len() {
        return Stepped {
            used: left,
            next: Next::Over(Progress::Whole(reply, at + left)),
        };
    }
    let used = text.len();
    Stepped {
        used,
        next: Next::On(State::InLength {
            reply,
            at: at + used,
            left: left - used,
        }),
    }
}

/// In a body that goes to the end of the stream.
fn in_open(reply: Reply, count: usize, text: &[u8]) -> Stepped
    requires state { IsState (InOpen reply count) }
    requires bytes { 0 < length text.now }
    ensures { (method : Method) → IsStepped method (InOpen reply count) text.now result }
{
    let used = text.len();
    if 1048576 - count < used {
        return Stepped {
            used,
            next: Next::Over(Progress::Fault(WireFault::BodyTooLong)),
        };
    }
    Stepped {
        used,
        next: Next::On(State::InOpen {
            reply,
            count: count + used,
        }),
    }
}

/// The reply with a body of so many bytes.
pub(crate) fn with_body(reply: Reply, size: usize) -> Reply
    requires { size < 2 ^ 32 }
    ensures { result ≡ record reply { body = size } }
{
    let mut reply = reply;
    reply.body = size as u32;
    reply
}

/// In a chunked body.
fn in_chunks(
    reply: Reply,
    at: usize,
    count: usize,
    size: usize,
    place: Place,
    text: &[u8],
) -> Stepped
    requires state { IsState (InChunks reply at count size place) }
    requires bytes { 0 < length text.now }
    ensures { (method : Method)
        → IsStepped method (InChunks reply at count size place) text.now result }
{
    match chunk_run(count, size, place, text) {
        ChunkRun::On {
            used,
            count,
            size,
            place,
        } => Stepped {
            used,
            next: Next::On(State::InChunks {
                reply,
                at,
                count,
                size,
                place,
            }),
        },
        ChunkRun::Ends { used, size } => Stepped {
            used,
            next: Next::Over(Progress::Whole(with_body(reply, size), at + count + used)),
        },
        ChunkRun::Fault(fault) => Stepped {
            used: text.len(),
            next: Next::Over(Progress::Fault(fault)),
        },
    }
}

/// What the first bytes of the text do in the state, one at least.
fn step(alloc: Global, method: Method, state: State, text: &[u8]) -> Result<Stepped, NoMemory>
    requires state { IsState state }
    requires bytes { 0 < length text.now }
    ensures { IfOk result (IsStepped method state text.now) }
{
    match state {
        State::InHead { at, front } => in_head(alloc, method, at, front, text),
        State::InLength { reply, at, left } => Ok(in_length(reply, at, left, text)),
        State::InOpen { reply, count } => Ok(in_open(reply, count, text)),
        State::InChunks {
            reply,
            at,
            count,
            size,
            place,
        } => Ok(in_chunks(reply, at, count, size, place, text)),
    }
}

/// What all bytes of the text do in the state.
pub(crate) fn read(
    alloc: Global,
    method: Method,
    state: State,
    text: &[u8],
) -> Result<Stepped, NoMemory>
    requires { IsState state }
    ensures read { IfOk result (IsRead method state text.now) }
    ensures all { IfOk result (IsAll (length text.now)) }
{
    let mut at = 0;
    let mut state = state;
    'steps: while at < text.len() {
        let Stepped { used, next } = step(alloc, method, state, rest_of(text, at))?;
        at += used;
        match next {
            Next::On(on) => state = on,
            Next::Over(progress) => {
                return Ok(Stepped {
                    used: at,
                    next: Next::Over(progress),
                });
            }
        }
    }
    Ok(Stepped {
        used: at,
        next: Next::On(state),
    })
}
