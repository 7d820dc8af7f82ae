//! The plain reading of a reply: the definition's whole text, judged at once.

ghost use Rattle.std.specs.Prelude.{◌≡◌, ◌+◌, ◌<◌, ◌≤◌, ◌^◌, length, IfOk};
ghost use Rattle.wire_head.specs.Replies as spec;
ghost use Rattle.wire_head.specs.Steps.{IsStep};
ghost use Rattle.wire_head.specs.Within.{IsBodyWithin};

use crate::chunked_body::{ChunkedBody, chunks};
use crate::framing::{Framing, framing_of, reply_of};
use crate::head_limits::{is_interim, is_too_long};
use crate::lines::head_len;
use crate::progress::Progress;
use crate::reply::WireFault;
use crate::response_head::{ReplyHead, head_of};
use auth_text::{NoMemory, front_of, rest_of};
use spaces::Method;
use std::alloc::Global;

fn by_chunks(
    alloc: Global,
    body: ChunkedBody,
    head: &ReplyHead,
    at: usize,
    len: usize,
) -> Result<Progress, NoMemory>
    requires fits { at + len < 2 ^ 63 }
    requires within { IsBodyWithin len body }
    ensures { IfOk result (λ progress. progress ≡ spec.by_chunks body head.now at len) }
{
    match body {
        ChunkedBody::Ends(n, size) => {
            if 1048576 < n {
                return Ok(Progress::Fault(WireFault::BodyTooLong));
            }
            let reply = reply_of(alloc, Framing::Chunked, head, size as u32)?;
            Ok(Progress::Whole(reply, at + n))
        }
        ChunkedBody::Wrong(k) => {
            if 1048576 < k {
                Ok(Progress::Fault(WireFault::BodyTooLong))
            } else {
                Ok(Progress::Fault(WireFault::BadFraming))
            }
        }
        ChunkedBody::Part => {
            if 1048576 < len {
                Ok(Progress::Fault(WireFault::BodyTooLong))
            } else {
                Ok(Progress::Open(None))
            }
        }
    }
}

/// What the text behind the final head shows, which ends at this place.
fn body_of(
    alloc: Global,
    framing: Framing,
    head: &ReplyHead,
    at: usize,
    text: &[u8],
) -> Result<Progress, NoMemory>
    requires { at + length text.now < 2 ^ 63 }
    ensures { IfOk result (λ progress. progress ≡ spec.body framing head.now at text.now) }
{
    match framing {
        Framing::Bad => Ok(Progress::Fault(WireFault::BadFraming)),
        Framing::TooLong => Ok(Progress::Fault(WireFault::BodyTooLong)),
        Framing::Length(n) => {
            if n as usize <= text.len() {
                let reply = reply_of(alloc, Framing::Length(n), head, n)?;
                Ok(Progress::Whole(reply, at + n as usize))
            } else {
                Ok(Progress::Open(None))
            }
        }
        Framing::ToEnd => {
            if 1048576 < text.len() {
                return Ok(Progress::Fault(WireFault::BodyTooLong));
            }
            let reply = reply_of(alloc, Framing::ToEnd, head, text.len() as u32)?;
            Ok(Progress::Open(Some(reply)))
        }
        Framing::Chunked => by_chunks(alloc, chunks(text), head, at, text.len()),
    }
}

/// What one head shows: the whole answer, or an interim head of so many bytes.
#[derive(Debug, Drop)]
pub(crate) enum Step {
    Done(Progress),
    Interim(usize),
}

/// The head at the front and, where it is the final one, what is behind it.
fn first_step(alloc: Global, method: Method, at: usize, text: &[u8]) -> Result<Step, NoMemory>
    requires { at + length text.now < 2 ^ 63 }
    ensures { IfOk result (IsStep method at text.now) }
{
    let Some(n) = head_len(text) else {
        if is_too_long(at, text) {
            return Ok(Step::Done(Progress::Fault(WireFault::HeadTooLong)));
        }
        return Ok(Step::Done(Progress::Open(None)));
    };
    let front = front_of(text, n);
    if is_too_long(at, front) {
        return Ok(Step::Done(Progress::Fault(WireFault::HeadTooLong)));
    }
    let Some(head) = head_of(alloc, front)? else {
        return Ok(Step::Done(Progress::Fault(WireFault::BadHead)));
    };
    if is_interim(head.code) {
        return Ok(Step::Interim(n));
    }
    let framing = framing_of(alloc, method, &head)?;
    let progress = body_of(alloc, framing, &head, at + n, rest_of(text, n))?;
    Ok(Step::Done(progress))
}

/// What the text shows of the reply to a request of this method.
pub(crate) fn progress_of(alloc: Global, method: Method, text: &[u8]) -> Result<Progress, NoMemory>
    ensures { IfOk result (λ progress. progress ≡ spec.progress method text.now) }
{
    let mut at = 0;
    'heads: loop {
        match first_step(alloc, method, at, rest_of(text, at))? {
            Step::Done(progress) => return Ok(progress),
            Step::Interim(n) => at += n,
        }
    }
}
