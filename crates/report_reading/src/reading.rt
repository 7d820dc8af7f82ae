//! A line is read by what its words are taken for, and counts only where just this line is written
//! for that.

ghost use Rattle.std.specs.Prelude.{◌≡◌, IfOk, IfSome, IsTrue};
ghost use Rattle.auth_events.specs.Pages.{fits};
ghost use Rattle.report_reading.specs.Reading as spec;

use crate::cut::{word_at, words_of};
use crate::entry_forms::entry_form;
use crate::event_forms::event_form;
use crate::fits::fits;
use crate::forms::{default_form, request_form, seed_form, space_form, terms_form, text_form};
use auth_events::{Entry, TermsName};
use auth_runs::Event;
use auth_text::{Bytes, Identity, NoMemory};
use report_lines::{
    push_default_line, push_entry_line, push_event_line, push_request_line, push_seed_line,
    push_space_line, push_terms_line, push_text_line,
};
use spaces::{Origin, Request, Space};
use std::alloc::Global;

/// The seed that the line tells.
pub fn seed_at(alloc: Global, line: &[u8]) -> Result<Option<[u8; 32]>, NoMemory>
    ensures { IfOk result (λ seed. seed ≡ spec.seed_at line.now) }
{
    let words = words_of(alloc, line)?;
    let Some(seed) = seed_form(words.as_slice()) else {
        return Ok(None);
    };
    let mut written = Bytes::new(alloc);
    push_seed_line(alloc, &mut written, seed.as_slice())?;
    if written.as_slice() == line {
        return Ok(Some(seed));
    }
    Ok(None)
}

/// The allowed origin that the line tells.
pub fn default_at(alloc: Global, line: &[u8]) -> Result<Option<Origin>, NoMemory>
    ensures { IfOk result (λ origin. origin ≡ spec.default_at line.now) }
{
    let words = words_of(alloc, line)?;
    let Some(origin) = default_form(alloc, words.as_slice())? else {
        return Ok(None);
    };
    let mut written = Bytes::new(alloc);
    push_default_line(alloc, &mut written, &origin)?;
    if written.as_slice() == line {
        return Ok(Some(origin));
    }
    Ok(None)
}

/// The request of that number that the line tells.
pub fn request_at(alloc: Global, number: u32, line: &[u8]) -> Result<Option<Request>, NoMemory>
    ensures { IfOk result (λ request. request ≡ spec.request_at number line.now) }
{
    let words = words_of(alloc, line)?;
    let Some(request) = request_form(alloc, words.as_slice())? else {
        return Ok(None);
    };
    let mut written = Bytes::new(alloc);
    push_request_line(alloc, &mut written, number, &request)?;
    if written.as_slice() == line {
        return Ok(Some(request));
    }
    Ok(None)
}

/// The space of that number that the line tells.
pub fn space_at(alloc: Global, number: u32, line: &[u8]) -> Result<Option<Space>, NoMemory>
    ensures { IfOk result (λ space. space ≡ spec.space_at number line.now) }
{
    let words = words_of(alloc, line)?;
    let Some(space) = space_form(alloc, words.as_slice())? else {
        return Ok(None);
    };
    let mut written = Bytes::new(alloc);
    push_space_line(alloc, &mut written, number, &space)?;
    if written.as_slice() == line {
        return Ok(Some(space));
    }
    Ok(None)
}

/// The terms of that number that the line tells; their realm is that of their space.
pub fn terms_at(
    alloc: Global,
    number: u32,
    spaces: &[Space],
    line: &[u8],
) -> Result<Option<TermsName>, NoMemory>
    ensures { IfOk result (λ name. name ≡ spec.terms_at number spaces.now line.now) }
{
    let words = words_of(alloc, line)?;
    let Some(name) = terms_form(alloc, spaces, words.as_slice())? else {
        return Ok(None);
    };
    let mut written = Bytes::new(alloc);
    push_terms_line(alloc, &mut written, number, &name)?;
    if written.as_slice() == line {
        return Ok(Some(name));
    }
    Ok(None)
}

/// The text of that number that the line tells.
pub fn text_at(alloc: Global, number: u32, line: &[u8]) -> Result<Option<Identity>, NoMemory>
    ensures { IfOk result (λ identity. identity ≡ spec.text_at number line.now) }
{
    let words = words_of(alloc, line)?;
    let Some(identity) = text_form(alloc, words.as_slice())? else {
        return Ok(None);
    };
    let mut written = Bytes::new(alloc);
    push_text_line(alloc, &mut written, number, &identity)?;
    if written.as_slice() == line {
        return Ok(Some(identity));
    }
    Ok(None)
}

/// The entry that the line tells.
pub fn entry_at(alloc: Global, line: &[u8]) -> Result<Option<Entry>, NoMemory>
    ensures value { IfOk result (λ entry. entry ≡ spec.entry_at line.now) }
    ensures fit { IfOk result
        (λ found. IfSome found (λ entry. IsTrue (fits entry.call entry.reply))) }
{
    let words = words_of(alloc, line)?;
    let entry = entry_form(words.as_slice());
    if !fits(entry.call, entry.reply) {
        return Ok(None);
    }
    let mut written = Bytes::new(alloc);
    push_entry_line(&mut written, entry)?;
    if written.as_slice() == line {
        return Ok(Some(entry));
    }
    Ok(None)
}

fn call_in(next: Option<Entry>) -> Option<Event>
    ensures { result ≡ spec.next_call next }
{
    match next {
        None => None,
        Some(entry) => Some(Event::Called {
            call: entry.call,
            reply: entry.reply,
        }),
    }
}

fn event_of(alloc: Global, next: Option<Entry>, words: &[Bytes]) -> Result<Option<Event>, NoMemory>
    ensures { IfOk result (λ event. event ≡ spec.event_of next words.now) }
{
    if word_at(words, 2) == b"call".as_slice() {
        return Ok(call_in(next));
    }
    let event = event_form(alloc, words)?;
    Ok(Some(event))
}

/// The event of that request that the line tells, where `next` is its next entry.
pub fn event_at(
    alloc: Global,
    next: Option<Entry>,
    request: u32,
    line: &[u8],
) -> Result<Option<Event>, NoMemory>
    ensures { IfOk result (λ event. event ≡ spec.event_at next request line.now) }
{
    let words = words_of(alloc, line)?;
    let Some(event) = event_of(alloc, next, words.as_slice())? else {
        return Ok(None);
    };
    let mut written = Bytes::new(alloc);
    push_event_line(alloc, &mut written, request, &event)?;
    if written.as_slice() == line {
        return Ok(Some(event));
    }
    Ok(None)
}
