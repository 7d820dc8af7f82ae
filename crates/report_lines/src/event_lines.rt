//! The lines of the traces: each event of each request.

ghost use Rattle.std.specs.Prelude.{◌≡◌, ◌≤◌, ◌++◌, length, OnOk};
ghost use Rattle.report_lines.specs.EventLines as spec;

use crate::words::{push_count, push_number, push_text, push_value, target_word};
use auth_runs::{AskSeen, Event, Outcome, Reply, StepSeen, Trace, Why, WireFault};
use auth_text::{Bytes, NoMemory};
use std::alloc::Global;
use wire_head::is_challenge;

fn stays_word(stays: bool) -> &'static [u8]
    ensures { result.now ≡ spec.stays_word stays }
{
    if stays { b" open" } else { b" close" }
}

fn fault_word(fault: WireFault) -> &'static [u8]
    ensures { result.now ≡ spec.fault_word fault }
{
    match fault {
        WireFault::BadHead => b" head",
        WireFault::HeadTooLong => b" headlong",
        WireFault::BadFraming => b" framing",
        WireFault::BodyTooLong => b" bodylong",
        WireFault::Cut => b" cut",
    }
}

fn push_values(alloc: Global, out: &mut Bytes, values: &[Bytes]) -> Result<(), NoMemory>
    ensures { OnOk result (out.new ≡ out.old ++ spec.field_words values.now) }
{
    for value in values {
        push_value(alloc, out, value.as_slice())?;
    }
    Ok(())
}

/// Adds each info behind the word of its kind.
fn push_infos(alloc: Global, out: &mut Bytes, kind: &[u8], infos: &[Bytes]) -> Result<(), NoMemory>
    ensures { OnOk result (out.new ≡ out.old ++ spec.info_words kind.now infos.now) }
{
    for info in infos {
        push_text(out, kind)?;
        push_value(alloc, out, info.as_slice())?;
    }
    Ok(())
}

fn push_reply_values(alloc: Global, out: &mut Bytes, reply: &Reply) -> Result<(), NoMemory>
    ensures { OnOk result (out.new ≡ out.old ++ spec.value_words reply.now) }
{
    if is_challenge(reply.code) {
        return push_values(alloc, out, reply.fields.as_slice());
    }
    push_infos(alloc, out, b" info", reply.server_info.as_slice())?;
    push_infos(alloc, out, b" proxyinfo", reply.proxy_info.as_slice())
}

fn push_reply(alloc: Global, out: &mut Bytes, reply: &Reply) -> Result<(), NoMemory>
    ensures { OnOk result (out.new ≡ out.old ++ spec.reply_words reply.now) }
{
    push_number(out, u32::from(reply.code))?;
    push_text(out, stays_word(reply.stays))?;
    push_number(out, reply.body)?;
    push_reply_values(alloc, out, reply)
}

fn push_asked(out: &mut Bytes, given: AskSeen) -> Result<(), NoMemory>
    ensures { OnOk result (out.new ≡ out.old ++ spec.ask_words given) }
{
    match given {
        AskSeen::Given => push_text(out, b" given"),
        AskSeen::Cancel => push_text(out, b" cancel"),
        AskSeen::Failed(count) => {
            push_text(out, b" failed")?;
            push_count(out, count)
        }
        AskSeen::NoMemory => push_text(out, b" nomemory"),
    }
}

fn push_step(alloc: Global, out: &mut Bytes, step: &StepSeen) -> Result<(), NoMemory>
    ensures { OnOk result (out.new ≡ out.old ++ spec.step_words step.now) }
{
    match step {
        StepSeen::Token(token) => {
            push_text(out, b" token")?;
            push_value(alloc, out, token.as_slice())
        }
        StepSeen::Done => push_text(out, b" done"),
        StepSeen::Refused => push_text(out, b" refused"),
        StepSeen::NoMechanism => push_text(out, b" nomech"),
        StepSeen::Failed(count) => {
            push_text(out, b" failed")?;
            push_count(out, *count)
        }
        StepSeen::NoMemory => push_text(out, b" nomemory"),
    }
}

fn push_why(out: &mut Bytes, why: Why) -> Result<(), NoMemory>
    ensures { OnOk result (out.new ≡ out.old ++ spec.why_words why) }
{
    match why {
        Why::NoChallenge => push_text(out, b" nochallenge"),
        Why::Cancelled(prompt) => {
            push_text(out, b" cancelled")?;
            push_number(out, prompt)
        }
        Why::Rounds => push_text(out, b" rounds"),
        Why::BoundLost => push_text(out, b" boundlost"),
    }
}

fn push_failed(out: &mut Bytes, word: &[u8], count: u64) -> Result<(), NoMemory>
    ensures { OnOk result (out.new ≡ out.old ++ (word.now ++ spec.count_words count)) }
{
    push_text(out, word)?;
    push_count(out, count)
}

fn push_outcome(out: &mut Bytes, outcome: Outcome) -> Result<(), NoMemory>
    ensures { OnOk result (out.new ≡ out.old ++ spec.outcome_words outcome) }
{
    match outcome {
        Outcome::Answered(code) => {
            push_text(out, b" answered")?;
            push_number(out, u32::from(code))
        }
        Outcome::Refused(code, why) => {
            push_text(out, b" refused")?;
            push_number(out, u32::from(code))?;
            push_why(out, why)
        }
        Outcome::BadReply(fault) => {
            push_text(out, b" badreply")?;
            push_text(out, fault_word(fault))
        }
        Outcome::LinkFailed(count) => push_failed(out, b" linkfailed", count),
        Outcome::ProviderFailed(count) => push_failed(out, b" providerfailed", count),
        Outcome::PromptFailed(count) => push_failed(out, b" promptfailed", count),
        Outcome::NoMemory => push_text(out, b" nomemory"),
    }
}

fn event_word(event: &Event) -> &'static [u8]
    ensures { result.now ≡ spec.event_word event.now }
{
    match event {
        Event::Called { .. } => b" call",
        Event::Dialed { .. } => b" dial",
        Event::DialFailed { .. } => b" dialfailed",
        Event::Drew { .. } => b" draw",
        Event::Headed { .. } => b" head",
        Event::WriteFailed { .. } => b" writefailed",
        Event::ReadFailed { .. } => b" readfailed",
        Event::Replied { .. } => b" reply",
        Event::Broken { .. } => b" broken",
        Event::LinkLost { .. } => b" lost",
        Event::AskedFor { .. } => b" ask",
        Event::Stepped { .. } => b" step",
        Event::Ended { .. } => b" outcome",
    }
}

fn push_drawn(out: &mut Bytes, nonce: u32, count: u32, epoch: u32) -> Result<(), NoMemory>
    ensures { OnOk result (out.new ≡ out.old ++ spec.drawn_words nonce count epoch) }
{
    push_number(out, nonce)?;
    push_number(out, count)?;
    push_number(out, epoch)
}

fn push_event_values(alloc: Global, out: &mut Bytes, event: &Event) -> Result<(), NoMemory>
    ensures { OnOk result (out.new ≡ out.old ++ spec.event_values event.now) }
{
    match event {
        Event::Called { .. } => Ok(()),
        Event::Dialed { link } | Event::LinkLost { link } => push_number(out, *link),
        Event::DialFailed { link, count }
        | Event::WriteFailed { link, count }
        | Event::ReadFailed { link, count } => {
            push_number(out, *link)?;
            push_count(out, *count)
        }
        Event::Drew {
            target,
            nonce,
            count,
            epoch,
        } => {
            push_text(out, target_word(*target))?;
            push_drawn(out, *nonce, *count, *epoch)
        }
        Event::Headed { link, bytes } => {
            push_number(out, *link)?;
            push_value(alloc, out, bytes.as_slice())
        }
        Event::Replied { link, reply } => {
            push_number(out, *link)?;
            push_reply(alloc, out, reply)
        }
        Event::Broken { link, fault } => {
            push_number(out, *link)?;
            push_text(out, fault_word(*fault))
        }
        Event::AskedFor { prompt, given } => {
            push_number(out, *prompt)?;
            push_asked(out, *given)
        }
        Event::Stepped { target, step } => {
            push_text(out, target_word(*target))?;
            push_step(alloc, out, step)
        }
        Event::Ended { outcome } => push_outcome(out, *outcome),
    }
}

/// Appends the line of an event of the request.
pub fn push_event_line(
    alloc: Global,
    out: &mut Bytes,
    request: u32,
    event: &Event,
) -> Result<(), NoMemory>
    ensures { OnOk result (out.new ≡ out.old ++ spec.event_line request event.now) }
{
    push_text(out, b"t")?;
    push_number(out, request)?;
    push_text(out, event_word(event))?;
    push_event_values(alloc, out, event)?;
    push_text(out, b"\n")
}

fn push_event_lines(
    alloc: Global,
    out: &mut Bytes,
    request: u32,
    events: &[Event],
) -> Result<(), NoMemory>
    ensures { OnOk result (out.new ≡ out.old ++ spec.event_lines request events.now) }
{
    for event in events {
        push_event_line(alloc, out, request, event)?;
    }
    Ok(())
}

/// Appends the lines of each trace.
pub fn push_trace_lines(alloc: Global, out: &mut Bytes, traces: &[Trace]) -> Result<(), NoMemory>
    requires { length traces.now ≤ 2048 }
    ensures { OnOk result (out.new ≡ out.old ++ spec.trace_lines 1 traces.now) }
{
    let mut request = 1u32;
    for trace in traces {
        push_event_lines(alloc, out, request, trace.events())?;
        request += 1;
    }
    Ok(())
}
