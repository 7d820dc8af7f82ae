//! What the words of a line of a trace are taken for.

ghost use Rattle.std.specs.Prelude.{◌≡◌, ◌≤◌, map, drop, length, IfOk};
ghost use Rattle.session_text.specs.Words.{word_value};
ghost use Rattle.report_reading.specs.EventForms as spec;
ghost use Rattle.report_reading.specs.Words.{word_at};

use crate::choices::{fault_of, target_of};
use crate::cut::word_at;
use crate::entry_forms::{count_at, small_at};
use crate::numbers::code;
use auth_runs::{AskSeen, Event, Outcome, Reply, StepSeen, Why};
use auth_text::{Bytes, Items, NoMemory};
use session_text::read_word;
use std::alloc::Global;
use wire_head::is_challenge;

fn code_at(words: &[Bytes], at: usize) -> u16
    ensures { result ≡ spec.code_at words.now at }
{
    code(word_at(words, at))
}

fn value_at(alloc: Global, words: &[Bytes], at: usize) -> Result<Bytes, NoMemory>
    ensures { IfOk result (λ value. value ≡ word_value (word_at words.now at)) }
{
    read_word(alloc, word_at(words, at))
}

fn values_of(alloc: Global, words: &[Bytes]) -> Result<Items<Bytes>, NoMemory>
    ensures { IfOk result (λ values. values ≡ map word_value words.now) }
{
    let mut values = Items::new(alloc);
    for word in words {
        let value = read_word(alloc, word.as_slice())?;
        values.push(value)?;
    }
    Ok(values)
}

fn behind(words: &[Bytes], n: usize) -> &[Bytes]
    ensures { result.now ≡ drop n words.now }
{
    if n >= words.len() {
        return &words[words.len()..];
    }
    &words[n..]
}

fn fields_of(alloc: Global, words: &[Bytes]) -> Result<Items<Bytes>, NoMemory>
    ensures { IfOk result (λ fields. fields ≡ spec.fields_of words.now) }
{
    if is_challenge(code_at(words, 4)) {
        return values_of(alloc, behind(words, 7));
    }
    Ok(Items::new(alloc))
}

/// The values that stand behind this word, where words stand by pairs.
fn values_behind(alloc: Global, kind: &[u8], words: &[Bytes]) -> Result<Items<Bytes>, NoMemory>
    ensures { IfOk result (λ values. values ≡ spec.values_behind kind.now words.now) }
{
    let mut values = Items::new(alloc);
    let mut rest = words;
    while rest.len() >= 2 {
        if word_at(rest, 0) == kind {
            let value = value_at(alloc, rest, 1)?;
            values.push(value)?;
        }
        rest = behind(rest, 2);
    }
    Ok(values)
}

fn infos_of(alloc: Global, kind: &[u8], words: &[Bytes]) -> Result<Items<Bytes>, NoMemory>
    ensures { IfOk result (λ infos. infos ≡ spec.infos_of kind.now words.now) }
{
    if is_challenge(code_at(words, 4)) {
        return Ok(Items::new(alloc));
    }
    values_behind(alloc, kind, behind(words, 7))
}

fn wire_reply_of(alloc: Global, words: &[Bytes]) -> Result<Reply, NoMemory>
    ensures { IfOk result (λ reply. reply ≡ spec.wire_reply_of words.now) }
{
    let fields = fields_of(alloc, words)?;
    let server_info = infos_of(alloc, b"info", words)?;
    let proxy_info = infos_of(alloc, b"proxyinfo", words)?;
    Ok(Reply {
        code: code_at(words, 4),
        stays: word_at(words, 5) == b"open".as_slice(),
        body: small_at(words, 6),
        fields,
        server_info,
        proxy_info,
    })
}

fn asked_of(words: &[Bytes]) -> AskSeen
    ensures { result ≡ spec.asked_of words.now }
{
    let key = word_at(words, 4);
    if key == b"given".as_slice() {
        return AskSeen::Given;
    }
    if key == b"cancel".as_slice() {
        return AskSeen::Cancel;
    }
    if key == b"failed".as_slice() {
        return AskSeen::Failed(count_at(words, 5));
    }
    AskSeen::NoMemory
}

fn step_of(alloc: Global, words: &[Bytes]) -> Result<StepSeen, NoMemory>
    ensures { IfOk result (λ step. step ≡ spec.step_of words.now) }
{
    let key = word_at(words, 4);
    if key == b"token".as_slice() {
        return Ok(StepSeen::Token(value_at(alloc, words, 5)?));
    }
    if key == b"done".as_slice() {
        return Ok(StepSeen::Done);
    }
    if key == b"refused".as_slice() {
        return Ok(StepSeen::Refused);
    }
    if key == b"nomech".as_slice() {
        return Ok(StepSeen::NoMechanism);
    }
    if key == b"failed".as_slice() {
        return Ok(StepSeen::Failed(count_at(words, 5)));
    }
    Ok(StepSeen::NoMemory)
}

fn why_of(words: &[Bytes]) -> Why
    ensures { result ≡ spec.why_of words.now }
{
    let key = word_at(words, 5);
    if key == b"nochallenge".as_slice() {
        return Why::NoChallenge;
    }
    if key == b"cancelled".as_slice() {
        return Why::Cancelled(small_at(words, 6));
    }
    if key == b"rounds".as_slice() {
        return Why::Rounds;
    }
    Why::BoundLost
}

fn outcome_of(words: &[Bytes]) -> Outcome
    ensures { result ≡ spec.outcome_of words.now }
{
    let key = word_at(words, 3);
    if key == b"answered".as_slice() {
        return Outcome::Answered(code_at(words, 4));
    }
    if key == b"refused".as_slice() {
        return Outcome::Refused(code_at(words, 4), why_of(words));
    }
    if key == b"badreply".as_slice() {
        return Outcome::BadReply(fault_of(word_at(words, 4)));
    }
    if key == b"linkfailed".as_slice() {
        return Outcome::LinkFailed(count_at(words, 4));
    }
    if key == b"providerfailed".as_slice() {
        return Outcome::ProviderFailed(count_at(words, 4));
    }
    if key == b"promptfailed".as_slice() {
        return Outcome::PromptFailed(count_at(words, 4));
    }
    Outcome::NoMemory
}

/// The event of a line that is no call.
pub fn event_form(alloc: Global, words: &[Bytes]) -> Result<Event, NoMemory>
    ensures { IfOk result (λ event. event ≡ spec.event_form words.now) }
{
    let key = word_at(words, 2);
    let link = small_at(words, 3);
    if key == b"dial".as_slice() {
        return Ok(Event::Dialed { link });
    }
    if key == b"dialfailed".as_slice() {
        let count = count_at(words, 4);
        return Ok(Event::DialFailed { link, count });
    }
    if key == b"draw".as_slice() {
        let target = target_of(word_at(words, 3));
        let nonce = small_at(words, 4);
        let count = small_at(words, 5);
        let epoch = small_at(words, 6);
        return Ok(Event::Drew {
            target,
            nonce,
            count,
            epoch,
        });
    }
    if key == b"head".as_slice() {
        let bytes = value_at(alloc, words, 4)?;
        return Ok(Event::Headed { link, bytes });
    }
    if key == b"writefailed".as_slice() {
        let count = count_at(words, 4);
        return Ok(Event::WriteFailed { link, count });
    }
    if key == b"readfailed".as_slice() {
        let count = count_at(words, 4);
        return Ok(Event::ReadFailed { link, count });
    }
    if key == b"reply".as_slice() {
        let reply = wire_reply_of(alloc, words)?;
        return Ok(Event::Replied { link, reply });
    }
    if key == b"broken".as_slice() {
        let fault = fault_of(word_at(words, 4));
        return Ok(Event::Broken { link, fault });
    }
    if key == b"lost".as_slice() {
        return Ok(Event::LinkLost { link });
    }
    if key == b"ask".as_slice() {
        let given = asked_of(words);
        return Ok(Event::AskedFor {
            prompt: link,
            given,
        });
    }
    if key == b"step".as_slice() {
        let target = target_of(word_at(words, 3));
        let step = step_of(alloc, words)?;
        return Ok(Event::Stepped { target, step });
    }
    Ok(Event::Ended {
        outcome: outcome_of(words),
    })
}
