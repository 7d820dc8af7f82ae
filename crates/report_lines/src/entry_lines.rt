//! The lines of the journal: each call of the book and its reply.

ghost use Rattle.std.specs.Prelude.{◌≡◌, ◌++◌, OnOk};
ghost use Rattle.report_lines.specs.EntryLines as spec;

use crate::words::{push_count, push_number, push_text, target_word};
use auth_events::{BookReply, Call, Entry, Gift, Loss};
use auth_text::{Bytes, NoMemory};

fn push_two(out: &mut Bytes, first: u32, second: u32) -> Result<(), NoMemory>
    ensures { OnOk result (out.new ≡ out.old ++ spec.two first second) }
{
    push_number(out, first)?;
    push_number(out, second)
}

fn push_three(out: &mut Bytes, first: u32, second: u32, third: u32) -> Result<(), NoMemory>
    ensures { OnOk result (out.new ≡ out.old ++ spec.three first second third) }
{
    push_two(out, first, second)?;
    push_number(out, third)
}

fn push_gift(out: &mut Bytes, gift: Gift) -> Result<(), NoMemory>
    ensures { OnOk result (out.new ≡ out.old ++ spec.gift_words gift) }
{
    push_two(out, gift.space, gift.ordinal)
}

fn push_loss(out: &mut Bytes, loss: Loss) -> Result<(), NoMemory>
    ensures { OnOk result (out.new ≡ out.old ++ spec.loss_words loss) }
{
    match loss {
        Loss::Fault(count) => {
            push_text(out, b" fault")?;
            push_count(out, count)
        }
        Loss::Memory => push_text(out, b" memory"),
    }
}

fn call_word(call: Call) -> &'static [u8]
    ensures { result.now ≡ spec.call_word call }
{
    match call {
        Call::Begin => b" begin",
        Call::Preempt { .. } => b" preempt",
        Call::Select { .. } => b" select",
        Call::Reject { .. } => b" reject",
        Call::Renew { .. } => b" renew",
        Call::Answer { .. } => b" answer",
        Call::Lose { .. } => b" lose",
        Call::Take { .. } => b" take",
        Call::Note { .. } => b" note",
        Call::End => b" end",
        Call::Draw { .. } => b" draw",
    }
}

fn push_call_values(out: &mut Bytes, call: Call) -> Result<(), NoMemory>
    ensures { OnOk result (out.new ≡ out.old ++ spec.call_values call) }
{
    match call {
        Call::Begin | Call::End => Ok(()),
        Call::Preempt { target } => push_text(out, target_word(target)),
        Call::Select { space, terms } => push_two(out, space, terms),
        Call::Reject { space, ordinal } => push_two(out, space, ordinal),
        Call::Renew { gift, terms } => push_three(out, gift.space, gift.ordinal, terms),
        Call::Answer {
            prompt,
            text,
            terms,
        } => push_three(out, prompt, text, terms),
        Call::Lose { prompt, loss } => {
            push_number(out, prompt)?;
            push_loss(out, loss)
        }
        Call::Take { prompt } => push_number(out, prompt),
        Call::Note { gift } => push_gift(out, gift),
        Call::Draw { nonce } => push_number(out, nonce),
    }
}

fn reply_word(reply: BookReply) -> &'static [u8]
    ensures { result.now ≡ spec.reply_word reply }
{
    match reply {
        BookReply::Begun => b" begun",
        BookReply::Ready { .. } => b" ready",
        BookReply::Nothing => b" nothing",
        BookReply::Url { .. } => b" url",
        BookReply::Cached { .. } => b" cached",
        BookReply::Default => b" default",
        BookReply::Follow { .. } => b" follow",
        BookReply::Lead { .. } => b" lead",
        BookReply::Removed => b" removed",
        BookReply::Kept { .. } => b" kept",
        BookReply::Renewed => b" renewed",
        BookReply::Given { .. } => b" given",
        BookReply::Cancelled => b" cancelled",
        BookReply::Lost { .. } => b" lost",
        BookReply::Pending => b" pending",
        BookReply::Gave { .. } => b" gave",
        BookReply::Noted => b" noted",
        BookReply::Ended => b" ended",
        BookReply::Drawn { .. } => b" drawn",
    }
}

fn push_reply_values(out: &mut Bytes, reply: BookReply) -> Result<(), NoMemory>
    ensures { OnOk result (out.new ≡ out.old ++ spec.reply_values reply) }
{
    match reply {
        BookReply::Ready { gift, terms, epoch } => {
            push_gift(out, gift)?;
            push_two(out, terms, epoch)
        }
        BookReply::Url { gift, evicted } | BookReply::Given { gift, evicted } => {
            push_three(out, gift.space, gift.ordinal, evicted)
        }
        BookReply::Cached { gift } | BookReply::Gave { gift } => push_gift(out, gift),
        BookReply::Follow { prompt } => push_number(out, prompt),
        BookReply::Lead { prompt, ordinal } => push_two(out, prompt, ordinal),
        BookReply::Kept { ordinal } => push_number(out, ordinal),
        BookReply::Lost { loss } => push_loss(out, loss),
        BookReply::Drawn { count, epoch } => push_two(out, count, epoch),
        _ => Ok(()),
    }
}

/// Appends the line of an entry.
pub fn push_entry_line(out: &mut Bytes, entry: Entry) -> Result<(), NoMemory>
    ensures { OnOk result (out.new ≡ out.old ++ spec.entry_line entry) }
{
    push_text(out, b"e")?;
    push_two(out, entry.caller, entry.request)?;
    push_text(out, call_word(entry.call))?;
    push_call_values(out, entry.call)?;
    push_text(out, b" =")?;
    push_text(out, reply_word(entry.reply))?;
    push_reply_values(out, entry.reply)?;
    push_text(out, b"\n")
}

/// Appends the line of each entry.
pub fn push_entry_lines(out: &mut Bytes, entries: &[Entry]) -> Result<(), NoMemory>
    ensures { OnOk result (out.new ≡ out.old ++ spec.entry_lines entries.now) }
{
    for entry in entries {
        push_entry_line(out, *entry)?;
    }
    Ok(())
}
