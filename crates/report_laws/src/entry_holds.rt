//! What the parts of an entry hold, since their types hold no more.

ghost use Rattle.report_laws.specs.Ranges.{CallHolds, EntryHolds, GiftHolds, LossHolds};
ghost use Rattle.report_laws.specs.Ranges.{ReplyHolds};

use crate::holds::keeps_number;
use auth_events::{BookReply, Call, Entry, Gift, Loss};

fn keeps_gift(gift: Gift)
    ensures { GiftHolds gift }
{}

fn keeps_loss(loss: Loss)
    ensures { LossHolds loss }
{
    match loss {
        Loss::Fault(_) | Loss::Memory => {}
    }
}

fn keeps_call(call: Call)
    ensures { CallHolds call }
{
    match call {
        Call::Begin | Call::End => {}
        Call::Preempt { target: _ } => {}
        Call::Select { space: _, terms: _ } => {}
        Call::Reject {
            space: _,
            ordinal: _,
        } => {}
        Call::Renew { gift, terms: _ } => keeps_gift(gift),
        Call::Answer {
            prompt: _,
            text: _,
            terms: _,
        } => {}
        Call::Lose { prompt: _, loss } => keeps_loss(loss),
        Call::Take { prompt: _ } => {}
        Call::Note { gift } => keeps_gift(gift),
        Call::Draw { nonce: _ } => {}
    }
}

fn keeps_reply(reply: BookReply)
    ensures { ReplyHolds reply }
{
    match reply {
        BookReply::Ready {
            gift,
            terms: _,
            epoch: _,
        } => keeps_gift(gift),
        BookReply::Url { gift, evicted: _ } => keeps_gift(gift),
        BookReply::Cached { gift } => keeps_gift(gift),
        BookReply::Given { gift, evicted: _ } => keeps_gift(gift),
        BookReply::Gave { gift } => keeps_gift(gift),
        BookReply::Lost { loss } => keeps_loss(loss),
        _ => {}
    }
}

pub fn keeps_entry(entry: Entry)
    ensures { EntryHolds entry }
{
    keeps_number(entry.caller);
    keeps_number(entry.request);
    keeps_call(entry.call);
    keeps_reply(entry.reply);
}
