//! What a past says, found by going over its entries: the definitions' plain program.

ghost use Rattle.std.specs.Prelude.{◌≡◌, ◌^◌, ◌<◌, reverse, length, find};
ghost use Rattle.auth_events.specs.Past as Past;
ghost use Rattle.plain_book.specs.Moves.{changes, sets_terms};

use auth_events::{BookReply, Call, Entry, Gift};

pub fn gift_given(reply: BookReply) -> Option<Gift>
    ensures { result ≡ Past.gift_given reply }
{
    match reply {
        BookReply::Url { gift, .. } | BookReply::Given { gift, .. } => Some(gift),
        _ => None,
    }
}

pub fn evicted_by(reply: BookReply) -> u32
    ensures { result ≡ Past.evicted_by reply }
{
    match reply {
        BookReply::Url { evicted, .. } | BookReply::Given { evicted, .. } => evicted,
        _ => 0,
    }
}

pub fn gives(entry: &Entry, space: u32) -> bool
    ensures { result ≡ Past.gives entry.now space }
{
    match gift_given(entry.reply) {
        Some(gift) => gift.space == space,
        None => false,
    }
}

pub fn takes_away(entry: &Entry, space: u32) -> bool
    ensures { result ≡ Past.takes_away entry.now space }
{
    let rejects = match entry.call {
        Call::Reject {
            space: rejected,
            ..
        } => rejected == space,
        _ => false,
    };
    rejects && matches!(entry.reply, BookReply::Removed)
        || space != 0 && evicted_by(entry.reply) == space
}

/// The latest entry that gave the space or took it away.
fn latest_change(entries: &[Entry], space: u32) -> Option<Entry>
    ensures { result ≡ find (λ entry. changes entry space) (reverse entries.now) }
{
    entries
        .iter()
        .rev()
        .find(|entry| takes_away(entry, space) || gives(entry, space))
        .copied()
}

/// The gift that the space holds.
#[tactic(auto, using(crate::proofs::Latest::current_latest))]
pub fn current(entries: &[Entry], space: u32) -> Option<Gift>
    ensures { result ≡ Past.current (reverse entries.now) space }
{
    match latest_change(entries, space) {
        Some(entry) if !takes_away(&entry, space) => gift_given(entry.reply),
        _ => None,
    }
}

/// How often the space was given.
pub fn givings(entries: &[Entry], space: u32) -> u32
    requires { length entries.now < 2 ^ 32 }
    ensures { result ≡ Past.givings (reverse entries.now) space }
{
    let mut count = 0;
    for entry in entries {
        if gives(entry, space) {
            count += 1;
        }
    }
    count
}

pub fn is_lead(reply: BookReply) -> bool
    ensures { result ≡ Past.is_lead reply }
{
    matches!(reply, BookReply::Lead { .. })
}

pub fn prompt_of(reply: BookReply) -> u32
    ensures { result ≡ Past.prompt_led reply }
{
    match reply {
        BookReply::Lead { prompt, .. } => prompt,
        _ => 0,
    }
}

pub fn selects(call: Call, space: u32) -> bool
    ensures { result ≡ Past.selects call space }
{
    match call {
        Call::Select {
            space: selected,
            ..
        } => selected == space,
        _ => false,
    }
}

pub fn settles(call: Call, prompt: u32) -> bool
    ensures { result ≡ Past.settles call prompt }
{
    match call {
        Call::Answer {
            prompt: settled,
            ..
        }
        | Call::Lose {
            prompt: settled,
            ..
        } => settled == prompt,
        _ => false,
    }
}

pub fn gift_used(call: Call, reply: BookReply) -> Option<Gift>
    ensures { result ≡ Past.gift_used call reply }
{
    match reply {
        BookReply::Url { gift, .. }
        | BookReply::Given { gift, .. }
        | BookReply::Cached { gift }
        | BookReply::Ready { gift, .. } => Some(gift),
        BookReply::Renewed => match call {
            Call::Renew { gift, .. } => Some(gift),
            _ => None,
        },
        _ => None,
    }
}

pub fn touches(entry: &Entry, space: u32) -> bool
    ensures { result ≡ Past.touches entry.now space }
{
    match gift_used(entry.call, entry.reply) {
        Some(gift) => gift.space == space,
        None => false,
    }
}

/// How many entries have passed since the space was touched.
pub fn age(entries: &[Entry], space: u32) -> u32
    requires { length entries.now < 2 ^ 32 }
    ensures { result ≡ Past.age (reverse entries.now) space }
{
    let mut age = 0;
    for entry in entries {
        if touches(entry, space) {
            age = 0;
        } else {
            age += 1;
        }
    }
    age
}

pub fn terms_in(call: Call) -> u32
    ensures { result ≡ Past.terms_in call }
{
    match call {
        Call::Select { terms, .. } | Call::Renew { terms, .. } | Call::Answer { terms, .. } =>
            terms,
        _ => 0,
    }
}

pub fn is_ready(reply: BookReply) -> bool
    ensures { result ≡ Past.is_ready reply }
{
    matches!(reply, BookReply::Ready { .. })
}

/// The latest entry that set the terms of the space.
fn latest_setting(entries: &[Entry], space: u32) -> Option<Entry>
    ensures { result ≡ find (λ entry. sets_terms entry space) (reverse entries.now) }
{
    entries
        .iter()
        .rev()
        .find(|entry| touches(entry, space) && !is_ready(entry.reply))
        .copied()
}

/// The terms of a live space.
#[tactic(auto, using(crate::proofs::Latest::terms_latest))]
pub fn terms(entries: &[Entry], space: u32) -> u32
    ensures { result ≡ Past.terms (reverse entries.now) space }
{
    match latest_setting(entries, space) {
        Some(entry) => terms_in(entry.call),
        None => 0,
    }
}

/// The entry that led the prompt.
pub fn lead(entries: &[Entry], prompt: u32) -> Option<Entry>
    ensures { result ≡ Past.lead (reverse entries.now) prompt }
{
    let mut found = None;
    for entry in entries {
        if is_lead(entry.reply) && prompt_of(entry.reply) == prompt {
            found = Some(*entry);
        }
    }
    found
}

pub fn settled(entries: &[Entry], prompt: u32) -> bool
    ensures { result ≡ Past.settled (reverse entries.now) prompt }
{
    let mut found = false;
    for entry in entries {
        if settles(entry.call, prompt) {
            found = true;
        }
    }
    found
}

/// The entry that led the open prompt of the space.
pub fn open_lead(entries: &[Entry], space: u32) -> Option<Entry>
    ensures { result ≡ Past.open_lead (reverse entries.now) space }
{
    let mut found = None;
    for entry in entries {
        if is_lead(entry.reply)
            && selects(entry.call, space)
            && !settled(entries, prompt_of(entry.reply))
        {
            found = Some(*entry);
        }
    }
    found
}

pub fn leads(entries: &[Entry]) -> u32
    requires { length entries.now < 2 ^ 32 }
    ensures { result ≡ Past.leads (reverse entries.now) }
{
    let mut count = 0;
    for entry in entries {
        if is_lead(entry.reply) {
            count += 1;
        }
    }
    count
}

pub fn leads_of(entries: &[Entry], space: u32) -> u32
    requires { length entries.now < 2 ^ 32 }
    ensures { result ≡ Past.leads_of (reverse entries.now) space }
{
    let mut count = 0;
    for entry in entries {
        if is_lead(entry.reply) && selects(entry.call, space) {
            count += 1;
        }
    }
    count
}

pub fn taken_from(reply: BookReply) -> BookReply
    ensures { result ≡ Past.taken_from reply }
{
    match reply {
        BookReply::Given { gift, .. } => BookReply::Gave { gift },
        other => other,
    }
}

/// The end of the prompt, and `Pending` while it is open.
pub fn end(entries: &[Entry], prompt: u32) -> BookReply
    ensures { result ≡ Past.end (reverse entries.now) prompt }
{
    let mut end = BookReply::Pending;
    for entry in entries {
        if settles(entry.call, prompt) {
            end = taken_from(entry.reply);
        }
    }
    end
}
