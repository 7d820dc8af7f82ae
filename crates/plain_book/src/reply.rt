//! The reply to each call.

ghost use Rattle.std.specs.Prelude.{◌≡◌, ◌+◌, ◌^◌, ◌<◌, ◌&&◌, not, reverse, length};
ghost use Rattle.auth_events.specs.Told.{is_pending};
ghost use Rattle.auth_events.specs.Book as Book;
ghost use Rattle.auth_events.specs.Past as Past;

use crate::find::{
    evicted, has_url_identity, is_allowed_origin, is_negotiate, next_gift, target_of,
};
use crate::nonces::epoch_of_terms;
use crate::paths::space_by_path;
use crate::scan;
use auth_events::{BookReply, Call, Entry, Gift, Names};
use identity_sources::{Choice, Facts, choose};
use spaces::{Roster, Target};

/// Whether `Url` was answered to the request.
pub fn was_url_told(entries: &[Entry], request: u32) -> bool
    ensures { result ≡ Book.was_url_told (reverse entries.now) request }
{
    let mut found = false;
    for entry in entries {
        if entry.request == request && matches!(entry.reply, BookReply::Url { .. }) {
            found = true;
        }
    }
    found
}

/// Whether `Default` was answered to the request for the space.
pub fn was_default_told(entries: &[Entry], request: u32, space: u32) -> bool
    ensures { result ≡ Book.was_default_told (reverse entries.now) request space }
{
    let mut found = false;
    for entry in entries {
        if entry.request == request
            && matches!(entry.reply, BookReply::Default)
            && scan::selects(entry.call, space)
        {
            found = true;
        }
    }
    found
}

/// Whether the URL's identity may be given: the target is the server, and `Url` wasn't answered
/// before.
fn may_use_url(roster: &Roster, names: &Names, entries: &[Entry], request: u32, space: u32) -> bool
    ensures { result ≡ (Book.is_server (Book.target_of names.now space)
        && Book.has_url_identity roster.now request
        && not (Book.was_url_told (reverse entries.now) request)) }
{
    matches!(target_of(names, space), Target::Server)
        && has_url_identity(roster, request)
        && !was_url_told(entries, request)
}

/// Whether the default identity may be given: Negotiate, an allowed origin, and `Default` wasn't
/// answered for the space before.
fn may_use_default(
    roster: &Roster,
    names: &Names,
    entries: &[Entry],
    request: u32,
    space: u32,
) -> bool
    ensures { result ≡ (Book.scheme_is names.now Book.is_negotiate space
        && Book.is_allowed_origin roster.now names.now space
        && not (Book.was_default_told (reverse entries.now) request space)) }
{
    is_negotiate(names, space)
        && is_allowed_origin(roster, names, space)
        && !was_default_told(entries, request, space)
}

/// The reply to a `Select`.
pub fn select(
    roster: &Roster,
    names: &Names,
    entries: &[Entry],
    request: u32,
    space: u32,
) -> BookReply
    requires { length entries.now + 1 < 2 ^ 32 }
    ensures { result
        ≡ Book.select_answer (Book.is_rival names.now space) (reverse entries.now) space
        (Book.choice roster.now names.now (reverse entries.now) request space) }
{
    let held = scan::current(entries, space);
    let led = scan::open_lead(entries, space);
    // Of the gift and the prompt it matters here only whether there is one.
    let chosen = choose(Facts {
        url: may_use_url(roster, names, entries, request, space),
        cached: u32::from(held.is_some()),
        ambient: may_use_default(roster, names, entries, request, space),
        prompt: u32::from(led.is_some()),
    });
    match (chosen, held, led) {
        (Choice::Url, _, _) => BookReply::Url {
            gift: next_gift(entries, space),
            evicted: evicted(names, entries, space),
        },
        (Choice::Cached, Some(gift), _) => BookReply::Cached { gift },
        (Choice::Default, _, _) => BookReply::Default,
        (Choice::Follow, _, Some(entry)) => BookReply::Follow {
            prompt: scan::prompt_of(entry.reply),
        },
        _ => BookReply::Lead {
            prompt: scan::leads(entries) + 1,
            ordinal: scan::leads_of(entries, space) + 1,
        },
    }
}

/// `done` where the space holds the gift.
pub fn kept_or(entries: &[Entry], gift: Gift, done: BookReply) -> BookReply
    ensures { result ≡ Book.kept_or (reverse entries.now) gift done }
{
    match scan::current(entries, gift.space) {
        Some(held) if held == gift => done,
        Some(held) => BookReply::Kept {
            ordinal: held.ordinal,
        },
        None => BookReply::Kept { ordinal: 0 },
    }
}

pub fn space_of_prompt(entries: &[Entry], prompt: u32) -> u32
    ensures { result ≡ Book.space_of_prompt (reverse entries.now) prompt }
{
    match scan::lead(entries, prompt) {
        Some(entry) => match entry.call {
            Call::Select { space, .. } => space,
            _ => 0,
        },
        None => 0,
    }
}

/// The reply to an `Answer`.
pub fn answer(names: &Names, entries: &[Entry], prompt: u32, text: u32) -> BookReply
    requires { length entries.now + 1 < 2 ^ 32 }
    ensures { result ≡ Book.given_answer
        (Book.is_rival names.now (Book.space_of_prompt (reverse entries.now) prompt))
        (reverse entries.now) (Book.space_of_prompt (reverse entries.now) prompt) text }
{
    if text == 0 {
        return BookReply::Cancelled;
    }
    let space = space_of_prompt(entries, prompt);
    BookReply::Given {
        gift: next_gift(entries, space),
        evicted: evicted(names, entries, space),
    }
}

pub fn is_pending(reply: BookReply) -> bool
    ensures { result ≡ is_pending reply }
{
    matches!(reply, BookReply::Pending)
}

/// The reply to a `Preempt`.
fn preempt(
    roster: &Roster,
    names: &Names,
    entries: &[Entry],
    request: u32,
    target: Target,
) -> BookReply
    requires { length entries.now < 2 ^ 32 }
    ensures { result ≡ Book.preempt_answer names.now (reverse entries.now)
        (Book.space_by_path roster.now names.now (reverse entries.now) request target) }
{
    match space_by_path(roster, names, entries, request, target) {
        Some(space) => ready(names, entries, space),
        None => BookReply::Nothing,
    }
}

/// The gift that the space holds, ready to be sent.
fn ready(names: &Names, entries: &[Entry], space: u32) -> BookReply
    requires { length entries.now < 2 ^ 32 }
    ensures { result ≡ Book.ready names.now
        (reverse entries.now) space (Past.current (reverse entries.now) space) }
{
    match scan::current(entries, space) {
        Some(gift) => {
            let terms = scan::terms(entries, space);
            BookReply::Ready {
                gift,
                terms,
                epoch: epoch_of_terms(names, entries, terms),
            }
        }
        None => BookReply::Nothing,
    }
}

/// The reply to a call.
pub fn reply_to(
    roster: &Roster,
    names: &Names,
    entries: &[Entry],
    request: u32,
    call: Call,
) -> BookReply
    requires { length entries.now + 1 < 2 ^ 32 }
    ensures { result ≡ Book.answer roster.now names.now (reverse entries.now) request call }
{
    match call {
        Call::Begin => BookReply::Begun,
        Call::Preempt { target } => preempt(roster, names, entries, request, target),
        Call::Select { space, .. } => select(roster, names, entries, request, space),
        Call::Reject { space, ordinal } => kept_or(
            entries,
            Gift { space, ordinal },
            BookReply::Removed,
        ),
        Call::Renew { gift, .. } => kept_or(entries, gift, BookReply::Renewed),
        Call::Answer { prompt, text, .. } => answer(names, entries, prompt, text),
        Call::Lose { loss, .. } => BookReply::Lost { loss },
        Call::Take { prompt } => scan::end(entries, prompt),
        Call::Note { gift } => kept_or(entries, gift, BookReply::Noted),
        Call::End => BookReply::Ended,
        Call::Draw { .. } => BookReply::Pending,
    }
}
