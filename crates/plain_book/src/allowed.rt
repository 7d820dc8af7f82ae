//! Whether a call may be made: the conditions of the ten calls, decided.

ghost use Rattle.std.specs.Prelude.{◌≡◌, ◌&&◌, ◌==◌, not, reverse, length, is_some, option_map};
ghost use Rattle.std.specs.Prelude.{option_and_then, unwrap_or, nat_le, if◌then◌else◌, false};
ghost use Rattle.std.specs.List.{list_any};
ghost use Rattle.spaces.specs.Sites.{is_on_route, numbered, site};
ghost use Rattle.auth_events.specs.Book as Book;
ghost use Rattle.auth_events.specs.Past as Past;

use crate::find::{is_basic, is_digest};
use crate::paths::{is_site_seen, site};
use crate::reply::was_default_told;
use crate::scan;
use auth_events::{BookReply, Call, Entry, Gift, Names};
use spaces::{Roster, Space, Target, same_target};

fn own_len(entries: &[Entry], request: u32) -> usize
    ensures { result ≡ length (Book.own (reverse entries.now) request) }
{
    let mut count = 0;
    for entry in entries {
        if entry.request == request {
            count += 1;
        }
    }
    count
}

fn has_begun(entries: &[Entry], caller: u32, request: u32) -> bool
    ensures { result ≡ list_any (λ entry. Book.begins entry.call
        && entry.caller == caller) (Book.own (reverse entries.now) request) }
{
    let mut found = false;
    for entry in entries {
        if entry.request == request && matches!(entry.call, Call::Begin) && entry.caller == caller {
            found = true;
        }
    }
    found
}

fn has_ended(entries: &[Entry], request: u32) -> bool
    ensures { result
        ≡ list_any (λ entry. Book.ends entry.call) (Book.own (reverse entries.now) request) }
{
    let mut found = false;
    for entry in entries {
        if entry.request == request && matches!(entry.call, Call::End) {
            found = true;
        }
    }
    found
}

fn has_preempted(entries: &[Entry], request: u32, target: Target) -> bool
    ensures { result ≡ list_any
        (λ entry. Book.preempts entry.call target) (Book.own (reverse entries.now) request) }
{
    let mut found = false;
    for entry in entries {
        if entry.request == request && preempts(entry.call, target) {
            found = true;
        }
    }
    found
}

fn preempts(call: Call, target: Target) -> bool
    ensures { result ≡ Book.preempts call target }
{
    match call {
        Call::Preempt { target: asked } => same_target(asked, target),
        _ => false,
    }
}

fn takes(call: Call, prompt: u32) -> bool
    ensures { result ≡ Book.takes call prompt }
{
    match call {
        Call::Take { prompt: taken } => taken == prompt,
        _ => false,
    }
}

fn prompt_followed(reply: BookReply) -> u32
    ensures { result ≡ Past.prompt_followed reply }
{
    match reply {
        BookReply::Follow { prompt } => prompt,
        _ => 0,
    }
}

fn has_taken(entries: &[Entry], request: u32, prompt: u32) -> bool
    ensures { result ≡ list_any
        (λ entry. Book.takes entry.call prompt) (Book.own (reverse entries.now) request) }
{
    let mut found = false;
    for entry in entries {
        if entry.request == request && takes(entry.call, prompt) {
            found = true;
        }
    }
    found
}

fn has_followed(entries: &[Entry], request: u32, prompt: u32) -> bool
    ensures { result ≡ list_any (λ entry.
        Past.prompt_followed entry.reply == prompt) (Book.own (reverse entries.now) request) }
{
    let mut found = false;
    for entry in entries {
        if entry.request == request && prompt_followed(entry.reply) == prompt {
            found = true;
        }
    }
    found
}

fn leads_on(entries: &[Entry], request: u32) -> bool
    ensures { result ≡ list_any (λ entry. Past.is_lead entry.reply
        && not (Past.settled (reverse entries.now) (Past.prompt_led entry.reply)))
        (Book.own (reverse entries.now) request) }
{
    let mut found = false;
    for entry in entries {
        if entry.request == request
            && scan::is_lead(entry.reply)
            && !scan::settled(entries, scan::prompt_of(entry.reply))
        {
            found = true;
        }
    }
    found
}

/// Whether the entry follows a prompt that the request hasn't taken.
fn is_untaken(entries: &[Entry], request: u32, entry: &Entry) -> bool
    ensures { result ≡ (not (Past.prompt_followed entry.now.reply == 0)
        && not (list_any (λ later. Book.takes later.call (Past.prompt_followed entry.now.reply))
        (Book.own (reverse entries.now) request))) }
{
    let prompt = prompt_followed(entry.reply);
    prompt != 0 && !has_taken(entries, request, prompt)
}

fn follows_on(entries: &[Entry], request: u32) -> bool
    ensures { result ≡ list_any (λ entry. not (Past.prompt_followed entry.reply == 0)
        && not (list_any (λ later. Book.takes later.call (Past.prompt_followed entry.reply))
        (Book.own (reverse entries.now) request))) (Book.own (reverse entries.now) request) }
{
    let mut found = false;
    for entry in entries {
        if entry.request == request && is_untaken(entries, request, entry) {
            found = true;
        }
    }
    found
}

/// Whether the request leads a prompt that is open, or follows one that it hasn't taken.
pub fn waits(entries: &[Entry], request: u32) -> bool
    ensures { result ≡ Book.waits (reverse entries.now) request }
{
    leads_on(entries, request) || follows_on(entries, request)
}

fn gift_told(reply: BookReply) -> Option<Gift>
    ensures { result ≡ Book.gift_told reply }
{
    match reply {
        BookReply::Ready { gift, .. }
        | BookReply::Url { gift, .. }
        | BookReply::Cached { gift }
        | BookReply::Given { gift, .. }
        | BookReply::Gave { gift } => Some(gift),
        _ => None,
    }
}

fn is_that_gift(held: Option<Gift>, gift: Gift) -> bool
    ensures { result ≡ Book.is_that_gift held gift }
{
    match held {
        Some(held) => held.space == gift.space && held.ordinal == gift.ordinal,
        None => false,
    }
}

fn was_told(entries: &[Entry], request: u32, gift: Gift) -> bool
    ensures { result ≡ Book.was_told (reverse entries.now) request gift }
{
    let mut found = false;
    for entry in entries {
        if entry.request == request && is_that_gift(gift_told(entry.reply), gift) {
            found = true;
        }
    }
    found
}

fn is_led_by(entries: &[Entry], request: u32, prompt: u32) -> bool
    ensures { result ≡ Book.is_led_by (reverse entries.now) request prompt }
{
    match scan::lead(entries, prompt) {
        Some(entry) => entry.request == request,
        None => false,
    }
}

fn has_terms(names: &Names, space: u32, terms: u32) -> bool
    ensures { result ≡ Book.has_terms names.now space terms }
{
    match names.terms(terms) {
        Some(named) => named.space == space,
        None => false,
    }
}

fn fits_space(names: &Names, space: u32, terms: u32) -> bool
    ensures { result ≡ Book.fits_space names.now space terms }
{
    if is_digest(names, space) {
        has_terms(names, space, terms)
    } else {
        terms == 0
    }
}

/// Whether the target is on the request's route.
fn is_on_route(roster: &Roster, request: u32, target: Target) -> bool
    ensures { result ≡ unwrap_or (option_map
        (λ found. is_on_route found target) (numbered roster.now.requests request)) false }
{
    match roster.requests.get(request) {
        Some(found) => match target {
            Target::Server => true,
            Target::Proxy => found.proxy.is_some(),
            Target::Socks => false,
        },
        None => false,
    }
}

/// Whether the space is of one of the request's sites.
fn is_site_of(roster: &Roster, request: u32, space: &Space) -> bool
    ensures { result ≡ Book.is_site_of roster.now request space.now }
{
    match roster.requests.get(request) {
        Some(found) => match site(found, space.site().target) {
            Some(place) => is_site_seen(place, space.site()),
            None => false,
        },
        None => false,
    }
}

fn is_named_site(roster: &Roster, names: &Names, request: u32, space: u32) -> bool
    ensures { result ≡ unwrap_or (option_map
        (Book.is_site_of roster.now request) (Book.space_named names.now space)) false }
{
    match names.space(space) {
        Some(named) => is_site_of(roster, request, named),
        None => false,
    }
}

fn is_text(names: &Names, text: u32) -> bool
    ensures { result ≡ nat_le text (length names.now.texts) }
{
    text <= names.texts_len()
}

fn has_those_terms(entries: &[Entry], prompt: u32, terms: u32) -> bool
    ensures { result ≡ unwrap_or (option_map (λ entry.
        Book.terms_selected entry.call == terms) (Past.lead (reverse entries.now) prompt)) false }
{
    match scan::lead(entries, prompt) {
        Some(entry) => match entry.call {
            Call::Select {
                terms: selected,
                ..
            } => selected == terms,
            _ => terms == 0,
        },
        None => false,
    }
}

fn is_allowed_call(
    roster: &Roster,
    names: &Names,
    entries: &[Entry],
    request: u32,
    call: Call,
) -> bool
    ensures { result ≡ Book.allowed_call roster.now names.now (reverse entries.now) request call }
{
    match call {
        Call::Begin => roster.requests.get(request).is_some(),
        Call::Preempt { target } => is_on_route(roster, request, target)
            && !has_preempted(entries, request, target),
        Call::Select { space, terms } => {
            is_named_site(roster, names, request, space)
                && fits_space(names, space, terms)
                && !waits(entries, request)
        }
        Call::Reject { space, ordinal } => {
            was_told(entries, request, Gift { space, ordinal })
                || ordinal == 0 && was_default_told(entries, request, space)
        }
        Call::Renew { gift, terms } => was_told(entries, request, gift)
            && is_digest(names, gift.space)
            && has_terms(names, gift.space, terms),
        Call::Answer {
            prompt,
            text,
            terms,
        } => {
            is_led_by(entries, request, prompt)
                && !scan::settled(entries, prompt)
                && is_text(names, text)
                && has_those_terms(entries, prompt, terms)
        }
        Call::Lose { prompt, .. } => is_led_by(entries, request, prompt)
            && !scan::settled(entries, prompt),
        Call::Take { prompt } => prompt != 0
            && has_followed(entries, request, prompt)
            && !has_taken(entries, request, prompt),
        Call::Note { gift } => was_told(entries, request, gift)
            && (is_basic(names, gift.space) || is_digest(names, gift.space)),
        Call::End => !waits(entries, request),
        Call::Draw { .. } => false,
    }
}

fn is_open(entries: &[Entry], caller: u32, request: u32) -> bool
    ensures { result ≡ Book.is_open (reverse entries.now) caller request }
{
    has_begun(entries, caller, request)
        && !has_ended(entries, request)
        && own_len(entries, request) < 64
}

fn may_stand(entries: &[Entry], caller: u32, request: u32, call: Call) -> bool
    ensures { result ≡ (if Book.begins call then Book.no_entry (reverse entries.now) request
        else Book.is_open (reverse entries.now) caller request) }
{
    if matches!(call, Call::Begin) {
        own_len(entries, request) == 0
    } else {
        is_open(entries, caller, request)
    }
}

/// Whether the call may be made.
pub fn is_allowed(
    roster: &Roster,
    names: &Names,
    entries: &[Entry],
    caller: u32,
    request: u32,
    call: Call,
) -> bool
    ensures { result ≡ Book.allowed roster.now names.now (reverse entries.now) caller request call }
{
    may_stand(entries, caller, request, call)
        && is_allowed_call(roster, names, entries, request, call)
}
