//! What an entry does to each part of the index. None takes memory.

ghost use Rattle.std.specs.Prelude.{◌≡◌, ◌<◌, ◌≤◌, ◌+◌, ℕ, IsTrue, Some, is_some, length};
ghost use Rattle.std.specs.Prelude.{option_map, unwrap_or, IfSome, true};
ghost use Rattle.spaces.specs.Sites.{numbered, same_target};
ghost use Rattle.auth_events.specs.Past as Past;
ghost use Rattle.auth_events.specs.Book as Book;
ghost use Rattle.auth_cache.specs.Cached.{held_in, holds, touched, with_terms, without};
ghost use Rattle.auth_cache.specs.Histories.{change, entries_after};
ghost use Rattle.path_lookup.specs.Histories.{notes_after, without_gone};
ghost use Rattle.prompt_queue.specs.Histories.{prompts_after};
ghost use Rattle.history_laws.specs.Partitions.{space_about};
ghost use Rattle.auth_book.specs.Fits.{CacheFits, PathsFit, PromptsFit};
ghost use Rattle.auth_book.specs.Steps as Steps;

use crate::index::{RequestRow, SpaceRow};
use crate::reads::{nonce_of, target_of};
use crate::{Epochs, PromptSpaces, RequestRows, SpaceRows};
use auth_cache::{AuthCache, Held};
use auth_events::{BookReply, Call, Gift, Names};
use path_lookup::PathIndex;
use prompt_queue::PromptQueue;
use spaces::{Roster, Target, same_target};

fn terms_in(call: Call) -> u32
    ensures { result ≡ Past.terms_in call }
{
    match call {
        Call::Select { terms, .. } | Call::Renew { terms, .. } | Call::Answer { terms, .. } =>
            terms,
        _ => 0,
    }
}

fn space_of(gift: Option<Gift>) -> u32
    ensures { result ≡ unwrap_or (option_map (λ gift. gift.space) gift) 0 }
{
    match gift {
        Some(gift) => gift.space,
        None => 0,
    }
}

fn gift_used(call: Call, reply: BookReply) -> Option<Gift>
    ensures { result ≡ Past.gift_used call reply }
{
    match reply {
        BookReply::Url { gift, .. }
        | BookReply::Given { gift, .. }
        | BookReply::Cached { gift }
        | BookReply::Ready { gift, .. } => Some(gift),
        BookReply::Renewed => match call {
            Call::Renew { gift, .. } => Some(gift),
            _ => None,
        },
        _ => None,
    }
}

/// The space that an entry is about, or 0.
pub fn space_about(call: Call, reply: BookReply) -> u32
    ensures { result ≡ space_about call reply }
{
    match call {
        Call::Reject { space, .. } => space,
        Call::Note { gift } => gift.space,
        _ => space_of(gift_used(call, reply)),
    }
}

fn gift_given(reply: BookReply) -> Option<Gift>
    ensures { result ≡ Past.gift_given reply }
{
    match reply {
        BookReply::Url { gift, .. } | BookReply::Given { gift, .. } => Some(gift),
        _ => None,
    }
}

fn space_selected(call: Call) -> u32
    ensures { result ≡ Book.space_selected call }
{
    match call {
        Call::Select { space, .. } => space,
        _ => 0,
    }
}

/// The cache gives the space other terms, and puts it last.
fn use_again(cache: &mut AuthCache, space: u32, terms: u32)
    requires { IsTrue (is_some (held_in cache.old.entries space)) }
    ensures { cache.new ≡ record cache.old
        { entries = touched space (with_terms space terms cache.old.entries) } }
{
    cache.set_terms(space, terms);
    cache.touch(space);
}

/// Takes out what is held, which is this gift.
fn remove(cache: &mut AuthCache, gift: Gift)
    requires { holds gift (held_in cache.old.entries gift.space) ≡ true }
    ensures { cache.new ≡ record cache.old { entries = without gift.space cache.old.entries } }
{
    cache.remove_if(gift);
}

pub fn tell_cache(cache: &mut AuthCache, call: Call, reply: BookReply)
    requires bound { cache.old.bound ≡ 32 }
    requires fits { CacheFits call reply cache.old.entries }
    ensures { cache.new
        ≡ record cache.old { entries = entries_after 32 call reply cache.old.entries } }
{
    match reply {
        BookReply::Url { gift, .. } | BookReply::Given { gift, .. } => {
            cache.put(gift, terms_in(call));
        }
        BookReply::Cached { gift } => use_again(cache, gift.space, terms_in(call)),
        BookReply::Ready { gift, .. } => cache.touch(gift.space),
        BookReply::Renewed => {
            if let Call::Renew { gift, terms } = call {
                use_again(cache, gift.space, terms);
            }
        }
        BookReply::Removed => {
            if let Call::Reject { space, ordinal } = call {
                remove(cache, Gift { space, ordinal });
            }
        }
        _ => {}
    }
}

/// Drops the space that was evicted, if one was.
fn drop_gone(paths: &mut PathIndex, gone: u32)
    ensures { paths.new ≡ record paths.old { notes = without_gone gone paths.old.notes } }
{
    if gone != 0 {
        paths.drop_space(gone);
    }
}

pub fn tell_paths(
    paths: &mut PathIndex,
    roster: &Roster,
    names: &Names,
    site: u32,
    request: u32,
    call: Call,
    reply: BookReply,
)
    requires room { paths.old.spaces ≡ 32 }
    requires fits { PathsFit roster.now request call reply paths.old.notes }
    ensures { paths.new ≡ record paths.old {
      notes = notes_after roster.now names.now (λ _. site)
          request call reply paths.old.notes;
    } }
{
    match reply {
        BookReply::Noted => {
            if let Call::Note { gift } = call {
                paths.add(
                    roster,
                    gift.space,
                    site,
                    request,
                    target_of(names, gift.space),
                );
            }
        }
        BookReply::Url { evicted, .. } | BookReply::Given { evicted, .. } => {
            drop_gone(paths, evicted);
        }
        BookReply::Removed => {
            if let Call::Reject { space, .. } = call {
                paths.drop_space(space);
            }
        }
        _ => {}
    }
}

pub fn tell_prompts(prompts: &mut PromptQueue, request: u32, call: Call, reply: BookReply)
    requires { PromptsFit call reply prompts.old }
    ensures { prompts.new ≡ record prompts.old
        { prompts = prompts_after request call reply prompts.old.prompts } }
{
    match call {
        Call::Select { space, .. } => {
            if let BookReply::Lead { .. } = reply {
                prompts.open_or_join(space, request);
            }
        }
        Call::Answer { prompt, .. } => match reply {
            BookReply::Given { gift, .. } => prompts.answer(prompt, gift.ordinal),
            BookReply::Cancelled => prompts.answer(prompt, 0),
            _ => {}
        },
        Call::Lose { prompt, loss } => prompts.lose(prompt, loss),
        _ => {}
    }
}

pub fn tell_spaces(rows: &mut SpaceRows, reply: BookReply)
    requires { (s : ℕ) → IfSome (numbered rows.old.items s) (λ row. row.givings ≤ 131072) }
    ensures { rows.new ≡ record rows.old { items = Steps.rows_after reply rows.old.items } }
{
    if let Some(gift) = gift_given(reply) {
        if let Some(row) = rows.get(gift.space) {
            rows.set(
                gift.space,
                SpaceRow {
                    site: row.site,
                    givings: row.givings + 1,
                    partition: row.partition,
                },
            );
        }
    }
}

fn is_lead(reply: BookReply) -> bool
    ensures { result ≡ Past.is_lead reply }
{
    matches!(reply, BookReply::Lead { .. })
}

fn is_url(reply: BookReply) -> bool
    ensures { result ≡ Book.is_url reply }
{
    matches!(reply, BookReply::Url { .. })
}

fn is_default(reply: BookReply) -> bool
    ensures { result ≡ Book.is_default reply }
{
    matches!(reply, BookReply::Default)
}

pub fn tell_led(led: &mut PromptSpaces, call: Call, reply: BookReply)
    requires { IsTrue (Past.is_lead reply) → length led.old.items < led.old.room }
    ensures { led.new ≡ record led.old { items = Steps.led_after call reply led.old.items } }
{
    if is_lead(reply) {
        led.push_reserved(space_selected(call));
    }
}

fn row_told(names: &Names, call: Call, reply: BookReply, row: RequestRow) -> RequestRow
    ensures { result ≡ Steps.row_told names.now call reply row }
{
    let target = target_of(names, space_selected(call));
    let by_default = is_default(reply);
    RequestRow {
        url: is_url(reply) || row.url,
        default_server: by_default && same_target(target, Target::Server) || row.default_server,
        default_proxy: by_default && same_target(target, Target::Proxy) || row.default_proxy,
        default_socks: by_default && same_target(target, Target::Socks) || row.default_socks,
    }
}

pub fn tell_request(
    rows: &mut RequestRows,
    names: &Names,
    request: u32,
    call: Call,
    reply: BookReply,
)
    ensures { rows.new ≡ record rows.old
        { items = Steps.requests_after names.now request call reply rows.old.items } }
{
    if let Some(row) = rows.get(request) {
        rows.set(request, row_told(names, call, reply, row));
    }
}

pub fn tell_epochs(epochs: &mut Epochs, nonce: u32)
    requires { (n : ℕ) → IfSome (numbered epochs.old.items n) (λ epoch. epoch ≤ 131072) }
    ensures { epochs.new ≡ record epochs.old { items = Steps.epochs_after nonce epochs.old.items } }
{
    if let Some(epoch) = epochs.get(nonce) {
        epochs.set(nonce, epoch + 1);
    }
}

fn nonce_swapped(names: &Names, old: u32, new: u32) -> u32
    ensures { result ≡ Steps.nonce_swapped names.now old new }
{
    if old == 0 || new != 0 && nonce_of(names, new) == nonce_of(names, old) {
        0
    } else {
        nonce_of(names, old)
    }
}

fn nonce_dropped(names: &Names, gone: Option<Held>) -> u32
    ensures { result ≡ Steps.nonce_dropped names.now gone }
{
    match gone {
        Some(held) if held.terms != 0 => nonce_of(names, held.terms),
        _ => 0,
    }
}

fn nonce_replaced(names: &Names, new: u32, held: Option<Held>, gone: Option<Held>) -> u32
    ensures { result ≡ Steps.nonce_replaced names.now new held gone }
{
    match held {
        Some(held) => nonce_swapped(names, held.terms, new),
        None => nonce_dropped(names, gone),
    }
}

/// The nonce that the entry takes out of a live space of the cache, or 0.
pub fn retired(names: &Names, cache: &AuthCache, call: Call, reply: BookReply) -> u32
    requires { cache.now.bound ≡ 32 }
    ensures { result ≡ Steps.nonce_out names.now (change call reply) cache.now.entries }
{
    match reply {
        BookReply::Url { gift, .. } | BookReply::Given { gift, .. } => nonce_replaced(
            names,
            terms_in(call),
            cache.get(gift.space),
            cache.outgoing(gift.space),
        ),
        BookReply::Cached { gift } => {
            nonce_replaced(names, terms_in(call), cache.get(gift.space), None)
        }
        BookReply::Renewed => match call {
            Call::Renew { gift, terms } => {
                nonce_replaced(names, terms, cache.get(gift.space), None)
            }
            _ => 0,
        },
        BookReply::Removed => match call {
            Call::Reject { space, .. } => nonce_dropped(names, cache.get(space)),
            _ => 0,
        },
        _ => 0,
    }
}
