//! Replies that are read off the index: nothing changes.

ghost use Rattle.std.specs.Prelude.{◌≡◌, ◌<◌, ◌≤◌, ◌*◌, ◌&&◌, ℕ, IfSome, Some, is_some, length};
ghost use Rattle.std.specs.Prelude.{not, option_copied, option_map, unwrap_or, IsTrue, false};
ghost use Rattle.std.specs.List.{list_any};
ghost use Rattle.spaces.specs.Sites.{numbered, same_origin};
ghost use Rattle.auth_events.specs.Book as Book;
ghost use Rattle.auth_cache.specs.Cached.{evicted};
ghost use Rattle.path_lookup.specs.Notes.{deepest};
ghost use Rattle.prompt_queue.specs.Prompts.{ending_of, joined, prompt_of};
ghost use Rattle.prompt_queue.specs.Histories.{reply_joined, reply_taken};
ghost use Rattle.auth_book.specs.Replies as Replies;
ghost use Rattle.auth_book.specs.Fits.{IsReady};

use crate::index::{BookIndex, RequestRow};
use crate::partitions::PartRow;
use crate::sites::{live_at, origin_of};
use auth_cache::Held;
use auth_events::{BookReply, Call, Gift, Names};
use identity_sources::{Choice, Facts, choose};
use prompt_queue::{Joined, PromptTake};
use spaces::{Origin, Roster, Scheme, Target, same_origin};

/// `done` where the space holds the gift.
fn kept_by(held: Option<Held>, gift: Gift, done: BookReply) -> BookReply
    ensures { result ≡ Replies.kept_by gift done held }
{
    match held {
        Some(held) if held.gift == gift => done,
        Some(held) => BookReply::Kept {
            ordinal: held.gift.ordinal,
        },
        None => BookReply::Kept { ordinal: 0 },
    }
}

fn reply_joined(joined: Joined) -> BookReply
    ensures { result ≡ reply_joined joined }
{
    match joined {
        Joined::Lead { prompt, ordinal } => BookReply::Lead { prompt, ordinal },
        Joined::Follow { prompt } => BookReply::Follow { prompt },
    }
}

fn reply_taken(space: u32, taken: PromptTake) -> BookReply
    ensures { result ≡ reply_taken space taken }
{
    match taken {
        PromptTake::Pending => BookReply::Pending,
        PromptTake::Gave { ordinal } => BookReply::Gave {
            gift: Gift { space, ordinal },
        },
        PromptTake::Cancelled => BookReply::Cancelled,
        PromptTake::Lost { loss } => BookReply::Lost { loss },
    }
}

pub fn target_of(names: &Names, space: u32) -> Target
    ensures { result ≡ Book.target_of names.now space }
{
    match names.space(space) {
        Some(named) => named.site().target,
        None => Target::Server,
    }
}

pub fn nonce_of(names: &Names, terms: u32) -> u32
    ensures { result ≡ Book.nonce_of names.now terms }
{
    match names.terms(terms) {
        Some(named) => named.nonce,
        None => 0,
    }
}

fn is_negotiate(names: &Names, space: u32) -> bool
    ensures { result ≡ Book.scheme_is names.now Book.is_negotiate space }
{
    match names.space(space) {
        Some(named) => matches!(named.scheme(), Scheme::Negotiate),
        None => false,
    }
}

fn has_url_identity(roster: &Roster, request: u32) -> bool
    ensures { result ≡ Book.has_url_identity roster.now request }
{
    match roster.requests.get(request) {
        Some(found) => found.place.identity.is_some(),
        None => false,
    }
}

fn contains_origin(origins: &[Origin], wanted: &Origin) -> bool
    ensures { result ≡ list_any (same_origin wanted.now) origins.now }
{
    origins.iter().any(|origin| same_origin(wanted, origin))
}

fn is_allowed_origin(roster: &Roster, names: &Names, space: u32) -> bool
    ensures { result ≡ Book.is_allowed_origin roster.now names.now space }
{
    match names.space(space) {
        Some(named) => contains_origin(roster.allowed.as_slice(), &named.site().origin),
        None => false,
    }
}

fn default_flag(row: RequestRow, target: Target) -> bool
    ensures { result ≡ Replies.default_flag row target }
{
    match target {
        Target::Server => row.default_server,
        Target::Proxy => row.default_proxy,
        Target::Socks => row.default_socks,
    }
}

/// The path that the request asks for at the target.
fn path_of(roster: &Roster, request: u32, target: Target) -> &[u8]
    ensures { result.now ≡ Book.path_of roster.now request target }
{
    match roster.requests.get(request) {
        Some(found) => match target {
            Target::Server => found.place.path.as_slice(),
            _ => b"/",
        },
        None => &[],
    }
}

impl BookIndex {
    /// The record of the space's partition.
    pub fn part(&self, space: u32) -> Option<&PartRow>
        ensures row { option_copied result ≡ Replies.part_in self.now space }
        ensures bound { IfSome result (λ row. row.now.cache.bound ≡ 32) }
    {
        let row = self.spaces.get(space)?;
        self.partitions.get(row.partition)
    }

    /// What is held of the space.
    fn held(&self, space: u32) -> Option<Held>
        ensures { result ≡ Replies.held_of self.now space }
    {
        match self.part(space) {
            Some(part) => part.cache.get(space),
            None => None,
        }
    }

    fn givings(&self, space: u32) -> u32
        ensures { result ≡ Replies.givings_in self.now space }
    {
        match self.spaces.get(space) {
            Some(row) => row.givings,
            None => 0,
        }
    }

    /// The site number in the row of the space that the entry is of, or 0.
    fn site_of(&self, live: Option<Held>) -> u32
        ensures { result ≡ unwrap_or (option_map
            (λ held. Replies.site_in self.now held.gift.space) live) 0 }
    {
        match live {
            Some(held) => self.site(held.gift.space),
            None => 0,
        }
    }

    fn site(&self, space: u32) -> u32
        ensures { result ≡ Replies.site_in self.now space }
    {
        match self.spaces.get(space) {
            Some(row) => row.site,
            None => 0,
        }
    }

    fn next_gift(&self, space: u32) -> Gift
        requires { (s : ℕ) → Replies.givings_in self.now s ≤ 131072 }
        ensures { result ≡ Replies.next_in self.now space }
    {
        Gift {
            space,
            ordinal: self.givings(space) + 1,
        }
    }

    /// What goes to make room for the space in its partition.
    fn outgoing(&self, space: u32) -> Option<Held>
        ensures { result ≡ evicted 32 (Replies.entries_in self.now space) space }
    {
        match self.part(space) {
            Some(part) => part.cache.outgoing(space),
            None => None,
        }
    }

    fn evicted(&self, space: u32) -> u32
        ensures { result ≡ Replies.evicted_in self.now space }
    {
        match self.outgoing(space) {
            Some(held) => held.gift.space,
            None => 0,
        }
    }

    fn space_led(&self, prompt: u32) -> u32
        ensures { result ≡ Replies.led_in self.now prompt }
    {
        self.led.get(prompt).unwrap_or(0)
    }

    fn epoch(&self, names: &Names, terms: u32) -> u32
        ensures { result ≡ Replies.epoch_in self.now names.now terms }
    {
        if terms == 0 {
            return 0;
        }
        self.epochs.get(nonce_of(names, terms)).unwrap_or(0)
    }

    fn was_url_told(&self, request: u32) -> bool
        ensures { result ≡ Replies.url_in self.now request }
    {
        match self.requests.get(request) {
            Some(row) => row.url,
            None => false,
        }
    }

    fn was_default_told(&self, request: u32, target: Target) -> bool
        ensures { result ≡ Replies.default_in self.now request target }
    {
        match self.requests.get(request) {
            Some(row) => default_flag(row, target),
            None => false,
        }
    }

    /// Whether the URL's identity may be given.
    fn may_use_url(&self, roster: &Roster, names: &Names, request: u32, space: u32) -> bool
        ensures { result ≡ (Book.is_server (Book.target_of names.now space)
            && Book.has_url_identity roster.now request && not (Replies.url_in self.now request)) }
    {
        matches!(target_of(names, space), Target::Server)
            && has_url_identity(roster, request)
            && !self.was_url_told(request)
    }

    /// Whether the default identity may be given.
    fn may_use_default(&self, roster: &Roster, names: &Names, request: u32, space: u32) -> bool
        ensures { result ≡ (Book.scheme_is names.now Book.is_negotiate space
            && Book.is_allowed_origin roster.now names.now space
            && not (Replies.default_in self.now request (Book.target_of names.now space))) }
    {
        is_negotiate(names, space)
            && is_allowed_origin(roster, names, space)
            && !self.was_default_told(request, target_of(names, space))
    }

    fn select_by(&self, space: u32, url: bool, held: Option<Held>, ambient: bool) -> BookReply
        requires givings { (s : ℕ) → Replies.givings_in self.now s ≤ 131072 }
        requires added { space < self.now.prompts.spaces }
        requires room { length self.now.prompts.prompts < 32 * self.now.prompts.requests }
        ensures { result ≡ Replies.select_in self.now space url held ambient }
    {
        let chosen = choose(Facts {
            url,
            cached: u32::from(held.is_some()),
            ambient,
            prompt: 0,
        });
        match (chosen, held) {
            (Choice::Url, _) => BookReply::Url {
                gift: self.next_gift(space),
                evicted: self.evicted(space),
            },
            (Choice::Cached, Some(held)) => BookReply::Cached { gift: held.gift },
            (Choice::Default, _) => BookReply::Default,
            _ => reply_joined(self.prompts.joining(space)),
        }
    }

    fn ready(&self, names: &Names, held: Option<Held>) -> BookReply
        ensures { result ≡ Replies.ready_in self.now names.now held }
    {
        match held {
            Some(held) => BookReply::Ready {
                gift: held.gift,
                terms: held.terms,
                epoch: self.epoch(names, held.terms),
            },
            None => BookReply::Nothing,
        }
    }

    fn deepest(&self, roster: &Roster, names: &Names, request: u32, target: Target) -> u32
        ensures { result ≡ Replies.deepest_in self.now roster.now names.now request target }
    {
        let Some(asked) = roster.requests.get(request) else {
            return 0;
        };
        let Some(origin) = origin_of(asked, target) else {
            return 0;
        };
        let Some(part) = self.partitions.of(&asked.partition) else {
            return 0;
        };
        let live = live_at(
            names,
            part.cache.entries(),
            &asked.partition,
            target,
            origin,
        );
        let site = self.site_of(live);
        part.paths
            .deepest(roster, site, path_of(roster, request, target))
    }

    fn answered(&self, space: u32, text: u32) -> BookReply
        requires givings { (s : ℕ) → Replies.givings_in self.now s ≤ 131072 }
        ensures { result ≡ Replies.answered_in self.now space text }
    {
        if text == 0 {
            return BookReply::Cancelled;
        }
        BookReply::Given {
            gift: self.next_gift(space),
            evicted: self.evicted(space),
        }
    }

    /// The reply to a call.
    pub fn reply(&self, roster: &Roster, names: &Names, request: u32, call: Call) -> BookReply
        requires { IsReady self.now call }
        ensures { result ≡ Replies.reply_in self.now roster.now names.now request call }
    {
        match call {
            Call::Begin => BookReply::Begun,
            Call::Preempt { target } => {
                let space = self.deepest(roster, names, request, target);
                self.ready(names, self.held(space))
            }
            Call::Select { space, .. } => {
                let url = self.may_use_url(roster, names, request, space);
                let ambient = self.may_use_default(roster, names, request, space);
                self.select_by(space, url, self.held(space), ambient)
            }
            Call::Reject { space, ordinal } => kept_by(
                self.held(space),
                Gift { space, ordinal },
                BookReply::Removed,
            ),
            Call::Renew { gift, .. } => { kept_by(self.held(gift.space), gift, BookReply::Renewed) }
            Call::Answer { prompt, text, .. } => self.answered(self.space_led(prompt), text),
            Call::Lose { loss, .. } => BookReply::Lost { loss },
            Call::Take { prompt } => {
                reply_taken(self.space_led(prompt), self.prompts.ending(prompt))
            }
            Call::Note { gift } => kept_by(self.held(gift.space), gift, BookReply::Noted),
            Call::End => BookReply::Ended,
            Call::Draw { .. } => BookReply::Pending,
        }
    }
}
