//! The log: the givings of a journal, each with the number of the giving of its space before it.
//! All room is taken beforehand, so that an entry is told without memory.

ghost use Rattle.std.specs.Prelude.{◌≡◌, ◌<◌, ◌≤◌, ◌++◌, ◌∷◌, [], IfOk, OnOk, IfSome, length, map};
ghost use Rattle.std.specs.Prelude.{option_copied, option_to_list};
ghost use Rattle.auth_events.specs.Identities as Identities;
ghost use Rattle.gift_log.specs.Gifts.{given_by, identity_at, identity_found, source_found};
ghost use Rattle.gift_log.specs.Links.{AreLinked};

use auth_events::{BookReply, Call, Entry, Gift, Names};
use auth_text::{Identity, NoMemory};
use spaces::Roster;
use std::alloc::Global;
use std::marker::Model;

/// Where the identity of a gift is.
#[derive(Clone, Copy)]
pub enum Source {
    /// In the URL of the request.
    Url { request: u32 },
    /// The text of that number.
    Text { text: u32 },
}

/// A gift, and where its identity is.
#[derive(Clone, Copy)]
pub struct Given {
    pub gift: Gift,
    pub source: Source,
}

/// A giving, and the number of the space's giving before it, or 0.
#[derive(Clone, Copy)]
struct Link {
    given: Given,
    before: u32,
}

/// The givings of a journal. Seen as the room for givings, that for spaces, and the givings in
/// order.
#[derive(Drop)]
pub struct GiftLog {
    room: u32,
    links: Vec<Link>,
    /// The number of each space's latest giving, or 0.
    latest: Vec<u32>,
}

impl Model for GiftLog {
    ghost use Rattle.std.specs.Prelude.{◌≤◌, length, map, vec_capacity};
    ghost use Rattle.gift_log.specs.Gifts.{GiftList};
    ghost use Rattle.gift_log.specs.Links.{AreLinked};

    ghost Value = { GiftList };

    ghost view = { λ g. record {
      room = g.room;
      spaces = length g.latest.items;
      givings = map (λ link. link.given) g.links.items;
    } };

    ghost invariant = { λ g. AreLinked g.links.items g.latest.items
        × (length g.links.items ≤ g.room) × (g.room ≤ vec_capacity g.links) };
}

fn text_in(call: Call) -> u32
    ensures { result ≡ Identities.text_in call }
{
    match call {
        Call::Answer { text, .. } => text,
        _ => 0,
    }
}

/// What the entry gives, where it gives something.
fn given_by(entry: Entry) -> Option<Given>
    ensures { result ≡ given_by entry }
{
    match entry.reply {
        BookReply::Url { gift, .. } => Some(Given {
            gift,
            source: Source::Url {
                request: entry.request,
            },
        }),
        BookReply::Given { gift, .. } => Some(Given {
            gift,
            source: Source::Text {
                text: text_in(entry.call),
            },
        }),
        _ => None,
    }
}

fn identity_at<'a>(roster: &'a Roster, names: &'a Names, source: Source) -> Option<&'a Identity>
    ensures { option_copied result ≡ identity_at roster.now names.now source }
{
    match source {
        Source::Url { request } => match roster.requests.get(request) {
            Some(found) => found.place.identity.as_ref(),
            None => None,
        },
        Source::Text { text } => names.text(text),
    }
}

/// Where the identity of the gift is, by its last giving.
fn source_of(links: &[Link], latest: &[u32], gift: Gift) -> Option<Source>
    requires { AreLinked links.now latest.now }
    ensures { result ≡ source_found (map (λ link. link.given) links.now) gift }
{
    let mut number = latest.get(gift.space as usize).copied().unwrap_or(0);
    while number != 0 {
        let link = links[number as usize - 1];
        if link.given.gift == gift {
            return Some(link.given.source);
        }
        number = link.before;
    }
    None
}

impl GiftLog {
    /// No givings, with room for so many.
    pub fn new(alloc: Global, room: u32) -> Result<GiftLog, NoMemory>
        ensures { IfOk result (λ log. log ≡ record { room = room; spaces = 0; givings = [] }) }
    {
        let links = Vec::with_capacity(alloc, room as usize)?;
        Ok(GiftLog {
            room,
            links,
            latest: Vec::new(alloc),
        })
    }

    /// Takes the room for the spaces up to this one. The givings stay, also after an `Err`.
    pub fn reserve_space(&mut self, space: u32) -> Result<(), NoMemory>
        ensures ok { OnOk result (space < self.new.spaces) }
        ensures more { self.old.spaces ≤ self.new.spaces }
        ensures rest { self.new ≡ record self.old { spaces = self.new.spaces } }
    {
        let len = space as usize + 1;
        if self.latest.len() < len {
            self.latest.resize(len, 0)?;
        }
        Ok(())
    }

    /// Tells what an entry gives. It takes no memory.
    pub fn tell(&mut self, entry: Entry)
        requires { IfSome (given_by entry) (λ given. (length self.old.givings < self.old.room)
            × (given.gift.space < self.old.spaces)) }
        ensures { self.new ≡ record self.old
            { givings = self.old.givings ++ option_to_list (given_by entry) } }
    {
        if let Some(given) = given_by(entry) {
            self.add(given);
        }
    }

    /// Adds a giving.
    fn add(&mut self, given: Given)
        requires room { length self.old.givings < self.old.room }
        requires space { given.gift.space < self.old.spaces }
        ensures { self.new ≡ record self.old { givings = self.old.givings ++ given ∷ [] } }
    {
        let space = given.gift.space as usize;
        let before = self.latest[space];
        self.links.push_reserved(Link { given, before });
        self.latest[space] = self.links.len() as u32;
    }

    /// The identity that the gift stands for, where it was given.
    pub fn identity<'a>(
        &self,
        roster: &'a Roster,
        names: &'a Names,
        gift: Gift,
    ) -> Option<&'a Identity>
        ensures { option_copied result
            ≡ identity_found roster.now names.now self.now.givings gift }
    {
        let source = source_of(self.links.as_slice(), self.latest.as_slice(), gift)?;
        identity_at(roster, names, source)
    }
}
