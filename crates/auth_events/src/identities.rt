//! Whose credentials a gift is, found by going over the journal.

ghost use Rattle.std.specs.Prelude.{◌≡◌, reverse, option_copied};
ghost use Rattle.auth_events.specs.Identities as Identities;
ghost use Rattle.auth_events.specs.Past as Past;
ghost use Rattle.auth_events.specs.Book as Book;

use crate::journal::{BookReply, Call, Entry, Gift};
use crate::names::Names;
use auth_text::Identity;
use spaces::Roster;

fn gift_given(reply: BookReply) -> Option<Gift>
    ensures { result ≡ Past.gift_given reply }
{
    match reply {
        BookReply::Url { gift, .. } | BookReply::Given { gift, .. } => Some(gift),
        _ => None,
    }
}

fn gives_that(entry: &Entry, gift: Gift) -> bool
    ensures { result ≡ Book.is_that_gift (Past.gift_given entry.now.reply) gift }
{
    match gift_given(entry.reply) {
        Some(given) => given.space == gift.space && given.ordinal == gift.ordinal,
        None => false,
    }
}

/// The entry that gave the gift.
pub(crate) fn giving(entries: &[Entry], gift: Gift) -> Option<Entry>
    ensures { result ≡ Identities.giving (reverse entries.now) gift }
{
    let mut found = None;
    for entry in entries {
        if gives_that(entry, gift) {
            found = Some(*entry);
        }
    }
    found
}

fn text_in(call: Call) -> u32
    ensures { result ≡ Identities.text_in call }
{
    match call {
        Call::Answer { text, .. } => text,
        _ => 0,
    }
}

/// What the entry gives: the identity of its request's URL, or the text that it answers with.
pub(crate) fn identity_given<'a>(
    roster: &'a Roster,
    names: &'a Names,
    entry: Entry,
) -> Option<&'a Identity>
    ensures { option_copied result ≡ Identities.identity_given roster.now names.now entry }
{
    if matches!(entry.reply, BookReply::Url { .. }) {
        match roster.requests.get(entry.request) {
            Some(request) => request.place.identity.as_ref(),
            None => None,
        }
    } else {
        names.text(text_in(entry.call))
    }
}
