//! What the numbers that a caller has seen stand for. A caller asks for the thing of a number once
//! it knows, by a reading of its own, that the number stands for one.

ghost use Rattle.std.specs.Prelude.{◌≡◌, ⊤, is_some, reverse};
ghost use Rattle.spaces.specs.Sites.{numbered};
ghost use Rattle.auth_events.specs.Book.{is_that_gift};
ghost use Rattle.auth_events.specs.Identities.{giving};
ghost use Rattle.auth_events.specs.Past.{gift_given};
ghost use Rattle.auth_events.specs.Tables.{is_home};
ghost use Rattle.auth_events.specs.Told.{names_told, past};
ghost use Rattle.book_laws.specs.Owners.{items_of};
ghost use Rattle.shared_book.specs.Callers.{IsCallerOf, IsSameCaller};

use auth_events::{BookReply, Controller, Entry, Gift, Names};
use auth_text::Identity;
use shared_book::{Caller, Reading, SharedBook};
use spaces::{Scheme, Space, Terms};
use std::process::Abort;
use std::sync::Wait;

/// Whether the number stands for a space.
#[derive(Clone, Copy)]
struct IsSpace {
    space: u32,
}

impl<B: Controller> Reading<B> for IsSpace {
    type Found = bool;

    ghost needs = { λ self book. ⊤ };

    ghost is_found = { λ self book found.
        found ≡ is_some (numbered (B.names book).spaces self.space) };

    fn read(&self, book: &B) -> bool {
        book.names().space(self.space).is_some()
    }
}

// Whether the caller has then seen the number stand for a space.
fn knows_space<R: Wait, B: Controller>(
    rt: &R,
    shared: &SharedBook<B>,
    caller: Caller<B>,
    space: u32,
) -> (Caller<B>, bool)
    requires { IsCallerOf shared.now caller }
    ensures caller { IsCallerOf shared.now result.0 }
    ensures number { result.0.number ≡ caller.number }
    ensures knows { result.1 ≡ is_some (numbered (names_told result.0.seen).spaces space) }
{
    shared.read(rt, caller, &IsSpace { space })
}

/// Reads the space of the number, which is this one.
pub(crate) fn sees_space<R: Wait + Abort, B: Controller>(
    rt: &R,
    shared: &SharedBook<B>,
    caller: Caller<B>,
    space: u32,
    wanted: &Space,
) -> Caller<B>
    requires { IsCallerOf shared.now caller }
    ensures caller { IsCallerOf shared.now result }
    ensures number { result.number ≡ caller.number }
{
    let (caller, knows) = knows_space(rt, shared, caller, space);
    assert!(rt; knows);
    let (caller, found) = shared.space_of(rt, caller, space);
    let Ok(found) = found else {
        panic!(rt; "no memory");
    };
    assert!(rt; found == *wanted);
    caller
}

/// Whether the space is a Digest space with the terms' realm.
pub(crate) fn is_home(names: &Names, space: u32, terms: &Terms) -> bool
    ensures { result ≡ is_home names.now space terms.now }
{
    match names.space(space) {
        Some(named) => named.scheme() == Scheme::Digest && named.realm() == terms.realm.as_slice(),
        None => false,
    }
}

/// Whether the terms may be those of the space.
#[derive(Clone, Copy)]
struct IsHome<'a> {
    space: u32,
    terms: &'a Terms,
}

impl<'a, B: Controller> Reading<B> for IsHome<'a> {
    type Found = bool;

    ghost needs = { λ self book. ⊤ };

    ghost is_found = { λ self book found.
        found ≡ is_home (B.names book) self.space self.terms.now };

    fn read(&self, book: &B) -> bool {
        is_home(book.names(), self.space, self.terms)
    }
}

/// Whether the caller has then seen that the terms may be those of the space.
pub(crate) fn knows_home<R: Wait, B: Controller>(
    rt: &R,
    shared: &SharedBook<B>,
    caller: Caller<B>,
    space: u32,
    terms: &Terms,
) -> (Caller<B>, bool)
    requires { IsCallerOf shared.now caller }
    ensures caller { IsCallerOf shared.now result.0 }
    ensures same { IsSameCaller caller result.0 }
    ensures mine { result.0.mine ≡ caller.mine }
    ensures own { caller.mine ≡ items_of caller.number result.0.seen }
    ensures knows { result.1 ≡ is_home (names_told result.0.seen) space terms.now }
{
    shared.read(rt, caller, &IsHome { space, terms })
}

fn gives(reply: BookReply, gift: Gift) -> bool
    ensures { result ≡ is_that_gift (gift_given reply) gift }
{
    match reply {
        BookReply::Url { gift: given, .. } | BookReply::Given { gift: given, .. } => {
            given.space == gift.space && given.ordinal == gift.ordinal
        }
        _ => false,
    }
}

// The entry that gave the gift.
fn giving(entries: &[Entry], gift: Gift) -> Option<Entry>
    ensures { result ≡ giving (reverse entries.now) gift }
{
    let mut found = None;
    for entry in entries {
        if gives(entry.reply, gift) {
            found = Some(*entry);
        }
    }
    found
}

/// Whether the gift was given.
#[derive(Clone, Copy)]
struct WasGiven {
    gift: Gift,
}

impl<B: Controller> Reading<B> for WasGiven {
    type Found = bool;

    ghost needs = { λ self book. ⊤ };

    ghost is_found = { λ self book found.
        found ≡ is_some (giving (past (B.told book)) self.gift) };

    fn read(&self, book: &B) -> bool {
        giving(book.journal().entries(), self.gift).is_some()
    }
}

// Whether the caller has then seen the gift given.
fn knows_gift<R: Wait, B: Controller>(
    rt: &R,
    shared: &SharedBook<B>,
    caller: Caller<B>,
    gift: Gift,
) -> (Caller<B>, bool)
    requires { IsCallerOf shared.now caller }
    ensures caller { IsCallerOf shared.now result.0 }
    ensures number { result.0.number ≡ caller.number }
    ensures knows { result.1 ≡ is_some (giving (past result.0.seen) gift) }
{
    shared.read(rt, caller, &WasGiven { gift })
}

/// Reads the identity that the gift stands for, which is this one.
pub(crate) fn sees_identity<R: Wait + Abort, B: Controller>(
    rt: &R,
    shared: &SharedBook<B>,
    caller: Caller<B>,
    gift: Gift,
    wanted: &Identity,
) -> Caller<B>
    requires { IsCallerOf shared.now caller }
    ensures caller { IsCallerOf shared.now result }
    ensures number { result.number ≡ caller.number }
{
    let (caller, knows) = knows_gift(rt, shared, caller, gift);
    assert!(rt; knows);
    let (caller, found) = shared.identity_of(rt, caller, gift);
    let Ok(found) = found else {
        panic!(rt; "no memory");
    };
    assert!(rt; found.user() == wanted.user() && found.password() == wanted.password());
    caller
}
