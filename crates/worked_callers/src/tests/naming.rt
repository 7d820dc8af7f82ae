//! The naming of Digest terms, which are then read back.

ghost use Rattle.std.specs.Prelude.{◌≡◌, ◌≤◌, IsTrue, is_some};
ghost use Rattle.spaces.specs.Sites.{numbered};
ghost use Rattle.auth_events.specs.Told.{names_told};
ghost use Rattle.book_laws.specs.Shares.{begun, terms_named};
ghost use Rattle.shared_book.specs.Callers.{IsCallerOf, IsSameCaller};

use crate::tests::readings::knows_home;
use auth_events::{Controller, TermsRef};
use shared_book::{Caller, SharedBook};
use spaces::{Terms, same_terms};
use std::process::Abort;
use std::sync::Wait;

// Reads the terms of the number, which are these, with the first nonce.
fn sees_terms<R: Wait + Abort, B: Controller>(
    rt: &R,
    shared: &SharedBook<B>,
    caller: Caller<B>,
    number: u32,
    terms: &Terms,
) -> Caller<B>
    requires caller { IsCallerOf shared.now caller }
    requires named { IsTrue (is_some (numbered (names_told caller.seen).terms number)) }
    ensures caller { IsCallerOf shared.now result }
    ensures same { IsSameCaller caller result }
{
    let (caller, found) = shared.terms_of(rt, caller, number);
    let Ok((found, nonce)) = found else {
        panic!(rt; "no memory");
    };
    assert!(rt; same_terms(&found, terms) && nonce == 1);
    caller
}

/// Names the space's terms, the first ones, and reads them back.
pub(crate) fn names_terms<R: Wait + Abort, B: Controller>(
    rt: &R,
    shared: &SharedBook<B>,
    caller: Caller<B>,
    space: u32,
    terms: &Terms,
) -> Caller<B>
    requires caller { IsCallerOf shared.now caller }
    requires begun { 1 ≤ begun caller.mine }
    requires none { terms_named caller.mine ≡ 0 }
    ensures caller { IsCallerOf shared.now result }
    ensures same { IsSameCaller caller result }
{
    let (caller, home) = knows_home(rt, shared, caller, space, terms);
    assert!(rt; home);
    let (caller, numbers) = shared.terms_no(rt, caller, space, terms);
    let Ok(numbers) = numbers else {
        panic!(rt; "no memory");
    };
    let TermsRef {
        terms: number,
        nonce,
    } = numbers;
    assert!(rt; number == 1 && nonce == 1);
    sees_terms(rt, shared, caller, number, terms)
}
