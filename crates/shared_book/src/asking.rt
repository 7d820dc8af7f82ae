//! The naming and the reading calls of a shared book, one turn each.

ghost use Rattle.std.specs.Prelude.{◌≡◌, ◌∷◌, [], IsTrue, IfOk, OnErr, OnOk, Some, is_some, length};
ghost use Rattle.std.specs.Prelude.{option_map};
ghost use mathlib.Core.List.{IsPrefix};
ghost use Rattle.spaces.specs.Sites.{numbered};
ghost use Rattle.auth_events.specs.Identities.{giving, identity};
ghost use Rattle.auth_events.specs.Tables.{is_home};
ghost use Rattle.auth_events.specs.Told.{names_told, past, told_space, told_terms};
ghost use Rattle.auth_events.specs.declared.told.Told.TheVariants.{TextNamed};
ghost use Rattle.book_laws.specs.Shares.{HasSpaceLeft, HasTermsLeft, HasTextLeft};
ghost use Rattle.shared_book.specs.Callers.{HasNamed, IsCallerOf, IsSameCaller};

use crate::caller::Caller;
use crate::namings::{SpaceNo, TermsNo, TextNo};
use crate::readings::{IdentityOf, SpaceOf, TermsOf};
use crate::shared::SharedBook;
use auth_events::{Controller, Gift, TermsRef};
use auth_text::{Identity, NoMemory};
use spaces::{Space, Terms};
use std::sync::Wait;

impl<B: Controller> SharedBook<B> {
    /// The number of the space, which is named where it has none. An `Err` names nothing.
    pub fn space_no<R: Wait>(
        &self,
        rt: &R,
        caller: Caller<B>,
        space: &Space,
    ) -> (Caller<B>, Result<u32, NoMemory>)
        requires caller { IsCallerOf self.now caller }
        requires left { HasSpaceLeft caller.mine caller.seen space.now }
        ensures caller { IsCallerOf self.now result.0 }
        ensures number { IfOk result.1 (λ number.
            numbered (names_told result.0.seen).spaces number ≡ Some space.now) }
        ensures named { OnOk result.1
            (HasNamed (λ names. told_space caller.number names [] space.now) caller result.0) }
        ensures mine_err { OnErr result.1 (result.0.mine ≡ caller.mine) }
        ensures seen { IsPrefix caller.seen result.0.seen }
        ensures same { IsSameCaller caller result.0 }
    {
        self.name(rt, caller, &SpaceNo { space })
    }

    /// The number of the space's terms, which are named where they have none, and that of their
    /// nonce. An `Err` names nothing.
    pub fn terms_no<R: Wait>(
        &self,
        rt: &R,
        caller: Caller<B>,
        space: u32,
        terms: &Terms,
    ) -> (Caller<B>, Result<TermsRef, NoMemory>)
        requires caller { IsCallerOf self.now caller }
        requires home { IsTrue (is_home (names_told caller.seen) space terms.now) }
        requires left { HasTermsLeft caller.number caller.mine caller.seen space terms.now }
        ensures caller { IsCallerOf self.now result.0 }
        ensures number { IfOk result.1 (λ numbers.
            numbered (names_told result.0.seen).terms numbers.terms
            ≡ Some (record { space = space; terms = terms.now; nonce = numbers.nonce })) }
        ensures named { OnOk result.1 (HasNamed
            (λ names. told_terms caller.number names [] space terms.now) caller result.0) }
        ensures mine_err { OnErr result.1 (result.0.mine ≡ caller.mine) }
        ensures seen { IsPrefix caller.seen result.0.seen }
        ensures same { IsSameCaller caller result.0 }
    {
        self.name(rt, caller, &TermsNo { space, terms })
    }

    /// The next number of a text, which stands for the identity. An `Err` names nothing.
    pub fn text_no<R: Wait>(
        &self,
        rt: &R,
        caller: Caller<B>,
        identity: &Identity,
    ) -> (Caller<B>, Result<u32, NoMemory>)
        requires caller { IsCallerOf self.now caller }
        requires left { HasTextLeft caller.mine }
        ensures caller { IsCallerOf self.now result.0 }
        ensures number { IfOk result.1 (λ number.
            number ≡ length (names_told result.0.seen).texts) }
        ensures named { OnOk result.1
            (HasNamed (λ names. TextNamed caller.number identity.now ∷ []) caller result.0) }
        ensures mine_err { OnErr result.1 (result.0.mine ≡ caller.mine) }
        ensures seen { IsPrefix caller.seen result.0.seen }
        ensures same { IsSameCaller caller result.0 }
    {
        self.name(rt, caller, &TextNo { identity })
    }

    /// The identity that the gift stands for. The caller has seen it given.
    pub fn identity_of<R: Wait>(
        &self,
        rt: &R,
        caller: Caller<B>,
        gift: Gift,
    ) -> (Caller<B>, Result<Identity, NoMemory>)
        requires caller { IsCallerOf self.now caller }
        requires given { IsTrue (is_some (giving (past caller.seen) gift)) }
        ensures caller { IsCallerOf self.now result.0 }
        ensures identity { IfOk result.1
            (λ found. identity self.now.roster (names_told caller.seen) (past caller.seen) gift
            ≡ Some found) }
        ensures seen { IsPrefix caller.seen result.0.seen }
        ensures mine { result.0.mine ≡ caller.mine }
        ensures same { IsSameCaller caller result.0 }
    {
        self.read(rt, caller, &IdentityOf { gift })
    }

    /// The terms of that number, and the number of their nonce.
    pub fn terms_of<R: Wait>(
        &self,
        rt: &R,
        caller: Caller<B>,
        terms: u32,
    ) -> (Caller<B>, Result<(Terms, u32), NoMemory>)
        requires caller { IsCallerOf self.now caller }
        requires named { IsTrue (is_some (numbered (names_told caller.seen).terms terms)) }
        ensures caller { IsCallerOf self.now result.0 }
        ensures terms { IfOk result.1 (λ found. option_map (λ name. (name.terms, name.nonce))
            (numbered (names_told caller.seen).terms terms) ≡ Some found) }
        ensures seen { IsPrefix caller.seen result.0.seen }
        ensures mine { result.0.mine ≡ caller.mine }
        ensures same { IsSameCaller caller result.0 }
    {
        self.read(rt, caller, &TermsOf { terms })
    }

    /// The space of that number.
    pub fn space_of<R: Wait>(
        &self,
        rt: &R,
        caller: Caller<B>,
        space: u32,
    ) -> (Caller<B>, Result<Space, NoMemory>)
        requires caller { IsCallerOf self.now caller }
        requires named { IsTrue (is_some (numbered (names_told caller.seen).spaces space)) }
        ensures caller { IsCallerOf self.now result.0 }
        ensures space { IfOk result.1 (λ found.
            numbered (names_told caller.seen).spaces space ≡ Some found) }
        ensures seen { IsPrefix caller.seen result.0.seen }
        ensures mine { result.0.mine ≡ caller.mine }
        ensures same { IsSameCaller caller result.0 }
    {
        self.read(rt, caller, &SpaceOf { space })
    }
}
