//! The namings of a book: each tells one new name at most, which is the caller's.

ghost use Rattle.std.specs.Prelude.{◌≡◌, ◌++◌, ◌∷◌, [], ◌*◌, ◌<◌, ℕ, List, IfOk, IsTrue, OnErr};
ghost use Rattle.std.specs.Prelude.{OnOk, Some, length};
ghost use Rattle.spaces.specs.Sites.{numbered};
ghost use Rattle.auth_events.specs.Tables.{Tables, is_home};
ghost use Rattle.auth_events.specs.Told.{MayNameSpace, MayNameTerms, told_space, told_terms};
ghost use Rattle.auth_events.specs.declared.told.Told.{Told};
ghost use Rattle.auth_events.specs.declared.told.Told.TheVariants.{TextNamed};
ghost use Rattle.book_laws.specs.Owners.{items_of};
ghost use Rattle.book_laws.specs.Shares.{HasSpaceLeft, HasTermsLeft, HasTextLeft, IsNamedBy};
ghost use Rattle.book_laws.specs.Shares.{IsWithinShares};

use auth_events::{Controller, TermsRef};
use auth_text::{Identity, NoMemory};
use spaces::{Space, Terms};

/// A naming in one turn.
pub(crate) trait Naming<B: Controller> {
    /// The number that is answered.
    type Number;

    // What the caller has to have left.
    ghost needs: { Self → B → ℕ → Type 0 };

    // The caller's new item, or none where the thing has its number by these names.
    ghost news: { Self → ℕ → Tables → List Told };

    // The number stands for the thing by these names.
    ghost is_number: { Self → Tables → Self.Number → Type 0 };

    /// Names the thing in the book. An `Err` changes nothing.
    fn name(&self, book: &mut B, caller: u32) -> Result<Self::Number, NoMemory>
        requires within { IsWithinShares (B.told book.old) }
        requires needs { needs self.now book.old caller }
        ensures number { IfOk result (is_number self.now (B.names book.new)) }
        ensures told { OnOk result (B.told book.new
            ≡ B.told book.old ++ news self.now caller (B.names book.old)) }
        ensures told_err { OnErr result (B.told book.new ≡ B.told book.old) }
        ensures named { IsNamedBy caller (B.told book.old) (B.told book.new) }
        ensures roster { B.roster book.new ≡ B.roster book.old };
}

#[derive(Clone, Copy)]
pub(crate) struct SpaceNo<'a> {
    pub(crate) space: &'a Space,
}

impl<'a, B: Controller> Naming<B> for SpaceNo<'a> {
    type Number = u32;

    ghost needs = { λ self book caller.
        MayNameSpace (B.roster book) (B.names book) self.space.now
        × HasSpaceLeft (items_of caller (B.told book)) (B.told book) self.space.now };

    ghost news = { λ self caller names. told_space caller names [] self.space.now };

    ghost is_number = { λ self names number. numbered names.spaces number ≡ Some self.space.now };

    fn name(&self, book: &mut B, caller: u32) -> Result<u32, NoMemory> {
        book.space_no(caller, self.space)
    }
}

#[derive(Clone, Copy)]
pub(crate) struct TermsNo<'a> {
    pub(crate) space: u32,
    pub(crate) terms: &'a Terms,
}

impl<'a, B: Controller> Naming<B> for TermsNo<'a> {
    type Number = TermsRef;

    ghost needs = { λ self book caller. IsTrue (is_home (B.names book) self.space self.terms.now)
        × MayNameTerms (B.roster book) (B.names book) self.space self.terms.now
        × HasTermsLeft caller
        (items_of caller (B.told book)) (B.told book) self.space self.terms.now };

    ghost news = { λ self caller names. told_terms caller names [] self.space self.terms.now };

    ghost is_number = { λ self names numbers. numbered names.terms numbers.terms
        ≡ Some (record { space = self.space; terms = self.terms.now; nonce = numbers.nonce }) };

    fn name(&self, book: &mut B, caller: u32) -> Result<TermsRef, NoMemory> {
        book.terms_no(caller, self.space, self.terms)
    }
}

#[derive(Clone, Copy)]
pub(crate) struct TextNo<'a> {
    pub(crate) identity: &'a Identity,
}

impl<'a, B: Controller> Naming<B> for TextNo<'a> {
    type Number = u32;

    ghost needs = { λ self book caller.
        (length (B.names book).texts < 64 * length (B.roster book).requests)
        × HasTextLeft (items_of caller (B.told book)) };

    ghost news = { λ self caller names. TextNamed caller self.identity.now ∷ [] };

    ghost is_number = { λ self names number. number ≡ length names.texts };

    fn name(&self, book: &mut B, caller: u32) -> Result<u32, NoMemory> {
        book.text_no(caller, self.identity)
    }
}
