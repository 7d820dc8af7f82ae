//! The readings of a book: each looks at the book in one turn and changes nothing.

ghost use Rattle.std.specs.Prelude.{◌≡◌, IfOk, IsTrue, Some, is_some, option_map};
ghost use Rattle.spaces.specs.Sites.{numbered};
ghost use Rattle.auth_events.specs.Identities.{giving, identity};
ghost use Rattle.auth_events.specs.Told.{past};

use auth_events::{Controller, Gift};
use auth_text::{Identity, NoMemory};
use spaces::{Space, Terms};

/// A reading of a book in one turn. The space and the terms of a number and the identity of a gift
/// are such readings. Users may write others.
pub trait Reading<B: Controller> {
    /// What is read.
    type Found;

    /// What has to hold of the book.
    ghost needs: { Self → B → Type 0 };

    /// What is then known.
    ghost is_found: { Self → B → Self.Found → Type 0 };

    /// Reads the book.
    fn read(&self, book: &B) -> Self::Found
        requires { needs self.now book.now }
        ensures { is_found self.now book.now result };
}

/// The space of a number.
#[derive(Clone, Copy)]
pub(crate) struct SpaceOf {
    pub(crate) space: u32,
}

impl<B: Controller> Reading<B> for SpaceOf {
    type Found = Result<Space, NoMemory>;

    ghost needs = { λ self book. IsTrue (is_some (numbered (B.names book).spaces self.space)) };

    ghost is_found = { λ self book found. IfOk found (λ space.
        numbered (B.names book).spaces self.space ≡ Some space) };

    fn read(&self, book: &B) -> Result<Space, NoMemory> {
        book.space_of(self.space)
    }
}

/// The terms of a number, with the number of their nonce.
#[derive(Clone, Copy)]
pub(crate) struct TermsOf {
    pub(crate) terms: u32,
}

impl<B: Controller> Reading<B> for TermsOf {
    type Found = Result<(Terms, u32), NoMemory>;

    ghost needs = { λ self book. IsTrue (is_some (numbered (B.names book).terms self.terms)) };

    ghost is_found = { λ self book found. IfOk found (λ terms.
        option_map (λ name. (name.terms, name.nonce)) (numbered (B.names book).terms self.terms)
        ≡ Some terms) };

    fn read(&self, book: &B) -> Result<(Terms, u32), NoMemory> {
        book.terms_of(self.terms)
    }
}

/// The identity that a gift stands for.
#[derive(Clone, Copy)]
pub(crate) struct IdentityOf {
    pub(crate) gift: Gift,
}

impl<B: Controller> Reading<B> for IdentityOf {
    type Found = Result<Identity, NoMemory>;

    ghost needs = { λ self book. IsTrue (is_some (giving (past (B.told book)) self.gift)) };

    ghost is_found = { λ self book found. IfOk found (λ login.
        identity (B.roster book) (B.names book) (past (B.told book)) self.gift ≡ Some login) };

    fn read(&self, book: &B) -> Result<Identity, NoMemory> {
        book.identity_of(self.gift)
    }
}
