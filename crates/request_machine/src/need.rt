//! What a machine asks of its caller.

ghost use Rattle.std.specs.Prelude.{◌≡◌, option_map};
ghost use Rattle.request_machine.specs.Needs.{need_of};

use crate::holding::Holding;
use crate::stage::Piece;
use auth_events::{Call, Gift};
use auth_text::Identity;
use spaces::{Space, Terms};

/// What the book or the words are to tell.
#[derive(Debug, Drop)]
pub enum Need {
    /// The book is called.
    Book(Call),
    /// The number of the space, which is named where it has none.
    SpaceNo(Space),
    /// The numbers of the terms of that space, which are named where they have none.
    TermsNo(u32, Terms),
    /// A number for the identity that the user gave.
    TextNo(Identity),
    /// The space of that number.
    SpaceOf(u32),
    /// The identity that the gift stands for.
    IdentityOf(Gift),
    /// The terms of that number.
    TermsOf(u32),
    /// A count of the nonce is drawn.
    Draw(u32),
    /// Nothing: the request is over.
    Ended,
}

/// What is asked for of what is held.
pub(crate) fn need_of(piece: Piece, held: &Option<Holding>) -> Option<Need>
    ensures { result ≡ option_map (need_of piece) held.now }
{
    match held {
        None => None,
        Some(held) => match piece {
            Piece::Space => Some(Need::SpaceOf(held.gift.space)),
            Piece::Identity => Some(Need::IdentityOf(held.gift)),
            Piece::Terms => Some(Need::TermsOf(held.terms)),
        },
    }
}
