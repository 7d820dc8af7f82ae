//! What a book tells of itself: one list of its entries and its new names, each with the caller
//! that made it. A prefix of it is all that a caller of a shared book has seen.

use crate::journal::Entry;
use crate::names::TermsName;
use auth_text::Identity;
use spaces::Space;

/// An entry, or a new name with the caller that made it.
#[derive(Debug, Drop)]
pub enum Told {
    Made(Entry),
    SpaceNamed { caller: u32, space: Space },
    TermsNamed { caller: u32, name: TermsName },
    TextNamed { caller: u32, text: Identity },
}

/// What a name is of.
#[derive(Clone, Copy, Debug, PartialEq, Eq)]
pub enum NameKind {
    Space,
    Terms,
    Text,
}

/// A number that was given out, by the caller that asked for it, and how many entries stood before
/// it.
#[derive(Clone, Copy, Debug, PartialEq, Eq)]
pub struct NewName {
    pub kind: NameKind,
    pub number: u32,
    pub caller: u32,
    pub before: u32,
}
