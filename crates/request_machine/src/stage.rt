//! Where a request stands.

use auth_events::{Call, Gift, Loss};
use auth_runs::Outcome;
use spaces::Target;

/// What the book is to tell of what is held.
#[derive(Clone, Copy, Debug, PartialEq, Eq)]
pub enum Piece {
    Space,
    Identity,
    Terms,
}

/// How the request closes: its outcome, and the gifts that are still to be noted before it.
#[derive(Clone, Copy, Debug, PartialEq, Eq)]
pub struct Closing {
    pub outcome: Outcome,
    pub proxy: Option<Gift>,
    pub server: Option<Gift>,
}

/// A prompt that the request leads or follows: for which target, its number, and the space and the
/// terms of the choice that led or followed it.
#[derive(Clone, Copy, Debug, PartialEq, Eq)]
pub struct Prompt {
    pub target: Target,
    pub number: u32,
    pub space: u32,
    pub terms: u32,
}

/// What comes next.
#[derive(Clone, Copy, Debug, PartialEq, Eq)]
pub enum Stage {
    /// The book is called.
    Call(Call),
    /// The way to the next head goes on.
    Go,
    /// On that way the book is to tell more of what is held for the target.
    Learn(Target, Piece),
    /// On that way a count of the nonce is drawn for the target.
    Draw(Target, u32),
    /// The best challenge of the last reply, which challenges the target, is chosen.
    Choose(Target),
    /// Its space is to be named.
    NameSpace(Target),
    /// Its space has that number, and its terms are to be named.
    NameTerms(Target, u32),
    /// The book chooses an identity for the target, in a space and with terms.
    Select(Target, u32, u32),
    /// The user is asked; the number is the prompt's ordinal in its space.
    Ask(Prompt, u32),
    /// The identity that the user gave is to be named.
    NameText(Prompt),
    /// The book is given the answer, by its number.
    Answer(Prompt, u32),
    /// The book is told that the user cancelled.
    Cancel(Prompt),
    /// The book is told that the prompt is lost.
    Lose(Prompt, Loss),
    /// The answer to a prompt of another request is taken.
    Take(Prompt),
    /// The gift that is held for the target is rejected.
    Reject(Target, Gift),
    /// A stale challenge's terms are to be named, for the gift that is held for the target.
    NameRenewal(Target, Gift),
    /// The gift is given these terms.
    Renew(Target, Gift, u32),
    /// The provider is asked to go on, with the peer's token, for the target.
    Continue(Target),
    /// The bound link did not stay: its contexts are lost with it.
    LoseLink(u32),
    /// The link's reply is read.
    Read(u32),
    /// The nonce that the last reply gives the target for the next request is looked for, before
    /// the calls at the end.
    NextNonce(Target, Closing),
    /// The terms with that nonce are to be named, for the gift that is held for the target.
    NameLast(Target, Gift, Closing),
    /// The gift is given these terms, before the other calls at the end.
    RenewLast(Target, Gift, u32, Closing),
    /// The calls at the end.
    Close(Closing),
    /// They were made; the outcome follows.
    End(Outcome),
    /// The memory has run out: an open prompt is lost next.
    Spent,
    /// None is open any more; the request is ended next.
    SpentEnd,
    /// It was ended; the outcome follows.
    SpentOver,
    /// Nothing follows.
    Over,
}
