//! What a request holds for a target.

use auth_events::Gift;
use auth_text::{Bytes, Identity};
use spaces::{Space, Terms};

/// The last token of a context.
#[derive(Debug, Drop)]
pub enum Token {
    /// The context goes on behind it.
    Live(negotiate_handler::Context),
    /// The provider has ended the context, which stands until its gift is rejected.
    Spent(Bytes),
}

/// The last token of a context, whether a head has carried it, and the link of its heads.
#[derive(Debug, Drop)]
pub struct Context {
    pub token: Token,
    pub is_sent: bool,
    pub link: Option<u32>,
}

/// Terms, and the number of their nonce.
#[derive(Debug, Drop)]
pub struct NamedTerms {
    pub terms: Terms,
    pub nonce: u32,
}

/// An identity that is held, and what the book has told of it so far.
#[derive(Debug, Drop)]
pub struct Holding {
    /// The gift; ordinal 0 is the default identity.
    pub gift: Gift,
    /// The number of the terms that it goes out with, or 0.
    pub terms: u32,
    /// The epoch that it was ready with, where it is preemptive.
    pub preemptive: Option<u32>,
    pub context: Option<Context>,
    /// The gift's space, once it is told.
    pub space: Option<Space>,
    /// The gift's identity, once it is told.
    pub identity: Option<Identity>,
    /// The terms, once they are told.
    pub named: Option<NamedTerms>,
}
