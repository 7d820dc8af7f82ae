//! What rules said to the heads that they judged.

use auth_text::Bytes;
use link_trait::LinkName;

/// A nonce that a Digest rule made, used with a count.
#[derive(Drop)]
pub(crate) struct Use {
    pub(crate) nonce: Bytes,
    pub(crate) count: u32,
}

/// What a rule says to a head.
#[derive(Drop)]
pub(crate) enum Said {
    /// It accepts the head.
    Accepted,
    /// A Digest rule accepts the head for this use of one of its nonces.
    Used(Use),
    /// A Basic rule refuses the head.
    Refused,
    /// A Digest rule refuses the head with a new nonce. The challenge is stale where the response
    /// was right.
    Challenged { nonce: Bytes, stale: bool },
    /// A Negotiate rule refuses the head with its reply, since the first token came.
    Begun,
    /// A Negotiate rule refuses the head, and forgets what came on the link.
    Forgotten,
}

/// What a rule said to a head on a link.
#[derive(Drop)]
pub(crate) struct Judged {
    /// The rule's number, from 1.
    pub(crate) rule: usize,
    pub(crate) link: LinkName,
    pub(crate) said: Said,
}
