//! Replies as the rest of the program sees them: what of a reply matters to authentication, and the
//! faults that stand in place of one.

ghost use Rattle.std.specs.Prelude.{◌≡◌};
ghost use Rattle.wire_head.specs.Replies.{is_challenge};

use auth_text::{Bytes, Items};
use thiserror::Error;

/// Values of header fields, in the order in which they came.
pub type Fields = Items<Bytes>;

/// Why bytes are no reply.
#[derive(Clone, Copy, Debug, PartialEq, Eq, Error)]
pub enum WireFault {
    /// A head has ended that is no head of a response.
    #[error("the head is malformed")]
    BadHead,
    /// The heads have more than 65,536 bytes, interim ones included, or one has more than 256
    /// lines.
    #[error("the head is too long")]
    HeadTooLong,
    /// The lengths of the body contradict each other, or its chunks are malformed.
    #[error("the framing of the body is malformed")]
    BadFraming,
    /// The body has more than 1,048,576 bytes, those of its chunk lines and trailer included.
    #[error("the body is too long")]
    BodyTooLong,
    /// The stream ended within the reply.
    #[error("the stream ended within the reply")]
    Cut,
}

/// Whether a reply of that code is a challenge, of a server (401) or of a proxy (407). A challenge
/// carries fields and no infos, another reply infos and no fields.
pub fn is_challenge(code: u16) -> bool
    ensures { result ≡ is_challenge code }
{
    code == 401 || code == 407
}

/// A whole reply.
#[derive(Clone, Debug, Drop, PartialEq, Eq)]
pub struct Reply {
    /// The status code, 0 to 999.
    pub code: u16,
    /// The connection stays open behind the reply.
    pub stays: bool,
    /// The number of bytes of the body, without its framing.
    pub body: u32,
    /// The values of `WWW-Authenticate` of a 401, of `Proxy-Authenticate` of a 407, else none.
    pub fields: Fields,
    /// The values of `Authentication-Info` (RFC 7615, section 3); none of a 401 or a 407.
    pub server_info: Fields,
    /// The values of `Proxy-Authentication-Info` (RFC 7615, section 4); none of a 401 or a 407.
    pub proxy_info: Fields,
}
