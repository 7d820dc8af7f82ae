//! The rules of a world: which heads each of its servers and proxies accepts.

use auth_text::{Bytes, Items};
use spaces::{Algorithm, Origin, Target};

/// Which heads are accepted.
#[derive(Clone, Drop, PartialEq, Eq)]
pub enum Kind {
    /// All heads.
    Open,
    /// Heads whose credentials are Basic with this user and password (RFC 7617).
    Basic {
        realm: Bytes,
        user: Bytes,
        password: Bytes,
    },
    /// Heads whose credentials answer one of the rule's own nonces with this user and password
    /// (RFC 7616). Each nonce is accepted `uses` times, with 0 without a bound, and each count of
    /// a nonce once.
    Digest {
        realm: Bytes,
        user: Bytes,
        password: Bytes,
        algorithm: Algorithm,
        uses: u32,
    },
    /// Heads with the second token on a link on which the first one came, and was answered with
    /// the reply (RFC 4559).
    Negotiate {
        first: Bytes,
        reply: Bytes,
        second: Bytes,
    },
}

/// What a server or a proxy at an origin accepts.
#[derive(Clone, Drop, PartialEq, Eq)]
pub struct Rule {
    pub origin: Origin,
    /// A server's rule judges by `Authorization`, a proxy's by `Proxy-Authorization`.
    pub target: Target,
    pub kind: Kind,
}

/// The rules of a world, numbered from 1. Of several with one origin and target the first counts.
pub type Rules = Items<Rule>;
