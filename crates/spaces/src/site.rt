//! Sites: who asks for credentials (a server or a proxy, at its origin), in which partition.

ghost use Rattle.std.specs.Prelude.{◌≡◌, ◌↔◌, IsTrue, bytes_eq};
ghost use Rattle.spaces.specs.Sites.{same_origin, same_target, same_site};

use crate::partition::Partition;
use crate::place::Origin;

/// Who asks for credentials.
#[derive(Clone, Copy, Debug, PartialEq, Eq)]
pub enum Target {
    /// The server, by 401 and `WWW-Authenticate`.
    Server,
    /// The proxy, by 407 and `Proxy-Authenticate`.
    Proxy,
    /// A SOCKS proxy, by its user and password method.
    Socks,
}

/// A target at its origin, in a partition.
#[derive(Clone, Debug, Drop, PartialEq, Eq)]
pub struct Site {
    pub partition: Partition,
    pub target: Target,
    pub origin: Origin,
}

/// Whether two texts are the same bytes.
pub(crate) fn same_bytes(a: &[u8], b: &[u8]) -> bool
    ensures test { result ≡ bytes_eq a.now b.now }
    ensures same { IsTrue result ↔ (a.now ≡ b.now) }
{
    a == b
}

/// Whether two origins are the same.
pub fn same_origin(a: &Origin, b: &Origin) -> bool
    ensures test { result ≡ same_origin a.now b.now }
    ensures same { IsTrue result ↔ (a.now ≡ b.now) }
{
    same_bytes(a.host.as_slice(), b.host.as_slice()) && a.port == b.port
}

/// Whether two targets are the same.
pub fn same_target(a: Target, b: Target) -> bool
    ensures test { result ≡ same_target a b }
    ensures same { IsTrue result ↔ (a ≡ b) }
{
    a == b
}

/// Whether two sites are the same.
pub fn same_site(a: &Site, b: &Site) -> bool
    ensures test { result ≡ same_site a.now b.now }
    ensures same { IsTrue result ↔ (a.now ≡ b.now) }
{
    same_bytes(a.partition.name(), b.partition.name())
        && same_target(a.target, b.target)
        && same_origin(&a.origin, &b.origin)
}
