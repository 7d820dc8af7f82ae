//! Digest terms: what a Digest challenge asks its credentials to be made of (RFC 7616 section 3.3).

ghost use Rattle.std.specs.Prelude.{◌≡◌, ◌↔◌, IsTrue};
ghost use Rattle.spaces.specs.DigestTerms.{same_algorithm, same_qop, same_opaque, same_terms};

use crate::site::same_bytes;
use auth_text::Bytes;

/// The hash of Digest credentials.
#[derive(Clone, Copy, Debug, PartialEq, Eq)]
pub enum Algorithm {
    Md5,
    Sha256,
}

/// The quality of protection of Digest credentials.
#[derive(Clone, Copy, Debug, PartialEq, Eq)]
pub enum Qop {
    /// `auth`: with a count and a client nonce.
    Auth,
    /// None named, as RFC 2617 allows: neither count nor client nonce.
    Missing,
}

/// The terms of a Digest challenge. Realm, nonce and opaque are unescaped.
#[derive(Clone, Debug, Drop, PartialEq, Eq)]
pub struct Terms {
    pub algorithm: Algorithm,
    /// The challenge named an algorithm; where it didn't, it is MD5.
    pub said: bool,
    pub realm: Bytes,
    pub nonce: Bytes,
    pub opaque: Option<Bytes>,
    pub qop: Qop,
    /// The user name is to be sent hashed (RFC 7616 section 3.4.4).
    pub userhash: bool,
}

fn same_algorithm(a: Algorithm, b: Algorithm) -> bool
    ensures test { result ≡ same_algorithm a b }
    ensures same { IsTrue result ↔ (a ≡ b) }
{
    a == b
}

fn same_qop(a: Qop, b: Qop) -> bool
    ensures test { result ≡ same_qop a b }
    ensures same { IsTrue result ↔ (a ≡ b) }
{
    a == b
}

fn same_opaque(a: &Option<Bytes>, b: &Option<Bytes>) -> bool
    ensures test { result ≡ same_opaque a.now b.now }
    ensures same { IsTrue result ↔ (a.now ≡ b.now) }
{
    match (a, b) {
        (None, None) => true,
        (Some(a), Some(b)) => same_bytes(a.as_slice(), b.as_slice()),
        _ => false,
    }
}

/// Whether two terms are the same in every part.
pub fn same_terms(a: &Terms, b: &Terms) -> bool
    ensures test { result ≡ same_terms a.now b.now }
    ensures same { IsTrue result ↔ (a.now ≡ b.now) }
{
    same_algorithm(a.algorithm, b.algorithm)
        && a.said == b.said
        && same_bytes(a.realm.as_slice(), b.realm.as_slice())
        && same_bytes(a.nonce.as_slice(), b.nonce.as_slice())
        && same_opaque(&a.opaque, &b.opaque)
        && same_qop(a.qop, b.qop)
        && a.userhash == b.userhash
}
