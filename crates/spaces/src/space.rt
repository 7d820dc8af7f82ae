//! Protection spaces (RFC 7235 section 2.2): what one set of credentials is for.

ghost use Rattle.std.specs.Prelude.{◌≡◌, ◌↔◌, IsTrue, true};
ghost use Rattle.spaces.specs.Sites.{same_scheme, same_space};
ghost use Rattle.spaces.specs.ProtectionSpaces.{has_realm};

use crate::site::{Site, same_bytes, same_site};
use auth_text::Bytes;
use std::marker::Model;

/// How credentials are made.
#[derive(Clone, Copy, Debug, PartialEq, Eq)]
pub enum Scheme {
    /// RFC 7617.
    Basic,
    /// RFC 7616.
    Digest,
    /// RFC 4559.
    Negotiate,
    /// The user and password of SOCKS (RFC 1929).
    Password,
}

/// A protection space: a site, a scheme and a realm. The realm of Negotiate is empty.
#[derive(Clone, Debug, Drop, PartialEq, Eq)]
pub struct Space {
    site: Site,
    scheme: Scheme,
    realm: Bytes,
}

impl Model for Space {
    ghost use Rattle.std.specs.Prelude.{IsTrue};
    ghost use Rattle.spaces.specs.ProtectionSpaces.{ProtectionSpace, has_realm};

    ghost Value = { ProtectionSpace };

    ghost view = { λ it. record { site = it.site; scheme = it.scheme; realm = it.realm } };

    ghost invariant = { λ it. IsTrue (has_realm it.scheme it.realm) };

    ghost inverse = { λ it. record { site = it.site; scheme = it.scheme; realm = it.realm } };
}

impl Space {
    /// The space of a site, a scheme and a realm; Negotiate has no realm.
    pub fn new(site: Site, scheme: Scheme, realm: Bytes) -> Space
        requires { IsTrue (has_realm scheme realm) }
        ensures { result ≡ record { site = site; scheme = scheme; realm = realm } }
    {
        Space {
            site,
            scheme,
            realm,
        }
    }

    /// The site whose credentials these are.
    pub fn site(&self) -> &Site
        ensures { result.now ≡ self.now.site }
    {
        &self.site
    }

    /// How the credentials are made.
    pub fn scheme(&self) -> Scheme
        ensures value { result ≡ self.now.scheme }
        ensures fit { has_realm self.now.scheme self.now.realm ≡ true }
    {
        self.scheme
    }

    /// The realm that the challenge names, unescaped; empty for Negotiate.
    pub fn realm(&self) -> &[u8]
        ensures { result.now ≡ self.now.realm }
    {
        self.realm.as_slice()
    }
}

/// Whether two schemes are the same.
pub fn same_scheme(a: Scheme, b: Scheme) -> bool
    ensures test { result ≡ same_scheme a b }
    ensures same { IsTrue result ↔ (a ≡ b) }
{
    a == b
}

/// Whether two spaces are the same: partition, target, origin, scheme and realm.
pub fn same_space(a: &Space, b: &Space) -> bool
    ensures test { result ≡ same_space a.now b.now }
    ensures same { IsTrue result ↔ (a.now ≡ b.now) }
{
    same_site(a.site(), b.site())
        && same_scheme(a.scheme(), b.scheme())
        && same_bytes(a.realm(), b.realm())
}
