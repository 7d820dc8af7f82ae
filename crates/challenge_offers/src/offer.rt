//! One challenge that can be answered, and what is needed to answer it. A challenge that isn't one
//! is passed over, so that the next one of the reply is looked at.

ghost use Rattle.std.specs.Prelude.{◌≡◌, codes, bytes_eq, option_map, IfOk, true};
ghost use Rattle.std.specs.Option.{option_copied};
ghost use Rattle.trace_rule.specs.Challenges as rule;
ghost use Rattle.digest_handler.specs.ChallengeTerms.{terms_read};
ghost use Rattle.spaces.specs.Sites.{same_space};
ghost use Rattle.challenge_offers.specs.Offers.{offered};

use auth_text::{Bytes, NoMemory};
use challenge_tokens::{Body, Challenge};
use digest_handler::{Passed, terms_of};
use spaces::{Scheme, Site, Space, Terms, same_scheme, same_site};
use std::alloc::Global;

/// A challenge that can be answered.
#[derive(Clone, Debug, Drop, PartialEq, Eq)]
pub enum Offer {
    /// RFC 7617. A realm that isn't said is empty.
    Basic { realm: Bytes },
    /// RFC 7616, and RFC 2617 where there is no qop. The realm is that of the terms. With `stale`
    /// the credentials were right but for their nonce.
    Digest { terms: Terms, stale: bool },
    /// RFC 4559.
    Negotiate,
}

impl Offer {
    /// How the credentials are made.
    pub fn scheme(&self) -> Scheme
        ensures { result ≡ (offered self.now).scheme }
    {
        match self {
            Offer::Basic { realm: _ } => Scheme::Basic,
            Offer::Digest { terms: _, stale: _ } => Scheme::Digest,
            Offer::Negotiate => Scheme::Negotiate,
        }
    }

    /// The realm, unescaped; empty for Negotiate.
    pub fn realm(&self) -> &[u8]
        ensures { result.now ≡ (offered self.now).realm }
    {
        match self {
            Offer::Basic { realm } => realm.as_slice(),
            Offer::Digest { terms, stale: _ } => terms.realm.as_slice(),
            Offer::Negotiate => &[],
        }
    }

    /// Its space at a site.
    pub fn space_at(&self, alloc: Global, site: Site) -> Result<Space, NoMemory>
        ensures { IfOk result (λ space. space ≡ rule.space_at site (offered self.now)) }
    {
        let realm = Bytes::from_slice(alloc, self.realm())?;
        Ok(Space::new(site, self.scheme(), realm))
    }

    /// Whether its space at the site is that one.
    pub fn is_of_space(&self, site: &Site, space: &Space) -> bool
        ensures { result ≡ same_space (rule.space_at site.now (offered self.now)) space.now }
    {
        same_site(site, space.site())
            && same_scheme(self.scheme(), space.scheme())
            && self.realm() == space.realm()
    }
}

/// Whether the challenge has the scheme of that lower-case name.
pub(crate) fn has_scheme(challenge: &Challenge, name: &[u8]) -> bool
    ensures { result ≡ bytes_eq challenge.now.scheme name.now }
{
    challenge.scheme.as_slice() == name
}

/// What a Basic challenge offers: nothing where a token68 stands in place of parameters.
fn basic_offer(alloc: Global, challenge: &Challenge) -> Result<Option<Offer>, NoMemory>
    ensures { IfOk result (λ offer. option_map offered offer
        ≡ option_map rule.basic_offer (rule.realm_of challenge.now.body)) }
{
    if let Body::Token68(_) = &challenge.body {
        return Ok(None);
    }
    let realm = Bytes::from_slice(alloc, challenge.param(b"realm").unwrap_or(b""))?;
    Ok(Some(Offer::Basic { realm }))
}

/// What a Digest challenge offers: nothing where its terms are none that can be computed.
fn digest_offer(alloc: Global, challenge: &Challenge) -> Result<Option<Offer>, NoMemory>
    requires { challenge.now.scheme ≡ codes "digest" }
    ensures { IfOk result (λ offer. option_map offered offer
        ≡ rule.digest_offer (terms_read challenge.now)) }
{
    match terms_of(alloc, challenge) {
        Ok(read) => Ok(Some(Offer::Digest {
            terms: read.terms,
            stale: read.stale,
        })),
        Err(Passed::NoMemory) => Err(NoMemory),
        Err(_) => Ok(None),
    }
}

/// What a Negotiate challenge offers: nothing where it has parameters.
fn negotiate_offer(challenge: &Challenge) -> Option<Offer>
    ensures { option_map offered result ≡ rule.negotiate_offer challenge.now.body }
{
    match &challenge.body {
        Body::Bare => Some(Offer::Negotiate),
        Body::Token68(_) => Some(Offer::Negotiate),
        Body::Params(_) => None,
    }
}

/// What a challenge offers, where Negotiate can be answered or not.
pub(crate) fn offer_of(
    alloc: Global,
    negotiates: bool,
    challenge: &Challenge,
) -> Result<Option<Offer>, NoMemory>
    ensures { IfOk result (λ offer. option_map offered offer
        ≡ rule.offer negotiates challenge.now) }
{
    if has_scheme(challenge, b"basic") {
        basic_offer(alloc, challenge)
    } else if has_scheme(challenge, b"digest") {
        digest_offer(alloc, challenge)
    } else if has_scheme(challenge, b"negotiate") && negotiates {
        Ok(negotiate_offer(challenge))
    } else {
        Ok(None)
    }
}
