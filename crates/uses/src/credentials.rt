//! Answering a challenge with the identity that a user gave.

ghost use Rattle.std.specs.Prelude.{◌≡◌, IfOk, Option, false, option_map};
ghost use Rattle.std.specs.Option.{option_and_then};
ghost use Rattle.trace_rule.specs.Challenges.{best, supported};
ghost use Rattle.challenge_offers.specs.Offers.{offered};
ghost use Rattle.challenge_offers.specs.declared.offer.Offer.{Offer};
ghost use Rattle.uses.specs.Answers.{credentials_of};

use auth_text::{Bytes, Identity, NoMemory};
use basic_handler::credentials;
use challenge_offers::{Offer, best_offer};
use digest_handler::respond;
use spaces::Method;
use std::alloc::Global;
use wire_head::Reply;

/// The head that the credentials are for. The count and the client's nonce are those of Digest.
#[derive(Clone, Copy, Debug)]
pub struct Asking<'a> {
    pub method: Method,
    /// The request target as it is sent.
    pub uri: &'a [u8],
    /// How often this nonce was used, this head included: no two heads may have the same.
    pub count: u32,
    pub cnonce: &'a [u8],
}

/// The value of `Authorization` or `Proxy-Authorization` that takes up an offer. Negotiate goes by
/// tokens and has none.
pub fn credentials_for(
    alloc: Global,
    offer: &Offer,
    identity: &Identity,
    asking: &Asking<'_>,
) -> Result<Option<Bytes>, NoMemory>
    ensures { IfOk result (λ text. text
        ≡ credentials_of identity.now
        asking.now.method asking.now.uri.now asking.now.count asking.now.cnonce.now offer.now) }
{
    match offer {
        Offer::Basic { realm: _ } => Ok(Some(credentials(alloc, identity)?)),
        Offer::Digest { terms, stale: _ } => Ok(Some(respond(
            alloc,
            terms,
            identity,
            asking.method,
            asking.uri,
            asking.count,
            asking.cnonce,
        )?)),
        Offer::Negotiate => Ok(None),
    }
}

/// The credentials that answer a 401 or a 407 by its best challenge, where one can be answered.
pub fn authorization(
    alloc: Global,
    reply: &Reply,
    identity: &Identity,
    asking: &Asking<'_>,
) -> Result<Option<Bytes>, NoMemory>
    ensures { IfOk result (λ text. (offer : Option Offer)
        × (option_map offered offer ≡ best (supported false reply.now))
        × (text ≡ option_and_then (credentials_of identity.now asking.now.method asking.now.uri.now
        asking.now.count asking.now.cnonce.now) offer)) }
{
    match best_offer(alloc, false, reply)? {
        None => Ok(None),
        Some(offer) => credentials_for(alloc, &offer, identity, asking),
    }
}
