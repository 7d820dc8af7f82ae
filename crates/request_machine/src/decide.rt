//! What a challenge decides on the gift that is held for its target: the first one of the gift's
//! space that can be answered renews the gift where it is stale (RFC 7616 section 3.3), and else
//! rejects it. On a Negotiate gift the first challenge of that scheme decides, by the token that it
//! brings.

ghost use Rattle.std.specs.Prelude.{◌≡◌, IfOk, IfSome, option_and_then, option_map, find, false};
ghost use Rattle.spaces.specs.Sites.{site, same_space};
ghost use Rattle.trace_rule.specs.Challenges.{space_at, supported};
ghost use Rattle.challenge_offers.specs.Offers.{offered};
ghost use Rattle.challenge_offers.specs.Tokens.{token_offered};
ghost use Rattle.request_machine.specs.Chosen.{stale_terms, renewed_by, decision_by, decision_on};
ghost use Rattle.request_machine.specs.Chosen.{decision_told};
ghost use Rattle.request_machine.specs.Told.{IsReady};

use crate::holding::Holding;
use crate::known::is_of;
use crate::machine::Machine;
use crate::pick::site_of;
use auth_events::Gift;
use auth_text::{Bytes, NoMemory};
use challenge_offers::{Offer, deciding_offer, token_offered};
use spaces::{Request, Scheme, Space, Target, Terms};
use std::alloc::Global;
use wire_head::Reply;

/// What is decided.
#[derive(Drop)]
pub(crate) enum Decision {
    /// The terms renew the gift.
    Renews(Gift, Terms),
    /// The gift is rejected.
    Rejects(Gift),
    /// The peer's token goes to the provider.
    Continues(Bytes),
}

impl Machine {
    ghost use Rattle.std.specs.Prelude.{◌≡◌, IfOk, IfSome};
    ghost use Rattle.request_machine.specs.Changed.{holding};
    ghost use Rattle.request_machine.specs.Chosen.{decision_at};
    ghost use Rattle.request_machine.specs.Told.{IsReady};

    /// What the reply's challenges decide on what is held for the target.
    pub(crate) fn decision(
        &self,
        alloc: Global,
        request: &Request,
        target: Target,
        reply: &Reply,
    ) -> Result<Option<Decision>, NoMemory>
        requires { IfSome (holding self.now target) IsReady }
        ensures { IfOk result (λ decision. decision
            ≡ decision_at self.now request.now reply.now target) }
    {
        match target {
            Target::Proxy => decision_on(alloc, request, target, reply, &self.proxy),
            Target::Server => decision_on(alloc, request, target, reply, &self.server),
            Target::Socks => Ok(None),
        }
    }
}

/// The terms of a stale challenge.
fn stale_terms(offer: Offer) -> Option<Terms>
    ensures { result ≡ stale_terms (offered offer) }
{
    match offer {
        Offer::Basic { realm: _ } => None,
        Offer::Digest { terms, stale } => { if stale { Some(terms) } else { None } }
        Offer::Negotiate => None,
    }
}

/// The terms renew the gift; without any it is rejected.
fn renewed_by(gift: Gift, terms: Option<Terms>) -> Decision
    ensures { result ≡ renewed_by gift terms }
{
    match terms {
        None => Decision::Rejects(gift),
        Some(terms) => Decision::Renews(gift, terms),
    }
}

/// What the reply's challenges decide on a Basic or Digest gift.
fn decision_by_offer(
    alloc: Global,
    request: &Request,
    target: Target,
    reply: &Reply,
    gift: Gift,
    space: &Space,
) -> Result<Option<Decision>, NoMemory>
    ensures { IfOk result (λ decision. decision ≡ option_map (decision_by gift)
        (option_and_then (λ place. find
        (λ offer. same_space (space_at place offer) space.now)
        (supported false reply.now)) (site request.now target))) }
{
    let Some(place) = site_of(request, target)? else {
        return Ok(None);
    };
    match deciding_offer(alloc, &place, space, reply)? {
        None => Ok(None),
        Some(offer) => Ok(Some(renewed_by(gift, stale_terms(offer)))),
    }
}

/// What they decide on a Negotiate gift.
fn decision_by_token(alloc: Global, reply: &Reply, gift: Gift) -> Result<Option<Decision>, NoMemory>
    ensures { IfOk result (λ decision. decision
        ≡ option_map (decision_on gift) (token_offered reply.now)) }
{
    match token_offered(alloc, reply)? {
        None => Ok(None),
        Some(None) => Ok(Some(Decision::Rejects(gift))),
        Some(Some(peer)) => Ok(Some(Decision::Continues(peer))),
    }
}

/// What they decide on a gift of which all is told.
fn decision_of(
    alloc: Global,
    request: &Request,
    target: Target,
    reply: &Reply,
    held: &Holding,
) -> Result<Option<Decision>, NoMemory>
    requires { IsReady held.now }
    ensures { IfOk result (λ decision. decision
        ≡ decision_told request.now reply.now target held.now) }
{
    let Some(space) = &held.space else {
        unreachable!()
    };
    if is_of(space, Scheme::Negotiate) {
        return decision_by_token(alloc, reply, held.gift);
    }
    decision_by_offer(alloc, request, target, reply, held.gift, space)
}

/// What they decide on what is held, if anything is.
fn decision_on(
    alloc: Global,
    request: &Request,
    target: Target,
    reply: &Reply,
    held: &Option<Holding>,
) -> Result<Option<Decision>, NoMemory>
    requires { IfSome held.now IsReady }
    ensures { IfOk result (λ decision. decision
        ≡ option_and_then (decision_told request.now reply.now target) held.now) }
{
    match held {
        None => Ok(None),
        Some(held) => decision_of(alloc, request, target, reply, held),
    }
}
