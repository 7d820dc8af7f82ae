//! Which offer is taken: the best for a new identity, or the first of a space for one that is held.

ghost use Rattle.std.specs.Prelude.{◌≡◌, map, find, false, option_map, IfOk};
ghost use Rattle.std.specs.Option.{option_copied};
ghost use Rattle.spaces.specs.Sites.{same_space};
ghost use Rattle.trace_rule.specs.Challenges as rule;
ghost use Rattle.challenge_offers.specs.Offers.{offered};

use crate::offer::Offer;
use crate::offers::supported;
use auth_text::NoMemory;
use spaces::{Scheme, Site, Space, same_scheme};
use std::alloc::Global;
use wire_head::Reply;

/// The first offer of a scheme.
fn first_by(scheme: Scheme, offers: &[Offer]) -> Option<&Offer>
    ensures { option_map offered (option_copied result)
        ≡ rule.first_by scheme (map offered offers.now) }
{
    for offer in offers {
        if same_scheme(offer.scheme(), scheme) {
            return Some(offer);
        }
    }
    None
}

/// The best offer.
fn best(offers: &[Offer]) -> Option<&Offer>
    ensures { option_map offered (option_copied result) ≡ rule.best (map offered offers.now) }
{
    if let Some(offer) = first_by(Scheme::Negotiate, offers) {
        return Some(offer);
    }
    if let Some(offer) = first_by(Scheme::Digest, offers) {
        return Some(offer);
    }
    first_by(Scheme::Basic, offers)
}

/// The first offer of that space at the site.
fn first_of_space<'a>(site: &Site, space: &Space, offers: &'a [Offer]) -> Option<&'a Offer>
    ensures { option_map offered (option_copied result) ≡ find
        (λ offer. same_space (rule.space_at site.now offer) space.now) (map offered offers.now) }
{
    for offer in offers {
        if offer.is_of_space(site, space) {
            return Some(offer);
        }
    }
    None
}

fn copied(offer: Option<&Offer>) -> Result<Option<Offer>, NoMemory>
    ensures { IfOk result (λ copy. copy ≡ option_copied offer.entry) }
{
    match offer {
        None => Ok(None),
        Some(offer) => Ok(Some(offer.clone()?)),
    }
}

/// The best challenge of a reply, where one can be answered: Negotiate before Digest before Basic,
/// and of one scheme the first (RFC 7235 section 2.1 leaves the choice to the client). Negotiate
/// ones are passed over where `negotiates` doesn't hold.
pub fn best_offer(alloc: Global, negotiates: bool, reply: &Reply) -> Result<Option<Offer>, NoMemory>
    ensures { IfOk result (λ offer. option_map offered offer
        ≡ rule.best (rule.supported negotiates reply.now)) }
{
    let offers = supported(alloc, negotiates, reply)?;
    let offer = copied(best(offers.as_slice()))?;
    Ok(offer)
}

/// The challenge of a reply that decides on a Basic or Digest identity which was sent for the
/// space, at the site: the first that can be answered and is of that space.
pub fn deciding_offer(
    alloc: Global,
    site: &Site,
    space: &Space,
    reply: &Reply,
) -> Result<Option<Offer>, NoMemory>
    ensures { IfOk result (λ offer. option_map offered offer
        ≡ find (λ offer.
        same_space (rule.space_at site.now offer) space.now) (rule.supported false reply.now)) }
{
    let offers = supported(alloc, false, reply)?;
    let offer = copied(first_of_space(site, space, offers.as_slice()))?;
    Ok(offer)
}
