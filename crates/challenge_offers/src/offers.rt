//! The challenges of a reply that can be answered, in order. Each field is read once.

ghost use Rattle.std.specs.Prelude.{◌≡◌, ◌++◌, map, filter_map, IfOk, OnOk};
ghost use Rattle.trace_rule.specs.Challenges as rule;
ghost use Rattle.challenge_offers.specs.Offers.{offered};

use crate::offer::{Offer, offer_of};
use auth_text::{Items, NoMemory};
use challenge_tokens::{Challenge, read_field};
use std::alloc::Global;
use wire_head::Reply;

/// Challenges that can be answered, in the order of the reply.
pub(crate) type Offers = Items<Offer>;

/// Adds what the challenges offer.
fn push_offers(
    alloc: Global,
    negotiates: bool,
    challenges: &[Challenge],
    offers: &mut Offers,
) -> Result<(), NoMemory>
    ensures { OnOk result (map offered offers.new
        ≡ map offered offers.old ++ filter_map (rule.offer negotiates) challenges.now) }
{
    for challenge in challenges {
        if let Some(offer) = offer_of(alloc, negotiates, challenge)? {
            offers.push(offer)?;
        }
    }
    Ok(())
}

/// The challenges of a reply that can be answered: all of its Basic ones but those with a token68,
/// the Digest ones whose terms can be computed, and the Negotiate ones where `negotiates` holds.
pub(crate) fn supported(alloc: Global, negotiates: bool, reply: &Reply) -> Result<Offers, NoMemory>
    ensures { IfOk result (λ offers. map offered offers ≡ rule.supported negotiates reply.now) }
{
    let mut offers = Offers::new(alloc);
    for field in reply.fields.as_slice() {
        let read = read_field(alloc, field.as_slice())?;
        push_offers(alloc, negotiates, read.challenges.as_slice(), &mut offers)?;
    }
    Ok(offers)
}
