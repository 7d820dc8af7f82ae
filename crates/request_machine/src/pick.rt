//! The challenge that is answered: the best one of the last reply. Its space and its terms are then
//! to be named.

ghost use Rattle.std.specs.Prelude.{◌≡◌, Some, IfOk, IsSome, reverse};
ghost use Rattle.std.specs.Option.{option_copied};
ghost use Rattle.spaces.specs.Sites.{site};
ghost use Rattle.trace_rule.specs.Settings.{or_else};
ghost use Rattle.trace_rule.specs.Holding.{last_reply, reply_seen};
ghost use Rattle.challenge_offers.specs.Offers.{offered};
ghost use Rattle.request_machine.specs.Chosen.{IsPickOf};

use crate::machine::Machine;
use crate::stage::Stage;
use auth_runs::Event;
use auth_text::NoMemory;
use challenge_offers::{Offer, best_offer};
use spaces::{Origin, Request, Site, Space, Target, Terms, copy_origin};
use std::alloc::Global;
use wire_head::Reply;

/// The space of a challenge, and its terms where it is a Digest one.
#[derive(Drop)]
pub(crate) struct Pick {
    pub(crate) space: Space,
    pub(crate) terms: Option<Terms>,
}

impl Machine {
    ghost use Rattle.request_machine.specs.Work.{is_waiting, work_left};
    ghost use Rattle.std.specs.Prelude.{false, ◌≤◌, ◌≡◌, IsSome, IsTrue, Some, None, IfOk, true};
    ghost use Rattle.spaces.specs.Sites.{site};
    ghost use Rattle.trace_rule.specs.Settings.{Setting};
    ghost use Rattle.trace_rule.specs.Holding.{last_reply};
    ghost use Rattle.request_machine.specs.Chosen.{IsPick};
    ghost use Rattle.request_machine.specs.Turns.{is_asking};
    ghost use Rattle.request_machine.specs.Linked.{line, way, goes_on};
    ghost use Rattle.request_machine.specs.Kept.{Ties, IsTied};

    /// The last reply.
    pub(crate) fn reply(&self) -> &Reply
        requires { IsSome (last_reply self.now.past) }
        ensures { Some result.now ≡ last_reply self.now.past }
    {
        match last_reply(self.events.as_slice()) {
            Some(reply) => reply,
            None => unreachable!(),
        }
    }

    /// The best challenge of the last reply, where one can be answered.
    #[tactic(auto, using(crate::proofs::Picking::none_is_best, crate::proofs::Picking::some_is_best))]
    fn pick(
        &self,
        alloc: Global,
        request: &Request,
        target: Target,
    ) -> Result<Option<Pick>, NoMemory>
        requires reply { IsSome (last_reply self.now.past) }
        requires site { IsSome (site request.now target) }
        ensures { IfOk result (IsPick self.now.past request.now target) }
    {
        match best_offer(alloc, false, self.reply())? {
            None => Ok(None),
            Some(offer) => Ok(Some(pick_of(alloc, request, target, offer)?)),
        }
    }

    /// The challenge's space and its terms are to be named.
    fn picked(&mut self, target: Target, pick: Pick)
        requires stage { self.old.stage ≡ Stage.Choose target }
        ensures past { self.new.past ≡ self.old.past }
        ensures asks { is_asking self.new ≡ true }
        ensures kept { line self.new ≡ line self.old }
        ensures goes { IsTrue (goes_on (way self.old.stage) (way self.new.stage)) }
        ensures free { is_waiting self.new.stage ≡ false }
        ensures less { work_left self.new ≤ work_left self.old }
        ensures ties { (s : Setting) → IsPick self.old.past s.request target (Some pick)
            → Ties s self.old → Ties s self.new }
    {
        self.put_space(Some(pick.space));
        self.put_terms(pick.terms);
        self.stage = Stage::NameSpace(target);
    }

    /// Chooses the best challenge of the last reply. Where none can be answered the request is
    /// refused.
    #[tactic(auto, using(crate::proofs::Picking::reply_there, crate::proofs::Picking::site_there))]
    pub(crate) fn choose(&mut self, alloc: Global, request: &Request, target: Target)
        requires stage { self.old.stage ≡ Stage.Choose target }
        requires tied { IsTied self.old request.now }
        ensures past { self.new.past ≡ self.old.past }
        ensures asks { is_asking self.new ≡ true }
        ensures kept { line self.new ≡ line self.old }
        ensures goes { IsTrue (goes_on (way self.old.stage) (way self.new.stage)) }
        ensures free { is_waiting self.new.stage ≡ false }
        ensures less { work_left self.new ≤ work_left self.old }
        ensures ties { (s : Setting) → s.request ≡ request.now → Ties s self.old
            → Ties s self.new }
    {
        match self.pick(alloc, request, target) {
            Err(NoMemory) => self.spend(),
            Ok(None) => self.refuse(target),
            Ok(Some(pick)) => self.picked(target, pick),
        }
    }
}

/// The reply of an event that is one, or else the one before.
fn later_reply<'a>(event: &'a Event, before: Option<&'a Reply>) -> Option<&'a Reply>
    ensures { option_copied result ≡ or_else (reply_seen event.now) (option_copied before.entry) }
{
    match event {
        Event::Replied { link: _, reply } => Some(reply),
        _ => before,
    }
}

/// The last reply among events.
fn last_reply(events: &[Event]) -> Option<&Reply>
    ensures { option_copied result ≡ last_reply (reverse events.now) }
{
    let mut last = None;
    for event in events {
        last = later_reply(event, last);
    }
    last
}

fn site_at(request: &Request, target: Target, origin: &Origin) -> Result<Site, NoMemory>
    ensures { IfOk result (λ place. place
        ≡ record { partition = request.now.partition; target = target; origin = origin.now }) }
{
    let partition = request.partition.clone()?;
    let origin = copy_origin(origin)?;
    Ok(Site {
        partition,
        target,
        origin,
    })
}

/// The request's site for the target, where the target is on its route.
pub(crate) fn site_of(request: &Request, target: Target) -> Result<Option<Site>, NoMemory>
    ensures { IfOk result (λ place. place ≡ site request.now target) }
{
    match target {
        Target::Server => Ok(Some(site_at(request, target, &request.place.origin)?)),
        Target::Proxy => match &request.proxy {
            None => Ok(None),
            Some(proxy) => Ok(Some(site_at(request, target, proxy)?)),
        },
        Target::Socks => Ok(None),
    }
}

/// The terms of a Digest challenge.
fn terms_of(offer: Offer) -> Option<Terms>
    ensures { result ≡ (offered offer).terms }
{
    match offer {
        Offer::Basic { realm: _ } => None,
        Offer::Digest { terms, stale: _ } => Some(terms),
        Offer::Negotiate => None,
    }
}

/// The space and the terms of a challenge of the target.
fn pick_of(alloc: Global, request: &Request, target: Target, offer: Offer) -> Result<Pick, NoMemory>
    requires { IsSome (site request.now target) }
    ensures { IfOk result (IsPickOf request.now target (offered offer)) }
{
    let Some(place) = site_of(request, target)? else {
        unreachable!()
    };
    let space = offer.space_at(alloc, place)?;
    let terms = terms_of(offer);
    Ok(Pick { space, terms })
}
