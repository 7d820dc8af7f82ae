//! Terms that a gift is given anew: those of a stale challenge, and, at the end, the terms that it
//! went out with under the nonce that the last reply gave for the next request (RFC 7616 section
//! 3.5).

ghost use Rattle.std.specs.Prelude.{◌≡◌, IfOk, option_and_then};
ghost use Rattle.trace_rule.specs.NextNonces.{first_next};
ghost use Rattle.trace_rule.specs.Closings.{with_nonce};
ghost use Rattle.spaces.specs.declared.space.Scheme.TheVariants.{Digest};
ghost use Rattle.request_machine.specs.Told.{scheme_told};
ghost use Rattle.request_machine.specs.Renewals.{stage_answered, stage_behind, renewal_told};

use crate::holding::Holding;
use crate::machine::Machine;
use crate::stage::{Closing, Stage};
use auth_events::{BookReply, Call, Gift};
use auth_runs::Event;
use auth_text::{Bytes, NoMemory};
use challenge_offers::next_nonce;
use spaces::{Scheme, Target, Terms, copy_terms};
use std::alloc::Global;

/// A gift, and the terms that it is to be given.
#[derive(Drop)]
pub(crate) struct Renewal {
    pub(crate) gift: Gift,
    pub(crate) terms: Terms,
}

impl Machine {
    ghost use Rattle.request_machine.specs.Work.{is_waiting, work_left};
    ghost use Rattle.std.specs.Prelude.{false, ◌≤◌, ◌≡◌, ◌<◌, ◌∷◌, IsTrue, IsSome, IfOk, Some};
    ghost use Rattle.std.specs.Prelude.{None, length, true};
    ghost use Rattle.trace_rule.specs.Holding.{last_reply};
    ghost use Rattle.request_machine.specs.Renewals.{renewal_at};
    ghost use Rattle.trace_rule.specs.Settings.{Setting};
    ghost use Rattle.trace_rule.specs.Traces.{suits};
    ghost use Rattle.request_machine.specs.Gives.{AreTermsNamed};
    ghost use Rattle.request_machine.specs.Turns.{is_asking, turns_left};
    ghost use Rattle.request_machine.specs.Linked.{line, way, goes_on};
    ghost use Rattle.request_machine.specs.Kept.{Ties};

    /// The terms of the stale challenge have a number.
    #[tactic(auto, using(crate::proofs::Renewing::renewal_named_ties))]
    pub(crate) fn renewal_named(&mut self, target: Target, gift: Gift, terms: u32)
        requires stage { self.old.stage ≡ Stage.NameRenewal target gift }
        ensures past { self.new.past ≡ self.old.past }
        ensures kept { line self.new ≡ line self.old }
        ensures goes { IsTrue (goes_on (way self.old.stage) (way self.new.stage)) }
        ensures stage { self.new.stage ≡ Stage.Renew target gift terms }
        ensures rest { self.new ≡ record self.old { stage = self.new.stage } }
        ensures ties { (s : Setting) → AreTermsNamed s self.old gift.space terms
            → Ties s self.old → Ties s self.new }
    {
        self.stage = Stage::Renew(target, gift, terms);
    }

    /// The gift was given the terms of the stale challenge.
    pub(crate) fn renewed(&mut self, target: Target, gift: Gift, terms: u32, reply: BookReply)
        requires room { length self.old.past < 256 }
        requires stage { self.old.stage ≡ Stage.Renew target gift terms }
        ensures past { self.new.past ≡ Event.Called (Call.Renew gift terms) reply ∷ self.old.past }
        ensures kept { line self.new ≡ line self.old }
        ensures goes { IsTrue (goes_on (way self.old.stage) (way self.new.stage)) }
        ensures free { is_waiting self.new.stage ≡ false }
        ensures ties { (s : Setting) → IsTrue (suits s self.old.past (Call.Renew gift terms) reply)
            → Ties s self.old → Ties s self.new }
    {
        self.push(Event::Called {
            call: Call::Renew { gift, terms },
            reply,
        });
        self.hold(target, gift, terms);
        self.stage = Stage::Go;
    }

    /// The renewal of what is held for the target, where the last reply gave a nonce for it.
    fn renewal(&self, alloc: Global, target: Target) -> Result<Option<Renewal>, NoMemory>
        requires { IsSome (last_reply self.now.past) }
        ensures { IfOk result (λ renewal. renewal ≡ renewal_at self.now target) }
    {
        match target {
            Target::Proxy => { renewal_of(alloc, self.reply().proxy_info.as_slice(), &self.proxy) }
            Target::Server => {
                renewal_of(alloc, self.reply().server_info.as_slice(), &self.server)
            }
            Target::Socks => Ok(None),
        }
    }

    /// Nothing is renewed for the target.
    #[tactic(auto, using(crate::proofs::Driving::behind_ends, crate::proofs::Driving::behind_nearer))]
    fn not_renewed(&mut self, target: Target, closing: Closing)
        requires stage { self.old.stage ≡ Stage.NextNonce target closing }
        requires none { renewal_at self.old target ≡ None }
        ensures past { self.new.past ≡ self.old.past }
        ensures nearer { turns_left self.new < turns_left self.old }
        ensures kept { line self.new ≡ line self.old }
        ensures goes { IsTrue (goes_on (way self.old.stage) (way self.new.stage)) }
        ensures free { is_waiting self.new.stage ≡ false }
        ensures less { work_left self.new ≤ work_left self.old }
        ensures ties { (s : Setting) → Ties s self.old → Ties s self.new }
    {
        self.stage = stage_behind(target, closing);
    }

    /// The new terms of the gift are to be named.
    fn renews(&mut self, target: Target, closing: Closing, renewal: Renewal)
        requires stage { self.old.stage ≡ Stage.NextNonce target closing }
        requires some { renewal_at self.old target ≡ Some renewal }
        ensures past { self.new.past ≡ self.old.past }
        ensures asks { is_asking self.new ≡ true }
        ensures kept { line self.new ≡ line self.old }
        ensures goes { IsTrue (goes_on (way self.old.stage) (way self.new.stage)) }
        ensures free { is_waiting self.new.stage ≡ false }
        ensures less { work_left self.new ≤ work_left self.old }
        ensures ties { (s : Setting) → Ties s self.old → Ties s self.new }
    {
        self.put_terms(Some(renewal.terms));
        self.stage = Stage::NameLast(target, renewal.gift, closing);
    }

    /// Looks for the nonce that the last reply gave the target for the next request.
    #[tactic(auto, using(crate::proofs::Driving::next_nearer))]
    pub(crate) fn renew_next(&mut self, alloc: Global, target: Target, closing: Closing)
        requires stage { self.old.stage ≡ Stage.NextNonce target closing }
        requires reply { IsSome (last_reply self.old.past) }
        ensures past { self.new.past ≡ self.old.past }
        ensures nearer { turns_left self.new < turns_left self.old }
        ensures kept { line self.new ≡ line self.old }
        ensures goes { IsTrue (goes_on (way self.old.stage) (way self.new.stage)) }
        ensures free { is_waiting self.new.stage ≡ false }
        ensures less { work_left self.new ≤ work_left self.old }
        ensures ties { (s : Setting) → Ties s self.old → Ties s self.new }
    {
        match self.renewal(alloc, target) {
            Err(NoMemory) => self.spend(),
            Ok(None) => self.not_renewed(target, closing),
            Ok(Some(renewal)) => self.renews(target, closing, renewal),
        }
    }

    /// The terms with the next nonce have a number.
    #[tactic(auto, using(crate::proofs::Renewing::last_named_ties))]
    pub(crate) fn last_named(&mut self, target: Target, gift: Gift, closing: Closing, terms: u32)
        requires stage { self.old.stage ≡ Stage.NameLast target gift closing }
        ensures past { self.new.past ≡ self.old.past }
        ensures kept { line self.new ≡ line self.old }
        ensures goes { IsTrue (goes_on (way self.old.stage) (way self.new.stage)) }
        ensures stage { self.new.stage ≡ Stage.RenewLast target gift terms closing }
        ensures rest { self.new ≡ record self.old { stage = self.new.stage } }
        ensures ties { (s : Setting) → AreTermsNamed s self.old gift.space terms
            → Ties s self.old → Ties s self.new }
    {
        self.stage = Stage::RenewLast(target, gift, terms, closing);
    }

    /// The gift was given the terms with the next nonce.
    #[tactic(auto, using(crate::proofs::Driving::behind_ends))]
    pub(crate) fn renewed_last(
        &mut self,
        target: Target,
        gift: Gift,
        terms: u32,
        closing: Closing,
        reply: BookReply,
    )
        requires room { length self.old.past < 256 }
        requires stage { self.old.stage ≡ Stage.RenewLast target gift terms closing }
        ensures past { self.new.past ≡ Event.Called (Call.Renew gift terms) reply ∷ self.old.past }
        ensures kept { line self.new ≡ line self.old }
        ensures goes { IsTrue (goes_on (way self.old.stage) (way self.new.stage)) }
        ensures free { is_waiting self.new.stage ≡ false }
        ensures ties { (s : Setting) → IsTrue (suits s self.old.past (Call.Renew gift terms) reply)
            → Ties s self.old → Ties s self.new }
    {
        self.push(Event::Called {
            call: Call::Renew { gift, terms },
            reply,
        });
        self.hold(target, gift, terms);
        self.stage = stage_behind(target, closing);
    }
}

/// Whether what is held is a Digest identity, as far as was told.
fn is_digest(held: &Holding) -> bool
    ensures { result ≡ scheme_told held.now.space Digest }
{
    match &held.space {
        None => false,
        Some(space) => matches!(space.scheme(), Scheme::Digest),
    }
}

/// The same terms with another nonce.
fn with_nonce(nonce: Bytes, terms: &Terms) -> Result<Terms, NoMemory>
    ensures { IfOk result (λ renewed. renewed ≡ with_nonce nonce terms.now) }
{
    let copy = copy_terms(terms)?;
    Ok(Terms { nonce, ..copy })
}

/// The renewal of what is held, by the info values of a reply.
fn renewal_of(
    alloc: Global,
    infos: &[Bytes],
    held: &Option<Holding>,
) -> Result<Option<Renewal>, NoMemory>
    ensures { IfOk result (λ renewal. renewal
        ≡ option_and_then (renewal_told (first_next infos.now)) held.now) }
{
    let Some(held) = held else {
        return Ok(None);
    };
    if !is_digest(held) {
        return Ok(None);
    }
    let Some(named) = &held.named else {
        return Ok(None);
    };
    match next_nonce(alloc, infos)? {
        None => Ok(None),
        Some(nonce) => Ok(Some(Renewal {
            gift: held.gift,
            terms: with_nonce(nonce, &named.terms)?,
        })),
    }
}

/// What follows an answer: after more than 14 rounds no next nonce is looked for.
pub(crate) fn stage_answered(rounds: u32, closing: Closing) -> Stage
    ensures { result ≡ stage_answered rounds closing }
{
    if rounds <= 14 {
        Stage::NextNonce(Target::Proxy, closing)
    } else {
        Stage::Close(closing)
    }
}

/// What follows the renewal for a target: the server's follows the proxy's.
pub(crate) fn stage_behind(target: Target, closing: Closing) -> Stage
    ensures { result ≡ stage_behind target closing }
{
    match target {
        Target::Proxy => Stage::NextNonce(Target::Server, closing),
        Target::Server => Stage::Close(closing),
        Target::Socks => Stage::Close(closing),
    }
}
