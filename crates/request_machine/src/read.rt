//! The reply to a head, and what it asks for. A free link is closed behind each reply.

ghost use Rattle.link_trait.specs.Links.{has_link, without_link};
ghost use Rattle.connection_binding.specs.Ends.{IsReadFault, IsNoReadFault};
ghost use Rattle.connection_binding.specs.Readings.{IsReplyRead};
ghost use Rattle.request_machine.specs.Reads.{IsFitRead};
ghost use Rattle.std.specs.Prelude.{◌≡◌, ◌≤◌, None, IfSome, true};
ghost use Rattle.request_machine.specs.Replies.{challenged_told};

use crate::close::closing_by;
use crate::machine::Machine;
use crate::open_link::OpenLink;
use crate::renew::stage_answered;
use crate::stage::{Closing, Stage};
use auth_runs::{Event, Outcome, Reply, WireFault};
use auth_text::NoMemory;
use connection_binding::ReadEnd;
use link_trait::Dialer;
use spaces::{Method, Request, Target};
use std::alloc::Global;
use wire_head::carried;

impl Machine {
    ghost use Rattle.request_machine.specs.Work.{is_waiting, work_left};
    ghost use Rattle.std.specs.Prelude.{false, ◌≡◌, ◌⊎◌, ◌<◌, ◌≤◌, ◌∷◌, IfSome, IsTrue, None};
    ghost use Rattle.std.specs.Prelude.{length, List, Option};
    ghost use Rattle.trace_rule.specs.Settings.{Setting};
    ghost use Rattle.trace_rule.specs.Traces.{can_be};
    ghost use Rattle.trace_rule.specs.Challenges.{challenged};
    ghost use Rattle.trace_rule.specs.Telling.{dials};
    ghost use Rattle.link_trait.specs.Told.{grown};
    ghost use Rattle.request_machine.specs.Carried.{TellsTraffic};
    ghost use Rattle.request_machine.specs.Prompted.{IsUnprompted};
    ghost use Rattle.request_machine.specs.Failed.{link_faults, TellsLinkFaults};
    ghost use Rattle.connection_binding.specs.Ends.{IsReadFault, IsNoReadFault};
    ghost use Rattle.connection_binding.specs.Readings.{IsReplyRead};
    ghost use Rattle.request_machine.specs.Reads.{IsFitRead};
    ghost use Rattle.link_trait.specs.declared.dialer.Dial.{Dial};
    ghost use Rattle.request_machine.specs.Driven.{insides};
    ghost use Rattle.request_machine.specs.Provided.{steps};
    ghost use Rattle.request_machine.specs.Kept.{Ties, IsTied, IsLinkOpen};
    ghost use Rattle.request_machine.specs.Turns.{is_asking, opened_without, turns_left};
    ghost use Rattle.request_machine.specs.Linked.{line, way, is_away, IsLinked, IsOnlyLink};
    ghost use Rattle.request_machine.specs.Linked.{AreDialsOf, IsDriven};

    /// Reads over the open link, and closes it.
    pub(crate) fn read_link<D: Dialer>(
        &mut self,
        alloc: Global,
        dialer: &mut D,
        method: Method,
    ) -> ReadEnd
        requires { IsLinkOpen self.old.link (D.opened dialer.old) }
        ensures fit { IsFitRead result }
        ensures reply { IfSome self.old.link (λ link. IsReplyRead link method
            (D.streams dialer.old) (D.traffic dialer.old) (D.traffic dialer.new) result) }
        ensures streams { D.streams dialer.new ≡ D.streams dialer.old }
        ensures later { D.faults dialer.old ≤ D.faults dialer.new }
        ensures fault { IsReadFault D.sticks (D.faults dialer.old) (D.faults dialer.new) result }
        ensures quiet { D.quiet dialer.old → D.quiet dialer.new × IsNoReadFault result }
        ensures same { self.new ≡ record self.old { link = None } }
        ensures dials { D.dials dialer.new ≡ D.dials dialer.old }
        ensures opened { D.opened dialer.new ≡ opened_without self.old.link (D.opened dialer.old) }
    {
        match self.link.take() {
            Some(link) => read_over(link, alloc, dialer, method),
            None => unreachable!(),
        }
    }

    /// Reads the reply and closes the link.
    #[tactic(auto, using(crate::proofs::Beside::linked_ties, crate::proofs::Reading::linked_tied, crate::proofs::Driving::reading_open))]
    pub(crate) fn read<D: Dialer>(
        &mut self,
        alloc: Global,
        request: &Request,
        dialer: &mut D,
        link: u32,
    )
        requires room { length self.old.past < 250 }
        requires few_rounds { self.old.rounds < 256 }
        requires stage { self.old.stage ≡ Stage.Read link }
        requires linked { IsLinked self.old }
        requires links { IsOnlyLink (line self.old) (D.opened dialer.old) }
        requires told { AreDialsOf (line self.old) (D.dials dialer.old) }
        requires tied { IsTied self.old request.now }
        ensures free { is_waiting self.new.stage ≡ false }
        ensures less { work_left self.new ≤ work_left self.old }
        ensures ties { (s : Setting) → s.request ≡ request.now → Ties s self.old
            → Ties s self.new }
        ensures dials { (s : Setting) (before : Option (List Dial))
            → D.dials dialer.old ≡ grown before (dials s self.old.past)
            → D.dials dialer.new ≡ grown before (dials s self.new.past) }
        ensures driven { IsDriven self.old self.new
            (D.opened dialer.old) (D.opened dialer.new) (D.dials dialer.new) }
        ensures unprompted { IsUnprompted self.old self.new }
        ensures traffic { TellsTraffic request.now self.old self.new (D.streams dialer.old)
            (D.traffic dialer.old) (D.traffic dialer.new) }
        ensures streams { D.streams dialer.new ≡ D.streams dialer.old }
        ensures faults { TellsLinkFaults D.sticks self.old self.new
            (D.faults dialer.old) (D.faults dialer.new) }
        ensures quiet { D.quiet dialer.old → D.quiet dialer.new
            × (link_faults self.new.past ≡ link_faults self.old.past) }
        ensures nearer { turns_left self.new < turns_left self.old }
        ensures insides { insides self.new.past ≡ insides self.old.past }
        ensures steps { steps self.new.past ≡ steps self.old.past }
    {
        match self.read_link(alloc, dialer, request.method) {
            ReadEnd::Whole(reply) => self.replied(alloc, request, link, reply),
            ReadEnd::Broken(fault) => self.broken(link, fault),
            ReadEnd::Lost => unreachable!(),
            ReadEnd::Failed { count } => self.read_failed(link, count),
            ReadEnd::NoMemory => self.spend(),
        }
    }

    /// The reply could not be read.
    #[tactic(auto, using(crate::proofs::Ending::read_failed_ties))]
    pub(crate) fn read_failed(&mut self, link: u32, count: u64)
        requires room { length self.old.past < 256 }
        requires stage { self.old.stage ≡ Stage.Read link }
        ensures past { self.new.past ≡ Event.ReadFailed link count ∷ self.old.past }
        ensures kept { line self.new ≡ line self.old }
        ensures away { IsTrue (is_away (way self.new.stage)) }
        ensures asks { is_asking self.new ≡ true }
        ensures free { is_waiting self.new.stage ≡ false }
        ensures ties { (s : Setting) → Ties s self.old → Ties s self.new }
    {
        self.push(Event::ReadFailed { link, count });
        self.stage = Stage::Close(closing_by(Outcome::LinkFailed(count)));
    }

    /// What was read is no reply.
    #[tactic(auto, using(crate::proofs::Ending::broken_ties))]
    pub(crate) fn broken(&mut self, link: u32, fault: WireFault)
        requires room { length self.old.past < 256 }
        requires stage { self.old.stage ≡ Stage.Read link }
        ensures past { self.new.past ≡ Event.Broken link fault ∷ self.old.past }
        ensures kept { line self.new ≡ line self.old }
        ensures away { IsTrue (is_away (way self.new.stage)) }
        ensures asks { is_asking self.new ≡ true }
        ensures free { is_waiting self.new.stage ≡ false }
        ensures ties { (s : Setting) → Ties s self.old → Ties s self.new }
    {
        self.push(Event::Broken { link, fault });
        self.stage = Stage::Close(closing_by(Outcome::BadReply(fault)));
    }

    /// The reply challenges nobody.
    #[tactic(auto, using(crate::proofs::Ending::answered_ties))]
    pub(crate) fn answered(&mut self, link: u32, reply: Reply)
        requires room { length self.old.past < 256 }
        requires stage { self.old.stage ≡ Stage.Read link }
        requires reply { IsTrue (can_be reply) }
        ensures past { self.new.past ≡ Event.Replied link reply ∷ self.old.past }
        ensures kept { line self.new ≡ line self.old }
        ensures away { IsTrue (is_away (way self.new.stage)) }
        ensures free { is_waiting self.new.stage ≡ false }
        ensures ties { (s : Setting) → challenged s reply ≡ None → Ties s self.old
            → Ties s self.new }
    {
        let code = reply.code;
        let stays = reply.stays;
        self.push(Event::Replied { link, reply });
        self.code = code;
        self.stays = stays;
        let closing = Closing {
            outcome: Outcome::Answered(code),
            proxy: self.noted_proxy,
            server: self.noted_server,
        };
        self.stage = stage_answered(self.rounds, closing);
    }

    /// Goes on with a whole reply.
    #[tactic(auto, using(crate::proofs::Reading::challenged_is_told, crate::proofs::Reading::ready_at))]
    pub(crate) fn replied(&mut self, alloc: Global, request: &Request, link: u32, reply: Reply)
        requires room { length self.old.past < 250 }
        requires few_rounds { self.old.rounds < 256 }
        requires stage { self.old.stage ≡ Stage.Read link }
        requires reply { IsTrue (can_be reply) }
        requires undialed { self.old.is_dialed ≡ false }
        requires tied { IsTied self.old request.now }
        ensures free { is_waiting self.new.stage ≡ false }
        ensures less { work_left self.new ≤ work_left self.old }
        ensures ties { (s : Setting) → s.request ≡ request.now → Ties s self.old
            → Ties s self.new }
        ensures dials { (s : Setting) → dials s self.new.past ≡ dials s self.old.past }
        ensures past { (self.new.past ≡ Event.Replied link reply ∷ self.old.past)
            ⊎ (self.new.past ≡ self.old.past) }
        ensures insides { insides self.new.past ≡ insides self.old.past }
        ensures steps { steps self.new.past ≡ steps self.old.past }
        ensures kept { line self.new ≡ line self.old }
        ensures away { IsTrue (is_away (way self.new.stage)) }
        ensures nearer { turns_left self.new < turns_left self.old }
    {
        match challenged_told(self.is_proxied, reply.code) {
            None => self.answered(link, reply),
            Some(target) => match self.decision(alloc, request, target, &reply) {
                Err(NoMemory) => self.spend(),
                Ok(decision) => self.challenged(link, reply, target, decision),
            },
        }
    }
}

/// Whom a reply of this code challenges.
pub(crate) fn challenged_told(is_proxied: bool, code: u16) -> Option<Target>
    ensures { result ≡ challenged_told is_proxied code }
{
    if code == 401 {
        Some(Target::Server)
    } else if code == 407 && is_proxied {
        Some(Target::Proxy)
    } else {
        None
    }
}

/// Reads over a link. A reply that is read has a final code, and challenges only where it is one.
#[tactic(auto, using(crate::proofs::Fitting::fit_read))]
fn read_over<D: Dialer>(link: OpenLink, alloc: Global, dialer: &mut D, method: Method) -> ReadEnd
    requires { has_link link (D.opened dialer.old) ≡ true }
    ensures fit { IsFitRead result }
    ensures reply { IsReplyRead link method
        (D.streams dialer.old) (D.traffic dialer.old) (D.traffic dialer.new) result }
    ensures streams { D.streams dialer.new ≡ D.streams dialer.old }
    ensures later { D.faults dialer.old ≤ D.faults dialer.new }
    ensures fault { IsReadFault D.sticks (D.faults dialer.old) (D.faults dialer.new) result }
    ensures quiet { D.quiet dialer.old → D.quiet dialer.new × IsNoReadFault result }
    ensures dials { D.dials dialer.new ≡ D.dials dialer.old }
    ensures opened { D.opened dialer.new ≡ without_link link (D.opened dialer.old) }
{
    carried();
    link.read(alloc, dialer, method)
}
