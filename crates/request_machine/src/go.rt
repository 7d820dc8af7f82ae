//! The way to the next head: what the book is to tell of what is held, the link, and the counts
//! that are drawn for it.

ghost use Rattle.std.specs.Prelude.{◌≡◌, unwrap_or, None, IfSome};
ghost use Rattle.request_machine.specs.Heads.{nonce_next};
ghost use Rattle.request_machine.specs.Told.{IsReady};

use crate::close::closing_by;
use crate::holding::Holding;
use crate::known::{Lack, kept_drew, link_told, nonce_next, unbound_readiness};
use crate::machine::Machine;
use crate::open_link::OpenLink;
use crate::stage::{Piece, Stage};
use auth_events::Drawn;
use auth_runs::{Event, Outcome};
use connection_binding::{DialEnd, FreeLink};
use link_trait::{Dialer, LinkName, Tokens};
use spaces::{Origin, Request, Target};
use std::alloc::Global;

impl Machine {
    ghost use Rattle.request_machine.specs.Work.{is_waiting, work_left};
    ghost use Rattle.std.specs.Prelude.{◌≤◌, ◌≡◌, ◌<◌, ◌∷◌, IfSome, IfErr, OnOk, Some, None};
    ghost use Rattle.std.specs.Prelude.{length, false, true, ◌+◌, List, Option, IsTrue, is_some};
    ghost use Rattle.trace_rule.specs.Settings.{Setting};
    ghost use Rattle.trace_rule.specs.Telling.{dials};
    ghost use Rattle.link_trait.specs.Told.{grown};
    ghost use Rattle.link_trait.specs.declared.dialer.Dial.{Dial};
    ghost use Rattle.request_machine.specs.Linked.{line, way, goes_on, IsLinked, IsOnlyLink};
    ghost use Rattle.request_machine.specs.Linked.{AreDialsOf, IsDriven};
    ghost use Rattle.request_machine.specs.Driven.{insides};
    ghost use Rattle.request_machine.specs.Carried.{TellsTraffic};
    ghost use Rattle.request_machine.specs.Prompted.{IsUnprompted};
    ghost use Rattle.request_machine.specs.Failed.{link_faults, TellsLinkFaults};
    ghost use Rattle.request_machine.specs.Kept.{Ties};
    ghost use Rattle.request_machine.specs.Changed.{holding};
    ghost use Rattle.request_machine.specs.Told.{IsLacking};
    ghost use Rattle.request_machine.specs.Contexts.{IsLackAt};
    ghost use Rattle.request_machine.specs.Provided.{IsStepMore, IsTouchedBySteps, TellsSteps};
    ghost use Rattle.request_machine.specs.Provided.{shown, step_faults, steps};
    ghost use Rattle.request_machine.specs.Heads.{bound_told};
    ghost use Rattle.request_machine.specs.Turns.{is_asking, turns_left};

    /// The next link was dialed.
    #[tactic(auto, using(crate::proofs::Sending::dialed_ties))]
    pub(crate) fn dialed(&mut self)
        requires room { length self.old.past < 256 }
        requires few { self.old.links < 256 }
        requires stage { self.old.stage ≡ Stage.Go }
        requires undialed { self.old.is_dialed ≡ false }
        requires proxy { IfSome self.old.proxy IsReady }
        requires server { IfSome self.old.server IsReady }
        requires unbound { bound_told self.old ≡ None }
        ensures past { self.new.past ≡ Event.Dialed (self.old.links + 1) ∷ self.old.past }
        ensures stage { self.new.stage ≡ Stage.Go }
        ensures line { line self.new
            ≡ record (line self.old) { links = self.old.links + 1; is_dialed = true } }
        ensures ties { (s : Setting) → Ties s self.old → Ties s self.new }
    {
        let link = self.links + 1;
        self.push(Event::Dialed { link });
        self.links = link;
        self.is_dialed = true;
        self.stays = true;
    }

    /// The next link could not be dialed.
    #[tactic(auto, using(crate::proofs::Sending::dial_failed_ties))]
    pub(crate) fn dial_failed(&mut self, count: u64)
        requires room { length self.old.past < 256 }
        requires few { self.old.links < 256 }
        requires stage { self.old.stage ≡ Stage.Go }
        requires undialed { self.old.is_dialed ≡ false }
        requires proxy { IfSome self.old.proxy IsReady }
        requires server { IfSome self.old.server IsReady }
        requires unbound { bound_told self.old ≡ None }
        ensures past { self.new.past
            ≡ Event.DialFailed (self.old.links + 1) count ∷ self.old.past }
        ensures asks { is_asking self.new ≡ true }
        ensures kept { line self.new ≡ line self.old }
        ensures goes { IsTrue (goes_on (way self.old.stage) (way self.new.stage)) }
        ensures free { is_waiting self.new.stage ≡ false }
        ensures ties { (s : Setting) → Ties s self.old → Ties s self.new }
    {
        let link = self.links + 1;
        self.push(Event::DialFailed { link, count });
        self.stage = Stage::Close(closing_by(Outcome::LinkFailed(count)));
    }

    /// Dials the next link.
    #[tactic(auto, using(crate::proofs::Driving::free_link, crate::proofs::Driving::next_closed, crate::proofs::Driving::next_fresh))]
    pub(crate) fn dial<D: Dialer>(&mut self, request: &Request, dialer: &mut D)
        requires room { length self.old.past < 256 }
        requires few { self.old.links < 256 }
        requires stage { self.old.stage ≡ Stage.Go }
        requires undialed { self.old.is_dialed ≡ false }
        requires proxy { IfSome self.old.proxy IsReady }
        requires server { IfSome self.old.server IsReady }
        requires unbound { bound_told self.old ≡ None }
        requires linked { IsLinked self.old }
        requires links { IsOnlyLink (line self.old) (D.opened dialer.old) }
        requires told { AreDialsOf (line self.old) (D.dials dialer.old) }
        ensures free { is_waiting self.new.stage ≡ false }
        ensures less { work_left self.new ≤ work_left self.old }
        ensures ties { (s : Setting) → Ties s self.old → Ties s self.new }
        ensures dials { (s : Setting) (before : Option (List Dial)) → s.request ≡ request.now
            → Ties s self.old → D.dials dialer.old ≡ grown before (dials s self.old.past)
            → D.dials dialer.new ≡ grown before (dials s self.new.past) }
        ensures driven { IsDriven self.old self.new
            (D.opened dialer.old) (D.opened dialer.new) (D.dials dialer.new) }
        ensures unprompted { IsUnprompted self.old self.new }
        ensures traffic { TellsTraffic request.now self.old self.new (D.streams dialer.old)
            (D.traffic dialer.old) (D.traffic dialer.new) }
        ensures streams { D.streams dialer.new ≡ D.streams dialer.old }
        ensures faults { TellsLinkFaults D.sticks self.old self.new
            (D.faults dialer.old) (D.faults dialer.new) }
        ensures quiet { D.quiet dialer.old → D.quiet dialer.new
            × (link_faults self.new.past ≡ link_faults self.old.past) }
        ensures nearer { turns_left self.new < turns_left self.old }
        ensures insides { insides self.new.past ≡ insides self.old.past }
        ensures steps { steps self.new.past ≡ steps self.old.past }
    {
        let name = LinkName {
            request: self.number,
            nth: self.links + 1,
        };
        match FreeLink::dial(dialer, name, next_hop(request)) {
            DialEnd::Link(link) => {
                self.put_link(OpenLink::new(link));
                self.dialed();
            }
            DialEnd::Failed { count } => self.dial_failed(count),
            DialEnd::NoMemory => self.spend(),
        }
    }

    /// A count of the nonce is drawn for the proxy next.
    #[tactic(auto, using(crate::proofs::Drawing::draws_proxy_ties))]
    pub(crate) fn draws_proxy(&mut self, nonce: u32)
        requires stage { self.old.stage ≡ Stage.Go }
        requires dialed { self.old.is_dialed ≡ true }
        requires proxy { IfSome self.old.proxy IsReady }
        requires server { IfSome self.old.server IsReady }
        requires unbound { bound_told self.old ≡ None }
        requires next { nonce_next self.old.drawn_proxy self.old.proxy ≡ Some nonce }
        ensures past { self.new.past ≡ self.old.past }
        ensures asks { is_asking self.new ≡ true }
        ensures kept { line self.new ≡ line self.old }
        ensures goes { IsTrue (goes_on (way self.old.stage) (way self.new.stage)) }
        ensures free { is_waiting self.new.stage ≡ false }
        ensures less { work_left self.new ≤ work_left self.old }
        ensures ties { (s : Setting) → Ties s self.old → Ties s self.new }
    {
        self.stage = Stage::Draw(Target::Proxy, nonce);
    }

    /// A count of the nonce is drawn for the server next.
    #[tactic(auto, using(crate::proofs::Drawing::draws_server_ties))]
    pub(crate) fn draws_server(&mut self, nonce: u32)
        requires stage { self.old.stage ≡ Stage.Go }
        requires dialed { self.old.is_dialed ≡ true }
        requires proxy { IfSome self.old.proxy IsReady }
        requires server { IfSome self.old.server IsReady }
        requires unbound { bound_told self.old ≡ None }
        requires none { nonce_next self.old.drawn_proxy self.old.proxy ≡ None }
        requires next { nonce_next self.old.drawn_server self.old.server ≡ Some nonce }
        ensures past { self.new.past ≡ self.old.past }
        ensures asks { is_asking self.new ≡ true }
        ensures kept { line self.new ≡ line self.old }
        ensures goes { IsTrue (goes_on (way self.old.stage) (way self.new.stage)) }
        ensures free { is_waiting self.new.stage ≡ false }
        ensures less { work_left self.new ≤ work_left self.old }
        ensures ties { (s : Setting) → Ties s self.old → Ties s self.new }
    {
        self.stage = Stage::Draw(Target::Server, nonce);
    }

    /// A count was drawn for the proxy.
    pub(crate) fn drew_proxy(&mut self, nonce: u32, drawn: Drawn)
        requires room { length self.old.past < 256 }
        requires stage { self.old.stage ≡ Stage.Draw Target.Proxy nonce }
        ensures past { self.new.past
            ≡ Event.Drew Target.Proxy nonce drawn.count drawn.epoch ∷ self.old.past }
        ensures kept { line self.new ≡ line self.old }
        ensures goes { IsTrue (goes_on (way self.old.stage) (way self.new.stage)) }
        ensures free { is_waiting self.new.stage ≡ false }
        ensures ties { (s : Setting) → Ties s self.old → Ties s self.new }
    {
        self.push(Event::Drew {
            target: Target::Proxy,
            nonce,
            count: drawn.count,
            epoch: drawn.epoch,
        });
        let before = self.take_proxy();
        self.hold_proxy(kept_drew(drawn.epoch, before));
        self.drawn_proxy = Some(drawn.count);
        self.stage = Stage::Go;
    }

    /// A count was drawn for the server.
    pub(crate) fn drew_server(&mut self, nonce: u32, drawn: Drawn)
        requires room { length self.old.past < 256 }
        requires stage { self.old.stage ≡ Stage.Draw Target.Server nonce }
        ensures past { self.new.past
            ≡ Event.Drew Target.Server nonce drawn.count drawn.epoch ∷ self.old.past }
        ensures kept { line self.new ≡ line self.old }
        ensures goes { IsTrue (goes_on (way self.old.stage) (way self.new.stage)) }
        ensures free { is_waiting self.new.stage ≡ false }
        ensures ties { (s : Setting) → Ties s self.old → Ties s self.new }
    {
        self.push(Event::Drew {
            target: Target::Server,
            nonce,
            count: drawn.count,
            epoch: drawn.epoch,
        });
        let before = self.take_server();
        self.hold_server(kept_drew(drawn.epoch, before));
        self.drawn_server = Some(drawn.count);
        self.stage = Stage::Go;
    }

    /// The book is to tell more of what is held.
    #[tactic(auto, using(crate::proofs::Choosing::learn_ties, crate::proofs::Driving::learns))]
    pub(crate) fn learn(&mut self, target: Target, piece: Piece)
        requires stage { self.old.stage ≡ Stage.Go }
        requires lack { IsLacking piece (holding self.old target) }
        ensures past { self.new.past ≡ self.old.past }
        ensures asks { is_asking self.new ≡ true }
        ensures kept { line self.new ≡ line self.old }
        ensures goes { IsTrue (goes_on (way self.old.stage) (way self.new.stage)) }
        ensures free { is_waiting self.new.stage ≡ false }
        ensures less { work_left self.new ≤ work_left self.old }
        ensures ties { (s : Setting) → Ties s self.old → Ties s self.new }
    {
        self.stage = Stage::Learn(target, piece);
    }

    /// The request can't go on yet with what is held: the book is to tell more of it, or a context
    /// begins.
    pub(crate) fn lack<T: Tokens>(
        &mut self,
        alloc: Global,
        request: &Request,
        tokens: &mut T,
        target: Target,
        lack: Lack,
    )
        requires room { length self.old.past < 256 }
        requires few { self.old.rounds < 256 }
        requires stage { self.old.stage ≡ Stage.Go }
        requires lack { IsLackAt self.old target lack }
        ensures past { IsStepMore self.old.past self.new.past }
        ensures provider { TellsSteps request.now T.sticks self.old self.new
            (shown (T.told tokens.old) (T.script tokens.old) (T.faults tokens.old))
            (shown (T.told tokens.new) (T.script tokens.new) (T.faults tokens.new)) }
        ensures steps_quiet { T.quiet tokens.old → T.quiet tokens.new
            × (step_faults self.new.past ≡ step_faults self.old.past) }
        ensures touched { IsTouchedBySteps tokens.old tokens.new self.old.past self.new.past }
        ensures nearer { turns_left self.new < turns_left self.old }
        ensures kept { line self.new ≡ line self.old }
        ensures goes { IsTrue (goes_on (way self.old.stage) (way self.new.stage)) }
        ensures free { is_waiting self.new.stage ≡ false }
        ensures less { work_left self.new ≤ work_left self.old }
        ensures ties { (s : Setting) → Ties s self.old → Ties s self.new }
    {
        match lack {
            Lack::Piece(piece) => self.learn(target, piece),
            Lack::Context => self.start(alloc, request, tokens, target),
            Lack::Ended => self.spend(),
        }
    }

    /// The link that a context has bound.
    pub(crate) fn bound(&self) -> Option<u32>
        ensures { result ≡ bound_told self.now }
    {
        match link_told(&self.proxy) {
            Some(link) => Some(link),
            None => link_told(&self.server),
        }
    }

    /// Whether the next head can be written over a new link; else what is lacking, and of which
    /// target.
    #[tactic(auto, using(crate::proofs::Contexts::unbound_both))]
    fn is_ready(&self) -> Result<(), (Target, Lack)>
        ensures proxy { OnOk result (IfSome self.now.proxy IsReady) }
        ensures server { OnOk result (IfSome self.now.server IsReady) }
        ensures unbound { OnOk result (bound_told self.now ≡ None) }
        ensures lack { IfErr result (λ found. IsLackAt self.now found.0 found.1) }
    {
        if let Err(lack) = unbound_readiness(&self.proxy) {
            return Err((Target::Proxy, lack));
        }
        if let Err(lack) = unbound_readiness(&self.server) {
            return Err((Target::Server, lack));
        }
        Ok(())
    }

    /// Goes on to the next head, up to what the book or the words must tell.
    pub(crate) fn go<D: Dialer, T: Tokens>(
        &mut self,
        alloc: Global,
        request: &Request,
        dialer: &mut D,
        tokens: &mut T,
    )
        requires room { length self.old.past < 250 }
        requires few_links { self.old.links < 256 }
        requires few_heads { self.old.heads < 256 }
        requires few_rounds { self.old.rounds < 256 }
        requires stage { self.old.stage ≡ Stage.Go }
        requires linked { IsLinked self.old }
        requires links { IsOnlyLink (line self.old) (D.opened dialer.old) }
        requires told { AreDialsOf (line self.old) (D.dials dialer.old) }
        ensures free { is_waiting self.new.stage ≡ false }
        ensures less { work_left self.new ≤ work_left self.old }
        ensures ties { (s : Setting) → s.request ≡ request.now → Ties s self.old
            → Ties s self.new }
        ensures dials { (s : Setting) (before : Option (List Dial)) → s.request ≡ request.now
            → Ties s self.old → D.dials dialer.old ≡ grown before (dials s self.old.past)
            → D.dials dialer.new ≡ grown before (dials s self.new.past) }
        ensures driven { IsDriven self.old self.new
            (D.opened dialer.old) (D.opened dialer.new) (D.dials dialer.new) }
        ensures unprompted { IsUnprompted self.old self.new }
        ensures traffic { TellsTraffic request.now self.old self.new (D.streams dialer.old)
            (D.traffic dialer.old) (D.traffic dialer.new) }
        ensures streams { D.streams dialer.new ≡ D.streams dialer.old }
        ensures faults { TellsLinkFaults D.sticks self.old self.new
            (D.faults dialer.old) (D.faults dialer.new) }
        ensures quiet { D.quiet dialer.old → D.quiet dialer.new
            × (link_faults self.new.past ≡ link_faults self.old.past) }
        ensures nearer { turns_left self.new < turns_left self.old }
        ensures insides { insides self.new.past ≡ insides self.old.past }
        ensures provider { TellsSteps request.now T.sticks self.old self.new
            (shown (T.told tokens.old) (T.script tokens.old) (T.faults tokens.old))
            (shown (T.told tokens.new) (T.script tokens.new) (T.faults tokens.new)) }
        ensures steps_quiet { T.quiet tokens.old → T.quiet tokens.new
            × (step_faults self.new.past ≡ step_faults self.old.past) }
        ensures touched { IsTouchedBySteps tokens.old tokens.new self.old.past self.new.past }
    {
        if let Err((target, lack)) = self.is_ready() {
            self.lack(alloc, request, tokens, target, lack);
            return;
        }
        if !self.is_dialed {
            self.dial(request, dialer);
            return;
        }
        if let Some(nonce) = nonce_next(self.drawn_proxy, &self.proxy) {
            self.draws_proxy(nonce);
            return;
        }
        if let Some(nonce) = nonce_next(self.drawn_server, &self.server) {
            self.draws_server(nonce);
            return;
        }
        self.send(alloc, request, dialer);
    }
}

/// Where the request's links go.
pub(crate) fn next_hop(request: &Request) -> &Origin
    ensures { result.now ≡ unwrap_or request.now.proxy request.now.place.origin }
{
    match &request.proxy {
        Some(proxy) => proxy,
        None => &request.place.origin,
    }
}
