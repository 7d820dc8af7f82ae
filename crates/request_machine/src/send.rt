//! The next head: its bytes, by what is held for both targets, and its way over the open link.

ghost use Rattle.std.specs.Prelude.{◌≡◌, None, IfSome};
ghost use Rattle.request_machine.specs.Heads.{nonce_next};
ghost use Rattle.request_machine.specs.Told.{IsReady};

use crate::close::closing_by;
use crate::fields::{Maker, field, has_unsent, head};
use crate::known::{gift_told, headed_told};
use crate::machine::Machine;
use crate::stage::Stage;
use auth_runs::{Event, Outcome};
use auth_text::{Bytes, NoMemory};
use connection_binding::SendEnd;
use link_trait::{Dialer, Wrote};
use spaces::{Request, Target};
use std::alloc::Global;

impl Machine {
    ghost use Rattle.request_machine.specs.Work.{is_waiting, work_left};
    ghost use Rattle.std.specs.Prelude.{◌≡◌, ◌≢◌, ◌<◌, ◌≤◌, ◌∷◌, IfOk, IfSome, None, length, true};
    ghost use Rattle.std.specs.Prelude.{false, IsTrue, List, Option, option_map, option_and_then};
    ghost use Rattle.trace_rule.specs.Settings.{Setting};
    ghost use Rattle.trace_rule.specs.Telling.{dials};
    ghost use Rattle.link_trait.specs.Told.{grown};
    ghost use Rattle.link_trait.specs.declared.dialer.Dial.{Dial};
    ghost use Rattle.request_machine.specs.Kept.{Ties, IsLinkOpen};
    ghost use Rattle.request_machine.specs.Driven.{insides};
    ghost use Rattle.request_machine.specs.Provided.{steps};
    ghost use Rattle.link_trait.specs.Links.{Sends};
    ghost use Rattle.connection_binding.specs.Ends.{wrote_by, IsSendFault};
    ghost use Rattle.request_machine.specs.Carried.{TellsTraffic};
    ghost use Rattle.request_machine.specs.Prompted.{IsUnprompted};
    ghost use Rattle.request_machine.specs.Failed.{link_faults, TellsLinkFaults};
    ghost use Rattle.request_machine.specs.Heads.{bound_told, keeps_told, head_told};
    ghost use Rattle.request_machine.specs.Told.{gift_told, headed_told};
    ghost use Rattle.request_machine.specs.Turns.{is_asking, turns_left};
    ghost use Rattle.request_machine.specs.Linked.{line, way, goes_on, is_ending, IsLinked};
    ghost use Rattle.request_machine.specs.Linked.{IsOnlyLink, AreDialsOf, IsDriven};

    /// The bytes of the next head.
    pub(crate) fn next_head(&self, alloc: Global, request: &Request) -> Result<Bytes, NoMemory>
        requires few { self.now.heads < 256 }
        requires proxy { IfSome self.now.proxy IsReady }
        requires server { IfSome self.now.server IsReady }
        ensures { IfOk result (λ bytes. bytes ≡ head_told self.now request.now) }
    {
        let maker = Maker {
            number: self.number,
            seed: self.seed,
            is_proxied: self.is_proxied,
            head: self.heads + 1,
        };
        let proxy = field(
            alloc,
            maker,
            request,
            Target::Proxy,
            self.drawn_proxy,
            &self.proxy,
        )?;
        let server = field(
            alloc,
            maker,
            request,
            Target::Server,
            self.drawn_server,
            &self.server,
        )?;
        let keep = self.keeps();
        let text = head(alloc, self.is_proxied, request, &proxy, &server, keep)?;
        Ok(text)
    }

    /// Whether the link is kept behind the next head: a context has bound it, or does by that head.
    fn keeps(&self) -> bool
        ensures { result ≡ keeps_told self.now }
    {
        self.bound().is_some() || has_unsent(&self.proxy) || has_unsent(&self.server)
    }

    /// The Basic and Digest gifts that are held are those that the head carries.
    fn note_carried(&mut self)
        ensures { self.new
            ≡ record self.old {
              noted_proxy = option_and_then gift_told self.old.proxy;
              noted_server = option_and_then gift_told self.old.server;
            } }
    {
        self.noted_proxy = gift_told(&self.proxy);
        self.noted_server = gift_told(&self.server);
    }

    /// The head carries what is held over that link.
    fn carry_on(&mut self, link: u32)
        ensures { self.new
            ≡ record self.old {
              proxy = option_map (headed_told link) self.old.proxy;
              server = option_map (headed_told link) self.old.server;
            } }
    {
        let proxy = self.take_proxy();
        self.hold_proxy(headed_told(link, proxy));
        let server = self.take_server();
        self.hold_server(headed_told(link, server));
    }

    /// The next head is written.
    #[tactic(auto, using(crate::proofs::Heading::headed_ties))]
    pub(crate) fn headed(&mut self, request: &Request, bytes: Bytes)
        requires room { length self.old.past < 256 }
        requires few { self.old.heads < 256 }
        requires stage { self.old.stage ≡ Stage.Go }
        requires dialed { self.old.is_dialed ≡ true }
        requires proxy { IfSome self.old.proxy IsReady }
        requires server { IfSome self.old.server IsReady }
        requires unbound { bound_told self.old ≡ None }
        requires undrawn_proxy { nonce_next self.old.drawn_proxy self.old.proxy ≡ None }
        requires undrawn_server { nonce_next self.old.drawn_server self.old.server ≡ None }
        requires bytes { bytes ≡ head_told self.old request.now }
        ensures past { self.new.past ≡ Event.Headed self.old.links bytes ∷ self.old.past }
        ensures stage { self.new.stage ≡ Stage.Read self.old.links }
        ensures line { line self.new ≡ record (line self.old) { is_dialed = false } }
        ensures ties { (s : Setting) → s.request ≡ request.now → Ties s self.old
            → Ties s self.new }
    {
        let link = self.links;
        self.push(Event::Headed { link, bytes });
        self.note_carried();
        self.carry_on(link);
        self.drawn_proxy = None;
        self.drawn_server = None;
        self.heads += 1;
        self.is_dialed = false;
        self.stage = Stage::Read(link);
    }

    /// Sends the bytes over the open link, which they bind where they carry a token.
    pub(crate) fn send_bytes<D: Dialer>(
        &mut self,
        dialer: &mut D,
        bytes: &[u8],
        binds: bool,
    ) -> SendEnd
        requires { IsLinkOpen self.old.link (D.opened dialer.old) }
        ensures same { self.new ≡ self.old }
        ensures traffic { IfSome self.old.link (λ link. Sends
            (D.traffic dialer.old) (D.traffic dialer.new) (wrote_by result) link bytes.now) }
        ensures streams { D.streams dialer.new ≡ D.streams dialer.old }
        ensures later { D.faults dialer.old ≤ D.faults dialer.new }
        ensures fault { IsSendFault D.sticks (D.faults dialer.old) (D.faults dialer.new) result }
        ensures quiet { D.quiet dialer.old → D.quiet dialer.new × (wrote_by result ≢ Wrote.Failed) }
        ensures dials { D.dials dialer.new ≡ D.dials dialer.old }
        ensures opened { D.opened dialer.new ≡ D.opened dialer.old }
    {
        match self.link.take() {
            Some(link) => {
                let (link, end) = link.send(dialer, bytes, binds);
                self.put_link(link);
                end
            }
            None => unreachable!(),
        }
    }

    /// Writes the next head.
    #[tactic(auto, using(crate::proofs::Driving::link_open))]
    pub(crate) fn send<D: Dialer>(&mut self, alloc: Global, request: &Request, dialer: &mut D)
        requires room { length self.old.past < 250 }
        requires few { self.old.heads < 256 }
        requires stage { self.old.stage ≡ Stage.Go }
        requires dialed { self.old.is_dialed ≡ true }
        requires proxy { IfSome self.old.proxy IsReady }
        requires server { IfSome self.old.server IsReady }
        requires unbound { bound_told self.old ≡ None }
        requires undrawn_proxy { nonce_next self.old.drawn_proxy self.old.proxy ≡ None }
        requires undrawn_server { nonce_next self.old.drawn_server self.old.server ≡ None }
        requires linked { IsLinked self.old }
        requires links { IsOnlyLink (line self.old) (D.opened dialer.old) }
        requires told { AreDialsOf (line self.old) (D.dials dialer.old) }
        ensures free { is_waiting self.new.stage ≡ false }
        ensures less { work_left self.new ≤ work_left self.old }
        ensures ties { (s : Setting) → s.request ≡ request.now → Ties s self.old
            → Ties s self.new }
        ensures dials { (s : Setting) (before : Option (List Dial))
            → D.dials dialer.old ≡ grown before (dials s self.old.past)
            → D.dials dialer.new ≡ grown before (dials s self.new.past) }
        ensures driven { IsDriven self.old self.new
            (D.opened dialer.old) (D.opened dialer.new) (D.dials dialer.new) }
        ensures unprompted { IsUnprompted self.old self.new }
        ensures traffic { TellsTraffic request.now self.old self.new (D.streams dialer.old)
            (D.traffic dialer.old) (D.traffic dialer.new) }
        ensures streams { D.streams dialer.new ≡ D.streams dialer.old }
        ensures faults { TellsLinkFaults D.sticks self.old self.new
            (D.faults dialer.old) (D.faults dialer.new) }
        ensures quiet { D.quiet dialer.old → D.quiet dialer.new
            × (link_faults self.new.past ≡ link_faults self.old.past) }
        ensures nearer { turns_left self.new < turns_left self.old }
        ensures insides { insides self.new.past ≡ insides self.old.past }
        ensures steps { steps self.new.past ≡ steps self.old.past }
    {
        match self.next_head(alloc, request) {
            Err(NoMemory) => self.spend(),
            Ok(bytes) => {
                let binds = self.keeps();
                let end = self.send_bytes(dialer, bytes.as_slice(), binds);
                let link = self.links;
                self.headed(request, bytes);
                match end {
                    SendEnd::All => (),
                    SendEnd::Failed { count } => self.write_failed(link, count),
                    SendEnd::NoMemory => self.spend(),
                }
            }
        }
    }

    /// The head could not be written.
    #[tactic(auto, using(crate::proofs::Ending::write_failed_ties))]
    pub(crate) fn write_failed(&mut self, link: u32, count: u64)
        requires room { length self.old.past < 256 }
        requires stage { self.old.stage ≡ Stage.Read link }
        ensures past { self.new.past ≡ Event.WriteFailed link count ∷ self.old.past }
        ensures ends { is_ending (way self.new.stage) ≡ true }
        ensures asks { is_asking self.new ≡ true }
        ensures kept { line self.new ≡ line self.old }
        ensures goes { IsTrue (goes_on (way self.old.stage) (way self.new.stage)) }
        ensures free { is_waiting self.new.stage ≡ false }
        ensures ties { (s : Setting) → Ties s self.old → Ties s self.new }
    {
        self.push(Event::WriteFailed { link, count });
        self.stage = Stage::Close(closing_by(Outcome::LinkFailed(count)));
    }
}
