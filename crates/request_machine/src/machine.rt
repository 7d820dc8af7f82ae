//! The machine of one request: what it keeps. It is seen as a record whose fields stand for what
//! the request's past says; the past grows by one event at a time, and no event takes memory.

ghost use Rattle.std.specs.Prelude.{◌≡◌, None};

use crate::holding::Holding;
use crate::open_link::OpenLink;
use crate::stage::Stage;
use auth_events::{Call, Gift};
use auth_runs::Event;
use auth_text::{Bytes, Identity, NoMemory};
use spaces::{Request, Roster, Space, Target, Terms};
use std::alloc::Global;
use std::marker::Model;

/// What a request has seen so far, and what comes next.
pub struct Machine {
    pub(crate) number: u32,
    pub(crate) seed: [u8; 32],
    pub(crate) is_proxied: bool,
    pub(crate) events: Vec<Event>,
    pub(crate) stage: Stage,
    pub(crate) proxy: Option<Holding>,
    pub(crate) server: Option<Holding>,
    pub(crate) drawn_proxy: Option<u32>,
    pub(crate) drawn_server: Option<u32>,
    pub(crate) noted_proxy: Option<Gift>,
    pub(crate) noted_server: Option<Gift>,
    pub(crate) links: u32,
    pub(crate) heads: u32,
    pub(crate) rounds: u32,
    pub(crate) code: u16,
    pub(crate) is_dialed: bool,
    pub(crate) stays: bool,
    pub(crate) has_lost: bool,
    pub(crate) has_none: bool,
    pub(crate) prompt: u32,
    pub(crate) given: Option<Identity>,
    pub(crate) peer: Option<Bytes>,
    pub(crate) unnamed_space: Option<Space>,
    pub(crate) unnamed_terms: Option<Terms>,
    pub(crate) space: Option<Space>,
    pub(crate) link: Option<OpenLink>,
}

impl Model for Machine {
    ghost use Rattle.std.specs.Prelude.{reverse, vec_capacity, ◌≤◌};
    ghost use Rattle.request_machine.specs.Kept.{Kept};

    ghost Value = { Kept };

    ghost view = { λ m. record {
      number = m.number;
      seed = m.seed;
      is_proxied = m.is_proxied;
      past = reverse m.events.items;
      stage = m.stage;
      proxy = m.proxy;
      server = m.server;
      drawn_proxy = m.drawn_proxy;
      drawn_server = m.drawn_server;
      noted_proxy = m.noted_proxy;
      noted_server = m.noted_server;
      links = m.links;
      heads = m.heads;
      rounds = m.rounds;
      code = m.code;
      is_dialed = m.is_dialed;
      stays = m.stays;
      has_lost = m.has_lost;
      has_none = m.has_none;
      prompt = m.prompt;
      given = m.given;
      peer = m.peer;
      unnamed_space = m.unnamed_space;
      unnamed_terms = m.unnamed_terms;
      space = m.space;
      link = m.link;
    } };

    ghost invariant = { λ m. 256 ≤ vec_capacity m.events };
}

impl Machine {
    ghost use Rattle.std.specs.Prelude.{◌≡◌, IsSome, ◌<◌, ◌∷◌, [], IfOk, Some, None, length};
    ghost use Rattle.spaces.specs.Sites.{numbered};
    ghost use Rattle.trace_rule.specs.Settings.{Setting};
    ghost use Rattle.request_machine.specs.Kept.{Ties, IsOf, IsSettingOf};
    ghost use Rattle.request_machine.specs.Changed.{put_held};
    ghost use Rattle.request_machine.specs.Linked.{line, first_line};

    /// The machine of a request that hasn't begun, with room for 256 events. The client nonces of
    /// its Digest credentials are made of the seed.
    pub fn new(
        alloc: Global,
        roster: &Roster,
        request: u32,
        seed: [u8; 32],
    ) -> Result<Machine, NoMemory>
        requires { IsSome (numbered roster.now.requests request) }
        ensures stage { IfOk result (λ machine. machine.stage ≡ Stage.Call Call.Begin) }
        ensures past { IfOk result (λ machine. machine.past ≡ []) }
        ensures line { IfOk result (λ machine. line machine ≡ first_line request seed) }
        ensures ties { IfOk result (λ machine. (s : Setting)
            → IsSettingOf s roster.now request seed → Ties s machine) }
    {
        match roster.requests.get(request) {
            Some(found) => Machine::unbegun(alloc, found, request, seed),
            None => unreachable!(),
        }
    }

    #[tactic(auto, using(crate::proofs::Starting::new_ties))]
    fn unbegun(
        alloc: Global,
        request: &Request,
        number: u32,
        seed: [u8; 32],
    ) -> Result<Machine, NoMemory>
        ensures stage { IfOk result (λ machine. machine.stage ≡ Stage.Call Call.Begin) }
        ensures past { IfOk result (λ machine. machine.past ≡ []) }
        ensures line { IfOk result (λ machine. line machine ≡ first_line number seed) }
        ensures ties { IfOk result (λ machine. (s : Setting) → IsOf s request.now number seed
            → Ties s machine) }
    {
        let events = Vec::with_capacity(alloc, 256)?;
        Ok(Machine {
            number,
            seed,
            is_proxied: request.proxy.is_some(),
            events,
            stage: Stage::Call(Call::Begin),
            proxy: None,
            server: None,
            drawn_proxy: None,
            drawn_server: None,
            noted_proxy: None,
            noted_server: None,
            links: 0,
            heads: 0,
            rounds: 0,
            code: 0,
            is_dialed: false,
            stays: true,
            has_lost: false,
            has_none: false,
            prompt: 0,
            given: None,
            peer: None,
            unnamed_space: None,
            unnamed_terms: None,
            space: None,
            link: None,
        })
    }

    /// Adds the event. It takes no memory.
    pub(crate) fn push(&mut self, event: Event)
        requires { length self.old.past < 256 }
        ensures { self.new ≡ record self.old { past = event ∷ self.old.past } }
    {
        self.events.push_reserved(event);
    }

    pub(crate) fn take_proxy(&mut self) -> Option<Holding>
        ensures value { result ≡ self.old.proxy }
        ensures rest { self.new ≡ record self.old { proxy = None } }
    {
        self.proxy.take()
    }

    pub(crate) fn take_server(&mut self) -> Option<Holding>
        ensures value { result ≡ self.old.server }
        ensures rest { self.new ≡ record self.old { server = None } }
    {
        self.server.take()
    }

    pub(crate) fn hold_proxy(&mut self, held: Option<Holding>)
        ensures { self.new ≡ record self.old { proxy = held } }
    {
        self.proxy = held;
    }

    pub(crate) fn hold_server(&mut self, held: Option<Holding>)
        ensures { self.new ≡ record self.old { server = held } }
    {
        self.server = held;
    }

    /// Holds something else for the target.
    pub(crate) fn put(&mut self, target: Target, held: Option<Holding>)
        ensures { self.new ≡ put_held target held self.old }
    {
        match target {
            Target::Proxy => self.hold_proxy(held),
            Target::Server => self.hold_server(held),
            Target::Socks => (),
        }
    }

    /// The peer's token; then it is kept no more.
    pub(crate) fn take_peer(&mut self) -> Option<Bytes>
        ensures value { result ≡ self.old.peer }
        ensures rest { self.new ≡ record self.old { peer = None } }
    {
        self.peer.take()
    }

    /// Keeps the peer's token.
    pub(crate) fn put_peer(&mut self, peer: Bytes)
        ensures { self.new ≡ record self.old { peer = Some peer } }
    {
        self.peer = Some(peer);
    }

    /// Keeps the space that is to be named.
    pub(crate) fn put_space(&mut self, space: Option<Space>)
        ensures { self.new ≡ record self.old { unnamed_space = space } }
    {
        self.unnamed_space = space;
    }

    /// Keeps the terms that are to be named.
    pub(crate) fn put_terms(&mut self, terms: Option<Terms>)
        ensures { self.new ≡ record self.old { unnamed_terms = terms } }
    {
        self.unnamed_terms = terms;
    }

    /// Keeps the link.
    pub(crate) fn put_link(&mut self, link: OpenLink)
        requires { self.old.link ≡ None }
        ensures { self.new ≡ record self.old { link = Some link } }
    {
        match self.link.replace(link) {
            None => (),
            Some(_) => unreachable!(),
        }
    }
}
