//! A dialer whose links go to a simulated world.

ghost use Rattle.std.specs.Prelude.{◌≡◌, ◌≢◌, ◌+◌, ◌<◌, ◌≤◌, ◌^◌, [], true, false, take, drop, length};
ghost use Rattle.std.specs.Prelude.{min, slice_get, OnOk, OnErr};
ghost use Rattle.link_trait.specs.Links.{has_link, has_dial, has_ended, heard_on};
ghost use Rattle.link_trait.specs.Links.{are_dialed, are_ended_last};
ghost use Rattle.origin_sim.specs.Worlds.{since};
ghost use Rattle.origin_sim.specs.Peers.{IsServing};

use crate::answering::served;
use crate::failing::Failing;
use crate::peers::{Peer, close_peer, new_peer, place_of};
use crate::world::World;
use auth_text::{NoMemory, rest_of};
use link_trait::{Calls, Dialed, Dialer, Got, LinkLog, LinkName, Wrote};
use spaces::Origin;
use std::alloc::Global;
use std::cmp;

/// A dialer into a world, which fails at listed writes, counted from 1. A head that came whole on a
/// link is answered by the world, and the link gives the replies; where none is left, it ends.
#[derive(Drop)]
pub struct SimDialer {
    alloc: Global,
    world: World,
    /// How much the world's rules had said when the dialer was made.
    before: usize,
    log: LinkLog,
    peers: Vec<Peer>,
    failing: Failing,
    ghost begun: { before ≤ length world.past },
    ghost dialed: { are_dialed log.traffic log.dials ≡ true },
    ghost ended_last: { are_ended_last log.traffic ≡ true },
    ghost serving: { ∥ IsServing (since before world) log world peers.items ∥₁ },
}

// Copies as much as there is room for to the buffer's front.
fn copy_front(from: &[u8], buf: &mut [u8]) -> usize
    ensures count { result ≡ min (length from.now) (length buf.old) }
    ensures bytes { take result buf.new ≡ take result from.now }
{
    let count = cmp::min(from.len(), buf.len());
    buf[..count].copy_from_slice(&from[..count]);
    count
}

impl SimDialer {
    ghost use Rattle.std.specs.Prelude.{Some, IfOk, IfSome, List, ◌∷◌, ◌++◌};
    ghost use Rattle.link_trait.specs.declared.dialer.Traffic.TheVariants.{Sent, Ended};
    ghost use Rattle.origin_sim.specs.Peers.{peer_of};
    ghost use Rattle.link_trait.specs.declared.dialer.Dial.{Dial};
    ghost use Rattle.link_trait.specs.declared.dialer.Traffic.{Traffic};
    ghost use Rattle.origin_sim.specs.Exchanges.{Simulates};

    /// A dialer into the world, whose writes of the listed numbers fail. It has dialed nothing yet.
    pub fn new(alloc: Global, world: World, failing: Calls) -> Result<SimDialer, NoMemory>
        ensures start { IfOk result (λ it. since it.before it.world ≡ world) }
        ensures world { IfOk result (λ it. it.world ≡ world) }
        ensures dials { IfOk result (λ it. ⟦<SimDialer as Dialer>⟧.dials it ≡ Some []) }
        ensures traffic { IfOk result (λ it. ⟦<SimDialer as Dialer>⟧.traffic it ≡ Some []) }
        ensures opened { IfOk result (λ it. ⟦<SimDialer as Dialer>⟧.opened it ≡ []) }
        ensures faults { IfOk result (λ it. ⟦<SimDialer as Dialer>⟧.faults it ≡ 0) }
        ensures failing { IfOk result (λ it. it.failing.schedule
            ≡ record { made = 0; listed = failing }) }
        ensures quiet { failing ≡ [] → IfOk result (λ it. ⟦<SimDialer as Dialer>⟧.quiet it) }
    {
        Ok(SimDialer {
            alloc,
            before: world.said(),
            world,
            log: LinkLog::new(alloc),
            peers: Vec::new(alloc),
            failing: Failing::new(failing),
        })
    }

    /// The world behind all heads that came.
    pub fn world(&self) -> &World
        ensures world { result.now ≡ self.now.world }
        ensures simulates { (dials : List Dial) (traffic : List Traffic)
            → ⟦<SimDialer as Dialer>⟧.dials self.now ≡ Some dials
            → ⟦<SimDialer as Dialer>⟧.traffic self.now ≡ Some traffic
            → ∥ Simulates (since self.now.before self.now.world) dials traffic self.now.world ∥₁ }
    {
        &self.world
    }

    // The link was dialed.
    fn dialed(&mut self, name: LinkName, to: &Origin) -> Result<(), NoMemory>
        requires closed { has_link name self.old.log.opened ≡ false }
        requires fresh { has_dial name self.old.log.dials ≡ false }
        ensures ok { OnOk result (self.new.log
            ≡ record {
              dials = self.old.log.dials ++ record { link = name; to = to.now } ∷ [];
              traffic = self.old.log.traffic;
              opened = self.old.log.opened ++ name ∷ [];
            }) }
        ensures err { OnErr result (self.new.log ≡ self.old.log) }
        ensures failing { self.new.failing ≡ self.old.failing }
        ensures before { self.new.before ≡ self.old.before }
        ensures world { self.new.world ≡ self.old.world }
    {
        let peer = new_peer(self.alloc, name, to)?;
        self.peers.reserve(1)?;
        self.log.dialed(name, to)?;
        self.peers.push_reserved(peer);
        Ok(())
    }

    // The bytes were written. After want of memory nothing was.
    fn sent(&mut self, name: LinkName, bytes: &[u8]) -> Result<(), NoMemory>
        requires { has_link name self.old.log.opened ≡ true }
        ensures ok { OnOk result (self.new.log
            ≡ record {
              dials = self.old.log.dials;
              traffic = self.old.log.traffic ++ Sent name bytes.now ∷ [];
              opened = self.old.log.opened;
            }) }
        ensures err { OnErr result (self.new.log ≡ self.old.log) }
        ensures failing { self.new.failing ≡ self.old.failing }
        ensures start { since self.new.before self.new.world
            ≡ since self.old.before self.old.world }
        ensures world { OnErr result (self.new.world ≡ self.old.world) }
    {
        let at = place_of(self.peers.as_slice(), name);
        let said = self.world.said();
        match served(
            self.alloc,
            &mut self.world,
            &mut self.log,
            &self.peers[at],
            bytes,
        ) {
            Ok(it) => {
                let peer = &mut self.peers[at];
                peer.part = it.part;
                peer.replies = it.replies;
                Ok(())
            }
            Err(NoMemory) => {
                self.world.take_back(said);
                Err(NoMemory)
            }
        }
    }

    // What the link has still to give: nothing behind its end.
    fn rest(&self, name: LinkName) -> &[u8]
        requires { has_link name self.now.log.opened ≡ true }
        ensures more { result.now ≢ [] → has_ended name self.now.log.traffic ≡ false }
        ensures next { has_ended name self.now.log.traffic ≡ false
            → IfSome (peer_of name self.now.peers.items) (λ peer. peer.replies
            ≡ heard_on name self.now.log.traffic ++ result.now) }
        ensures fit { length (heard_on name self.now.log.traffic) + length result.now < 2 ^ 64 }
    {
        let peer = &self.peers[place_of(self.peers.as_slice(), name)];
        let replies = peer.replies.as_slice();
        let place = self.log.place(name);
        if peer.ended {
            return &[];
        }
        rest_of(replies, place)
    }

    // The link's end was read.
    fn ended(&mut self, name: LinkName) -> Result<(), NoMemory>
        requires open { has_link name self.old.log.opened ≡ true }
        requires none { has_ended name self.old.log.traffic ≡ false
            → IfSome (peer_of name self.old.peers.items) (λ peer. peer.replies
            ≡ heard_on name self.old.log.traffic) }
        ensures ok { OnOk result (self.new.log
            ≡ record {
              dials = self.old.log.dials;
              traffic = self.old.log.traffic ++ Ended name ∷ [];
              opened = self.old.log.opened;
            }) }
        ensures err { OnErr result (self.new.log ≡ self.old.log) }
        ensures failing { self.new.failing ≡ self.old.failing }
        ensures before { self.new.before ≡ self.old.before }
        ensures world { self.new.world ≡ self.old.world }
    {
        let at = place_of(self.peers.as_slice(), name);
        self.log.ended(name)?;
        self.peers[at].ended = true;
        Ok(())
    }
}

impl Dialer for SimDialer {
    ghost use Rattle.std.specs.Prelude.{Some, None, ◌↔◌};
    ghost use Rattle.link_trait.specs.Faults.{next_fails, counted};
    ghost use Rattle.link_trait.specs.Streams.{IsGivenCount};
    ghost use Rattle.origin_sim.specs.Dialing as after;

    ghost dials = { λ it. Some it.log.dials };

    ghost traffic = { λ it. Some it.log.traffic };

    ghost streams = { λ it. None };

    ghost opened = { λ it. it.log.opened };

    ghost dialed = { λ it. it.dialed };

    ghost ended_last = { λ it. it.ended_last };

    ghost known_with = { λ it. tt };

    ghost faults = { λ it. it.failing.faults };

    ghost quiet = { λ it. it.failing.schedule.listed ≡ [] };

    fn dial(&mut self, name: LinkName, to: &Origin) -> Dialed
        requires closed { has_link name self.old.log.opened ≡ false }
        requires fresh { has_dial name self.old.log.dials ≡ false }
        ensures log { self.new.log ≡ after.dialed result name to.now self.old.log }
        ensures never { result ≢ Dialed.Failed }
        ensures failing { self.new.failing ≡ self.old.failing }
        ensures before { self.new.before ≡ self.old.before }
        ensures world { self.new.world ≡ self.old.world }
    {
        match self.dialed(name, to) {
            Ok(()) => Dialed::Link,
            Err(NoMemory) => Dialed::NoMemory,
        }
    }

    fn write(&mut self, name: LinkName, bytes: &[u8]) -> Wrote
        requires { has_link name self.old.log.opened ≡ true }
        ensures log { self.new.log ≡ after.written result name bytes.now self.old.log }
        ensures fails { (result ≡ Wrote.Failed) ↔ (next_fails self.old.failing.schedule ≡ true) }
        ensures failing { self.new.failing ≡ counted self.old.failing }
        ensures start { since self.new.before self.new.world
            ≡ since self.old.before self.old.world }
        ensures world { result ≢ Wrote.All → self.new.world ≡ self.old.world }
    {
        if self.failing.next_fails() {
            return Wrote::Failed;
        }
        match self.sent(name, bytes) {
            Ok(()) => Wrote::All,
            Err(NoMemory) => Wrote::NoMemory,
        }
    }

    fn read(&mut self, name: LinkName, buf: &mut [u8]) -> Got
        requires open { has_link name self.old.log.opened ≡ true }
        requires room { 0 < length buf.old }
        ensures count { IsGivenCount result (length buf.new) }
        ensures log { self.new.log ≡ after.read result name buf.new self.old.log }
        ensures never { result ≢ Got.Failed }
        ensures failing { self.new.failing ≡ self.old.failing }
        ensures before { self.new.before ≡ self.old.before }
        ensures world { self.new.world ≡ self.old.world }
    {
        let rest = self.rest(name);
        if rest.is_empty() {
            return match self.ended(name) {
                Ok(()) => Got::End,
                Err(NoMemory) => Got::NoMemory,
            };
        }
        let count = copy_front(rest, buf);
        match self.log.received(name, &buf[..count]) {
            Ok(()) => Got::Bytes(count),
            Err(NoMemory) => Got::NoMemory,
        }
    }

    fn close(&mut self, name: LinkName)
        requires { has_link name self.old.log.opened ≡ true }
        ensures log { self.new.log ≡ after.closed name self.old.log }
        ensures failing { self.new.failing ≡ self.old.failing }
        ensures before { self.new.before ≡ self.old.before }
        ensures world { self.new.world ≡ self.old.world }
    {
        self.log.closed(name);
        close_peer(&mut self.peers, name);
    }

    fn faults(&self) -> u64 {
        self.failing.faults()
    }
}
