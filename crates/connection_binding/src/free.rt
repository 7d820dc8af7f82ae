//! Free links: no token of a context went over them. Each carries one exchange and is spent behind
//! it; since it can't be dropped, none is left open.

ghost use Rattle.std.specs.Prelude.{◌≡◌, ◌≢◌, ◌≤◌, ◌++◌, true, false};
ghost use Rattle.link_trait.specs.Told.{grown};
ghost use Rattle.link_trait.specs.Links.{has_link, without_link, IsUndialed, dialing, opening};
ghost use Rattle.link_trait.specs.Links.{Sends};
ghost use Rattle.connection_binding.specs.Ends.{dialed_by, wrote_by, IsGiven, IsDialFault};
ghost use Rattle.connection_binding.specs.Ends.{IsSendFault, IsReadFault, IsNoReadFault};
ghost use Rattle.connection_binding.specs.LinkStates.{new_link};
ghost use Rattle.connection_binding.specs.Readings.{IsReplyRead};

use crate::bound::BoundLink;
use crate::ends::{DialEnd, ReadEnd, SendEnd};
use crate::reading::read_reply;
use crate::sending::send_on;
use crate::window::Window;
use link_trait::{Dialed, Dialer, LinkName, Wrote};
use spaces::{Method, Origin};
use std::alloc::Global;
use std::marker::Model;

/// An open link over which no token went. Contracts see it as its name. It is not dropped, but
/// spent.
#[derive(Debug)]
pub struct FreeLink {
    name: LinkName,
}

impl Model for FreeLink {
    ghost use Rattle.link_trait.specs.declared.links.LinkName.{LinkName};

    ghost Value = { LinkName };

    ghost view = { λ link. link.name };
}

impl FreeLink {
    /// Dials the origin, and gives the link its name. No link of this name may be open, and none
    /// may have been dialed before, where the dialer tells its dials.
    pub fn dial<D: Dialer>(dialer: &mut D, name: LinkName, to: &Origin) -> DialEnd
        requires closed { has_link name (D.opened dialer.old) ≡ false }
        requires fresh { IsUndialed name (D.dials dialer.old) }
        ensures link { IsGiven result name }
        ensures dials { D.dials dialer.new
            ≡ grown (D.dials dialer.old) (dialing (dialed_by result) name to.now) }
        ensures opened { D.opened dialer.new
            ≡ D.opened dialer.old ++ opening (dialed_by result) name }
        ensures traffic { D.traffic dialer.new ≡ D.traffic dialer.old }
        ensures streams { D.streams dialer.new ≡ D.streams dialer.old }
        ensures later { D.faults dialer.old ≤ D.faults dialer.new }
        ensures fault { IsDialFault D.sticks (D.faults dialer.old) (D.faults dialer.new) result }
        ensures quiet { D.quiet dialer.old
            → D.quiet dialer.new × (dialed_by result ≢ Dialed.Failed) }
    {
        match dialer.dial(name, to) {
            Dialed::Link => DialEnd::Link(FreeLink { name }),
            Dialed::Failed => DialEnd::Failed {
                count: dialer.faults(),
            },
            Dialed::NoMemory => DialEnd::NoMemory,
        }
    }

    /// The name that the link was given.
    pub fn name(&self) -> LinkName
        ensures { result ≡ self.now }
    {
        self.name
    }

    /// Writes a head. After a failure or want of memory a front of it was written, or nothing; the
    /// link stays open.
    pub fn send<D: Dialer>(&mut self, dialer: &mut D, head: &[u8]) -> SendEnd
        requires { has_link self.old (D.opened dialer.old) ≡ true }
        ensures link { self.new ≡ self.old }
        ensures traffic { Sends
            (D.traffic dialer.old) (D.traffic dialer.new) (wrote_by result) self.old head.now }
        ensures dials { D.dials dialer.new ≡ D.dials dialer.old }
        ensures opened { D.opened dialer.new ≡ D.opened dialer.old }
        ensures streams { D.streams dialer.new ≡ D.streams dialer.old }
        ensures later { D.faults dialer.old ≤ D.faults dialer.new }
        ensures fault { IsSendFault D.sticks (D.faults dialer.old) (D.faults dialer.new) result }
        ensures quiet { D.quiet dialer.old → D.quiet dialer.new × (wrote_by result ≢ Wrote.Failed) }
    {
        send_on(dialer, self.name, head)
    }

    /// Writes a head that carries a token of a context. The link is bound from then on, whatever
    /// was written; it stays open.
    pub fn send_token<D: Dialer>(self, dialer: &mut D, head: &[u8]) -> (BoundLink, SendEnd)
        requires { has_link self (D.opened dialer.old) ≡ true }
        ensures link { result.0 ≡ new_link self }
        ensures traffic { Sends
            (D.traffic dialer.old) (D.traffic dialer.new) (wrote_by result.1) self head.now }
        ensures dials { D.dials dialer.new ≡ D.dials dialer.old }
        ensures opened { D.opened dialer.new ≡ D.opened dialer.old }
        ensures streams { D.streams dialer.new ≡ D.streams dialer.old }
        ensures later { D.faults dialer.old ≤ D.faults dialer.new }
        ensures fault { IsSendFault
            D.sticks (D.faults dialer.old) (D.faults dialer.new) result.1 }
        ensures quiet { D.quiet dialer.old
            → D.quiet dialer.new × (wrote_by result.1 ≢ Wrote.Failed) }
    {
        let FreeLink { name } = self;
        let end = send_on(dialer, name, head);
        (BoundLink::new(name), end)
    }

    /// Reads the reply to a request of that method, piece by piece, until the bytes show it or a
    /// fault. Bytes that came behind the reply in the same piece are dropped. The link stays open.
    pub fn read<D: Dialer>(&mut self, alloc: Global, dialer: &mut D, method: Method) -> ReadEnd
        requires { has_link self.old (D.opened dialer.old) ≡ true }
        ensures link { self.new ≡ self.old }
        ensures reply { IsReplyRead self.old method
            (D.streams dialer.old) (D.traffic dialer.old) (D.traffic dialer.new) result }
        ensures dials { D.dials dialer.new ≡ D.dials dialer.old }
        ensures opened { D.opened dialer.new ≡ D.opened dialer.old }
        ensures streams { D.streams dialer.new ≡ D.streams dialer.old }
        ensures later { D.faults dialer.old ≤ D.faults dialer.new }
        ensures fault { IsReadFault D.sticks (D.faults dialer.old) (D.faults dialer.new) result }
        ensures quiet { D.quiet dialer.old → D.quiet dialer.new × IsNoReadFault result }
    {
        let Ok(mut window) = Window::new(alloc) else {
            return ReadEnd::NoMemory;
        };
        read_reply(alloc, dialer, self.name, &mut window, false, method)
    }

    /// Closes the link. This never fails.
    pub fn spend<D: Dialer>(self, dialer: &mut D)
        requires { has_link self (D.opened dialer.old) ≡ true }
        ensures opened { D.opened dialer.new ≡ without_link self (D.opened dialer.old) }
        ensures dials { D.dials dialer.new ≡ D.dials dialer.old }
        ensures traffic { D.traffic dialer.new ≡ D.traffic dialer.old }
        ensures streams { D.streams dialer.new ≡ D.streams dialer.old }
        ensures faults { D.faults dialer.new ≡ D.faults dialer.old }
        ensures quiet { D.quiet dialer.old → D.quiet dialer.new }
    {
        let FreeLink { name } = self;
        dialer.close(name);
    }
}
