//! Bound links: a token of a context went over them (RFC 4559), and the context's other tokens go
//! over no other link. Each carries exchange after exchange, until it is spent.

ghost use Rattle.std.specs.Prelude.{◌≡◌, ◌≢◌, ◌≤◌, ◌||◌, [], length, IfOk, IfErr, unwrap_or, true};
ghost use Rattle.link_trait.specs.Links.{has_link, without_link, Sends};
ghost use Rattle.connection_binding.specs.Ends.{wrote_by, is_whole, IsSendFault, IsReadFault};
ghost use Rattle.connection_binding.specs.Ends.{IsNoReadFault};
ghost use Rattle.connection_binding.specs.LinkStates.{new_link};
ghost use Rattle.connection_binding.specs.Readings.{IsOver};

use crate::ends::{ReadEnd, SendEnd, is_whole};
use crate::reading::read_reply;
use crate::sending::send_on;
use crate::window::Window;
use auth_text::NoMemory;
use link_trait::{Dialer, LinkName, Wrote};
use spaces::Method;
use std::alloc::Global;
use std::marker::Model;

/// An open link over which a token went. Contracts see its name, the bytes that were read behind
/// its last reply, and whether it gave one. It is not dropped, but spent.
#[derive(Debug)]
pub struct BoundLink {
    name: LinkName,
    window: Option<Window>,
    has_replied: bool,
}

impl Model for BoundLink {
    ghost use Rattle.std.specs.Prelude.{[], unwrap_or};
    ghost use Rattle.connection_binding.specs.LinkStates.{LinkState};

    ghost Value = { LinkState };

    ghost view = { λ link. record {
      name = link.name;
      kept = unwrap_or link.window [];
      has_replied = link.has_replied;
    } };
}

/// The window, which is made where there is none.
fn window_of(alloc: Global, window: Option<Window>) -> Result<Window, NoMemory>
    ensures ok { IfOk result (λ made. made ≡ unwrap_or window []) }
    ensures err { IfErr result (λ _. unwrap_or window [] ≡ []) }
{
    match window {
        Some(window) => Ok(window),
        None => Window::new(alloc),
    }
}

impl BoundLink {
    /// A link of which nothing was read yet.
    pub(crate) fn new(name: LinkName) -> BoundLink
        ensures { result ≡ new_link name }
    {
        BoundLink {
            name,
            window: None,
            has_replied: false,
        }
    }

    /// The name that the link was given.
    pub fn name(&self) -> LinkName
        ensures { result ≡ self.now.name }
    {
        self.name
    }

    /// Writes a head. After a failure or want of memory a front of it was written, or nothing; the
    /// link stays open.
    pub fn send<D: Dialer>(&mut self, dialer: &mut D, head: &[u8]) -> SendEnd
        requires { has_link self.old.name (D.opened dialer.old) ≡ true }
        ensures link { self.new ≡ self.old }
        ensures traffic { Sends (D.traffic dialer.old) (D.traffic dialer.new)
            (wrote_by result) self.old.name head.now }
        ensures dials { D.dials dialer.new ≡ D.dials dialer.old }
        ensures opened { D.opened dialer.new ≡ D.opened dialer.old }
        ensures streams { D.streams dialer.new ≡ D.streams dialer.old }
        ensures later { D.faults dialer.old ≤ D.faults dialer.new }
        ensures fault { IsSendFault D.sticks (D.faults dialer.old) (D.faults dialer.new) result }
        ensures quiet { D.quiet dialer.old
            → D.quiet dialer.new × (wrote_by result ≢ Wrote.Failed) }
    {
        send_on(dialer, self.name, head)
    }

    /// Reads the next reply, to a request of that method: first from the bytes that came behind the
    /// last one, then piece by piece, until the bytes show it or a fault. What comes behind it is
    /// kept for the one after; a reading that gives no reply keeps nothing. The link stays open.
    pub fn read<D: Dialer>(&mut self, alloc: Global, dialer: &mut D, method: Method) -> ReadEnd
        requires { has_link self.old.name (D.opened dialer.old) ≡ true }
        ensures reply { IsOver self.old method
            (D.streams dialer.old) (D.traffic dialer.old) (D.traffic dialer.new)
            result self.new.kept }
        ensures name { self.new.name ≡ self.old.name }
        ensures replied { self.new.has_replied ≡ self.old.has_replied || is_whole result }
        ensures few { length self.new.kept ≤ 8192 }
        ensures dials { D.dials dialer.new ≡ D.dials dialer.old }
        ensures opened { D.opened dialer.new ≡ D.opened dialer.old }
        ensures streams { D.streams dialer.new ≡ D.streams dialer.old }
        ensures later { D.faults dialer.old ≤ D.faults dialer.new }
        ensures fault { IsReadFault D.sticks (D.faults dialer.old) (D.faults dialer.new) result }
        ensures quiet { D.quiet dialer.old → D.quiet dialer.new × IsNoReadFault result }
    {
        let Ok(mut window) = window_of(alloc, self.window.take()) else {
            return ReadEnd::NoMemory;
        };
        let end = read_reply(
            alloc,
            dialer,
            self.name,
            &mut window,
            self.has_replied,
            method,
        );
        self.has_replied = self.has_replied || is_whole(&end);
        self.window = Some(window);
        end
    }

    /// Closes the link. This never fails.
    pub fn spend<D: Dialer>(self, dialer: &mut D)
        requires { has_link self.name (D.opened dialer.old) ≡ true }
        ensures opened { D.opened dialer.new ≡ without_link self.name (D.opened dialer.old) }
        ensures dials { D.dials dialer.new ≡ D.dials dialer.old }
        ensures traffic { D.traffic dialer.new ≡ D.traffic dialer.old }
        ensures streams { D.streams dialer.new ≡ D.streams dialer.old }
        ensures faults { D.faults dialer.new ≡ D.faults dialer.old }
        ensures quiet { D.quiet dialer.old → D.quiet dialer.new }
    {
        let BoundLink {
            name,
            window: _,
            has_replied: _,
        } = self;
        dialer.close(name);
    }
}
