//! The link of a request: free, until a head carries a token of a context over it, and bound from
//! then on (RFC 4559). Both are written to and read by the same calls.

ghost use Rattle.std.specs.Prelude.{◌≡◌, ◌≢◌, ◌≤◌, true};
ghost use Rattle.link_trait.specs.Links.{has_link, without_link, Sends};
ghost use Rattle.connection_binding.specs.Ends.{wrote_by, IsSendFault, IsReadFault, IsNoReadFault};
ghost use Rattle.connection_binding.specs.LinkStates.{new_link};
ghost use Rattle.connection_binding.specs.Readings.{IsReplyRead};

use connection_binding::{BoundLink, FreeLink, ReadEnd, SendEnd};
use link_trait::{Dialer, LinkName, Wrote};
use spaces::Method;
use std::alloc::Global;
use std::marker::Model;

/// What went over a link.
#[derive(Debug)]
pub(crate) enum Binding {
    /// No token did.
    Free(FreeLink),
    /// A token of a context did.
    Bound(BoundLink),
}

/// An open link of which nothing was read yet. Contracts see it as its name. It is not dropped, but
/// spent.
#[derive(Debug)]
pub struct OpenLink {
    binding: Binding,
}

impl Model for OpenLink {
    ghost use Rattle.std.specs.Prelude.{◌≡◌};
    ghost use Rattle.link_trait.specs.declared.links.LinkName.{LinkName};
    ghost use Rattle.connection_binding.specs.LinkStates.{new_link};
    ghost use Rattle.request_machine.specs.OpenLinks.{name_of, state_of};

    ghost Value = { LinkName };

    ghost view = { λ link. name_of link.binding };

    ghost invariant = { λ link. state_of link.binding ≡ new_link (name_of link.binding) };
}

impl OpenLink {
    /// A link over which no token went.
    pub(crate) fn new(link: FreeLink) -> OpenLink
        ensures { result ≡ link }
    {
        OpenLink {
            binding: Binding::Free(link),
        }
    }

    /// Writes a head. One that carries a token binds the link, whatever was written of it.
    pub(crate) fn send<D: Dialer>(
        self,
        dialer: &mut D,
        head: &[u8],
        binds: bool,
    ) -> (OpenLink, SendEnd)
        requires { has_link self (D.opened dialer.old) ≡ true }
        ensures link { result.0 ≡ self }
        ensures traffic { Sends
            (D.traffic dialer.old) (D.traffic dialer.new) (wrote_by result.1) self head.now }
        ensures dials { D.dials dialer.new ≡ D.dials dialer.old }
        ensures opened { D.opened dialer.new ≡ D.opened dialer.old }
        ensures streams { D.streams dialer.new ≡ D.streams dialer.old }
        ensures later { D.faults dialer.old ≤ D.faults dialer.new }
        ensures fault { IsSendFault
            D.sticks (D.faults dialer.old) (D.faults dialer.new) result.1 }
        ensures quiet { D.quiet dialer.old
            → D.quiet dialer.new × (wrote_by result.1 ≢ Wrote.Failed) }
    {
        let OpenLink { binding } = self;
        match binding {
            Binding::Free(link) => send_free(link, dialer, head, binds),
            Binding::Bound(link) => {
                let mut link = link;
                let end = link.send(dialer, head);
                let binding = Binding::Bound(link);
                (OpenLink { binding }, end)
            }
        }
    }

    /// Reads the reply to a request of that method, and closes the link.
    pub(crate) fn read<D: Dialer>(self, alloc: Global, dialer: &mut D, method: Method) -> ReadEnd
        requires { has_link self (D.opened dialer.old) ≡ true }
        ensures reply { IsReplyRead self method
            (D.streams dialer.old) (D.traffic dialer.old) (D.traffic dialer.new) result }
        ensures opened { D.opened dialer.new ≡ without_link self (D.opened dialer.old) }
        ensures dials { D.dials dialer.new ≡ D.dials dialer.old }
        ensures streams { D.streams dialer.new ≡ D.streams dialer.old }
        ensures later { D.faults dialer.old ≤ D.faults dialer.new }
        ensures fault { IsReadFault D.sticks (D.faults dialer.old) (D.faults dialer.new) result }
        ensures quiet { D.quiet dialer.old → D.quiet dialer.new × IsNoReadFault result }
    {
        let OpenLink { binding } = self;
        match binding {
            Binding::Free(link) => read_free(link, alloc, dialer, method),
            Binding::Bound(link) => read_bound(link, alloc, dialer, method),
        }
    }

    /// Closes the link. This never fails.
    pub(crate) fn spend<D: Dialer>(self, dialer: &mut D)
        requires { has_link self (D.opened dialer.old) ≡ true }
        ensures opened { D.opened dialer.new ≡ without_link self (D.opened dialer.old) }
        ensures dials { D.dials dialer.new ≡ D.dials dialer.old }
        ensures traffic { D.traffic dialer.new ≡ D.traffic dialer.old }
        ensures streams { D.streams dialer.new ≡ D.streams dialer.old }
        ensures faults { D.faults dialer.new ≡ D.faults dialer.old }
        ensures quiet { D.quiet dialer.old → D.quiet dialer.new }
    {
        let OpenLink { binding } = self;
        match binding {
            Binding::Free(link) => link.spend(dialer),
            Binding::Bound(link) => link.spend(dialer),
        }
    }
}

/// Writes a head to a free link, which is bound where the head carries a token.
fn send_free<D: Dialer>(
    link: FreeLink,
    dialer: &mut D,
    head: &[u8],
    binds: bool,
) -> (OpenLink, SendEnd)
    requires { has_link link (D.opened dialer.old) ≡ true }
    ensures link { result.0 ≡ link }
    ensures traffic { Sends
        (D.traffic dialer.old) (D.traffic dialer.new) (wrote_by result.1) link head.now }
    ensures dials { D.dials dialer.new ≡ D.dials dialer.old }
    ensures opened { D.opened dialer.new ≡ D.opened dialer.old }
    ensures streams { D.streams dialer.new ≡ D.streams dialer.old }
    ensures later { D.faults dialer.old ≤ D.faults dialer.new }
    ensures fault { IsSendFault D.sticks (D.faults dialer.old) (D.faults dialer.new) result.1 }
    ensures quiet { D.quiet dialer.old → D.quiet dialer.new × (wrote_by result.1 ≢ Wrote.Failed) }
{
    if binds {
        let (link, end) = link.send_token(dialer, head);
        let binding = Binding::Bound(link);
        return (OpenLink { binding }, end);
    }
    let mut link = link;
    let end = link.send(dialer, head);
    (OpenLink::new(link), end)
}

/// Reads the reply over a free link, and closes it.
fn read_free<D: Dialer>(link: FreeLink, alloc: Global, dialer: &mut D, method: Method) -> ReadEnd
    requires { has_link link (D.opened dialer.old) ≡ true }
    ensures reply { IsReplyRead link method
        (D.streams dialer.old) (D.traffic dialer.old) (D.traffic dialer.new) result }
    ensures opened { D.opened dialer.new ≡ without_link link (D.opened dialer.old) }
    ensures dials { D.dials dialer.new ≡ D.dials dialer.old }
    ensures streams { D.streams dialer.new ≡ D.streams dialer.old }
    ensures later { D.faults dialer.old ≤ D.faults dialer.new }
    ensures fault { IsReadFault D.sticks (D.faults dialer.old) (D.faults dialer.new) result }
    ensures quiet { D.quiet dialer.old → D.quiet dialer.new × IsNoReadFault result }
{
    let mut link = link;
    let end = link.read(alloc, dialer, method);
    link.spend(dialer);
    end
}

/// Reads the first reply over a bound link, and closes it.
fn read_bound<D: Dialer>(link: BoundLink, alloc: Global, dialer: &mut D, method: Method) -> ReadEnd
    requires fresh { link ≡ new_link link.name }
    requires open { has_link link.name (D.opened dialer.old) ≡ true }
    ensures reply { IsReplyRead link.name method
        (D.streams dialer.old) (D.traffic dialer.old) (D.traffic dialer.new) result }
    ensures opened { D.opened dialer.new ≡ without_link link.name (D.opened dialer.old) }
    ensures dials { D.dials dialer.new ≡ D.dials dialer.old }
    ensures streams { D.streams dialer.new ≡ D.streams dialer.old }
    ensures later { D.faults dialer.old ≤ D.faults dialer.new }
    ensures fault { IsReadFault D.sticks (D.faults dialer.old) (D.faults dialer.new) result }
    ensures quiet { D.quiet dialer.old → D.quiet dialer.new × IsNoReadFault result }
{
    let mut link = link;
    let end = link.read(alloc, dialer, method);
    link.spend(dialer);
    end
}
