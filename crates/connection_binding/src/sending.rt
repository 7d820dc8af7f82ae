//! The writing of heads, to free links and to bound ones.

ghost use Rattle.std.specs.Prelude.{◌≡◌, ◌≢◌, ◌≤◌, true};
ghost use Rattle.link_trait.specs.Links.{has_link, Sends};
ghost use Rattle.connection_binding.specs.Ends.{wrote_by, IsSendFault};

use crate::ends::SendEnd;
use link_trait::{Dialer, LinkName, Wrote};

/// Writes a head to an open link.
pub(crate) fn send_on<D: Dialer>(dialer: &mut D, link: LinkName, head: &[u8]) -> SendEnd
    requires { has_link link (D.opened dialer.old) ≡ true }
    ensures traffic { Sends
        (D.traffic dialer.old) (D.traffic dialer.new) (wrote_by result) link head.now }
    ensures dials { D.dials dialer.new ≡ D.dials dialer.old }
    ensures opened { D.opened dialer.new ≡ D.opened dialer.old }
    ensures streams { D.streams dialer.new ≡ D.streams dialer.old }
    ensures later { D.faults dialer.old ≤ D.faults dialer.new }
    ensures fault { IsSendFault D.sticks (D.faults dialer.old) (D.faults dialer.new) result }
    ensures quiet { D.quiet dialer.old → D.quiet dialer.new × (wrote_by result ≢ Wrote.Failed) }
{
    match dialer.write(link, head) {
        Wrote::All => SendEnd::All,
        Wrote::Failed => SendEnd::Failed {
            count: dialer.faults(),
        },
        Wrote::NoMemory => SendEnd::NoMemory,
    }
}
