//! A dialer of one's own. Where an embedder has sockets, this one has a peer that says the same on
//! every link. It tells nothing of what went over its links, as a dialer over a network does.

ghost use Rattle.std.specs.Prelude.{◌≡◌, ◌≤◌, length, min};
ghost use Rattle.uses_requests.specs.Peers.{links_held};

use auth_text::Bytes;
use link_trait::{Dialed, Dialer, Got, LinkName, Wrote};
use spaces::Origin;
use std::cmp;

/// A peer that sends the same bytes on every link, and has one link at a time.
#[derive(Drop)]
pub struct SteadyPeer {
    reply: Bytes,
    held: Option<LinkName>,
    // How many bytes of the reply went over the open link.
    at: usize,
    faults: u64,
}

// What stands behind a place of the text; nothing behind its end.
fn behind(text: &[u8], at: usize) -> &[u8] {
    &text[cmp::min(text.len(), at)..]
}

// Copies as much as there is room for to the buffer's front.
fn copy_front(from: &[u8], buf: &mut [u8]) -> usize
    ensures count { result ≡ min (length from.now) (length buf.old) }
    ensures len { length buf.new ≡ length buf.old }
{
    let count = cmp::min(from.len(), buf.len());
    buf[..count].copy_from_slice(&from[..count]);
    count
}

impl SteadyPeer {
    ghost use Rattle.std.specs.Prelude.{[]};

    /// A peer that sends this reply. It has no link yet.
    pub fn new(reply: Bytes) -> SteadyPeer
        ensures { ⟦<SteadyPeer as Dialer>⟧.opened result ≡ [] }
    {
        SteadyPeer {
            reply,
            held: None,
            at: 0,
            faults: 0,
        }
    }
}

impl Dialer for SteadyPeer {
    ghost use Rattle.std.specs.Prelude.{None, true};

    ghost dials = { λ it. None };

    ghost traffic = { λ it. None };

    ghost streams = { λ it. None };

    ghost opened = { λ it. links_held it.held };

    ghost faults = { λ it. it.faults };

    ghost sticks = { true };

    ghost quiet = { λ it. ⊥ };

    ghost dialed = { λ it. tt };

    ghost ended_last = { λ it. tt };

    ghost known_with = { λ it. tt };

    fn dial(&mut self, name: LinkName, _to: &Origin) -> Dialed {
        if self.held.is_some() {
            self.faults = self.faults.saturating_add(1);
            return Dialed::Failed;
        }
        self.held = Some(name);
        self.at = 0;
        Dialed::Link
    }

    fn write(&mut self, _name: LinkName, _bytes: &[u8]) -> Wrote {
        Wrote::All
    }

    fn read(&mut self, _name: LinkName, buf: &mut [u8]) -> Got {
        let rest = behind(self.reply.as_slice(), self.at);
        if rest.is_empty() {
            return Got::End;
        }
        let count = copy_front(rest, buf);
        self.at = self.at.saturating_add(count);
        Got::Bytes(count)
    }

    fn close(&mut self, _name: LinkName) {
        self.held = None;
    }

    fn faults(&self) -> u64 {
        self.faults
    }
}
