//! A dialer of recorded links: what each peer sends is given beforehand, and what was dialed,
//! written and read is kept.

ghost use Rattle.std.specs.Prelude.{◌≡◌, ◌≢◌, ◌+◌, ◌<◌, ◌^◌, [], true, false, drop, length};
ghost use Rattle.link_trait.specs.Links.{same_link, stream_in, has_link, has_ended, heard_on};
ghost use Rattle.link_trait.specs.Links.{are_dialed, are_ended_last};
ghost use Rattle.link_trait.specs.Recorded.{are_read_out};

use crate::calls::{Calls, Failures};
use crate::dialer::{Dialed, Dialer, Wrote};
use crate::links::{LinkName, Links};
use crate::log::LinkLog;
use crate::memory::copy_front;
use crate::numbering::numbered;
use crate::streams::Got;
use spaces::Origin;
use std::alloc::Global;
use std::cmp;

/// A dialer of recorded links, which fails at listed calls of `dial`, `write` and `read`, counted
/// together from 1. A link past the list has the empty stream.
#[derive(Drop)]
pub struct RecordedDialer {
    links: Links,
    log: LinkLog,
    failures: Failures,
    ghost dialed: { are_dialed log.traffic log.dials ≡ true },
    ghost ended_last: { are_ended_last log.traffic ≡ true },
    ghost read_out: { are_read_out (stream_in links) log.traffic ≡ true },
}

/// The recorded stream of a link: empty where none is recorded.
pub fn stream_in(links: &Links, name: LinkName) -> &[u8]
    ensures { result.now ≡ stream_in links.now name }
{
    match numbered(links, name.request) {
        None => &[],
        Some(streams) => match numbered(streams, name.nth) {
            None => &[],
            Some(stream) => stream.as_slice(),
        },
    }
}

// What stands behind a place of the stream; nothing behind its end.
fn behind(stream: &[u8], place: usize) -> &[u8]
    ensures { result.now ≡ drop place stream.now }
{
    &stream[cmp::min(stream.len(), place)..]
}

impl RecordedDialer {
    ghost use Rattle.std.specs.Prelude.{Some};

    /// A dialer of the links, whose calls of the listed numbers fail. It has dialed nothing yet.
    pub fn new(alloc: Global, links: Links, failing: Calls) -> RecordedDialer
        ensures streams { ⟦<RecordedDialer as Dialer>⟧.streams result ≡ Some (stream_in links) }
        ensures dials { ⟦<RecordedDialer as Dialer>⟧.dials result ≡ Some [] }
        ensures traffic { ⟦<RecordedDialer as Dialer>⟧.traffic result ≡ Some [] }
        ensures opened { ⟦<RecordedDialer as Dialer>⟧.opened result ≡ [] }
        ensures faults { ⟦<RecordedDialer as Dialer>⟧.faults result ≡ 0 }
        ensures schedule { ⟦<RecordedDialer as Dialer>⟧.schedule result
            ≡ Some (record { made = 0; listed = failing }) }
        ensures quiet { failing ≡ [] → ⟦<RecordedDialer as Dialer>⟧.quiet result }
    {
        RecordedDialer {
            links,
            log: LinkLog::new(alloc),
            failures: Failures::new(failing),
        }
    }

    // What the peer of the open link has still to send.
    fn rest(&self, name: LinkName) -> &[u8]
        requires { has_link name self.now.log.opened ≡ true }
        ensures rest { result.now
            ≡ drop (length (heard_on name self.now.log.traffic)) (stream_in self.now.links name) }
        ensures fit { length (heard_on name self.now.log.traffic) + length result.now < 2 ^ 64 }
        ensures more { result.now ≢ [] → has_ended name self.now.log.traffic ≡ false }
    {
        behind(stream_in(&self.links, name), self.log.place(name))
    }
}

impl Dialer for RecordedDialer {
    ghost use Rattle.std.specs.Prelude.{Some};

    ghost dials = { λ it. Some it.log.dials };

    ghost traffic = { λ it. Some it.log.traffic };

    ghost streams = { λ it. Some (stream_in it.links) };

    ghost opened = { λ it. it.log.opened };

    ghost dialed = { λ it. it.dialed };

    ghost ended_last = { λ it. it.ended_last };

    ghost known_with = { λ it. tt };

    ghost faults = { λ it. it.failures.faults };

    ghost schedule = { λ it. Some it.failures.schedule };

    ghost quiet = { λ it. it.failures.schedule.listed ≡ [] };

    fn dial(&mut self, name: LinkName, to: &Origin) -> Dialed {
        if self.failures.next_fails() {
            return Dialed::Failed;
        }
        match self.log.dialed(name, to) {
            Ok(()) => Dialed::Link,
            Err(_) => Dialed::NoMemory,
        }
    }

    fn write(&mut self, name: LinkName, bytes: &[u8]) -> Wrote {
        if self.failures.next_fails() {
            return Wrote::Failed;
        }
        match self.log.sent(name, bytes) {
            Ok(()) => Wrote::All,
            Err(_) => Wrote::NoMemory,
        }
    }

    fn read(&mut self, name: LinkName, buf: &mut [u8]) -> Got {
        if self.failures.next_fails() {
            return Got::Failed;
        }
        let rest = self.rest(name);
        if rest.is_empty() {
            return match self.log.ended(name) {
                Ok(()) => Got::End,
                Err(_) => Got::NoMemory,
            };
        }
        let count = copy_front(rest, buf);
        match self.log.received(name, &buf[..count]) {
            Ok(()) => Got::Bytes(count),
            Err(_) => Got::NoMemory,
        }
    }

    fn close(&mut self, name: LinkName) {
        self.log.closed(name);
    }

    fn faults(&self) -> u64 {
        self.failures.faults()
    }
}
