//! A source and a sink in memory, which fail at the calls that they are told.

ghost use Rattle.std.specs.Prelude.{◌≡◌, [], ◌≤◌, length, min, take};

use crate::calls::{Calls, Failures};
use crate::streams::{Got, Sink, Source, Took};
use auth_text::{Bytes, rest_of};
use std::alloc::Global;
use std::cmp;
use std::marker::Model;

/// Copies as much as there is room for to the buffer's front.
pub(crate) fn copy_front(from: &[u8], buf: &mut [u8]) -> usize
    ensures count { result ≡ min (length from.now) (length buf.old) }
    ensures bytes { take result buf.new ≡ take result from.now }
{
    let count = cmp::min(from.len(), buf.len());
    buf[..count].copy_from_slice(&from[..count]);
    count
}

/// A source of bytes in memory.
#[derive(Drop)]
pub struct MemSource {
    bytes: Bytes,
    at: usize,
    failures: Failures,
}

impl Model for MemSource {
    ghost use Rattle.std.specs.Prelude.{◌≤◌, length, drop};
    ghost use Rattle.link_trait.specs.Streams.{SourceState};

    ghost Value = { SourceState };

    ghost view = { λ it. record { left = drop it.at it.bytes; counts = it.failures } };

    ghost invariant = { λ it. it.at ≤ length it.bytes };
}

impl MemSource {
    ghost use Rattle.std.specs.Prelude.{Some};

    /// A source of the bytes, whose reads of the listed numbers fail.
    pub fn new(bytes: Bytes, failing: Calls) -> MemSource
        ensures left { ⟦<MemSource as Source>⟧.left result ≡ Some bytes }
        ensures faults { ⟦<MemSource as Source>⟧.faults result ≡ 0 }
        ensures schedule { ⟦<MemSource as Source>⟧.schedule result
            ≡ Some (record { made = 0; listed = failing }) }
        ensures quiet { failing ≡ [] → ⟦<MemSource as Source>⟧.quiet result }
    {
        MemSource {
            bytes,
            at: 0,
            failures: Failures::new(failing),
        }
    }
}

impl Source for MemSource {
    ghost use Rattle.std.specs.Prelude.{Some};

    ghost left = { λ it. Some it.left };

    ghost faults = { λ it. it.counts.faults };

    ghost schedule = { λ it. Some it.counts.schedule };

    ghost quiet = { λ it. it.counts.schedule.listed ≡ [] };

    fn read(&mut self, buf: &mut [u8]) -> Got {
        if self.failures.next_fails() {
            return Got::Failed;
        }
        let rest = rest_of(self.bytes.as_slice(), self.at);
        if rest.is_empty() {
            return Got::End;
        }
        let count = copy_front(rest, buf);
        self.at += count;
        Got::Bytes(count)
    }

    fn faults(&self) -> u64 {
        self.failures.faults()
    }
}

/// A sink in memory, which takes at most so many bytes a call.
#[derive(Drop)]
pub struct MemSink {
    bytes: Bytes,
    most: usize,
    failures: Failures,
}

impl Model for MemSink {
    ghost use Rattle.std.specs.Prelude.{◌≤◌};
    ghost use Rattle.link_trait.specs.Streams.{SinkState};

    ghost Value = { SinkState };

    ghost view = { λ it. record { held = it.bytes; most = it.most; counts = it.failures } };

    ghost invariant = { λ it. 1 ≤ it.most };
}

impl MemSink {
    ghost use Rattle.std.specs.Prelude.{Some};

    /// An empty sink, which takes at most `most` bytes a call, at least 1, and whose writes of the
    /// listed numbers fail.
    pub fn new(alloc: Global, most: usize, failing: Calls) -> MemSink
        requires { 1 ≤ most }
        ensures held { ⟦<MemSink as Sink>⟧.held result ≡ Some [] }
        ensures most { ⟦<MemSink as Sink>⟧.most result ≡ Some most }
        ensures faults { ⟦<MemSink as Sink>⟧.faults result ≡ 0 }
        ensures schedule { ⟦<MemSink as Sink>⟧.schedule result
            ≡ Some (record { made = 0; listed = failing }) }
        ensures quiet { failing ≡ [] → ⟦<MemSink as Sink>⟧.quiet result }
    {
        MemSink {
            bytes: Bytes::new(alloc),
            most,
            failures: Failures::new(failing),
        }
    }

    /// What the sink holds.
    pub fn bytes(&self) -> &[u8]
        ensures { result.now ≡ self.now.held }
    {
        self.bytes.as_slice()
    }
}

impl Sink for MemSink {
    ghost use Rattle.std.specs.Prelude.{Some};

    ghost held = { λ it. Some it.held };

    ghost most = { λ it. Some it.most };

    ghost faults = { λ it. it.counts.faults };

    ghost schedule = { λ it. Some it.counts.schedule };

    ghost quiet = { λ it. it.counts.schedule.listed ≡ [] };

    fn write(&mut self, bytes: &[u8]) -> Took {
        if self.failures.next_fails() {
            return Took::Failed;
        }
        let count = cmp::min(self.most, bytes.len());
        match self.bytes.extend_from_slice(&bytes[..count]) {
            Ok(()) => Took::Bytes(count),
            Err(_) => Took::NoMemory,
        }
    }

    fn faults(&self) -> u64 {
        self.failures.faults()
    }
}
