//! A source over any of std's readers, and a sink over any of std's writers. What they tell is the
//! count of failures alone, since what the real world gives and takes is known to no clause; where
//! a reader's or a writer's bytes are known, each call says what it did to them.

ghost use Rattle.std.specs.Prelude.{◌≡◌, ◌≢◌, ◌<◌, ◌≤◌, true, length};
ghost use Rattle.link_trait.specs.Faults.{Rose};
ghost use Rattle.link_trait.specs.Streams.{IsGivenCount, IsTakenCount};
ghost use Rattle.auth_cli.specs.Standard.{Gave, Taken};

use link_trait::{Got, Sink, Source, Took};
use std::io::{Read, Write};

/// A source over a reader. It counts each failed read, and stops counting at the greatest u64.
#[derive(Drop)]
pub struct StdSource<R> {
    inner: R,
    faults: u64,
}

impl<R> StdSource<R> {
    ghost use Rattle.std.specs.Prelude.{◌≡◌};

    /// A source over the reader, which has not failed yet.
    pub fn new(inner: R) -> StdSource<R>
        ensures { result.faults ≡ 0 }
    {
        StdSource { inner, faults: 0 }
    }
}

impl<R: Read> Source for StdSource<R> {
    ghost use Rattle.std.specs.Prelude.{None, true};

    ghost left = { λ it. None };

    ghost faults = { λ it. it.faults };

    ghost sticks = { true };

    ghost schedule = { λ it. None };

    ghost quiet = { λ it. ⊥ };

    fn read(&mut self, buf: &mut [u8]) -> Got
        requires { 0 < length buf.old }
        ensures gave { Gave
            (R.remaining self.old.inner) (R.remaining self.new.inner) result buf.new }
        ensures count { IsGivenCount result (length buf.new) }
        ensures later { self.old.faults ≤ self.new.faults }
        ensures failed { result ≡ Got.Failed → Rose true self.old.faults self.new.faults }
        ensures memory { result ≢ Got.NoMemory }
    {
        match self.inner.read(buf) {
            Ok(0) => Got::End,
            Ok(count) => Got::Bytes(count),
            Err(_) => {
                self.faults = self.faults.saturating_add(1);
                Got::Failed
            }
        }
    }

    fn faults(&self) -> u64 {
        self.faults
    }
}

/// A sink over a writer. It counts each failed write, and each that takes nothing, and stops
/// counting at the greatest u64.
#[derive(Drop)]
pub struct StdSink<W> {
    inner: W,
    faults: u64,
}

impl<W> StdSink<W> {
    ghost use Rattle.std.specs.Prelude.{◌≡◌};

    /// A sink over the writer, which has not failed yet.
    pub fn new(inner: W) -> StdSink<W>
        ensures { result.faults ≡ 0 }
    {
        StdSink { inner, faults: 0 }
    }
}

impl<W: Write> Sink for StdSink<W> {
    ghost use Rattle.std.specs.Prelude.{None, true};

    ghost held = { λ it. None };

    ghost faults = { λ it. it.faults };

    ghost sticks = { true };

    ghost schedule = { λ it. None };

    ghost quiet = { λ it. ⊥ };

    fn write(&mut self, bytes: &[u8]) -> Took
        ensures taken { Taken
            (W.contents self.old.inner) (W.contents self.new.inner) result bytes.now }
        ensures count { IsTakenCount result (length bytes.now) }
        ensures later { self.old.faults ≤ self.new.faults }
        ensures failed { result ≡ Took.Failed → Rose true self.old.faults self.new.faults }
    {
        match self.inner.write(bytes) {
            Ok(0) | Err(_) => {
                self.faults = self.faults.saturating_add(1);
                Took::Failed
            }
            Ok(count) => Took::Bytes(count),
        }
    }

    fn faults(&self) -> u64 {
        self.faults
    }
}
