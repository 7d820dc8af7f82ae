//! The window of a link: the bytes that were read and belong to no reply yet.

ghost use Rattle.std.specs.Prelude.{◌≡◌, ◌≢◌, ◌≤◌, [], length, drop, vec_len, IfOk, true};
ghost use Rattle.link_trait.specs.Faults.{Rose};
ghost use Rattle.link_trait.specs.Links.{has_link, receiving, GivesFromStream};
ghost use Rattle.link_trait.specs.Told.{grown};
ghost use Rattle.connection_binding.specs.Windows.{filled, IsFilled};

use auth_text::NoMemory;
use link_trait::{Dialer, Got, LinkName};
use std::alloc::{AllocError, Global};
use std::marker::Model;

/// How many bytes one read gives at most.
const WINDOW: usize = 8_192;

/// So many zero bytes.
fn zeros(alloc: Global, len: usize) -> Result<Vec<u8>, AllocError>
    ensures { IfOk result (λ window. vec_len window ≡ len) }
{
    vec![in alloc; 0u8; len]
}

/// How many bytes a read gave.
fn filled(got: Got) -> usize
    ensures { result ≡ filled got }
{
    match got {
        Got::Bytes(count) => count,
        Got::End | Got::Failed | Got::NoMemory => 0,
    }
}

/// A window, which contracts see as the bytes that it keeps.
#[derive(Debug, Drop)]
pub(crate) struct Window {
    bytes: Vec<u8>,
    from: usize,
    to: usize,
}

impl Model for Window {
    ghost use Rattle.std.specs.Prelude.{◌≡◌, ◌-◌, ◌≤◌, List, ℕ, take, drop, vec_len};

    ghost Value = { List ℕ };

    ghost view = { λ w. take (w.to - w.from) (drop w.from w.bytes.items) };

    ghost invariant = { λ w. (vec_len w.bytes ≡ 8192) × (w.from ≤ w.to) × (w.to ≤ 8192) };
}

impl Window {
    /// An empty window, with its memory.
    pub(crate) fn new(alloc: Global) -> Result<Window, NoMemory>
        ensures { IfOk result (λ window. window ≡ []) }
    {
        let bytes = zeros(alloc, WINDOW)?;
        Ok(Window {
            bytes,
            from: 0,
            to: 0,
        })
    }

    /// The bytes that it keeps.
    pub(crate) fn bytes(&self) -> &[u8]
        ensures value { result.now ≡ self.now }
        ensures few { length self.now ≤ 8192 }
    {
        &self.bytes.as_slice()[self.from..self.to]
    }

    /// Drops the first bytes.
    pub(crate) fn take(&mut self, count: usize)
        requires { count ≤ length self.old }
        ensures { self.new ≡ drop count self.old }
    {
        self.from += count;
    }

    /// Drops all bytes.
    pub(crate) fn clear(&mut self)
        ensures { self.new ≡ [] }
    {
        self.from = self.to;
    }

    /// Reads once from an open link into the empty window.
    pub(crate) fn fill<D: Dialer>(&mut self, dialer: &mut D, link: LinkName) -> Got
        requires empty { self.old ≡ [] }
        requires open { has_link link (D.opened dialer.old) ≡ true }
        ensures count { IsFilled result self.new }
        ensures traffic { D.traffic dialer.new
            ≡ grown (D.traffic dialer.old) (receiving result link self.new) }
        ensures stream { GivesFromStream
            (D.streams dialer.old) (D.traffic dialer.old) result link self.new }
        ensures dials { D.dials dialer.new ≡ D.dials dialer.old }
        ensures opened { D.opened dialer.new ≡ D.opened dialer.old }
        ensures streams { D.streams dialer.new ≡ D.streams dialer.old }
        ensures later { D.faults dialer.old ≤ D.faults dialer.new }
        ensures failed { result ≡ Got.Failed
            → Rose D.sticks (D.faults dialer.old) (D.faults dialer.new) }
        ensures quiet { D.quiet dialer.old → D.quiet dialer.new × (result ≢ Got.Failed) }
    {
        let got = dialer.read(link, self.bytes.as_mut_slice());
        self.from = 0;
        self.to = filled(got);
        got
    }
}
