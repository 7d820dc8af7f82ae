//! How the calls on a link end. Each failure carries the dialer's count of faults, which rose in
//! that call, so that a report can name the fault.

ghost use Rattle.std.specs.Prelude.{◌≡◌};
ghost use Rattle.connection_binding.specs.Ends as spec;

use crate::free::FreeLink;
use wire_head::{Reply, WireFault};

/// What a dial gave.
#[derive(Debug)]
pub enum DialEnd {
    /// The link is open.
    Link(FreeLink),
    /// The dial failed, and the dialer's count of faults rose to this.
    Failed { count: u64 },
    /// There was no memory, and no link was given.
    NoMemory,
}

/// What sending a head did.
#[derive(Clone, Copy, Debug, PartialEq, Eq)]
pub enum SendEnd {
    /// All bytes were written.
    All,
    /// The write failed behind a front of the bytes, and the dialer's count of faults rose to this.
    Failed { count: u64 },
    /// There was no memory; a front of the bytes was written.
    NoMemory,
}

/// What reading a reply gave.
#[derive(Debug, Drop)]
pub enum ReadEnd {
    /// The bytes that were read show this reply.
    Whole(Reply),
    /// They show this fault in its place.
    Broken(WireFault),
    /// A link that gave a reply before has ended without a byte more. No free link answers this.
    Lost,
    /// The read failed, and the dialer's count of faults rose to this.
    Failed { count: u64 },
    /// There was no memory.
    NoMemory,
}

/// Tells whether the reading gave a reply.
pub(crate) fn is_whole(end: &ReadEnd) -> bool
    ensures { result ≡ spec.is_whole end.now }
{
    match end {
        ReadEnd::Whole(_) => true,
        ReadEnd::Broken(_) | ReadEnd::Lost | ReadEnd::Failed { .. } | ReadEnd::NoMemory => false,
    }
}
