//! A whole input out of a source, and a whole text into a sink: both come and go in pieces, and
//! both may fail at any piece.

ghost use Rattle.std.specs.Prelude.{◌≡◌, ◌≤◌, ◌+◌, length, drop, IfOk, OnOk, OnErr, IsErrOf};
ghost use Rattle.link_trait.specs.Faults.{Rose};
ghost use Rattle.auth_cli.specs.Whole.{WasRead, WasReadPast, WasWritten, WasWrittenInPart};

use auth_controller::{add_front, zeros};
use auth_text::{Bytes, NoMemory, rest_of};
use link_trait::{Got, Sink, Source, Took};
use std::alloc::{AllocError, Global};

/// The greatest number of bytes of a session's text.
pub(crate) const MOST_BYTES: usize = 4_194_304;

const ROOM: usize = 65_536;

/// Why a source wasn't read to its end.
#[derive(Clone, Copy, Debug, PartialEq, Eq)]
pub(crate) enum ReadStop {
    Fault,
    TooLarge,
    NoMemory,
}

impl From<NoMemory> for ReadStop {
    ghost use Rattle.auth_cli.specs.declared.streams.ReadStop.TheVariants.{NoMemory as ReadNoMemory};

    ghost from_gives = { λ _ e. e ≡ ReadNoMemory };

    fn from(_: NoMemory) -> ReadStop {
        ReadStop::NoMemory
    }
}

impl From<AllocError> for ReadStop {
    ghost use Rattle.auth_cli.specs.declared.streams.ReadStop.TheVariants.{NoMemory as ReadNoMemory};

    ghost from_gives = { λ _ e. e ≡ ReadNoMemory };

    fn from(_: AllocError) -> ReadStop {
        ReadStop::NoMemory
    }
}

/// Why a text wasn't written to its end.
#[derive(Clone, Copy, Debug, PartialEq, Eq)]
pub(crate) enum WriteStop {
    Fault,
    NoMemory,
}

/// Reads a source to its end, if it has no more bytes than a session's text may have.
pub(crate) fn read_whole<S: Source>(alloc: Global, input: &mut S) -> Result<Bytes, ReadStop>
    ensures text { IfOk result (λ text. WasRead (S.left input.old) (S.left input.new) text) }
    ensures len { IfOk result (λ text. length text ≤ MOST_BYTES) }
    ensures fault { IsErrOf result ReadStop.Fault
        → Rose S.sticks (S.faults input.old) (S.faults input.new) }
    ensures large { IsErrOf result ReadStop.TooLarge
        → WasReadPast MOST_BYTES (S.left input.old) (S.left input.new) }
    ensures later { S.faults input.old ≤ S.faults input.new }
{
    let mut buf = zeros(alloc, ROOM)?;
    let mut text = Bytes::new(alloc);
    'pieces: while text.len() <= MOST_BYTES {
        match input.read(buf.as_mut_slice()) {
            Got::Bytes(count) => add_front(&mut text, buf.as_slice(), count)?,
            Got::End => return Ok(text),
            Got::Failed => return Err(ReadStop::Fault),
            Got::NoMemory => return Err(ReadStop::NoMemory),
        }
    }
    Err(ReadStop::TooLarge)
}

fn behind(text: &[u8], at: usize) -> &[u8]
    requires { at ≤ length text.now }
    ensures rest { result.now ≡ drop at text.now }
    ensures len { length result.now + at ≡ length text.now }
{
    rest_of(text, at)
}

/// Writes a whole text. A sink that fails holds the text's front.
pub(crate) fn write_whole<K: Sink>(output: &mut K, text: &[u8]) -> Result<(), WriteStop>
    ensures all { OnOk result (WasWritten (K.held output.old) (K.held output.new) text.now) }
    ensures part { OnErr result
        (WasWrittenInPart (K.held output.old) (K.held output.new) text.now) }
    ensures fault { IsErrOf result WriteStop.Fault
        → Rose K.sticks (K.faults output.old) (K.faults output.new) }
    ensures later { K.faults output.old ≤ K.faults output.new }
{
    let mut at = 0usize;
    'pieces: while at < text.len() {
        let rest = behind(text, at);
        match output.write(rest) {
            Took::Bytes(count) => at += count,
            Took::Failed => return Err(WriteStop::Fault),
            Took::NoMemory => return Err(WriteStop::NoMemory),
        }
    }
    Ok(())
}
