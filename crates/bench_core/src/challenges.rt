//! Readings of one long field of challenges, and of one long challenge.

ghost use Rattle.std.specs.Prelude.{◌≡◌, ◌*◌, if◌then◌else◌, length, IfOk};
ghost use Rattle.std.specs.Option.{is_none};
ghost use Rattle.challenge_tokens.specs.Pieces.{field_read};

use auth_text::{Bytes, NoMemory};
use challenge_tokens::read_field;
use std::alloc::Global;

/// Challenges of three schemes, with a comma and an escape in quoted strings: 150 bytes.
const PIECE: &[u8] =
    b"Digest realm=\"the north, wing\", nonce=\"5f2d9a7c41e0b83d6\", algorithm=SHA-256, qop=\"auth\", stale=false, opaque=\"k\\\"9\", Basic realm=\"lobby\", Negotiate, ";

/// Parameters that follow each other are this far apart by number. It shares no factor with their
/// counts.
const STRIDE: u64 = 7_919;

/// So many copies of a piece of a field, one behind the other.
fn copies(alloc: Global, piece: &[u8], count: u32) -> Result<Bytes, NoMemory>
    ensures { IfOk result (λ text. length text ≡ count * length piece.now) }
{
    let mut text = Bytes::new(alloc);
    for _copy in 0..count {
        text.extend_from_slice(piece)?;
    }
    Ok(text)
}

/// Reads a field so often, and tells how many of the readings came to its end.
fn whole_readings(alloc: Global, field: &[u8], times: u32) -> Result<u32, NoMemory>
    ensures { IfOk result (λ whole. whole
        ≡ (if is_none (field_read field.now).bad_at then times else 0)) }
{
    let mut whole = 0;
    for _reading in 0..times {
        let read = read_field(alloc, field)?;
        if read.bad_at.is_none() {
            whole += 1;
        }
    }
    Ok(whole)
}

/// Reads a field of so many pieces so often. Each reading comes to the field's end.
pub fn run(alloc: Global, pieces: u32, times: u32) -> Result<u32, NoMemory> {
    let field = copies(alloc, PIECE, pieces)?;
    whole_readings(alloc, field.as_slice(), times)
}

/// The number's last five digits.
fn push_number(text: &mut Bytes, number: u64) -> Result<(), NoMemory> {
    for place in [10_000, 1_000, 100, 10, 1] {
        text.push(b'0' + (number / place % 10) as u8)?;
    }
    Ok(())
}

/// One challenge with so many parameters, each with a name of its own, which don't come in order.
fn long_challenge(alloc: Global, count: u32) -> Result<Bytes, NoMemory> {
    let mut text = Bytes::from_slice(alloc, b"Digest ")?;
    for parameter in 0..count {
        text.extend_from_slice(b"name")?;
        push_number(&mut text, u64::from(parameter) * STRIDE % u64::from(count))?;
        text.extend_from_slice(b"=\"5f2d9a7c41e0b83d6\", ")?;
    }
    Ok(text)
}

/// Reads a challenge of so many parameters so often. Each reading comes to the field's end.
pub fn run_long(alloc: Global, count: u32, times: u32) -> Result<u32, NoMemory> {
    let field = long_challenge(alloc, count)?;
    whole_readings(alloc, field.as_slice(), times)
}
