//! The reading of a whole field, piece by piece from the left, up to its end or its first bad
//! piece.

ghost use Rattle.std.specs.Prelude.{◌≡◌, IsTrue, IfOk};
ghost use Rattle.challenge_tokens.specs.Names.{is_lower};
ghost use Rattle.challenge_tokens.specs.Forms.{is_lower_form};
ghost use Rattle.challenge_tokens.specs.Pieces.{field_read};
ghost use Rattle.challenge_tokens.specs.Cutting.{piece_len as first_len};
ghost use Rattle.challenge_tokens.specs.Front.{front, next_by};
ghost use Rattle.challenge_tokens.specs.Reading as spec;

use crate::begun::Begun;
use crate::challenge::{Challenges, FieldRead};
use crate::head::form;
use crate::params::Param;
use crate::piece::{Form, Quoting};
use crate::scan::blank_piece;
use auth_text::{NoMemory, rest_of};
use field_lists::blank_len;
use std::alloc::Global;

/// What is read so far: the finished challenges, and the one begun last.
#[derive(Drop)]
pub struct Reading {
    pub done: Challenges,
    pub current: Option<Begun>,
}

fn takes(current: &Option<Begun>) -> bool
    ensures { result ≡ spec.takes current.now }
{
    match current {
        None => false,
        Some(begun) => begun.takes_params(),
    }
}

fn is_refused(reading: &Reading, form: &Form) -> bool
    ensures { result ≡ spec.is_refused reading.now form.now }
{
    match form {
        Form::Parameter(_) => !takes(&reading.current),
        Form::Bad => true,
        _ => false,
    }
}

fn finished(reading: Reading) -> Result<Challenges, NoMemory>
    ensures { IfOk result (λ challenges. challenges ≡ spec.so_far reading) }
{
    let Reading { mut done, current } = reading;
    if let Some(begun) = current {
        done.push(begun.into_challenge())?;
    }
    Ok(done)
}

fn with_challenge(reading: Reading, begun: Begun) -> Result<Reading, NoMemory>
    ensures { IfOk result (λ next. next ≡ spec.with_challenge reading begun) }
{
    let done = finished(reading)?;
    Ok(Reading {
        done,
        current: Some(begun),
    })
}

fn joined(alloc: Global, current: Option<Begun>, param: Param) -> Result<Option<Begun>, NoMemory>
    requires { IsTrue (is_lower param.name) }
    ensures { IfOk result (λ next. next ≡ spec.joined current param) }
{
    match current {
        None => Ok(None),
        Some(begun) => Ok(Some(begun.with(alloc, param)?)),
    }
}

fn with_form(alloc: Global, reading: Reading, form: Form) -> Result<Reading, NoMemory>
    requires { IsTrue (is_lower_form form) }
    ensures { IfOk result (λ next. next ≡ spec.with_form reading form) }
{
    match form {
        Form::Bare(scheme) => with_challenge(reading, Begun::bare(scheme)),
        Form::WithToken(scheme, token) => with_challenge(reading, Begun::with_token(scheme, token)),
        Form::WithParam(scheme, param) => {
            let begun = Begun::bare(scheme).with(alloc, param)?;
            with_challenge(reading, begun)
        }
        Form::Parameter(param) => {
            let Reading { done, current } = reading;
            Ok(Reading {
                done,
                current: joined(alloc, current, param)?,
            })
        }
        Form::Bad => Ok(reading),
    }
}

fn field(reading: Reading, bad_at: Option<usize>) -> Result<FieldRead, NoMemory>
    ensures { IfOk result (λ read. read
        ≡ record { challenges = spec.so_far reading; bad_at = bad_at }) }
{
    Ok(FieldRead {
        challenges: finished(reading)?,
        bad_at,
    })
}

/// What a piece leaves.
#[derive(Drop)]
pub enum Next {
    /// The reading goes on with this, behind so many bytes.
    Goes(Reading, usize),
    /// The piece is bad, and this was read before it.
    Refused(Reading),
}

fn next_by(alloc: Global, reading: Reading, form: Form, n: usize) -> Result<Next, NoMemory>
    requires { IsTrue (is_lower_form form) }
    ensures { IfOk result (λ next. next ≡ next_by reading form n) }
{
    if is_refused(&reading, &form) {
        return Ok(Next::Refused(reading));
    }
    Ok(Next::Goes(with_form(alloc, reading, form)?, n))
}

/// What the piece in front leaves.
fn next_at(alloc: Global, reading: Reading, text: &[u8]) -> Result<Next, NoMemory>
    ensures { IfOk result (λ next. next
        ≡ spec.next_of reading (front text.now) (first_len Quoting.Outside text.now)) }
{
    if let Some(n) = blank_piece(text) {
        return Ok(Next::Goes(reading, n));
    }
    match form(alloc, text)? {
        Some((form, n)) => next_by(alloc, reading, form, n),
        None => Ok(Next::Refused(reading)),
    }
}

/// Reads a field's value as a list of challenges, after RFC 7235 section 2.1. The value is cut at
/// its commas outside quoted strings, and each piece begins a challenge or adds a parameter to the
/// one begun last. The first piece that does neither ends the reading: `bad_at` is the place of its
/// first byte, and the challenges begun before it stand. Of a parameter given twice the first
/// counts. The value is read in one pass.
pub fn read_field(alloc: Global, value: &[u8]) -> Result<FieldRead, NoMemory>
    ensures { IfOk result (λ read. read ≡ field_read value.now) }
{
    let mut reading = Reading {
        done: Challenges::new(alloc),
        current: None,
    };
    let mut at = 0;
    let mut rest = value;
    'pieces: loop {
        let blank = blank_len(rest);
        match next_at(alloc, reading, rest_of(rest, blank))? {
            Next::Goes(next, len) => {
                let n = blank + len;
                if n == rest.len() {
                    return field(next, None);
                }
                reading = next;
                at += n + 1;
                rest = rest_of(rest, n + 1);
            }
            Next::Refused(last) => return field(last, Some(at + blank)),
        }
    }
}
