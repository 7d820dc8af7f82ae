//! The reading of an `Authentication-Info` value: parameters alone, up to the first piece that
//! isn't one.

ghost use Rattle.std.specs.Prelude.{◌≡◌, IsTrue, IfOk};
ghost use Rattle.challenge_tokens.specs.Forms.{is_lower_form};
ghost use Rattle.challenge_tokens.specs.declared.piece.Quoting.TheVariants.{Outside};
ghost use Rattle.challenge_tokens.specs.Cutting.{piece_len as first_len};
ghost use Rattle.challenge_tokens.specs.Front.{front};
ghost use Rattle.challenge_tokens.specs.Infos.{info_read};
ghost use Rattle.challenge_tokens.specs.Gathering as spec;

use crate::gathering::Gathering;
use crate::head::form;
use crate::params::Params;
use crate::piece::Form;
use crate::scan::blank_piece;
use auth_text::{NoMemory, rest_of};
use field_lists::blank_len;
use std::alloc::Global;

/// What a piece leaves.
#[derive(Drop)]
pub enum After {
    /// The gathering goes on with this, behind so many bytes.
    Goes(Gathering, usize),
    /// The piece is no parameter, and this was gathered before it.
    Ends(Gathering),
}

fn gathered_by(alloc: Global, so_far: Gathering, form: Form, n: usize) -> Result<After, NoMemory>
    requires { IsTrue (is_lower_form form) }
    ensures { IfOk result (λ next. next ≡ spec.gathered_by so_far form n) }
{
    match form {
        Form::Parameter(param) => Ok(After::Goes(so_far.with(alloc, param)?, n)),
        _ => Ok(After::Ends(so_far)),
    }
}

/// What the piece in front leaves.
fn gathered_at(alloc: Global, so_far: Gathering, text: &[u8]) -> Result<After, NoMemory>
    ensures { IfOk result (λ next. next
        ≡ spec.gathered_of so_far (front text.now) (first_len Outside text.now)) }
{
    if let Some(n) = blank_piece(text) {
        return Ok(After::Goes(so_far, n));
    }
    match form(alloc, text)? {
        Some((form, n)) => gathered_by(alloc, so_far, form, n),
        None => Ok(After::Ends(so_far)),
    }
}

/// Reads the value of an `Authentication-Info` or `Proxy-Authentication-Info` field (RFC 7615
/// section 3), of which RFC 7616 section 3.5 names the parameters. It is cut as `read_field` cuts a
/// value. The parameters before the first piece that isn't one are gathered, and of a parameter
/// given twice the first counts. Any bytes are read, in one pass, and nothing is refused.
pub fn read_info(alloc: Global, value: &[u8]) -> Result<Params, NoMemory>
    ensures { IfOk result (λ params. params ≡ info_read value.now) }
{
    let mut so_far = Gathering::new(alloc);
    let mut rest = value;
    'pieces: loop {
        let text = rest_of(rest, blank_len(rest));
        match gathered_at(alloc, so_far, text)? {
            After::Goes(more, n) => {
                if n == text.len() {
                    return Ok(more.into_params());
                }
                so_far = more;
                rest = rest_of(text, n + 1);
            }
            After::Ends(last) => return Ok(last.into_params()),
        }
    }
}
