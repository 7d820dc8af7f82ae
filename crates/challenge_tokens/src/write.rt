//! Challenges as text. The simulated servers write what a real one would, and what is written reads
//! back as the same challenge.

ghost use Rattle.std.specs.Prelude.{◌≡◌, ◌++◌, ◌∷◌, IsTrue, IfOk, OnOk};
ghost use Rattle.std.specs.List.{flat_map};
ghost use Rattle.challenge_tokens.specs.Forms.{is_token, is_token68};
ghost use Rattle.challenge_tokens.specs.Writing as spec;

use crate::challenge::{Body, Challenge};
use crate::params::Param;
use auth_text::{Bytes, NoMemory, push_quoted};
use std::alloc::Global;

/// The text of a challenge, with every parameter value as a quoted string. The scheme and the names
/// are tokens, the scheme is in lower case as the names are, a token68 is one, and there is a
/// parameter where the body has parameters.
pub fn write_challenge(alloc: Global, challenge: &Challenge) -> Result<Bytes, NoMemory>
    requires { IsTrue (spec.is_writable challenge.now) }
    ensures { IfOk result (λ text. text ≡ spec.challenge_text challenge.now) }
{
    let mut text = Bytes::from_slice(alloc, challenge.scheme.as_slice())?;
    push_body(&mut text, &challenge.body)?;
    Ok(text)
}

fn push_body(out: &mut Bytes, body: &Body) -> Result<(), NoMemory>
    ensures { OnOk result (out.new ≡ out.old ++ spec.body_text body.now) }
{
    match body {
        Body::Bare => Ok(()),
        Body::Token68(token) => {
            out.push(b' ')?;
            out.extend_from_slice(token.as_slice())
        }
        Body::Params(params) => push_params(out, params.as_slice()),
    }
}

fn push_params(out: &mut Bytes, params: &[Param]) -> Result<(), NoMemory>
    ensures { OnOk result (out.new ≡ out.old ++ spec.params_text params.now) }
{
    let [first, rest @ ..] = params else {
        return Ok(());
    };
    out.push(b' ')?;
    push_param(out, first)?;
    push_more(out, rest)
}

fn push_more(out: &mut Bytes, params: &[Param]) -> Result<(), NoMemory>
    ensures { OnOk result (out.new ≡ out.old ++ flat_map spec.param_behind params.now) }
{
    for param in params {
        out.extend_from_slice(b", ")?;
        push_param(out, param)?;
    }
    Ok(())
}

fn push_param(out: &mut Bytes, param: &Param) -> Result<(), NoMemory>
    ensures { OnOk result (out.new ≡ out.old ++ spec.param_text param.now) }
{
    out.extend_from_slice(param.name.as_slice())?;
    out.push(b'=')?;
    push_quoted(out, param.value.as_slice())
}

/// The scheme, one space and the token, which the caller has in base64. The scheme is a token.
pub fn write_token68(alloc: Global, scheme: &[u8], token: &[u8]) -> Result<Bytes, NoMemory>
    requires { IsTrue (is_token scheme.now) }
    ensures { IfOk result (λ text. text ≡ spec.token68_text scheme.now token.now) }
{
    let mut text = Bytes::from_slice(alloc, scheme)?;
    text.push(b' ')?;
    text.extend_from_slice(token)?;
    Ok(text)
}
