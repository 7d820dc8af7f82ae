//! What the piece in front of a text is, read in one pass from its first byte on: the place where
//! the piece ends is where the reading stops. Of a bad piece nothing more is read than shows that
//! it is bad.

ghost use Rattle.std.specs.Prelude.{◌≡◌, ◌≤◌, ◌<◌, ◌+◌, ◌==◌, false, length, take, drop, IfOk};
ghost use Rattle.std.specs.Prelude.{IfSome};
ghost use Rattle.std.specs.List.{prefix_len};
ghost use Rattle.challenge_tokens.specs.Forms.{token_len as name_len, is_token68_byte, param_of};
ghost use Rattle.challenge_tokens.specs.Forms.{head_param, argument_form, form_of};
ghost use Rattle.challenge_tokens.specs.Front.{front, sized, then_blank, unless_bad, after_token};
ghost use Rattle.challenge_tokens.specs.Front.{value_after};
ghost use Rattle.challenge_tokens.specs.Front as spec;

use crate::params::Param;
use crate::piece::{Form, common_len, equals_len, space_len, token_len, token68_len};
use crate::scan::{blank_piece, is_over, starts, value, value_behind};
use auth_text::{Bytes, NoMemory, fold, front_of, rest_of};
use field_lists::blank_len;
use std::alloc::Global;

/// The first n bytes as a token68, where only blanks follow them.
fn with_token68(
    alloc: Global,
    scheme: Bytes,
    text: &[u8],
    n: usize,
) -> Result<Option<(Form, usize)>, NoMemory>
    requires { n ≤ length text.now }
    ensures value { IfOk result (λ read. read
        ≡ then_blank
        (Form.WithToken scheme (take n text.now)) n (spec.blank_piece (drop n text.now))) }
    ensures within { IfOk result (λ read. IfSome read (λ x. x.1 ≤ length text.now)) }
{
    match blank_piece(rest_of(text, n)) {
        Some(blank) => {
            let token = Bytes::from_slice(alloc, front_of(text, n))?;
            Ok(Some((Form::WithToken(scheme, token), n + blank)))
        }
        None => Ok(None),
    }
}

/// The parameter that the piece in front is, whose name are the first n bytes.
fn with_param(
    alloc: Global,
    scheme: Bytes,
    text: &[u8],
    n: usize,
) -> Result<Option<(Form, usize)>, NoMemory>
    requires name { n ≡ name_len text.now }
    requires some { 0 < n }
    requires all { n ≤ length text.now }
    ensures value { IfOk result (λ read. read
        ≡ sized (unless_bad (head_param scheme (param_of (front text.now)))) text.now) }
    ensures within { IfOk result (λ read. IfSome read (λ x. x.1 ≤ length text.now)) }
{
    let more = rest_of(text, n);
    let blank = blank_len(more);
    match value_behind(alloc, rest_of(more, blank))? {
        Some((value, len)) => {
            let name = fold(alloc, front_of(text, n))?;
            Ok(Some((
                Form::WithParam(scheme, Param { name, value }),
                n + blank + len,
            )))
        }
        None => Ok(None),
    }
}

/// The value that is the piece in front, where so many `=` stand before it.
fn value_by(alloc: Global, equals: usize, text: &[u8]) -> Result<Option<(Bytes, usize)>, NoMemory>
    ensures value { IfOk result (λ read. read ≡ value_after equals text.now) }
    ensures within { IfOk result (λ read. IfSome read (λ x. x.1 ≤ length text.now)) }
{
    if equals == 0 {
        return value_behind(alloc, text);
    }
    if equals == 1 {
        return value(alloc, text);
    }
    Ok(None)
}

/// The token68 or the parameter that the piece in front is, where its first n bytes may begin both.
fn with_either(
    alloc: Global,
    scheme: Bytes,
    text: &[u8],
    n: usize,
) -> Result<Option<(Form, usize)>, NoMemory>
    requires name { n ≡ name_len text.now }
    requires token { n ≡ prefix_len is_token68_byte text.now }
    requires some { 0 < n }
    requires all { n ≤ length text.now }
    ensures value { IfOk result (λ read. read
        ≡ sized (unless_bad (argument_form scheme (front text.now))) text.now) }
    ensures within { IfOk result (λ read. IfSome read (λ x. x.1 ≤ length text.now)) }
{
    let rest = rest_of(text, n);
    let equals = equals_len(rest);
    let more = rest_of(rest, equals);
    let blank = blank_len(more);
    let behind = rest_of(more, blank);
    if is_over(behind) {
        let token = Bytes::from_slice(alloc, front_of(text, n + equals))?;
        return Ok(Some((Form::WithToken(scheme, token), n + equals + blank)));
    }
    match value_by(alloc, equals, behind)? {
        Some((value, len)) => {
            let name = fold(alloc, front_of(text, n))?;
            Ok(Some((
                Form::WithParam(scheme, Param { name, value }),
                n + equals + blank + len,
            )))
        }
        None => Ok(None),
    }
}

/// What stands behind a scheme and its spaces, and how many bytes that piece has.
fn argument(alloc: Global, scheme: Bytes, text: &[u8]) -> Result<Option<(Form, usize)>, NoMemory>
    ensures value { IfOk result (λ read. read
        ≡ sized (unless_bad (argument_form scheme (front text.now))) text.now) }
    ensures within { IfOk result (λ read. IfSome read (λ x. x.1 ≤ length text.now)) }
{
    let common = common_len(text);
    let rest = rest_of(text, common);
    let token = token68_len(rest);
    if token > 0 {
        let padding = equals_len(rest_of(rest, token));
        return with_token68(alloc, scheme, text, common + token + padding);
    }
    let name = token_len(rest);
    if name > 0 {
        return with_param(alloc, scheme, text, common + name);
    }
    if common == 0 {
        return Ok(None);
    }
    with_either(alloc, scheme, text, common)
}

/// What the piece in front is, from what stands behind its first token.
fn behind_token(alloc: Global, token: Bytes, text: &[u8]) -> Result<Option<(Form, usize)>, NoMemory>
    ensures value { IfOk result (λ read. read
        ≡ sized (unless_bad (after_token token (front text.now))) text.now) }
    ensures within { IfOk result (λ read. IfSome read (λ x. x.1 ≤ length text.now)) }
{
    let spaces = space_len(text);
    let more = rest_of(text, spaces);
    let blank = blank_len(more);
    let behind = rest_of(more, blank);
    if is_over(behind) {
        return Ok(Some((Form::Bare(token), spaces + blank)));
    }
    if starts(behind, b'=') {
        return match value_behind(alloc, behind)? {
            Some((value, n)) => {
                let found = Param { name: token, value };
                Ok(Some((Form::Parameter(found), spaces + blank + n)))
            }
            None => Ok(None),
        };
    }
    if spaces == 0 || blank > 0 {
        return Ok(None);
    }
    match argument(alloc, token, more)? {
        Some((form, n)) => Ok(Some((form, spaces + n))),
        None => Ok(None),
    }
}

/// What the piece in front is, and how many bytes it has; `None` where it is bad.
pub fn form(alloc: Global, text: &[u8]) -> Result<Option<(Form, usize)>, NoMemory>
    ensures value { IfOk result (λ read. read
        ≡ sized (unless_bad (form_of (front text.now))) text.now) }
    ensures within { IfOk result (λ read. IfSome read (λ x. x.1 ≤ length text.now)) }
{
    let n = token_len(text);
    if n == 0 {
        return Ok(None);
    }
    let token = fold(alloc, front_of(text, n))?;
    match behind_token(alloc, token, rest_of(text, n))? {
        Some((form, len)) => Ok(Some((form, n + len))),
        None => Ok(None),
    }
}
