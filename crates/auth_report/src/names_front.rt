//! The lines of names, from the first of them to the first line that is none.

ghost use Rattle.std.specs.Prelude.{◌≡◌, ◌≤◌, [], length, IfOk, OnOk};
ghost use Rattle.report_reading.specs.Cuts.{lines};
ghost use Rattle.auth_events.specs.Tables.{is_home, no_names};
ghost use Rattle.auth_report.specs.Sections.{taken};
ghost use Rattle.auth_report.specs.Steps.{is_new_space, is_new_terms, space_step, terms_step};
ghost use Rattle.auth_report.specs.Steps.{text_step};
ghost use Rattle.auth_report.specs.Reading.{names_front};

use auth_events::{Names, TermsName};
use auth_text::NoMemory;
use report_reading::{next_line, space_at, terms_at, text_at};
use spaces::{Scheme, Space, same_scheme};
use std::alloc::Global;

fn is_new_space(names: &Names, requests: u32, space: &Space) -> bool
    requires { requests ≤ 2048 }
    ensures { result ≡ is_new_space requests names.now space.now }
{
    names.spaces_len() < 64 * requests && names.space_number(space).is_none()
}

fn read_spaces<'a>(
    alloc: Global,
    names: &mut Names,
    requests: u32,
    text: &'a [u8],
) -> Result<&'a [u8], NoMemory>
    requires { requests ≤ 2048 }
    ensures { IfOk result (λ left. taken (space_step requests) names.old (lines text.now)
        ≡ (names.new, lines left.now)) }
{
    let mut rest = text;
    'lines: loop {
        let Some((line, left)) = next_line(rest) else {
            return Ok(rest);
        };
        let Some(space) = space_at(alloc, names.spaces_len() + 1, line)? else {
            return Ok(rest);
        };
        if !is_new_space(names, requests, &space) {
            return Ok(rest);
        }
        names.push_space(space)?;
        rest = left;
    }
}

fn is_home(names: &Names, name: &TermsName) -> bool
    ensures { result ≡ is_home names.now name.now.space name.now.terms }
{
    match names.space(name.space) {
        None => false,
        Some(space) => {
            same_scheme(space.scheme(), Scheme::Digest)
                && space.realm() == name.terms.realm.as_slice()
        }
    }
}

fn is_new_terms(names: &Names, requests: u32, name: &TermsName) -> bool
    requires { requests ≤ 2048 }
    ensures { result ≡ is_new_terms requests names.now name.now }
{
    names.terms_len() < 64 * requests
        && is_home(names, name)
        && names.terms_number(name.space, &name.terms).is_none()
        && name.nonce == names.nonce_for(name.space, &name.terms)
        && name.nonce <= 16 * requests
}

fn read_terms<'a>(
    alloc: Global,
    names: &mut Names,
    requests: u32,
    text: &'a [u8],
) -> Result<&'a [u8], NoMemory>
    requires { requests ≤ 2048 }
    ensures { IfOk result (λ left. taken (terms_step requests) names.old (lines text.now)
        ≡ (names.new, lines left.now)) }
{
    let mut rest = text;
    'lines: loop {
        let Some((line, left)) = next_line(rest) else {
            return Ok(rest);
        };
        let Some(name) = terms_at(alloc, names.terms_len() + 1, names.spaces(), line)? else {
            return Ok(rest);
        };
        if !is_new_terms(names, requests, &name) {
            return Ok(rest);
        }
        names.push_terms(name)?;
        rest = left;
    }
}

fn read_texts<'a>(
    alloc: Global,
    names: &mut Names,
    requests: u32,
    text: &'a [u8],
) -> Result<&'a [u8], NoMemory>
    requires { requests ≤ 2048 }
    ensures { IfOk result (λ left. taken (text_step requests) names.old (lines text.now)
        ≡ (names.new, lines left.now)) }
{
    let mut rest = text;
    'lines: loop {
        let Some((line, left)) = next_line(rest) else {
            return Ok(rest);
        };
        let Some(identity) = text_at(alloc, names.texts_len() + 1, line)? else {
            return Ok(rest);
        };
        if names.texts_len() >= 64 * requests {
            return Ok(rest);
        }
        names.push_text(identity)?;
        rest = left;
    }
}

/// The names that the text begins with, and what stands behind their lines.
pub fn read_names(alloc: Global, requests: u32, text: &[u8]) -> Result<(Names, &[u8]), NoMemory>
    requires { requests ≤ 2048 }
    ensures { IfOk result (λ got. names_front requests (lines text.now)
        ≡ (got.0, lines got.1.now)) }
{
    let mut names = Names::new(alloc);
    let rest = read_spaces(alloc, &mut names, requests, text)?;
    let rest = read_terms(alloc, &mut names, requests, rest)?;
    let rest = read_texts(alloc, &mut names, requests, rest)?;
    Ok((names, rest))
}
