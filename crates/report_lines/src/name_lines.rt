//! The lines of the names: spaces, Digest terms and texts.

ghost use Rattle.std.specs.Prelude.{◌≡◌, ◌≤◌, ◌++◌, length, OnOk};
ghost use Rattle.report_lines.specs.NameLines as spec;

use crate::words::{push_number, push_origin, push_text, push_value, scheme_word, target_word};
use auth_events::TermsName;
use auth_text::{Bytes, Identity, NoMemory};
use spaces::{Algorithm, Qop, Site, Space, Terms};
use std::alloc::Global;

fn push_site(alloc: Global, out: &mut Bytes, site: &Site) -> Result<(), NoMemory>
    ensures { OnOk result (out.new ≡ out.old ++ spec.site_words site.now) }
{
    push_value(alloc, out, site.partition.name())?;
    push_text(out, target_word(site.target))?;
    push_origin(alloc, out, &site.origin)
}

/// Appends the line of the space of that number.
pub fn push_space_line(
    alloc: Global,
    out: &mut Bytes,
    number: u32,
    space: &Space,
) -> Result<(), NoMemory>
    ensures { OnOk result (out.new ≡ out.old ++ spec.space_line number space.now) }
{
    push_text(out, b"space")?;
    push_number(out, number)?;
    push_site(alloc, out, space.site())?;
    push_text(out, scheme_word(space.scheme()))?;
    push_value(alloc, out, space.realm())?;
    push_text(out, b"\n")
}

/// Appends the line of each space.
pub fn push_space_lines(alloc: Global, out: &mut Bytes, spaces: &[Space]) -> Result<(), NoMemory>
    requires { length spaces.now ≤ 131072 }
    ensures { OnOk result (out.new ≡ out.old ++ spec.space_lines 1 spaces.now) }
{
    let mut number = 1u32;
    for space in spaces {
        push_space_line(alloc, out, number, space)?;
        number += 1;
    }
    Ok(())
}

fn algorithm_word(algorithm: Algorithm) -> &'static [u8]
    ensures { result.now ≡ spec.algorithm_word algorithm }
{
    match algorithm {
        Algorithm::Md5 => b" MD5",
        Algorithm::Sha256 => b" SHA-256",
    }
}

fn said_word(said: bool) -> &'static [u8]
    ensures { result.now ≡ spec.said_word said }
{
    if said { b" said" } else { b" unsaid" }
}

fn qop_word(qop: Qop) -> &'static [u8]
    ensures { result.now ≡ spec.qop_word qop }
{
    match qop {
        Qop::Auth => b" auth",
        Qop::Missing => b" missing",
    }
}

fn push_opaque(alloc: Global, out: &mut Bytes, opaque: &Option<Bytes>) -> Result<(), NoMemory>
    ensures { OnOk result (out.new ≡ out.old ++ spec.opaque_words opaque.now) }
{
    match opaque {
        None => push_text(out, b" noopaque"),
        Some(opaque) => {
            push_text(out, b" opaque")?;
            push_value(alloc, out, opaque.as_slice())
        }
    }
}

fn userhash_word(userhash: bool) -> &'static [u8]
    ensures { result.now ≡ spec.userhash_word userhash }
{
    if userhash { b" userhash" } else { b"" }
}

fn push_terms(alloc: Global, out: &mut Bytes, terms: &Terms) -> Result<(), NoMemory>
    ensures { OnOk result (out.new ≡ out.old ++ spec.terms_words terms.now) }
{
    push_text(out, algorithm_word(terms.algorithm))?;
    push_text(out, said_word(terms.said))?;
    push_text(out, qop_word(terms.qop))?;
    push_value(alloc, out, terms.nonce.as_slice())?;
    push_opaque(alloc, out, &terms.opaque)?;
    push_text(out, userhash_word(terms.userhash))
}

/// Appends the line of the terms of that number.
pub fn push_terms_line(
    alloc: Global,
    out: &mut Bytes,
    number: u32,
    name: &TermsName,
) -> Result<(), NoMemory>
    ensures { OnOk result (out.new ≡ out.old ++ spec.terms_line number name.now) }
{
    push_text(out, b"terms")?;
    push_number(out, number)?;
    push_number(out, name.space)?;
    push_number(out, name.nonce)?;
    push_terms(alloc, out, &name.terms)?;
    push_text(out, b"\n")
}

/// Appends the line of each terms.
pub fn push_terms_lines(alloc: Global, out: &mut Bytes, terms: &[TermsName]) -> Result<(), NoMemory>
    requires { length terms.now ≤ 131072 }
    ensures { OnOk result (out.new ≡ out.old ++ spec.terms_lines 1 terms.now) }
{
    let mut number = 1u32;
    for name in terms {
        push_terms_line(alloc, out, number, name)?;
        number += 1;
    }
    Ok(())
}

/// Appends the line of the text of that number.
pub fn push_text_line(
    alloc: Global,
    out: &mut Bytes,
    number: u32,
    identity: &Identity,
) -> Result<(), NoMemory>
    ensures { OnOk result (out.new ≡ out.old ++ spec.text_line number identity.now) }
{
    push_text(out, b"text")?;
    push_number(out, number)?;
    push_value(alloc, out, identity.user())?;
    push_value(alloc, out, identity.password())?;
    push_text(out, b"\n")
}

/// Appends the line of each text: the identities that prompts gave.
pub fn push_text_lines(
    alloc: Global,
    out: &mut Bytes,
    identities: &[Identity],
) -> Result<(), NoMemory>
    requires { length identities.now ≤ 131072 }
    ensures { OnOk result (out.new ≡ out.old ++ spec.text_lines 1 identities.now) }
{
    let mut number = 1u32;
    for identity in identities {
        push_text_line(alloc, out, number, identity)?;
        number += 1;
    }
    Ok(())
}
