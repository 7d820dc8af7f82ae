//! Terms of a space as a key of an ordered map: their parts, of which each has an order.

ghost use Rattle.std.specs.Prelude.{◌≡◌, IfOk, is_some, unwrap_or, []};
ghost use Rattle.name_index.specs.TermsKeys.{IsKeyOfTerms, algorithm_number, flag_number};
ghost use Rattle.name_index.specs.TermsKeys.{qop_number};

use auth_text::{Bytes, NoMemory};
use spaces::{Algorithm, Qop, Terms};
use std::alloc::Global;

/// The number of a space, and the parts of its terms.
#[derive(PartialEq, Eq, PartialOrd, Ord, Drop)]
pub struct TermsKey {
    space: u32,
    algorithm: u8,
    said: u8,
    realm: Vec<u8>,
    nonce: Vec<u8>,
    has_opaque: u8,
    opaque: Vec<u8>,
    qop: u8,
    userhash: u8,
}

fn algorithm_number(algorithm: Algorithm) -> u8
    ensures { result ≡ algorithm_number algorithm }
{
    match algorithm {
        Algorithm::Md5 => 0,
        Algorithm::Sha256 => 1,
    }
}

fn qop_number(qop: Qop) -> u8
    ensures { result ≡ qop_number qop }
{
    match qop {
        Qop::Auth => 0,
        Qop::Missing => 1,
    }
}

fn flag_number(flag: bool) -> u8
    ensures { result ≡ flag_number flag }
{
    if flag { 1 } else { 0 }
}

fn copy_opaque(alloc: Global, opaque: &Option<Bytes>) -> Result<Vec<u8>, NoMemory>
    ensures { IfOk result (λ copy. copy.items ≡ unwrap_or opaque.now []) }
{
    match opaque {
        Some(bytes) => Ok(Vec::from_slice(alloc, bytes.as_slice())?),
        None => Ok(Vec::new(alloc)),
    }
}

/// The key of terms in a space.
pub fn key_of_terms(alloc: Global, space: u32, terms: &Terms) -> Result<TermsKey, NoMemory>
    ensures { IfOk result (λ key. IsKeyOfTerms key (space, terms.now)) }
{
    Ok(TermsKey {
        space,
        algorithm: algorithm_number(terms.algorithm),
        said: flag_number(terms.said),
        realm: Vec::from_slice(alloc, terms.realm.as_slice())?,
        nonce: Vec::from_slice(alloc, terms.nonce.as_slice())?,
        has_opaque: flag_number(terms.opaque.is_some()),
        opaque: copy_opaque(alloc, &terms.opaque)?,
        qop: qop_number(terms.qop),
        userhash: flag_number(terms.userhash),
    })
}
