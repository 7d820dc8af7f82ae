//! The terms of a Digest challenge, or the first reason to pass it over: a browser sends no
//! credentials that it can't compute, and takes the next challenge instead.

ghost use Rattle.std.specs.Prelude.{◌≡◌, codes, IfOk, [], unwrap_or};
ghost use Rattle.std.specs.Option.{option_copied};
ghost use Rattle.std.specs.Str.{str_eq_ignore_ascii_case};
ghost use Rattle.std.specs.List.{list_any};
ghost use Rattle.auth_text.specs.Gives.{GivesBy};
ghost use Rattle.digest_handler.specs.ChallengeTerms as spec;

use auth_text::{Bytes, NoMemory};
use challenge_tokens::Challenge;
use field_lists::elements_of;
use spaces::{Algorithm, Qop, Terms};
use std::alloc::Global;
use thiserror::Error;

/// What a Digest challenge says.
#[derive(Clone, Debug, Drop, PartialEq, Eq)]
pub struct TermsRead {
    pub terms: Terms,
    /// The credentials were right but for their nonce, so nobody has to be asked again.
    pub stale: bool,
}

/// Why a Digest challenge is passed over, in the order in which the causes are found.
#[derive(Clone, Copy, Debug, PartialEq, Eq, Error)]
pub enum Passed {
    /// It has no nonce.
    #[error("no nonce")]
    NoNonce,
    /// Its algorithm is neither MD5 nor SHA-256.
    #[error("an algorithm other than MD5 and SHA-256")]
    Algorithm,
    /// Its qop names others, as `auth-int`, and not `auth`.
    #[error("a qop without auth")]
    OnlyAuthInt,
    /// There was no memory.
    #[error("no memory")]
    NoMemory,
}

fn is_same(a: &[u8], b: &[u8]) -> bool
    ensures { result ≡ str_eq_ignore_ascii_case a.now b.now }
{
    a.eq_ignore_ascii_case(b)
}

fn algorithm_of(name: Option<&[u8]>) -> Option<Algorithm>
    ensures { result ≡ spec.algorithm_of (option_copied name.entry) }
{
    match name {
        None => Some(Algorithm::Md5),
        Some(name) => {
            if is_same(name, b"MD5") {
                Some(Algorithm::Md5)
            } else if is_same(name, b"SHA-256") {
                Some(Algorithm::Sha256)
            } else {
                None
            }
        }
    }
}

fn has_auth(elements: &[Bytes]) -> bool
    ensures { result ≡ list_any spec.is_auth elements.now }
{
    elements.iter().any(|e| is_same(e.as_slice(), b"auth"))
}

/// The qop, where `auth` is named or nothing is.
fn qop_among(elements: &[Bytes]) -> Option<Qop>
    ensures { result ≡ spec.qop_among elements.now }
{
    if elements.is_empty() {
        Some(Qop::Missing)
    } else if has_auth(elements) {
        Some(Qop::Auth)
    } else {
        None
    }
}

fn qop_of(alloc: Global, value: Option<&[u8]>) -> Result<Option<Qop>, NoMemory>
    ensures { IfOk result (λ qop. qop ≡ spec.qop_of (option_copied value.entry)) }
{
    match value {
        None => Ok(Some(Qop::Missing)),
        Some(value) => {
            let elements = elements_of(alloc, value)?;
            Ok(qop_among(elements.as_slice()))
        }
    }
}

fn is_true(value: Option<&[u8]>) -> bool
    ensures { result ≡ spec.is_true (option_copied value.entry) }
{
    match value {
        None => false,
        Some(value) => is_same(value, b"true"),
    }
}

fn copied(alloc: Global, value: Option<&[u8]>) -> Result<Option<Bytes>, NoMemory>
    ensures { IfOk result (λ copy. copy ≡ option_copied value.entry) }
{
    match value {
        None => Ok(None),
        Some(value) => Ok(Some(Bytes::from_slice(alloc, value)?)),
    }
}

fn or_empty(alloc: Global, value: Option<&[u8]>) -> Result<Bytes, NoMemory>
    ensures { IfOk result (λ copy. copy ≡ unwrap_or (option_copied value.entry) []) }
{
    match value {
        None => Ok(Bytes::new(alloc)),
        Some(value) => Bytes::from_slice(alloc, value),
    }
}

/// The terms, once nothing speaks against the challenge.
fn terms_with(
    alloc: Global,
    challenge: &Challenge,
    nonce: &[u8],
    algorithm: Algorithm,
    qop: Qop,
) -> Result<TermsRead, NoMemory>
    ensures { IfOk result (λ read. read ≡ spec.terms_with challenge.now nonce.now algorithm qop) }
{
    let terms = Terms {
        algorithm,
        said: challenge.param(b"algorithm").is_some(),
        realm: or_empty(alloc, challenge.param(b"realm"))?,
        nonce: Bytes::from_slice(alloc, nonce)?,
        opaque: copied(alloc, challenge.param(b"opaque"))?,
        qop,
        userhash: is_true(challenge.param(b"userhash")),
    };
    Ok(TermsRead {
        terms,
        stale: is_true(challenge.param(b"stale")),
    })
}

/// The terms that a Digest challenge asks for (RFC 7616 section 3.3), or the first reason to pass
/// it over. Without `algorithm` it is MD5. A `qop` that names nothing counts as missing, as RFC
/// 2617 has it; `realm` may be missing and is then empty. A `userhash` other than `true` counts for
/// none.
pub fn terms_of(alloc: Global, challenge: &Challenge) -> Result<TermsRead, Passed>
    requires { challenge.now.scheme ≡ codes "digest" }
    ensures { GivesBy Passed.NoMemory (λ read. read) result (spec.terms_read challenge.now) }
{
    let Some(nonce) = challenge.param(b"nonce") else {
        return Err(Passed::NoNonce);
    };
    let Some(algorithm) = algorithm_of(challenge.param(b"algorithm")) else {
        return Err(Passed::Algorithm);
    };
    let qop = match qop_of(alloc, challenge.param(b"qop")) {
        Ok(Some(qop)) => qop,
        Ok(None) => return Err(Passed::OnlyAuthInt),
        Err(_) => return Err(Passed::NoMemory),
    };
    match terms_with(alloc, challenge, nonce, algorithm, qop) {
        Ok(read) => Ok(read),
        Err(_) => Err(Passed::NoMemory),
    }
}
