//! What a rule says to a head, after what it said before.

ghost use Rattle.std.specs.Prelude.{◌≡◌, ◌≤◌, ◌<◌, ◌^◌, List, ℕ, length, reverse, find, Some, None};
ghost use Rattle.std.specs.Prelude.{bytes_eq, option_copied, IfOk, IsTrue};
ghost use Rattle.auth_text.specs.Login.{Login, is_login};
ghost use Rattle.digest_handler.specs.Credentials.{digest_credentials};
ghost use Rattle.origin_sim.specs.Judging as spec;

use crate::judged::{Judged, Said, Use};
use crate::named::{Named, behind_name, read_named};
use crate::rules::Kind;
use crate::texts::{algorithm_name, basic_challenge, digest_challenge, negotiate_text, nonce_text};
use auth_text::{Bytes, Identity, IdentityFault, NoMemory};
use basic_handler::{BasicFault, read_credentials};
use digest_handler::respond;
use link_trait::{LinkName, same_link};
use spaces::{Algorithm, Qop, Terms};
use std::alloc::Global;
use wire_head::ReadHead;

fn same_bytes(a: &[u8], b: &[u8]) -> bool
    ensures test { result ≡ bytes_eq a.now b.now }
    ensures same { IsTrue result → a.now ≡ b.now }
{
    a == b
}

/// Whether the token is that of the user and the password.
fn is_basic_token(
    alloc: Global,
    user: &[u8],
    password: &[u8],
    token: &[u8],
) -> Result<bool, NoMemory>
    ensures { IfOk result (λ is. is ≡ spec.is_basic_token user.now password.now (Some token.now)) }
{
    match read_credentials(alloc, token) {
        Ok(login) => Ok(same_bytes(login.user(), user) && same_bytes(login.password(), password)),
        Err(BasicFault::NoMemory) => Err(NoMemory),
        Err(_) => Ok(false),
    }
}

/// Whether the credentials are Basic with the user and the password.
fn is_basic(
    alloc: Global,
    user: &[u8],
    password: &[u8],
    credentials: &Option<Bytes>,
) -> Result<bool, NoMemory>
    ensures { IfOk result (λ is. is ≡ spec.is_basic user.now password.now credentials.now) }
{
    let Some(credentials) = credentials else {
        return Ok(false);
    };
    match behind_name(b"Basic ", credentials.as_slice()) {
        Some(token) => is_basic_token(alloc, user, password, token),
        None => Ok(false),
    }
}

fn basic_said(
    alloc: Global,
    user: &[u8],
    password: &[u8],
    credentials: &Option<Bytes>,
) -> Result<Said, NoMemory>
    ensures { IfOk result (λ said. said ≡ spec.basic_said user.now password.now credentials.now) }
{
    if is_basic(alloc, user, password, credentials)? {
        Ok(Said::Accepted)
    } else {
        Ok(Said::Refused)
    }
}

fn makes_nonce(said: &Said) -> bool
    ensures { result ≡ spec.makes_nonce said.now }
{
    matches!(said, Said::Challenged { .. })
}

/// How many challenges the rule made.
fn made(rule: usize, past: &[Judged]) -> usize
    ensures value { result ≡ spec.made rule past.now }
    ensures within { result ≤ length past.now }
{
    past.iter()
        .filter(|judged| judged.rule == rule && makes_nonce(&judged.said))
        .count()
}

fn makes(nonce: &[u8], said: &Said) -> bool
    ensures { result ≡ spec.makes nonce.now said.now }
{
    match said {
        Said::Challenged { nonce: other, .. } => same_bytes(other.as_slice(), nonce),
        _ => false,
    }
}

/// Whether the nonce is one of the rule's own.
fn is_own(rule: usize, nonce: &[u8], past: &[Judged]) -> bool
    ensures { result ≡ spec.is_own rule nonce.now past.now }
{
    past.iter()
        .any(|judged| judged.rule == rule && makes(nonce, &judged.said))
}

fn uses(nonce: &[u8], said: &Said) -> bool
    ensures { result ≡ spec.uses nonce.now said.now }
{
    match said {
        Said::Used(it) => same_bytes(it.nonce.as_slice(), nonce),
        _ => false,
    }
}

/// How often the rule accepted the nonce.
fn used(rule: usize, nonce: &[u8], past: &[Judged]) -> usize
    ensures { result ≡ spec.used rule nonce.now past.now }
{
    past.iter()
        .filter(|judged| judged.rule == rule && uses(nonce, &judged.said))
        .count()
}

fn uses_pair(nonce: &[u8], count: u32, said: &Said) -> bool
    ensures { result ≡ spec.uses_pair nonce.now count said.now }
{
    match said {
        Said::Used(it) => same_bytes(it.nonce.as_slice(), nonce) && it.count == count,
        _ => false,
    }
}

/// Whether the rule accepted the nonce with this count.
fn came(rule: usize, nonce: &[u8], count: u32, past: &[Judged]) -> bool
    ensures { result ≡ spec.came rule nonce.now count past.now }
{
    past.iter().any(|judged| judged.rule == rule && uses_pair(nonce, count, &judged.said))
}

/// Whether the rule accepts the nonce with this count.
fn may_use(rule: usize, bound: u32, nonce: &[u8], count: u32, past: &[Judged]) -> bool
    ensures { result ≡ spec.may_use rule bound nonce.now count past.now }
{
    is_own(rule, nonce, past)
        && (bound == 0 || used(rule, nonce, past) < bound as usize)
        && !came(rule, nonce, count, past)
}

/// The terms of the rule's challenge with a nonce.
fn terms_with(
    alloc: Global,
    realm: &[u8],
    algorithm: Algorithm,
    nonce: &[u8],
) -> Result<Terms, NoMemory>
    ensures { IfOk result (λ terms. terms ≡ spec.terms_with realm.now algorithm nonce.now) }
{
    Ok(Terms {
        algorithm,
        said: true,
        realm: Bytes::from_slice(alloc, realm)?,
        nonce: Bytes::from_slice(alloc, nonce)?,
        opaque: None,
        qop: Qop::Auth,
        userhash: false,
    })
}

/// Whether the credentials are those that a client writes of what they name.
fn is_written(
    alloc: Global,
    terms: &Terms,
    login: &Identity,
    head: &ReadHead,
    named: &Named,
    credentials: &[u8],
) -> Result<bool, NoMemory>
    ensures test { IfOk result (λ is. is ≡ bytes_eq (digest_credentials terms.now login.now
        head.now.method head.now.target named.now.count named.now.cnonce) credentials.now) }
    ensures same { IfOk result (λ is. IsTrue is → digest_credentials terms.now login.now
        head.now.method head.now.target named.now.count named.now.cnonce ≡ credentials.now) }
{
    let written = respond(
        alloc,
        terms,
        login,
        head.method,
        head.target.as_slice(),
        named.count,
        named.cnonce.as_slice(),
    )?;
    Ok(same_bytes(written.as_slice(), credentials))
}

/// The use that right credentials name.
fn use_by(
    alloc: Global,
    realm: &[u8],
    algorithm: Algorithm,
    login: &Identity,
    head: &ReadHead,
    credentials: &[u8],
) -> Result<Option<Use>, NoMemory>
    requires { IsTrue (is_login login.now.user login.now.password) }
    ensures { IfOk result (λ it. spec.IsUse realm.now algorithm login.now head.now
        (Some credentials.now) it) }
{
    let Some(named) = read_named(alloc, algorithm_name(algorithm), credentials)? else {
        return Ok(None);
    };
    let terms = terms_with(alloc, realm, algorithm, named.nonce.as_slice())?;
    if !is_written(alloc, &terms, login, head, &named, credentials)? {
        return Ok(None);
    }
    Ok(Some(Use {
        nonce: named.nonce,
        count: named.count,
    }))
}

/// The use that right credentials of a user and a password name.
fn use_of(
    alloc: Global,
    realm: &[u8],
    algorithm: Algorithm,
    user: &[u8],
    password: &[u8],
    head: &ReadHead,
    credentials: &Option<Bytes>,
) -> Result<Option<Use>, NoMemory>
    ensures { IfOk result (λ it. spec.IsUse realm.now algorithm
        (record { user = user.now; password = password.now }) head.now credentials.now it) }
{
    let Some(credentials) = credentials else {
        return Ok(None);
    };
    match Identity::new(alloc, user, password) {
        Ok(login) => use_by(
            alloc,
            realm,
            algorithm,
            &login,
            head,
            credentials.as_slice(),
        ),
        Err(IdentityFault::NoMemory) => Err(NoMemory),
        Err(_) => Ok(None),
    }
}

fn challenged(
    alloc: Global,
    world: u32,
    rule: usize,
    past: &[Judged],
    stale: bool,
) -> Result<Said, NoMemory>
    ensures { IfOk result (λ said. said ≡ spec.challenged world rule past.now stale) }
{
    let nonce = nonce_text(alloc, world, rule, made(rule, past) + 1)?;
    Ok(Said::Challenged { nonce, stale })
}

fn digest_said(
    alloc: Global,
    world: u32,
    rule: usize,
    bound: u32,
    named: Option<Use>,
    past: &[Judged],
) -> Result<Said, NoMemory>
    ensures { IfOk result (λ said. said ≡ spec.digest_said world rule bound named past.now) }
{
    let Some(it) = named else {
        return challenged(alloc, world, rule, past, false);
    };
    if may_use(rule, bound, it.nonce.as_slice(), it.count, past) {
        Ok(Said::Used(it))
    } else {
        challenged(alloc, world, rule, past, true)
    }
}

/// Whether the credentials are Negotiate with the token.
fn has_token(alloc: Global, token: &[u8], credentials: &Option<Bytes>) -> Result<bool, NoMemory>
    ensures { IfOk result (λ has. has ≡ spec.has_token token.now credentials.now) }
{
    let Some(credentials) = credentials else {
        return Ok(false);
    };
    let text = negotiate_text(alloc, token)?;
    Ok(same_bytes(credentials.as_slice(), text.as_slice()))
}

fn sets_link(said: &Said) -> bool
    ensures { result ≡ spec.sets_link said.now }
{
    matches!(said, Said::Begun | Said::Forgotten)
}

/// Whether the rule left the link with the first token, or without.
fn is_setting(rule: usize, link: LinkName, judged: &Judged) -> bool
    ensures { result ≡ spec.is_setting rule link judged.now }
{
    judged.rule == rule && same_link(judged.link, link) && sets_link(&judged.said)
}

/// What the rule last left on the link.
fn last_setting(rule: usize, link: LinkName, past: &[Judged]) -> Option<&Judged>
    ensures { option_copied result ≡ find (spec.is_setting rule link) (reverse past.now) }
{
    past.iter()
        .rev()
        .find(|judged| is_setting(rule, link, judged))
}

/// Whether the rule got its first token on the link, and forgot nothing since.
fn has_begun(rule: usize, link: LinkName, past: &[Judged]) -> bool
    ensures { result ≡ spec.has_begun rule link past.now }
{
    match last_setting(rule, link, past) {
        Some(judged) => matches!(judged.said, Said::Begun),
        None => false,
    }
}

fn negotiate_said(
    alloc: Global,
    first: &[u8],
    second: &[u8],
    rule: usize,
    past: &[Judged],
    link: LinkName,
    credentials: &Option<Bytes>,
) -> Result<Said, NoMemory>
    ensures { let begun = spec.has_begun rule link past.now in IfOk result (λ said. said
        ≡ spec.negotiate_said first.now second.now credentials.now begun) }
{
    if has_token(alloc, second, credentials)? && has_begun(rule, link, past) {
        Ok(Said::Accepted)
    } else if has_token(alloc, first, credentials)? {
        Ok(Said::Begun)
    } else {
        Ok(Said::Forgotten)
    }
}

/// What the numbered rule of a numbered world says to a head on a link, by credentials for it.
pub(crate) fn judgement(
    alloc: Global,
    world: u32,
    rule: usize,
    kind: &Kind,
    past: &[Judged],
    link: LinkName,
    head: &ReadHead,
    credentials: &Option<Bytes>,
) -> Result<Said, NoMemory>
    ensures { IfOk result (λ said. spec.IsSaid world rule kind.now past.now link head.now
        credentials.now said) }
{
    match kind {
        Kind::Open => Ok(Said::Accepted),
        Kind::Basic { user, password, .. } => {
            basic_said(alloc, user.as_slice(), password.as_slice(), credentials)
        }
        Kind::Digest {
            realm,
            user,
            password,
            algorithm,
            uses,
        } => {
            let named = use_of(
                alloc,
                realm.as_slice(),
                *algorithm,
                user.as_slice(),
                password.as_slice(),
                head,
                credentials,
            )?;
            digest_said(alloc, world, rule, *uses, named, past)
        }
        Kind::Negotiate { first, second, .. } => negotiate_said(
            alloc,
            first.as_slice(),
            second.as_slice(),
            rule,
            past,
            link,
            credentials,
        ),
    }
}

/// The challenge that goes with what a rule of that kind said, where it refuses.
pub(crate) fn challenge(alloc: Global, kind: &Kind, said: &Said) -> Result<Option<Bytes>, NoMemory>
    ensures { IfOk result (λ text. text ≡ spec.challenge kind.now said.now) }
{
    let text = match (kind, said) {
        (Kind::Basic { realm, .. }, Said::Refused) => basic_challenge(alloc, realm.as_slice())?,
        (
            Kind::Digest {
                realm,
                algorithm,
                ..
            },
            Said::Challenged { nonce, stale },
        ) => digest_challenge(
            alloc,
            realm.as_slice(),
            nonce.as_slice(),
            *algorithm,
            *stale,
        )?,
        (Kind::Negotiate { reply, .. }, Said::Begun) => negotiate_text(alloc, reply.as_slice())?,
        (Kind::Negotiate { .. }, Said::Forgotten) => Bytes::from_slice(alloc, b"Negotiate")?,
        _ => return Ok(None),
    };
    Ok(Some(text))
}
