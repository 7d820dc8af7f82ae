//! Challenges of the standards and of servers, with the terms that they ask for or the cause for
//! which they are passed over, read by hand by RFC 7616.

use auth_text::{Bytes, NoMemory};
use challenge_tokens::{Challenge, read_field};
use digest_handler::{Passed, TermsRead, terms_of};
use spaces::{Algorithm, Qop};
use std::alloc::Global;
use std::test::Fail;

// Each with its algorithm, whether that was said, qop, whether stale, `userhash` where the user
// name is to be hashed, and realm, nonce and opaque. The first two are those of RFC 2617, section
// 3.5, and RFC 7616, section 3.9.1; then as Apache, squid, WEBrick, Flask and the Digest module for
// nginx send them; then names in another case, a qop that names nothing, and no realm; then user
// names that are hashed and not.
const READ: [(&[u8], &[u8]); 13] = [
    (
        b"Digest realm=\"testrealm@host.com\", qop=\"auth,auth-int\", nonce=\"dcd98b7102dd2f0e8b11d0f600bfb0c093\", opaque=\"5ccc069c403ebaf9f0171e9517f40e41\"",
        b"MD5 unsaid auth fresh|testrealm@host.com|dcd98b7102dd2f0e8b11d0f600bfb0c093|5ccc069c403ebaf9f0171e9517f40e41",
    ),
    (
        b"Digest realm=\"http-auth@example.org\", qop=\"auth, auth-int\", algorithm=SHA-256, nonce=\"7ypf/xlj9XXwfDPEoM4URrv/xwf94BcCAzFZH4GiTo0v\", opaque=\"FQhe/qaU925kfnzjCev0ciny7QMkPqMAFRtzCUYo5tdS\"",
        b"SHA-256 said auth fresh|http-auth@example.org|7ypf/xlj9XXwfDPEoM4URrv/xwf94BcCAzFZH4GiTo0v|FQhe/qaU925kfnzjCev0ciny7QMkPqMAFRtzCUYo5tdS",
    ),
    (
        b"Digest realm=\"Digest, odd = realm, qop=auth\", nonce=\"yyGSeIRhBgA=77c0\", algorithm=MD5, domain=\"/digestodd/\", qop=\"auth\"",
        b"MD5 said auth fresh|Digest, odd = realm, qop=auth|yyGSeIRhBgA=77c0",
    ),
    (
        b"Digest realm=\"Squid Digest\", nonce=\"b1bfc942\", qop=\"auth\", stale=false",
        b"MD5 unsaid auth fresh|Squid Digest|b1bfc942",
    ),
    (
        b"Digest realm=\"Webrick Digest\", nonce=\"MDAxNzk2\", opaque=\"4yFJ7eDDzyvbsYEI\", stale=true, algorithm=MD5, qop=\"auth\"",
        b"MD5 said auth stale|Webrick Digest|MDAxNzk2|4yFJ7eDDzyvbsYEI",
    ),
    (
        b"Digest realm=\"Flask Digest\",nonce=\"8a424f23\",opaque=\"ac1039e5\"",
        b"MD5 unsaid missing fresh|Flask Digest|8a424f23|ac1039e5",
    ),
    (
        b"Digest algorithm=\"md5\", qop=AUTH, realm=\"testing\", nonce=\"5c2f1a9d\", stale=\"TRUE\"",
        b"MD5 said auth stale|testing|5c2f1a9d",
    ),
    (
        b"Digest NONCE=\"\", algorithm=\"sha-256\", qop=\"auth-int\t,Auth\", opaque=\"\"",
        b"SHA-256 said auth fresh|||",
    ),
    (
        b"Digest realm=r, nonce=n, qop=\" , \", stale=yes",
        b"MD5 unsaid missing fresh|r|n",
    ),
    (
        b"Digest realm=r, nonce=n, algorithm=SHA-256, qop=auth, userhash=true",
        b"SHA-256 said auth fresh userhash|r|n",
    ),
    (
        b"Digest USERHASH=\"True\", realm=r, nonce=n, stale=true",
        b"MD5 unsaid missing stale userhash|r|n",
    ),
    (
        b"Digest realm=r, nonce=n, userhash=false",
        b"MD5 unsaid missing fresh|r|n",
    ),
    (
        b"Digest realm=r, nonce=n, userhash=truest, userhash=true",
        b"MD5 unsaid missing fresh|r|n",
    ),
];

// The first cause decides. The example with SHA-512-256 is that of RFC 7616, section 3.9.2; IIS and
// WEBrick name MD5-sess.
const PASSED: [(&[u8], Passed); 7] = [
    (
        b"Digest realm=r, algorithm=FOO, qop=\"auth-int\"",
        Passed::NoNonce,
    ),
    (b"Digest", Passed::NoNonce),
    (
        b"Digest realm=\"api@example.org\", qop=\"auth\", algorithm=SHA-512-256, nonce=\"5TsQ\", opaque=\"HRPC\", charset=UTF-8, userhash=true",
        Passed::Algorithm,
    ),
    (
        b"Digest qop=\"auth\",algorithm=MD5-sess,nonce=\"+Upgraded+v1a2\",charset=utf-8,realm=\"Digest\"",
        Passed::Algorithm,
    ),
    (
        b"Digest nonce=n, algorithm=\"\", qop=\"auth-int\"",
        Passed::Algorithm,
    ),
    (
        b"Digest realm=\"d\", nonce=\"dcd9\", qop=\"auth-int\"",
        Passed::OnlyAuthInt,
    ),
    (b"Digest nonce=n, qop=\"auth x, int\"", Passed::OnlyAuthInt),
];

fn read_digest(alloc: Global, challenge: &Challenge) -> Result<Result<TermsRead, Passed>, Fail> {
    if challenge.scheme.as_slice() == b"digest".as_slice() {
        Ok(terms_of(alloc, challenge))
    } else {
        Err("another scheme".into())
    }
}

/// What the first challenge of a field is read as.
fn read_first(alloc: Global, field: &[u8]) -> Result<Result<TermsRead, Passed>, Fail> {
    let read = read_field(alloc, field).map_err(|_| "memory")?;
    match read.challenges.get(0) {
        Some(challenge) => read_digest(alloc, challenge),
        None => Err("no challenge".into()),
    }
}

fn algorithm_word(algorithm: Algorithm) -> &'static [u8] {
    match algorithm {
        Algorithm::Md5 => b"MD5",
        Algorithm::Sha256 => b"SHA-256",
    }
}

fn qop_word(qop: Qop) -> &'static [u8] {
    match qop {
        Qop::Auth => b" auth",
        Qop::Missing => b" missing",
    }
}

fn choice(test: bool, yes: &'static [u8], no: &'static [u8]) -> &'static [u8] {
    if test { yes } else { no }
}

fn push_part(text: &mut Bytes, part: &[u8]) -> Result<(), NoMemory> {
    text.extend_from_slice(b"|")?;
    text.extend_from_slice(part)
}

fn shown(alloc: Global, read: &TermsRead) -> Result<Bytes, NoMemory> {
    let terms = &read.terms;
    let mut text = Bytes::from_slice(alloc, algorithm_word(terms.algorithm))?;
    text.extend_from_slice(choice(terms.said, b" said", b" unsaid"))?;
    text.extend_from_slice(qop_word(terms.qop))?;
    text.extend_from_slice(choice(read.stale, b" stale", b" fresh"))?;
    text.extend_from_slice(choice(terms.userhash, b" userhash", b""))?;
    push_part(&mut text, terms.realm.as_slice())?;
    push_part(&mut text, terms.nonce.as_slice())?;
    if let Some(opaque) = &terms.opaque {
        push_part(&mut text, opaque.as_slice())?;
    }
    Ok(text)
}

/// The terms of a field's first challenge, written out.
fn read_shown(alloc: Global, field: &[u8]) -> Result<Bytes, Fail> {
    match read_first(alloc, field)? {
        Ok(read) => Ok(shown(alloc, &read).map_err(|_| "memory")?),
        Err(_) => Err("passed over".into()),
    }
}

fn cause(alloc: Global, field: &[u8]) -> Result<Passed, Fail> {
    match read_first(alloc, field)? {
        Ok(_) => Err("not passed over".into()),
        Err(passed) => Ok(passed),
    }
}

#[test]
fn challenges_have_terms(rt: HostRuntime) -> Result<(), Fail> {
    for (field, wanted) in &READ {
        let text = read_shown(rt.alloc(), field)?;
        assert_eq!(rt; text.as_slice(), *wanted);
    }
    Ok(())
}

#[test]
fn challenges_are_passed_over(rt: HostRuntime) -> Result<(), Fail> {
    for (field, wanted) in &PASSED {
        let passed = cause(rt.alloc(), field)?;
        assert_eq!(rt; passed, *wanted);
    }
    Ok(())
}
