//! Fields as servers send them, the rule's edges, and what each reads as. What a row expects was
//! read from its field by hand, by RFC 7235 section 2.1.

use auth_text::{Bytes, NoMemory};
use challenge_tokens::{Body, Challenge, FieldRead, Params, read_field, read_info};
use std::alloc::Global;
use std::test::Fail;

/// A field, its challenges as `scheme`, `scheme:TOKEN68` or `scheme(NAME=VALUE|..)` with `; `
/// between them, and the place of its first bad piece.
const FIELDS: [(&[u8], &[u8], Option<usize>); 31] = [
    // As Apache, nginx, lighttpd, squid and IIS write them.
    (
        b"Digest realm=\"Private Area\", nonce=\"KxF2bq4TBQA=fb0a7c\", algorithm=MD5, domain=\"/a /b\", qop=\"auth\"",
        b"digest(realm=Private Area|nonce=KxF2bq4TBQA=fb0a7c|algorithm=MD5|domain=/a /b|qop=auth)",
        None,
    ),
    (
        b"Basic realm=\"closed site\"",
        b"basic(realm=closed site)",
        None,
    ),
    (
        b"Digest realm=\"down, load\", charset=\"UTF-8\", nonce=\"5f2d:9a\", qop=\"auth\", algorithm=SHA-256, stale=true",
        b"digest(realm=down, load|charset=UTF-8|nonce=5f2d:9a|qop=auth|algorithm=SHA-256|stale=true)",
        None,
    ),
    (
        b"Negotiate, NTLM, Basic realm=\"Squid proxy-caching web server\"",
        b"negotiate; ntlm; basic(realm=Squid proxy-caching web server)",
        None,
    ),
    (
        b"Negotiate, NTLM, Digest qop=\"auth\",algorithm=MD5-sess,nonce=\"+Upgraded+v1a2\",charset=utf-8,realm=\"Digest\"",
        b"negotiate; ntlm; digest(qop=auth|algorithm=MD5-sess|nonce=+Upgraded+v1a2|charset=utf-8|realm=Digest)",
        None,
    ),
    (
        b"Basic realm=\"one\", BASIC REALM=two",
        b"basic(realm=one); basic(realm=two)",
        None,
    ),
    // Commas and escapes in quoted strings, doubled names, empty values.
    (
        b"Negotiate, Basic realm=\"a, b\", Digest nonce=x",
        b"negotiate; basic(realm=a, b); digest(nonce=x)",
        None,
    ),
    (
        b"Basic realm=\"a\\\"b\", realm=c",
        b"basic(realm=a\"b)",
        None,
    ),
    (
        b"Basic x=1, Realm=\"\", REALM=c",
        b"basic(x=1|realm=)",
        None,
    ),
    (
        b"Basic realm=\"\\a\\\\\xe9\"",
        b"basic(realm=a\\\xe9)",
        None,
    ),
    // Token68s.
    (b"Negotiate YIIB==", b"negotiate:YIIB==", None),
    (b"Negotiate  a+/9-._~=", b"negotiate:a+/9-._~=", None),
    (b"Basic realm", b"basic:realm", None),
    (b"Basic realm= , x", b"basic:realm=; x", None),
    // Empty pieces, blanks, a scheme alone that gets its parameters later.
    (b"", b"", None),
    (b" ,\t, ", b"", None),
    (b"Basic, realm=\"x\"", b"basic(realm=x)", None),
    (
        b"Basic   realm\t=\t\"x\"\t, Digest",
        b"basic(realm=x); digest",
        None,
    ),
    // Bad pieces.
    (
        b"Digest nonce=n, Basic realm=\"x",
        b"digest(nonce=n)",
        Some(16),
    ),
    (b",, ,Negotiate YIIB==,foo=1", b"negotiate:YIIB==", Some(21)),
    (b"realm=x", b"", Some(0)),
    (b"  realm = \"x\" , Basic", b"", Some(2)),
    (b"Basic realm==x", b"", Some(0)),
    (b"Basic\trealm=x", b"", Some(0)),
    (b"a\"b, c\"d, Basic", b"", Some(0)),
    (b"Basic, x=a\"b, c\"d, Basic", b"basic", Some(7)),
    (b"Basic realm=\"x\" y", b"", Some(0)),
    (b"Basic realm=\"x\\", b"", Some(0)),
    (b"Basic realm=\"x\\\"", b"", Some(0)),
    (
        b"NTLM TlRMTVNTUAACAAAA, Basic realm=\xe9",
        b"ntlm:TlRMTVNTUAACAAAA",
        Some(23),
    ),
    // More parameters than are looked through one by one, with names doubled on both sides of that.
    (
        b"X a=1, b=2, c=3, d=4, e=5, f=6, g=7, h=8, A=0, i=9, j=10, k=11, l=12, m=13, n=14, o=15, p=16, q=17, C=0, r=18, Q=0, R=0, s=19",
        b"x(a=1|b=2|c=3|d=4|e=5|f=6|g=7|h=8|i=9|j=10|k=11|l=12|m=13|n=14|o=15|p=16|q=17|r=18|s=19)",
        None,
    ),
];

/// The value of an `Authentication-Info` field, and its parameters.
const INFOS: [(&[u8], &[u8]); 12] = [
    (b"nextnonce=\"n\", , qop=auth", b"nextnonce=n|qop=auth"),
    (b"Digest x=1, nextnonce=n", b""),
    // As Apache writes it.
    (
        b"rspauth=\"6629fae49393a05397450978507c4ef1\", cnonce=\"0a4f113b\", nc=00000001, qop=auth",
        b"rspauth=6629fae49393a05397450978507c4ef1|cnonce=0a4f113b|nc=00000001|qop=auth",
    ),
    (b"", b""),
    (b" ,\t, ", b""),
    (b"nextnonce=\"\"", b"nextnonce="),
    (b"\t nextnonce\t=  \"a, \\\"b\" ,", b"nextnonce=a, \"b"),
    (b"nc=1, NC=2, Nextnonce=n", b"nc=1|nextnonce=n"),
    // A bad piece, a scheme, a token68 behind its scheme, and a quoted string that isn't closed.
    (b"nextnonce=n, a b c, qop=auth", b"nextnonce=n"),
    (b"nextnonce=n, qop, nc=1", b"nextnonce=n"),
    (b"nextnonce=n, qop auth, nc=1", b"nextnonce=n"),
    (b"qop=auth, nextnonce=\"n", b"qop=auth"),
];

fn push_params(text: &mut Bytes, params: &Params) -> Result<(), NoMemory> {
    for at in 0..params.len() {
        if at > 0 {
            text.push(b'|')?;
        }
        if let Some(param) = params.get(at) {
            text.extend_from_slice(param.name.as_slice())?;
            text.push(b'=')?;
            text.extend_from_slice(param.value.as_slice())?;
        }
    }
    Ok(())
}

fn push_challenge(text: &mut Bytes, challenge: &Challenge) -> Result<(), NoMemory> {
    text.extend_from_slice(challenge.scheme.as_slice())?;
    match &challenge.body {
        Body::Bare => Ok(()),
        Body::Token68(token) => {
            text.push(b':')?;
            text.extend_from_slice(token.as_slice())
        }
        Body::Params(params) => {
            text.push(b'(')?;
            push_params(text, params)?;
            text.push(b')')?;
            Ok(())
        }
    }
}

fn challenges_text(alloc: Global, read: &FieldRead) -> Result<Bytes, NoMemory> {
    let mut text = Bytes::new(alloc);
    for challenge in read.challenges.as_slice() {
        if !text.is_empty() {
            text.extend_from_slice(b"; ")?;
        }
        push_challenge(&mut text, challenge)?;
    }
    Ok(text)
}

fn params_text(alloc: Global, params: &Params) -> Result<Bytes, NoMemory> {
    let mut text = Bytes::new(alloc);
    push_params(&mut text, params)?;
    Ok(text)
}

#[test]
fn reads_fields(rt: HostRuntime) -> Result<(), Fail> {
    for (field, challenges, bad_at) in FIELDS {
        let read = read_field(rt.alloc(), field).map_err(|_| "memory")?;
        let text = challenges_text(rt.alloc(), &read).map_err(|_| "memory")?;
        assert_eq!(rt; text.as_slice(), challenges);
        assert_eq!(rt; read.bad_at, bad_at);
    }
    Ok(())
}

#[test]
fn reads_infos(rt: HostRuntime) -> Result<(), Fail> {
    for (value, wanted) in INFOS {
        let params = read_info(rt.alloc(), value).map_err(|_| "memory")?;
        let text = params_text(rt.alloc(), &params).map_err(|_| "memory")?;
        assert_eq!(rt; text.as_slice(), wanted);
    }
    Ok(())
}
