//! Challenges of the RFCs, and what answers them.

use crate::{Asking, authorization, schemes};
use auth_text::{Bytes, Identity, NoMemory};
use spaces::Method;
use std::alloc::Global;
use std::process::Abort;
use std::test::Fail;
use wire_head::{Fields, Reply};

/// RFC 7235 section 4.1.
const TWO: &[u8] =
    b"Newauth realm=\"apps\", type=1, title=\"Login to \\\"apps\\\"\", Basic realm=\"simple\"";

/// RFC 7616 section 3.9.1.
const SHA_256: &[u8] =
    b"Digest realm=\"http-auth@example.org\", qop=\"auth, auth-int\", algorithm=SHA-256, nonce=\"7ypf/xlj9XXwfDPEoM4URrv/xwf94BcCAzFZH4GiTo0v\", opaque=\"FQhe/qaU925kfnzjCev0ciny7QMkPqMAFRtzCUYo5tdS\"";

const SHA_256_ANSWER: &[u8] =
    b"Digest username=\"Mufasa\", realm=\"http-auth@example.org\", nonce=\"7ypf/xlj9XXwfDPEoM4URrv/xwf94BcCAzFZH4GiTo0v\", uri=\"/dir/index.html\", algorithm=SHA-256, response=\"753927fa0e85d155564e2e272a28d1802ca10daf4496794697cf8db5856cb6c1\", opaque=\"FQhe/qaU925kfnzjCev0ciny7QMkPqMAFRtzCUYo5tdS\", qop=auth, nc=00000001, cnonce=\"f2/wE4q74E6zIJEtWaHKaf5wv/H5QzzpXusqGemxURZJ\"";

const ASKING: Asking<'static> = Asking {
    method: Method::Get,
    uri: b"/dir/index.html",
    count: 1,
    cnonce: b"f2/wE4q74E6zIJEtWaHKaf5wv/H5QzzpXusqGemxURZJ",
};

#[test]
fn the_schemes_of_a_field_are_read(rt: HostRuntime) -> Result<(), Fail> {
    let found = schemes(rt.alloc(), TWO).map_err(|_| "memory")?;
    let found = found.as_slice();
    assert!(rt; found.len() == 2);
    assert!(rt; found[0].as_slice() == b"newauth".as_slice());
    assert!(rt; found[1].as_slice() == b"basic".as_slice());
    Ok(())
}

fn fields(alloc: Global, values: &[&[u8]]) -> Result<Fields, NoMemory> {
    let mut fields = Fields::new(alloc);
    for value in values {
        fields.push(Bytes::from_slice(alloc, value)?)?;
    }
    Ok(fields)
}

/// A 401 with these challenges.
fn challenged(alloc: Global, values: &[&[u8]]) -> Result<Reply, NoMemory> {
    Ok(Reply {
        code: 401,
        stays: true,
        body: 0,
        fields: fields(alloc, values)?,
        server_info: Fields::new(alloc),
        proxy_info: Fields::new(alloc),
    })
}

fn identity(alloc: Global, user: &[u8], password: &[u8]) -> Result<Identity, NoMemory> {
    match Identity::new(alloc, user, password) {
        Ok(identity) => Ok(identity),
        Err(_) => Err(NoMemory),
    }
}

/// Sees that the challenges are answered by the text.
fn is_answered(
    rt: &impl Abort,
    alloc: Global,
    values: &[&[u8]],
    identity: &Identity,
    text: &[u8],
) -> Result<(), NoMemory> {
    let reply = challenged(alloc, values)?;
    let found = authorization(alloc, &reply, identity, &ASKING)?;
    assert!(rt; matches!(&found, Some(found) if found.as_slice() == text));
    Ok(())
}

/// Basic alone by RFC 7617 section 2, and Digest before Basic by RFC 7616 section 3.9.1.
fn are_answered(rt: &impl Abort, alloc: Global) -> Result<(), NoMemory> {
    let aladdin = identity(alloc, b"Aladdin", b"open sesame")?;
    let basic: &[u8] = b"Basic QWxhZGRpbjpvcGVuIHNlc2FtZQ==";
    is_answered(rt, alloc, &[TWO], &aladdin, basic)?;
    let mufasa = identity(alloc, b"Mufasa", b"Circle of Life")?;
    is_answered(rt, alloc, &[TWO, SHA_256], &mufasa, SHA_256_ANSWER)?;
    Ok(())
}

/// Tokens of Negotiate are no credentials.
fn is_passed_over(rt: &impl Abort, alloc: Global) -> Result<(), NoMemory> {
    let reply = challenged(alloc, &[b"Negotiate"])?;
    let aladdin = identity(alloc, b"Aladdin", b"open sesame")?;
    let found = authorization(alloc, &reply, &aladdin, &ASKING)?;
    assert!(rt; found.is_none());
    Ok(())
}

#[test]
fn the_best_challenge_is_answered(rt: HostRuntime) -> Result<(), Fail> {
    are_answered(&rt, rt.alloc())?;
    is_passed_over(&rt, rt.alloc())?;
    Ok(())
}
