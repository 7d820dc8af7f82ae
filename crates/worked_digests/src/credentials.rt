//! Credentials, hashes and client nonces. What no standard lists was computed by another
//! implementation of the hashes.

use auth_text::{Bytes, Identity, NoMemory};
use digest_handler::{AuthHash, Md5Hash, Sha256Hash, cnonce, respond};
use spaces::{Algorithm, Method, Qop, Target, Terms};
use std::alloc::Global;
use std::test::Fail;

/// A request that is answered, and its credentials.
struct Row {
    algorithm: Algorithm,
    said: bool,
    qop: Qop,
    userhash: bool,
    // realm, nonce and opaque
    texts: [&'static [u8]; 3],
    // user and password
    login: [&'static [u8]; 2],
    method: Method,
    uri: &'static [u8],
    count: u32,
    cnonce: &'static [u8],
    written: &'static [u8],
}

/// The terms of RFC 2617, section 3.5.
const OLD: [&[u8]; 3] = [
    b"testrealm@host.com",
    b"dcd98b7102dd2f0e8b11d0f600bfb0c093",
    b"5ccc069c403ebaf9f0171e9517f40e41",
];

/// The terms of RFC 7616, section 3.9.1.
const NEW: [&[u8]; 3] = [
    b"http-auth@example.org",
    b"7ypf/xlj9XXwfDPEoM4URrv/xwf94BcCAzFZH4GiTo0v",
    b"FQhe/qaU925kfnzjCev0ciny7QMkPqMAFRtzCUYo5tdS",
];

// RFC 2617's example, and the same without qop; RFC 7616's with SHA-256, with the user name as it
// is and hashed; a user name that is hashed with MD5; and texts that are escaped where they are
// sent and hashed as they are, with a count above nine.
const ROWS: [Row; 6] = [
    Row {
        algorithm: Algorithm::Md5,
        said: false,
        qop: Qop::Auth,
        userhash: false,
        texts: OLD,
        login: [b"Mufasa", b"Circle Of Life"],
        method: Method::Get,
        uri: b"/dir/index.html",
        count: 1,
        cnonce: b"0a4f113b",
        written: b"Digest username=\"Mufasa\", realm=\"testrealm@host.com\", nonce=\"dcd98b7102dd2f0e8b11d0f600bfb0c093\", uri=\"/dir/index.html\", response=\"6629fae49393a05397450978507c4ef1\", opaque=\"5ccc069c403ebaf9f0171e9517f40e41\", qop=auth, nc=00000001, cnonce=\"0a4f113b\"",
    },
    Row {
        algorithm: Algorithm::Md5,
        said: false,
        qop: Qop::Missing,
        userhash: false,
        texts: OLD,
        login: [b"Mufasa", b"Circle Of Life"],
        method: Method::Get,
        uri: b"/dir/index.html",
        count: 7,
        cnonce: b"x",
        written: b"Digest username=\"Mufasa\", realm=\"testrealm@host.com\", nonce=\"dcd98b7102dd2f0e8b11d0f600bfb0c093\", uri=\"/dir/index.html\", response=\"670fd8c2df070c60b045671b8b24ff02\", opaque=\"5ccc069c403ebaf9f0171e9517f40e41\"",
    },
    Row {
        algorithm: Algorithm::Sha256,
        said: true,
        qop: Qop::Auth,
        userhash: false,
        texts: NEW,
        login: [b"Mufasa", b"Circle of Life"],
        method: Method::Get,
        uri: b"/dir/index.html",
        count: 1,
        cnonce: b"f2/wE4q74E6zIJEtWaHKaf5wv/H5QzzpXusqGemxURZJ",
        written: b"Digest username=\"Mufasa\", realm=\"http-auth@example.org\", nonce=\"7ypf/xlj9XXwfDPEoM4URrv/xwf94BcCAzFZH4GiTo0v\", uri=\"/dir/index.html\", algorithm=SHA-256, response=\"753927fa0e85d155564e2e272a28d1802ca10daf4496794697cf8db5856cb6c1\", opaque=\"FQhe/qaU925kfnzjCev0ciny7QMkPqMAFRtzCUYo5tdS\", qop=auth, nc=00000001, cnonce=\"f2/wE4q74E6zIJEtWaHKaf5wv/H5QzzpXusqGemxURZJ\"",
    },
    Row {
        algorithm: Algorithm::Sha256,
        said: true,
        qop: Qop::Auth,
        userhash: true,
        texts: NEW,
        login: [b"Mufasa", b"Circle of Life"],
        method: Method::Get,
        uri: b"/dir/index.html",
        count: 1,
        cnonce: b"f2/wE4q74E6zIJEtWaHKaf5wv/H5QzzpXusqGemxURZJ",
        written: b"Digest username=\"a947aad205e80e429958a387394944c6b496301e79f89d35a4cc23b6ee12b5b6\", realm=\"http-auth@example.org\", nonce=\"7ypf/xlj9XXwfDPEoM4URrv/xwf94BcCAzFZH4GiTo0v\", uri=\"/dir/index.html\", algorithm=SHA-256, response=\"753927fa0e85d155564e2e272a28d1802ca10daf4496794697cf8db5856cb6c1\", opaque=\"FQhe/qaU925kfnzjCev0ciny7QMkPqMAFRtzCUYo5tdS\", qop=auth, nc=00000001, cnonce=\"f2/wE4q74E6zIJEtWaHKaf5wv/H5QzzpXusqGemxURZJ\", userhash=true",
    },
    Row {
        algorithm: Algorithm::Md5,
        said: false,
        qop: Qop::Missing,
        userhash: true,
        texts: OLD,
        login: [b"Mufasa", b"Circle Of Life"],
        method: Method::Get,
        uri: b"/dir/index.html",
        count: 1,
        cnonce: b"x",
        written: b"Digest username=\"74f54fe2c8045a5ffda7d02fd97f1716\", realm=\"testrealm@host.com\", nonce=\"dcd98b7102dd2f0e8b11d0f600bfb0c093\", uri=\"/dir/index.html\", response=\"670fd8c2df070c60b045671b8b24ff02\", opaque=\"5ccc069c403ebaf9f0171e9517f40e41\", userhash=true",
    },
    Row {
        algorithm: Algorithm::Sha256,
        said: true,
        qop: Qop::Auth,
        userhash: false,
        texts: [b"re\"al\\m", b"n\"1", b"o"],
        login: [b"a\"b", b"p:w"],
        method: Method::Head,
        uri: b"/x?a\\b",
        count: 26,
        cnonce: b"c",
        written: b"Digest username=\"a\\\"b\", realm=\"re\\\"al\\\\m\", nonce=\"n\\\"1\", uri=\"/x?a\\\\b\", algorithm=SHA-256, response=\"86ac0b5ce67c3264faffa3ab65fde18d964060f3401d999a0cfd36fdac78862f\", opaque=\"o\", qop=auth, nc=0000001a, cnonce=\"c\"",
    },
];

fn terms_of_row(alloc: Global, row: &Row) -> Result<Terms, NoMemory> {
    Ok(Terms {
        algorithm: row.algorithm,
        said: row.said,
        realm: Bytes::from_slice(alloc, row.texts[0])?,
        nonce: Bytes::from_slice(alloc, row.texts[1])?,
        opaque: Some(Bytes::from_slice(alloc, row.texts[2])?),
        qop: row.qop,
        userhash: row.userhash,
    })
}

fn written(alloc: Global, row: &Row) -> Result<Bytes, Fail> {
    let login = Identity::new(alloc, row.login[0], row.login[1])?;
    let terms = terms_of_row(alloc, row).map_err(|_| "memory")?;
    let text = respond(
        alloc, &terms, &login, row.method, row.uri, row.count, row.cnonce,
    );
    Ok(text.map_err(|_| "memory")?)
}

#[test]
fn requests_have_credentials(rt: HostRuntime) -> Result<(), Fail> {
    for row in &ROWS {
        let text = written(rt.alloc(), row)?;
        assert_eq!(rt; text.as_slice(), row.written);
    }
    Ok(())
}

fn abc<H: AuthHash>(alloc: Global) -> Result<Bytes, NoMemory> {
    H::hex_of(alloc, b"abc")
}

/// The digests of `abc` (RFC 1321, section A.5; FIPS 180-2, section B.1).
#[test]
fn hashes(rt: HostRuntime) -> Result<(), Fail> {
    let text = abc::<Md5Hash>(rt.alloc()).map_err(|_| "memory")?;
    assert_eq!(rt;
        text.as_slice(),
        b"900150983cd24fb0d6963f7d28e17f72".as_slice()
    );
    let text = abc::<Sha256Hash>(rt.alloc()).map_err(|_| "memory")?;
    assert_eq!(rt;
        text.as_slice(),
        b"ba7816bf8f01cfea414140de5dae2223b00361a396177a9cb410ff61f20015ad".as_slice()
    );
    Ok(())
}

const ZEROS: [u8; 32] = [0; 32];

const RISING: [u8; 32] = [
    0, 1, 2, 3, 4, 5, 6, 7, 8, 9, 10, 11, 12, 13, 14, 15, 16, 17, 18, 19, 20, 21, 22, 23, 24, 25,
    26, 27, 28, 29, 30, 31,
];

// Each seed with the numbers of the request and the head, the target, and the client's nonce.
const NONCES: [(&[u8; 32], u32, u32, Target, &[u8; 32]); 3] = [
    (
        &ZEROS,
        1,
        2,
        Target::Proxy,
        b"fca646671cd3578bbfa5bec084d99cb4",
    ),
    (
        &ZEROS,
        1,
        2,
        Target::Socks,
        b"777cd069eaaaa6c1c998e57d6a4391de",
    ),
    (
        &RISING,
        258,
        3,
        Target::Server,
        b"06902902f4031d65aa5bcb582e05b684",
    ),
];

#[test]
fn client_nonces(rt: HostRuntime) {
    for (seed, request, head, target, nonce) in &NONCES {
        let found = cnonce(seed, *request, *head, *target);
        assert_eq!(rt; found.as_slice(), nonce.as_slice());
    }
}
