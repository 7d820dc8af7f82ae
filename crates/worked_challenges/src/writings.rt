//! Parameters by name, and challenges written and read back.

ghost use Rattle.std.specs.Prelude.{◌≡◌, IfOk, codes};

use auth_text::{Bytes, NoMemory};
use challenge_tokens::{
    Body, Challenge, Param, Params, read_field, write_challenge, write_token68,
};
use std::alloc::Global;
use std::test::Fail;

fn realm_of(alloc: Global, realm: &[u8]) -> Result<Param, NoMemory>
    ensures { IfOk result (λ p. p.name ≡ codes "realm") }
{
    Ok(Param {
        name: Bytes::from_slice(alloc, b"realm")?,
        value: Bytes::from_slice(alloc, realm)?,
    })
}

#[test]
fn keeps_parameters(rt: HostRuntime) -> Result<(), Fail> {
    let alloc = rt.alloc();
    let mut params = Params::new(alloc);
    assert!(rt; !params.has(b"realm"));
    params.push(realm_of(alloc, b"x").map_err(|_| "memory")?)?;
    assert_eq!(rt; params.len(), 1);
    assert!(rt; params.has(b"realm"));
    assert!(rt; matches!(params.get(0), Some(p) if p.value.as_slice() == b"x".as_slice()));
    assert!(rt; params.get(1).is_none());
    assert!(rt; matches!(params.pop(), Some(p) if p.name.as_slice() == b"realm".as_slice()));
    assert!(rt; params.pop().is_none());
    Ok(())
}

#[test]
fn finds_parameters_in_any_letter_case(rt: HostRuntime) -> Result<(), Fail> {
    let table: [(&[u8], &[u8], Option<&[u8]>); 5] = [
        (b"Digest nonce=n, STALE=true", b"Stale", Some(b"true")),
        (b"Digest nonce=n, STALE=true", b"NONCE", Some(b"n")),
        (b"Digest nonce=n", b"stale", None),
        (b"Digest", b"nonce", None),
        (b"Negotiate nonce=", b"nonce", None),
    ];
    for (field, name, value) in table {
        let read = read_field(rt.alloc(), field).map_err(|_| "memory")?;
        let Some(challenge) = read.challenges.get(0) else {
            return Err("no challenge".into());
        };
        assert!(rt; challenge.param(name) == value);
    }
    Ok(())
}

#[test]
fn writes_challenges(rt: HostRuntime) -> Result<(), Fail> {
    let alloc = rt.alloc();
    let mut params = Params::new(alloc);
    params.push(realm_of(alloc, b"a\"b").map_err(|_| "memory")?)?;
    let challenge = Challenge {
        scheme: Bytes::from_slice(alloc, b"basic").map_err(|_| "memory")?,
        body: Body::Params(params),
    };
    let text = write_challenge(alloc, &challenge).map_err(|_| "memory")?;
    assert_eq!(rt; text.as_slice(), b"basic realm=\"a\\\"b\"".as_slice());
    let read = read_field(alloc, text.as_slice()).map_err(|_| "memory")?;
    assert!(rt; read.challenges.get(0) == Some(&challenge));
    let text = write_token68(alloc, b"Negotiate", b"YIIB==").map_err(|_| "memory")?;
    assert_eq!(rt; text.as_slice(), b"Negotiate YIIB==".as_slice());
    Ok(())
}
