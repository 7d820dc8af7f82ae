//! The two directions of Basic credentials, and the law that ties them: what is written for an
//! identity reads as that identity.

ghost use Rattle.std.specs.Prelude.{◌≡◌, ◌<◌, ◌+◌, Ok, Some, length, drop, IsTrue, IfOk, IfSome};
ghost use Rattle.std.specs.List.{position_from};
ghost use Rattle.base64.specs.Engines.{standard};
ghost use Rattle.base64.specs.GeneralPurpose.{encode_of};
ghost use Rattle.auth_text.specs.Gives.{GivesBy};
ghost use Rattle.auth_text.specs.Login.{is_control, is_login, login_text};
ghost use Rattle.basic_handler.specs.Basic.{basic, read_basic, is_colon, parts_at, scheme_text};

use auth_text::{Bytes, Identity, IdentityFault, NoMemory, front_of, rest_of};
use base64::DecodeAllocError;
use base64::engine::general_purpose::STANDARD;
use std::alloc::Global;
use thiserror::Error;

/// Why a token is no Basic credentials, in the order in which the causes are found.
#[derive(Clone, Copy, Debug, PartialEq, Eq, Error)]
pub enum BasicFault {
    /// The token isn't base64 in the standard alphabet with padding (RFC 4648 section 4).
    #[error("not base64")]
    NotBase64,
    /// The decoded text has no colon.
    #[error("no colon")]
    NoColon,
    /// The decoded text has a control byte, the first at this place, counted from 0.
    #[error("a control byte at {at}")]
    Control { at: usize },
    /// There was no memory.
    #[error("no memory")]
    NoMemory,
}

/// The value of an `Authorization` field for an identity: `Basic `, then the base64 of
/// `user ":" password` (RFC 7617 section 2).
pub fn credentials(alloc: Global, identity: &Identity) -> Result<Bytes, NoMemory>
    ensures { IfOk result (λ bytes. bytes ≡ basic identity.now.user identity.now.password) }
{
    let mut login = Bytes::new(alloc);
    login.extend_from_slice(identity.user())?;
    login.extend_from_slice(b":")?;
    login.extend_from_slice(identity.password())?;
    let token = STANDARD.encode(alloc, login.as_slice())?;
    let mut text = Bytes::new(alloc);
    text.extend_from_slice(b"Basic ")?;
    text.extend_from_slice(token.as_bytes())?;
    Ok(text)
}

/// Reads the token behind `Basic `. The user ends at the first colon of the decoded text, so a
/// password may have colons.
pub fn read_credentials(alloc: Global, token: &[u8]) -> Result<Identity, BasicFault>
    ensures { GivesBy BasicFault.NoMemory (λ it. it) result (read_basic token.now) }
{
    let login = match STANDARD.decode(alloc, token) {
        Ok(login) => login,
        Err(DecodeAllocError::OutOfMemory) => return Err(BasicFault::NoMemory),
        Err(_) => return Err(BasicFault::NotBase64),
    };
    let login = login.as_slice();
    let Some(colon) = colon_place(login) else {
        return Err(BasicFault::NoColon);
    };
    identity_around(alloc, login, colon)
}

fn colon_place(login: &[u8]) -> Option<usize>
    ensures value { result ≡ position_from is_colon 0 login.now }
    ensures within { IfSome result (λ at. at < length login.now) }
{
    login.iter().position(|b| *b == b':')
}

#[tactic(auto, using(crate::proofs::BasicLemmas::around))]
fn identity_around(alloc: Global, login: &[u8], colon: usize) -> Result<Identity, BasicFault>
    requires is_first { position_from is_colon 0 login.now ≡ Some colon }
    requires within { colon < length login.now }
    ensures { GivesBy BasicFault.NoMemory
        (λ it. it) result (parts_at login.now colon (position_from is_control 0 login.now)) }
{
    match Identity::new(alloc, front_of(login, colon), rest_of(login, colon + 1)) {
        Ok(identity) => Ok(identity),
        Err(IdentityFault::Control { at }) => Err(BasicFault::Control { at }),
        Err(_) => Err(BasicFault::NoMemory),
    }
}

/// The law of the two: the token behind `Basic ` of an identity's credentials reads as that
/// identity.
pub fn credentials_read_back(identity: &Identity)
    ensures { let written = basic identity.now.user identity.now.password in
        read_basic (drop (length scheme_text) written) ≡ Ok identity.now }
{
    parts_read_back(identity.user(), identity.password());
}

fn parts_read_back(user: &[u8], password: &[u8])
    requires { IsTrue (is_login user.now password.now) }
    ensures { let token = encode_of standard (login_text user.now password.now) in
        read_basic token ≡ Ok (record { user = user.now; password = password.now }) }
{}

#[cfg(test)]
mod tests {
    use super::*;
    use std::test::Fail;

    // The first two are the examples of RFC 7617 sections 2 and 2.1.
    const WRITTEN: [(&[u8], &[u8], &[u8]); 3] = [
        (
            b"Aladdin",
            b"open sesame",
            b"Basic QWxhZGRpbjpvcGVuIHNlc2FtZQ==",
        ),
        (b"test", b"123\xc2\xa3", b"Basic dGVzdDoxMjPCow=="),
        (b"", b"", b"Basic Og=="),
    ];

    #[test]
    fn writes_and_reads_credentials(rt: HostRuntime) -> Result<(), Fail> {
        for (user, password, text) in WRITTEN {
            let identity = Identity::new(rt.alloc(), user, password)?;
            let written = credentials(rt.alloc(), &identity).map_err(|_| "memory")?;
            assert_eq!(rt; written.as_slice(), text);
            let read = read_credentials(rt.alloc(), &text[6..])?;
            assert!(rt; read == identity);
            credentials_read_back(&identity);
        }
        Ok(())
    }

    #[test]
    fn refuses_other_tokens(rt: HostRuntime) {
        // The base64 of `a:b` is `YTpi`, of `ab` `YWI=`, of `a:\n` `YToK`, of `a\nb` `YQpi`.
        let table: [(&[u8], BasicFault); 7] = [
            (b"YTp", BasicFault::NotBase64),
            (b"YWI", BasicFault::NotBase64),
            (b"YTp-", BasicFault::NotBase64),
            (b"", BasicFault::NoColon),
            (b"YWI=", BasicFault::NoColon),
            (b"YQpi", BasicFault::NoColon),
            (b"YToK", BasicFault::Control { at: 2 }),
        ];
        for (token, fault) in table {
            let read = read_credentials(rt.alloc(), token);
            assert!(rt; matches!(&read, Err(e) if *e == fault));
        }
    }
}
