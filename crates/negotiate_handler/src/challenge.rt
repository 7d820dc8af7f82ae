//! The token that a `negotiate` challenge brings (RFC 4559 section 4.1).

ghost use Rattle.std.specs.Prelude.{◌≡◌, IfOk};
ghost use Rattle.negotiate_handler.specs.Tokens.{token_in};

use auth_text::{Bytes, NoMemory};
use base64::DecodeAllocError;
use base64::engine::general_purpose::STANDARD;
use challenge_tokens::{Body, Challenge};
use std::alloc::Global;

/// The decoded token68 of a challenge; none where it has no token68, and where that isn't base64
/// in the standard alphabet with padding (RFC 4648 section 4).
pub fn peer_token(alloc: Global, challenge: &Challenge) -> Result<Option<Bytes>, NoMemory>
    ensures { IfOk result (λ token. token ≡ token_in challenge.now.body) }
{
    let Body::Token68(text) = &challenge.body else {
        return Ok(None);
    };
    match STANDARD.decode(alloc, text.as_slice()) {
        Ok(token) => Ok(Some(Bytes::from_slice(alloc, token.as_slice())?)),
        Err(DecodeAllocError::OutOfMemory) => Err(NoMemory),
        Err(_) => Ok(None),
    }
}

#[cfg(test)]
mod tests {
    use super::*;
    use challenge_tokens::read_field;
    use std::test::Fail;

    // The base64 of `r1` is that of RFC 4648.
    #[test]
    fn decodes_the_token_of_a_challenge(rt: HostRuntime) -> Result<(), Fail> {
        let read = read_field(rt.alloc(), b"Negotiate cjE=").map_err(|_| "memory")?;
        let challenge = read.challenges.get(0).ok_or("no challenge")?;
        let token = peer_token(rt.alloc(), challenge).map_err(|_| "memory")?;
        assert!(rt; token.is_some_and(|it| it.as_slice() == b"r1".as_slice()));
        Ok(())
    }
}
