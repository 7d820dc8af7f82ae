//! The token that a reply brings to a context (RFC 4559 section 4.1).

ghost use Rattle.std.specs.Prelude.{◌≡◌, drop, IfOk};
ghost use Rattle.challenge_offers.specs.Tokens.{token_among, token_offered};

use crate::offer::has_scheme;
use auth_text::{Bytes, NoMemory};
use challenge_tokens::{Challenge, read_field};
use negotiate_handler::peer_token;
use std::alloc::Global;
use wire_head::Reply;

/// What the first `negotiate` challenge among these brings.
fn token_among(alloc: Global, challenges: &[Challenge]) -> Result<Option<Option<Bytes>>, NoMemory>
    ensures { IfOk result (λ token. token ≡ token_among challenges.now) }
{
    for challenge in challenges {
        if has_scheme(challenge, b"negotiate") {
            return Ok(Some(peer_token(alloc, challenge)?));
        }
    }
    Ok(None)
}

/// What the first `negotiate` challenge of a reply brings to a context, whatever its body: the
/// peer's token, or none, by which the peer rejects. Nothing where the reply has no such challenge.
pub fn token_offered(alloc: Global, reply: &Reply) -> Result<Option<Option<Bytes>>, NoMemory>
    ensures { IfOk result (λ token. token ≡ token_offered reply.now) }
{
    for field in reply.fields.as_slice() {
        let read = read_field(alloc, field.as_slice())?;
        if let Some(token) = token_among(alloc, read.challenges.as_slice())? {
            return Ok(Some(token));
        }
    }
    Ok(None)
}
