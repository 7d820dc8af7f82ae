//! The nonce that a reply gives for the next request (RFC 7615; RFC 7616 section 3.5).

ghost use Rattle.std.specs.Prelude.{◌≡◌, drop, IfOk};
ghost use Rattle.trace_rule.specs.NextNonces as rule;

use auth_text::{Bytes, NoMemory};
use challenge_tokens::{Body, Challenge, read_info};
use std::alloc::Global;

/// The next nonce of one value. Its parameters are looked up as those of a challenge.
#[tactic(auto, unfolding(trace_rule::specs::NextNonces::next_in))]
fn next_in(alloc: Global, value: &[u8]) -> Result<Option<Bytes>, NoMemory>
    ensures { IfOk result (λ nonce. nonce ≡ rule.next_in value.now) }
{
    let info = Challenge {
        scheme: Bytes::new(alloc),
        body: Body::Params(read_info(alloc, value)?),
    };
    match info.param(b"nextnonce") {
        None => Ok(None),
        Some(nonce) => Ok(Some(Bytes::from_slice(alloc, nonce)?)),
    }
}

/// The next nonce of the first info value that has one.
pub fn next_nonce(alloc: Global, values: &[Bytes]) -> Result<Option<Bytes>, NoMemory>
    ensures { IfOk result (λ nonce. nonce ≡ rule.first_next values.now) }
{
    for value in values {
        if let Some(nonce) = next_in(alloc, value.as_slice())? {
            return Ok(Some(nonce));
        }
    }
    Ok(None)
}
