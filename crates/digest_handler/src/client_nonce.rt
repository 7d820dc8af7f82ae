//! The client's nonce. It is made of the run's seed and of what it is for, so that no two heads of
//! a run have the same and no caller draws one.

ghost use Rattle.std.specs.Prelude.{◌≡◌};
ghost use Rattle.digest_handler.specs.ClientNonces.{client_nonce, target_byte};

use sha2::{Digest, Sha256};
use spaces::Target;

/// The byte that stands for a target in what is hashed.
fn target_byte(target: Target) -> u8
    ensures { result ≡ target_byte target }
{
    match target {
        Target::Server => 0,
        Target::Proxy => 1,
        Target::Socks => 2,
    }
}

/// The client's nonce of a head of a request: 32 lower-case hexadecimal digits, those of the first
/// 16 bytes of SHA-256 over the seed, the numbers of the request and the head as four bytes each,
/// greatest byte first, and one byte for the target.
pub fn cnonce(seed: &[u8; 32], request: u32, head: u32, target: Target) -> [u8; 32]
    ensures { result ≡ client_nonce seed.now request head target }
{
    let mut hasher = Sha256::new();
    hasher.update(seed.as_slice());
    hasher.update(request.to_be_bytes().as_slice());
    hasher.update(head.to_be_bytes().as_slice());
    hasher.update([target_byte(target)].as_slice());
    let digest = hasher.finalize();
    let mut text = [0u8; 32];
    let _ = hex::encode_to_slice(&digest[..16], &mut text);
    text
}
