//! The hashes of the Digest scheme, as the hexadecimal text that its formulas speak of.

ghost use Rattle.std.specs.Prelude.{◌≡◌, IfOk, List, ℕ};
ghost use Rattle.md5.specs.Md5.{md5};
ghost use Rattle.sha2.specs.Sha256.{sha256};
ghost use Rattle.hex.specs.Hex.{encode_lower};

use auth_text::{Bytes, NoMemory};
use md5::Md5;
use sha2::Sha256;
use std::alloc::Global;

/// A hash of the Digest scheme.
pub trait AuthHash {
    // The digest of a message.
    ghost digest: { List ℕ → List ℕ };

    /// The digest of the message in lower-case hexadecimal digits.
    fn hex_of(alloc: Global, message: &[u8]) -> Result<Bytes, NoMemory>
        ensures { IfOk result (λ text. text ≡ encode_lower (digest message.now)) };
}

/// MD5 (RFC 1321).
pub struct Md5Hash;

/// SHA-256 (FIPS 180-4).
pub struct Sha256Hash;

/// The bytes in lower-case hexadecimal digits.
pub(crate) fn hex_bytes(alloc: Global, bytes: &[u8]) -> Result<Bytes, NoMemory>
    ensures { IfOk result (λ text. text ≡ encode_lower bytes.now) }
{
    let text = hex::encode(alloc, bytes)?;
    Bytes::from_slice(alloc, text.as_bytes())
}

impl AuthHash for Md5Hash {
    ghost digest = { md5 };

    fn hex_of(alloc: Global, message: &[u8]) -> Result<Bytes, NoMemory> {
        let digest = <Md5 as md5::Digest>::digest(message);
        hex_bytes(alloc, &digest)
    }
}

impl AuthHash for Sha256Hash {
    ghost digest = { sha256 };

    fn hex_of(alloc: Global, message: &[u8]) -> Result<Bytes, NoMemory> {
        let digest = <Sha256 as sha2::Digest>::digest(message);
        hex_bytes(alloc, &digest)
    }
}
