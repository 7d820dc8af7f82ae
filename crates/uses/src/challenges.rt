//! Reading a challenge.

ghost use Rattle.std.specs.Prelude.{◌≡◌, IfOk, map};
ghost use Rattle.challenge_tokens.specs.Pieces.{field_read};

use auth_text::{Bytes, Items, NoMemory};
use challenge_tokens::read_field;
use std::alloc::Global;

/// The schemes that a value of `WWW-Authenticate` or `Proxy-Authenticate` offers, in order and in
/// lower case. A bad piece hides no challenge that stands before it.
pub fn schemes(alloc: Global, value: &[u8]) -> Result<Items<Bytes>, NoMemory>
    ensures { IfOk result (λ found. found
        ≡ map (λ challenge. challenge.scheme) (field_read value.now).challenges) }
{
    let read = read_field(alloc, value)?;
    let mut found = Items::new(alloc);
    for challenge in read.challenges.as_slice() {
        let scheme = Bytes::from_slice(alloc, challenge.scheme.as_slice())?;
        found.push(scheme)?;
    }
    Ok(found)
}
