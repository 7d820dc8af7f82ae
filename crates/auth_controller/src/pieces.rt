//! A text that comes in pieces: the room that a piece is read into, and the text that grows by it.

ghost use Rattle.std.specs.Prelude.{◌≡◌, ◌≤◌, ◌+◌, ◌++◌, length, vec_len, take, IfOk, OnOk};

use auth_text::{Bytes, NoMemory};
use std::alloc::{AllocError, Global};

/// So many zero bytes. A loop that reads calls this, since the length of a list made beside the
/// loop is unfolded in each of its goals.
pub fn zeros(alloc: Global, len: usize) -> Result<Vec<u8>, AllocError>
    ensures { IfOk result (λ buf. vec_len buf ≡ len) }
{
    vec![in alloc; 0u8; len]
}

/// Adds the first `count` bytes of what was read into to the text.
pub fn add_front(text: &mut Bytes, buf: &[u8], count: usize) -> Result<(), NoMemory>
    requires { count ≤ length buf.now }
    ensures ok { OnOk result (text.new ≡ text.old ++ take count buf.now) }
    ensures len { OnOk result (length text.new ≡ length text.old + count) }
{
    text.extend_from_slice(&buf[..count])
}
