//! Texts cut at a byte: lines at line ends, words at spaces. Each byte is looked at once.

ghost use Rattle.std.specs.Prelude.{◌≡◌, ◌≤◌, ◌+◌, ◌==◌, length, drop};
ghost use Rattle.std.specs.List.{position_or_len};

use auth_text::rest_of;

/// How many bytes stand before the first such byte; all of them, where there is none.
pub fn first_len(bytes: &[u8], byte: u8) -> usize
    ensures value { result ≡ position_or_len (λ b. b == byte) bytes.now }
    ensures within { result ≤ length bytes.now }
{
    for (i, b) in bytes.iter().enumerate() {
        if *b == byte {
            return i;
        }
    }
    bytes.len()
}

/// What stands behind the first n bytes and one more.
pub fn behind(text: &[u8], n: usize) -> &[u8]
    requires { n ≤ length text.now }
    ensures { result.now ≡ drop (n + 1) text.now }
{
    if n == text.len() {
        return rest_of(text, n);
    }
    rest_of(text, n + 1)
}
