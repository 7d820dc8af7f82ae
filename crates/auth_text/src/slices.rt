//! Parts of byte slices as functions of their own: a reader that calls them owes what is left of
//! its text as a list, and no facts on indices.

ghost use Rattle.std.specs.Prelude.{◌≡◌, ◌≤◌, length, take, drop};
ghost use Rattle.std.specs.List.{list_all};
ghost use Rattle.std.specs.Char.{is_ascii_digit};

/// The first `n` bytes.
pub fn front_of(text: &[u8], n: usize) -> &[u8]
    requires { n ≤ length text.now }
    ensures { result.now ≡ take n text.now }
{
    &text[..n]
}

/// What stands behind the first `n` bytes.
pub fn rest_of(text: &[u8], n: usize) -> &[u8]
    requires { n ≤ length text.now }
    ensures { result.now ≡ drop n text.now }
{
    &text[n..]
}

/// Tells whether all bytes are the digits `0` to `9`; so it is of the empty text.
pub fn are_digits(text: &[u8]) -> bool
    ensures { result ≡ list_all is_ascii_digit text.now }
{
    text.iter().all(|b| b.is_ascii_digit())
}

#[cfg(test)]
mod tests {
    use super::*;

    #[test]
    fn cuts_texts_and_knows_digits(rt: HostRuntime) {
        assert_eq!(rt; front_of(b"abc", 2), b"ab".as_slice());
        assert_eq!(rt; rest_of(b"abc", 2), b"c".as_slice());
        assert_eq!(rt; rest_of(b"abc", 3), b"".as_slice());
        assert!(rt; are_digits(b"0129"));
        assert!(rt; are_digits(b""));
        assert!(rt; !are_digits(b"0x"));
    }
}
