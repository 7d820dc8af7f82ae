//! What one piece of a list of challenges can be, and the bytes of which its parts are made.

ghost use Rattle.std.specs.Prelude.{◌≡◌, ◌≤◌, ◌==◌, length};
ghost use Rattle.std.specs.List.{prefix_len};
ghost use Rattle.challenge_tokens.specs.Forms as spec;
ghost use Rattle.challenge_tokens.specs.Front.{is_common};

use crate::params::Param;
use auth_text::{Bytes, is_tchar};

/// Where a byte lies: outside quoted strings, in one, or in one behind a backslash. The rule on
/// pieces speaks of it; the reading takes a quoted string as a whole.
#[derive(Clone, Copy)]
pub enum Quoting {
    Outside,
    Inside,
    Escaped,
}

/// What a piece is, with its scheme and names in lower case and its values unescaped.
#[derive(Debug, Drop)]
pub enum Form {
    /// A scheme alone.
    Bare(Bytes),
    /// A scheme and a token68.
    WithToken(Bytes, Bytes),
    /// A scheme and its first parameter.
    WithParam(Bytes, Param),
    /// A parameter alone.
    Parameter(Param),
    /// None of these; the reading stops before it makes one.
    Bad,
}

/// How many SP stand in front.
pub fn space_len(bytes: &[u8]) -> usize
    ensures value { result ≡ prefix_len (λ c. c == 32) bytes.now }
    ensures within { result ≤ length bytes.now }
{
    bytes.iter().take_while(|b| **b == b' ').count()
}

/// How many bytes of a token stand in front.
pub fn token_len(bytes: &[u8]) -> usize
    ensures value { result ≡ spec.token_len bytes.now }
    ensures within { result ≤ length bytes.now }
{
    bytes.iter().take_while(|b| is_tchar(**b)).count()
}

fn is_token68_byte(b: u8) -> bool
    ensures { result ≡ spec.is_token68_byte b }
{
    b.is_ascii_alphanumeric() || b"-._~+/".contains(&b)
}

/// How many bytes of a token68 stand in front, its padding left out.
pub fn token68_len(bytes: &[u8]) -> usize
    ensures value { result ≡ prefix_len spec.is_token68_byte bytes.now }
    ensures within { result ≤ length bytes.now }
{
    bytes.iter().take_while(|b| is_token68_byte(**b)).count()
}

/// How many bytes stand in front that a token and a token68 may hold alike.
pub fn common_len(bytes: &[u8]) -> usize
    ensures value { result ≡ prefix_len is_common bytes.now }
    ensures within { result ≤ length bytes.now }
{
    bytes
        .iter()
        .take_while(|b| is_token68_byte(**b) && is_tchar(**b))
        .count()
}

/// How many `=` stand in front.
pub fn equals_len(bytes: &[u8]) -> usize
    ensures value { result ≡ prefix_len (λ b. b == 61) bytes.now }
    ensures within { result ≤ length bytes.now }
{
    bytes.iter().take_while(|b| **b == b'=').count()
}
