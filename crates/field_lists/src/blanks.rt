//! The white space that may stand round what a list holds: SP and HTAB.

ghost use Rattle.std.specs.Prelude.{◌≡◌, ◌≤◌, length};
ghost use Rattle.std.specs.List.{prefix_len};
ghost use Rattle.field_lists.specs.Blanks as spec;

/// SP or HTAB.
pub fn is_blank(b: u8) -> bool
    ensures { result ≡ spec.is_blank b }
{
    b == b' ' || b == b'\t'
}

/// How many blanks stand in front.
pub fn blank_len(bytes: &[u8]) -> usize
    ensures value { result ≡ prefix_len spec.is_blank bytes.now }
    ensures within { result ≤ length bytes.now }
{
    bytes.iter().take_while(|b| is_blank(**b)).count()
}

/// The bytes without the blanks in front.
pub fn trim_start(bytes: &[u8]) -> &[u8]
    ensures { result.now ≡ spec.trim_start bytes.now }
{
    &bytes[blank_len(bytes)..]
}

/// The bytes without the blanks at the end.
pub fn trim_end(bytes: &[u8]) -> &[u8]
    ensures { result.now ≡ spec.trim_end bytes.now }
{
    let mut n = bytes.len();
    while n > 0 && is_blank(bytes[n - 1]) {
        n -= 1;
    }
    &bytes[..n]
}
