//! Lines of HTTP: where one ends, and where a head ends, which is its first blank line
//! (RFC 7230, section 3.5, lets LF alone end a line).

ghost use Rattle.std.specs.Prelude.{◌≡◌, ◌==◌, ◌<◌, ◌≤◌, length, take, None, IfSome};
ghost use Rattle.std.specs.List.{position_from};
ghost use Rattle.wire_head.specs.Lines as spec;
ghost use Rattle.wire_head.specs.Within.{IsFrontWithin};

use auth_text::rest_of;

/// How a text begins, where a line or the end of one is wanted.
#[derive(Clone, Copy, Debug, PartialEq, Eq)]
pub(crate) enum Front {
    /// With a whole one, of so many bytes.
    Whole(usize),
    /// The byte of this place can't stand there.
    Wrong(usize),
    /// With a part of one, or it is empty.
    Part,
}

/// The place of the first LF.
pub(crate) fn lf_at(text: &[u8]) -> Option<usize>
    ensures value { result ≡ position_from (λ c. c == 10) 0 text.now }
    ensures within { IfSome result (λ at. at < length text.now) }
{
    text.iter().position(|b| *b == b'\n')
}

/// The length of the blank line at the front, where there is one.
pub(crate) fn blank_len(text: &[u8]) -> Option<usize>
    ensures value { result ≡ spec.blank_len text.now }
    ensures within { IfSome result (λ n. (0 < n) × (n ≤ length text.now)) }
{
    match text {
        [b'\n', ..] => Some(1),
        [b'\r', b'\n', ..] => Some(2),
        _ => None,
    }
}

/// The length of the LF at the front and of the blank line behind it, where both are there.
fn end_len(text: &[u8]) -> Option<usize>
    ensures value { result ≡ spec.end_len text.now }
    ensures within { IfSome result (λ n. (0 < n) × (n ≤ length text.now)) }
{
    let [b'\n', rest @ ..] = text else {
        return None;
    };
    match blank_len(rest) {
        Some(n) => Some(1 + n),
        None => None,
    }
}

/// The length of the text up to and with its first blank line.
pub(crate) fn head_len(text: &[u8]) -> Option<usize>
    ensures value { result ≡ spec.head_len text.now }
    ensures within { IfSome result (λ n. (0 < n) × (n ≤ length text.now)) }
{
    for i in 0..text.len() {
        if let Some(n) = end_len(rest_of(text, i)) {
            return Some(i + n);
        }
    }
    None
}

/// The same, where no blank line ends within so many first bytes.
pub(crate) fn head_len_behind(text: &[u8], before: usize) -> Option<usize>
    requires within { before ≤ length text.now }
    requires none { spec.head_len (take before text.now) ≡ None }
    ensures value { result ≡ spec.head_len text.now }
    ensures within { IfSome result (λ n. (0 < n) × (n ≤ length text.now)) }
{
    let from = before.saturating_sub(2);
    match head_len(rest_of(text, from)) {
        Some(n) => Some(from + n),
        None => None,
    }
}

/// The end of a line: LF, or CR and LF.
pub(crate) fn line_end(text: &[u8]) -> Front
    ensures value { result ≡ spec.line_end text.now }
    ensures within { IsFrontWithin (length text.now) result }
{
    match text {
        [] => Front::Part,
        [b'\n', ..] => Front::Whole(1),
        [b'\r'] => Front::Part,
        [b'\r', b'\n', ..] => Front::Whole(2),
        [b'\r', ..] => Front::Wrong(1),
        _ => Front::Wrong(0),
    }
}
