//! Which heads are interim ones, and how long the heads of a reply may be.

ghost use Rattle.std.specs.Prelude.{◌≡◌, ◌+◌, ◌<◌, ◌≤◌, ◌^◌, length, take, count_by, ◌==◌, false};
ghost use Rattle.wire_head.specs.Replies as spec;

use crate::lines::lf_at;
use auth_text::rest_of;

pub(crate) fn is_interim(code: u16) -> bool
    ensures { result ≡ spec.is_interim code }
{
    100 <= code && code < 200
}

fn lines_in(front: &[u8]) -> usize
    ensures { result ≡ count_by (λ b. b == 10) front.now }
{
    front.iter().filter(|b| **b == b'\n').count()
}

pub(crate) fn is_too_long(at: usize, front: &[u8]) -> bool
    requires { at + length front.now < 2 ^ 63 }
    ensures value { result ≡ spec.is_too_long at front.now }
    ensures few { result ≡ false → at + length front.now ≤ 65536 }
{
    65536 < at + front.len() || 256 < lines_in(front)
}

/// The same, where so many first bytes aren't too long. The lines are counted only where there is
/// one more.
pub(crate) fn is_too_long_behind(at: usize, front: &[u8], before: usize) -> bool
    requires few { at + length front.now < 2 ^ 63 }
    requires within { before ≤ length front.now }
    requires short { spec.is_too_long at (take before front.now) ≡ false }
    ensures { result ≡ spec.is_too_long at front.now }
{
    match lf_at(rest_of(front, before)) {
        Some(_) => is_too_long(at, front),
        None => 65536 < at + front.len(),
    }
}
