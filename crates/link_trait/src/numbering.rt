//! Look-up by number. What has a name is numbered from 1, and 0 is none.

ghost use Rattle.std.specs.Prelude.{◌≡◌, option_copied};
ghost use Rattle.spaces.specs.Sites.{numbered};

use auth_text::Items;

/// The item of that number, counted from 1.
pub(crate) fn numbered<T>(items: &Items<T>, number: u32) -> Option<&T>
    ensures { option_copied result ≡ numbered items.now number }
{
    match number {
        0 => None,
        _ => items.get(number as usize - 1),
    }
}
