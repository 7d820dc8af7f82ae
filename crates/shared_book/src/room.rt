//! Room for the callers' passes, which is taken when a shared book is opened, so that closing it
//! takes no memory.

ghost use Rattle.std.specs.Prelude.{◌≡◌, ◌≤◌, []};

use crate::locked::Locked;
use auth_events::Controller;
use turnstile::Passes;

/// An empty list of passes, with room for those of all callers.
#[derive(Drop)]
pub struct Room<B: Controller> {
    pub(crate) passes: Passes<Locked<B>>,
    ghost empty: { passes.list ≡ [] },
    ghost wide: { 16 ≤ passes.room },
}
