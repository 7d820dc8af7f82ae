//! Callers of a shared book that are taken out of a list and put back.

ghost use Rattle.std.specs.Prelude.{◌≡◌, ◌<◌, ◌≤◌, ◌+◌, All, length};
ghost use Rattle.shared_book.specs.Callers.{AreNewCallers, IsCallerOf, IsNewCaller};

use auth_events::Controller;
use shared_book::{Caller, Callers, SharedBook};

/// Takes out the last caller of a list of new ones: that of the lowest number which is left.
pub fn next_caller<B: Controller>(shared: &SharedBook<B>, callers: &mut Callers<B>) -> Caller<B>
    requires some { 0 < length callers.old.list }
    requires new { AreNewCallers shared.now callers.old.list }
    ensures caller { IsNewCaller shared.now (length callers.new.list) result }
    ensures rest { AreNewCallers shared.now callers.new.list }
    ensures len { length callers.new.list + 1 ≡ length callers.old.list }
    ensures room { (callers.new.room ≡ callers.old.room)
        × (length callers.new.list < callers.new.room) }
{
    let Some(last) = callers.pop() else {
        unreachable!()
    };
    last
}

/// Puts a caller back into a list that has room for it.
pub fn put_back<B: Controller>(shared: &SharedBook<B>, callers: &mut Callers<B>, caller: Caller<B>)
    requires all { All (IsCallerOf shared.now) callers.old.list }
    requires caller { IsCallerOf shared.now caller }
    requires room { length callers.old.list < callers.old.room }
    ensures all { All (IsCallerOf shared.now) callers.new.list }
    ensures len { length callers.new.list ≡ length callers.old.list + 1 }
    ensures room { callers.old.room ≤ callers.new.room }
{
    let Ok(()) = callers.push(caller) else {
        unreachable!()
    };
}
