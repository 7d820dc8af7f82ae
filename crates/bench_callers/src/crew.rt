//! Callers that work side by side, each in a thread of its own.

ghost use Rattle.std.specs.Prelude.{◌≡◌, ◌≤◌, ◌+◌, All, length};
ghost use Rattle.shared_book.specs.Callers.{AreNewCallers, IsCallerOf};

use crate::callers::Shared;
use crate::works::{Work, works};
use plain_book::PlainBook;
use shared_book::Callers;
use spaces::Roster;
use std::sync::{Barrier, Wait};
use std::thread::{Threads, join};
use worked_callers::{next_caller, put_back};

/// Each caller of the list does the work, with the request that has its number. The last one of the
/// list has the number that is given. What they did is added up.
pub(crate) fn each_works<R: Wait + Threads + Sync>(
    rt: &R,
    shared: &Shared,
    roster: &Roster,
    mut callers: Callers<PlainBook>,
    number: u32,
    work: Work,
    asked: &Barrier,
) -> (Callers<PlainBook>, u32)
    requires new { AreNewCallers shared.now callers.list }
    requires number { (number + length callers.list ≡ shared.now.callers + 1) × (1 ≤ number) }
    requires few { shared.now.callers ≤ 16 }
    requires roster { shared.now.roster ≡ roster.now }
    ensures all { All (IsCallerOf shared.now) result.0.list }
    ensures len { length result.0.list ≡ length callers.list }
    ensures room { callers.room ≤ result.0.room }
{
    if callers.len() == 0 {
        return (callers, 0);
    }
    let caller = next_caller(shared, &mut callers);
    let ((caller, done), (mut callers, others)) = join(
        rt,
        move ||
            requires caller { IsCallerOf shared.now caller × (caller.number ≡ number) }
            requires number { (1 ≤ number) × (number ≤ shared.now.callers) }
            requires roster { shared.now.roster ≡ roster.now }
            ensures { IsCallerOf shared.entry.now result.0 }
        { works(rt, shared, roster, caller, (number, number), work, asked) },
        move ||
            requires new { AreNewCallers shared.now callers.list }
            requires number { number + 1 + length callers.list ≡ shared.now.callers + 1 }
            requires few { shared.now.callers ≤ 16 }
            requires roster { shared.now.roster ≡ roster.now }
            ensures all { All (IsCallerOf shared.entry.now) result.0.list }
            ensures len { length result.0.list ≡ length callers.list }
            ensures room { callers.room ≤ result.0.room }
        { each_works(rt, shared, roster, callers, number + 1, work, asked) },
    );
    put_back(shared, &mut callers, caller);
    (callers, done.saturating_add(others))
}
