//! What a caller does with a request that follows the prompt which another request leads.

ghost use Rattle.std.specs.Prelude.{◌≡◌};
ghost use Rattle.auth_events.specs.Told.{is_pending};
ghost use Rattle.auth_events.specs.declared.journal.Call.TheVariants.{Take};
ghost use Rattle.book_laws.specs.Owners.{owner};
ghost use Rattle.shared_book.specs.Callers.{IsAllowed, IsCallerOf};

use crate::callers::{One, Shared, calls};
use auth_events::{BookReply, Call};
use spaces::Roster;
use std::sync::{Barrier, Wait};
use worked_callers::may_call;

pub(crate) const SELECT: Call = Call::Select { space: 1, terms: 0 };

/// What a caller does with the prompt's answer.
#[derive(Clone, Copy, Debug, PartialEq, Eq)]
pub(crate) enum Work {
    /// It is asked for so often, and is pending each time.
    Takes(u32),
    /// It is waited for.
    Waits,
}

fn is_pending(reply: BookReply) -> bool
    ensures { result ≡ is_pending reply }
{
    matches!(reply, BookReply::Pending)
}

// Asks so often for the prompt's answer, and says how often it was pending.
fn takes<R: Wait>(rt: &R, shared: &Shared, mut caller: One, request: u32, times: u32) -> (One, u32)
    requires caller { IsCallerOf shared.now caller }
    requires own { caller.number ≡ owner shared.now.callers request }
    requires allowed { IsAllowed shared.now caller request (Take 1) }
    ensures { IsCallerOf shared.now result.0 }
{
    for taken in 0..times {
        let (back, reply) = shared.call(rt, caller, request, Call::Take { prompt: 1 });
        caller = back;
        if !is_pending(reply) {
            return (caller, taken);
        }
    }
    (caller, times)
}

/// Begins the request, has it follow the prompt, and does the work once all callers have asked for
/// a gift. It says how often it asked for an answer that was pending, or how many answers came.
pub(crate) fn works<R: Wait>(
    rt: &R,
    shared: &Shared,
    roster: &Roster,
    caller: One,
    asks: (u32, u32),
    work: Work,
    asked: &Barrier,
) -> (One, u32)
    requires caller { IsCallerOf shared.now caller }
    requires number { caller.number ≡ asks.0 }
    requires own { asks.0 ≡ owner shared.now.callers asks.1 }
    requires roster { shared.now.roster ≡ roster.now }
    ensures { IsCallerOf shared.now result.0 }
{
    let (caller, _begun) = calls(rt, shared, roster, caller, asks, Call::Begin);
    let (caller, _follows) = calls(rt, shared, roster, caller, asks, SELECT);
    asked.wait(rt);
    let (number, request) = asks;
    let take = Call::Take { prompt: 1 };
    let (caller, may) = may_call(rt, shared, roster, caller, number, request, take);
    if !may {
        return (caller, 0);
    }
    match work {
        Work::Takes(times) => takes(rt, shared, caller, request, times),
        Work::Waits => {
            let (caller, _reply) = shared.wait_answer(rt, caller, request, 1);
            (caller, 1)
        }
    }
}
