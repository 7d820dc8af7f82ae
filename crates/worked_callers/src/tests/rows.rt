//! Two worked histories by callers of one book: followers that wait for the one answer of a prompt,
//! and a rejection that comes when a newer gift is there.

ghost use Rattle.std.specs.Prelude.{◌≡◌, All, length};
ghost use Rattle.shared_book.specs.Callers.{AreNewCallers, IsCallerOf};

use crate::tests::callers::{Shared, begins_and_names};
use crate::tests::crew::{Crew, Row, Step, play, put_three, take_three};
use crate::tests::ground::{basic, identity, roster_of_three};
use crate::tests::readings::sees_space;
use auth_events::{BookReply, Call, Controller, Gift, Loss};
use auth_text::{Identity, NoMemory};
use plain_book::PlainBook;
use shared_book::{Callers, SharedBook};
use spaces::{Roster, Space, Target};
use std::alloc::Global;
use std::process::Abort;
use std::sync::Wait;
use std::test::Fail;

const BEGIN: Step = Step::Asks(Call::Begin, BookReply::Begun);

const PREEMPT: Step = Step::Asks(
    Call::Preempt {
        target: Target::Server,
    },
    BookReply::Nothing,
);

const SELECT: Call = Call::Select { space: 1, terms: 0 };

const TAKE: Call = Call::Take { prompt: 1 };

const LEAD: BookReply = BookReply::Lead {
    prompt: 1,
    ordinal: 1,
};

const FOLLOW: BookReply = BookReply::Follow { prompt: 1 };

/// One leads a prompt, and two follow it; one of these asks too soon.
const FOLLOWERS: &[Row] = &[
    (2, BEGIN),
    (3, BEGIN),
    (1, PREEMPT),
    (2, PREEMPT),
    (3, PREEMPT),
    (1, Step::Asks(SELECT, LEAD)),
    (2, Step::Asks(SELECT, FOLLOW)),
    (3, Step::Asks(SELECT, FOLLOW)),
    (2, Step::Asks(TAKE, BookReply::Pending)),
];

const CANCEL: Call = Call::Answer {
    prompt: 1,
    text: 0,
    terms: 0,
};

/// The prompt is cancelled, and both take that.
const CANCELLED: &[Row] = &[
    (1, Step::Asks(CANCEL, BookReply::Cancelled)),
    (3, Step::Waits(1, BookReply::Cancelled)),
    (2, Step::Waits(1, BookReply::Cancelled)),
];

const LOSS: Loss = Loss::Fault(5);

const LOSE: Call = Call::Lose {
    prompt: 1,
    loss: LOSS,
};

const IS_LOST: BookReply = BookReply::Lost { loss: LOSS };

/// The prompt is lost, and both take that.
const LOST: &[Row] = &[
    (1, Step::Asks(LOSE, IS_LOST)),
    (3, Step::Waits(1, IS_LOST)),
    (2, Step::Waits(1, IS_LOST)),
];

const FIRST: Gift = Gift {
    space: 1,
    ordinal: 1,
};

const SECOND: Gift = Gift {
    space: 1,
    ordinal: 2,
};

const FIRST_ANSWER: Call = Call::Answer {
    prompt: 1,
    text: 1,
    terms: 0,
};

const SECOND_ANSWER: Call = Call::Answer {
    prompt: 2,
    text: 2,
    terms: 0,
};

const FIRST_GIVEN: BookReply = BookReply::Given {
    gift: FIRST,
    evicted: 0,
};

const SECOND_GIVEN: BookReply = BookReply::Given {
    gift: SECOND,
    evicted: 0,
};

const REJECT: Call = Call::Reject {
    space: 1,
    ordinal: 1,
};

const LEAD_AGAIN: BookReply = BookReply::Lead {
    prompt: 2,
    ordinal: 2,
};

/// Two requests have the first gift, and the first of them has it rejected.
const REJECTED: &[Row] = &[
    (2, BEGIN),
    (1, PREEMPT),
    (2, PREEMPT),
    (1, Step::Asks(SELECT, LEAD)),
    (1, Step::Asks(FIRST_ANSWER, FIRST_GIVEN)),
    (2, Step::Asks(SELECT, BookReply::Cached { gift: FIRST })),
    (1, Step::Asks(REJECT, BookReply::Removed)),
];

/// The second request's rejection comes when a newer gift is there, and leaves it.
const REJECTED_LATE: &[Row] = &[
    (1, Step::Asks(SELECT, LEAD_AGAIN)),
    (1, Step::Asks(SECOND_ANSWER, SECOND_GIVEN)),
    (2, Step::Asks(REJECT, BookReply::Kept { ordinal: 2 })),
    (2, Step::Asks(SELECT, BookReply::Cached { gift: SECOND })),
];

// Plays the parts. At the end the space that was named first has its number still.
fn play_parts<R: Wait + Abort>(
    rt: &R,
    shared: &Shared,
    roster: &Roster,
    mut callers: Callers<PlainBook>,
    things: (&Space, &Identity),
    parts: (&[Row], &[Row]),
) -> Callers<PlainBook>
    requires new { AreNewCallers shared.now callers.list }
    requires three { (length callers.list ≡ 3) × (shared.now.callers ≡ 3) }
    requires roster { shared.now.roster ≡ roster.now }
    ensures all { All (IsCallerOf shared.now) result.list }
    ensures len { length result.list ≡ 3 }
{
    let Crew { one, two, three } = take_three(shared, &mut callers);
    let one = begins_and_names(rt, shared, roster, one, 1, things.0, things.1);
    let crew = play(rt, shared, roster, Crew { one, two, three }, parts.0);
    let crew = play(rt, shared, roster, crew, parts.1);
    let Crew { one, two, three } = crew;
    let two = sees_space(rt, shared, two, 1, things.0);
    put_three(shared, &mut callers, Crew { one, two, three });
    callers
}

/// Plays the parts over a new book, and counts the entries.
fn played<R: Wait + Abort>(
    rt: &R,
    alloc: Global,
    parts: (&[Row], &[Row]),
) -> Result<usize, NoMemory> {
    let roster = roster_of_three(alloc)?;
    let space = basic(alloc)?;
    let text = identity(alloc)?;
    let book = PlainBook::new(alloc, &roster)?;
    let Ok((shared, callers)) = SharedBook::new(alloc, book, 48, 3) else {
        return Err(NoMemory);
    };
    let callers = play_parts(rt, &shared, &roster, callers, (&space, &text), parts);
    let book = shared.close(callers);
    Ok(book.journal().entries().len())
}

#[test]
fn followers_wait_for_the_one_answer(rt: HostRuntime) -> Result<(), Fail> {
    let cancelled = played(&rt, rt.alloc(), (FOLLOWERS, CANCELLED));
    assert!(rt; matches!(cancelled, Ok(12)));
    let lost = played(&rt, rt.alloc(), (FOLLOWERS, LOST));
    assert!(rt; matches!(lost, Ok(12)));
    Ok(())
}

#[test]
fn a_late_rejection_leaves_the_newer_gift(rt: HostRuntime) -> Result<(), Fail> {
    let entries = played(&rt, rt.alloc(), (REJECTED, REJECTED_LATE));
    assert!(rt; matches!(entries, Ok(12)));
    Ok(())
}
