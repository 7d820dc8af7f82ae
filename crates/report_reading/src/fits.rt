//! Which replies a call may have.

ghost use Rattle.std.specs.Prelude.{◌≡◌};
ghost use Rattle.auth_events.specs.Pages.{fits};

use auth_events::{BookReply, Call};

/// Whether the reply is one of the call's.
pub fn fits(call: Call, reply: BookReply) -> bool
    ensures { result ≡ fits call reply }
{
    match (call, reply) {
        (Call::Begin, BookReply::Begun) => true,
        (Call::Preempt { .. }, BookReply::Ready { .. } | BookReply::Nothing) => true,
        (
            Call::Select { .. },
            BookReply::Url { .. }
            | BookReply::Cached { .. }
            | BookReply::Default
            | BookReply::Follow { .. }
            | BookReply::Lead { .. },
        ) => true,
        (Call::Reject { .. }, BookReply::Removed | BookReply::Kept { .. }) => true,
        (Call::Renew { .. }, BookReply::Renewed | BookReply::Kept { .. }) => true,
        (Call::Answer { .. }, BookReply::Given { .. } | BookReply::Cancelled) => true,
        (Call::Lose { .. }, BookReply::Lost { .. }) => true,
        (
            Call::Take { .. },
            BookReply::Gave { .. } | BookReply::Cancelled | BookReply::Lost { .. },
        ) => true,
        (Call::Note { .. }, BookReply::Noted | BookReply::Kept { .. }) => true,
        (Call::End, BookReply::Ended) => true,
        _ => false,
    }
}
