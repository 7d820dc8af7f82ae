//! The events of a request, in the order in which they come, and how a request ends.

use auth_events::{BookReply, Call};
use auth_text::{Bytes, Items};
use link_trait::{AskSeen, StepSeen};
use spaces::Target;
use wire_head::{Reply, WireFault};

/// Why a challenged request is given up.
#[derive(Clone, Copy, Debug, PartialEq, Eq)]
pub enum Why {
    /// No challenge of the last reply is supported.
    NoChallenge,
    /// The prompt of that number was cancelled.
    Cancelled(u32),
    /// The seventeenth challenge or refusal.
    Rounds,
    /// The link of a Negotiate context was lost a second time.
    BoundLost,
}

/// How a request ends. A count is that of the faults of who failed; a code is that of the last
/// reply.
#[derive(Clone, Copy, Debug, PartialEq, Eq)]
pub enum Outcome {
    /// The last reply is no challenge.
    Answered(u16),
    Refused(u16, Why),
    BadReply(WireFault),
    LinkFailed(u64),
    ProviderFailed(u64),
    PromptFailed(u64),
    NoMemory,
}

/// One event of a request. Links are numbered from 1 in their request.
#[derive(Debug, Drop)]
pub enum Event {
    /// A call of the book and its reply.
    Called {
        call: Call,
        reply: BookReply,
    },
    /// The link was dialed.
    Dialed {
        link: u32,
    },
    DialFailed {
        link: u32,
        count: u64,
    },
    /// A count of the nonce was drawn for the target's credentials.
    Drew {
        target: Target,
        nonce: u32,
        count: u32,
        epoch: u32,
    },
    /// The head is written next.
    Headed {
        link: u32,
        bytes: Bytes,
    },
    WriteFailed {
        link: u32,
        count: u64,
    },
    ReadFailed {
        link: u32,
        count: u64,
    },
    Replied {
        link: u32,
        reply: Reply,
    },
    /// What was read is no reply.
    Broken {
        link: u32,
        fault: WireFault,
    },
    LinkLost {
        link: u32,
    },
    /// The prompt was asked of the user.
    AskedFor {
        prompt: u32,
        given: AskSeen,
    },
    /// The provider of tokens answered.
    Stepped {
        target: Target,
        step: StepSeen,
    },
    Ended {
        outcome: Outcome,
    },
}

/// Events of a request, in order.
pub type Events = Items<Event>;
