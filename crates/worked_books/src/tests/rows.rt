//! Rows of calls and replies, in the words of a report's entries.

use auth_events::{BookReply, Call, Gift, Loss};
use spaces::Target;

/// A request, the word and the numbers of its call, and those of the reply.
#[derive(Clone, Copy)]
pub(crate) struct Row(
    pub(crate) u32,
    pub(crate) &'static str,
    pub(crate) [u32; 3],
    pub(crate) &'static str,
    pub(crate) [u32; 3],
);

/// The call of the word with the numbers.
fn call(word: &str, numbers: [u32; 3]) -> Call {
    let [first, second, third] = numbers;
    let gift = Gift {
        space: first,
        ordinal: second,
    };
    match word {
        "begin" => Call::Begin,
        "preempt" => Call::Preempt {
            target: if first == 0 {
                Target::Server
            } else {
                Target::Proxy
            },
        },
        "select" => Call::Select {
            space: first,
            terms: second,
        },
        "reject" => Call::Reject {
            space: first,
            ordinal: second,
        },
        "renew" => Call::Renew { gift, terms: third },
        "answer" => Call::Answer {
            prompt: first,
            text: second,
            terms: third,
        },
        "lose" => Call::Lose {
            prompt: first,
            loss: Loss::Fault(u64::from(second)),
        },
        "take" => Call::Take { prompt: first },
        "note" => Call::Note { gift },
        "end" => Call::End,
        _ => Call::Draw { nonce: 0 },
    }
}

/// The reply of the word with the numbers.
fn reply(word: &str, numbers: [u32; 3]) -> BookReply {
    let [first, second, third] = numbers;
    let gift = Gift {
        space: first,
        ordinal: second,
    };
    match word {
        "begun" => BookReply::Begun,
        "ready" => BookReply::Ready {
            gift,
            terms: third,
            epoch: 0,
        },
        "nothing" => BookReply::Nothing,
        "url" => BookReply::Url {
            gift,
            evicted: third,
        },
        "default" => BookReply::Default,
        "renewed" => BookReply::Renewed,
        "cached" => BookReply::Cached { gift },
        "follow" => BookReply::Follow { prompt: first },
        "lead" => BookReply::Lead {
            prompt: first,
            ordinal: second,
        },
        "removed" => BookReply::Removed,
        "kept" => BookReply::Kept { ordinal: first },
        "given" => BookReply::Given {
            gift,
            evicted: third,
        },
        "gave" => BookReply::Gave { gift },
        "cancelled" => BookReply::Cancelled,
        "lost" => BookReply::Lost {
            loss: Loss::Fault(u64::from(first)),
        },
        "pending" => BookReply::Pending,
        "noted" => BookReply::Noted,
        "ended" => BookReply::Ended,
        _ => BookReply::Drawn { count: 0, epoch: 0 },
    }
}

impl Row {
    pub(crate) fn call(self) -> Call {
        call(self.1, self.2)
    }

    pub(crate) fn reply(self) -> BookReply {
        reply(self.3, self.4)
    }
}

pub(crate) const NO: [u32; 3] = [0, 0, 0];
