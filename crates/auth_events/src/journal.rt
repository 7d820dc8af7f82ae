//! The calls on a book of credentials, its replies, and the journal that keeps both: what happened
//! is known from its entries alone.

ghost use Rattle.std.specs.Prelude.{◌≡◌, ◌≤◌, ◌++◌, ◌∷◌, [], IfOk};

use auth_text::NoMemory;
use spaces::Target;
use std::alloc::Global;
use std::marker::Model;

/// The ordinal-th giving of credentials in a space.
#[derive(Clone, Copy, Debug, PartialEq, Eq)]
pub struct Gift {
    pub space: u32,
    pub ordinal: u32,
}

/// What one draw gives: the count that goes out with the nonce, and the nonce's epoch at that
/// moment.
#[derive(Clone, Copy, Debug, PartialEq, Eq)]
pub struct Drawn {
    pub count: u32,
    pub epoch: u32,
}

/// Why a prompt was never answered.
#[derive(Clone, Copy, Debug, PartialEq, Eq)]
pub enum Loss {
    Fault(u64),
    Memory,
}

#[derive(Clone, Copy, Debug, PartialEq, Eq)]
pub enum Call {
    Begin,
    Preempt { target: Target },
    Select { space: u32, terms: u32 },
    Reject { space: u32, ordinal: u32 },
    Renew { gift: Gift, terms: u32 },
    Answer { prompt: u32, text: u32, terms: u32 },
    Lose { prompt: u32, loss: Loss },
    Take { prompt: u32 },
    Note { gift: Gift },
    End,
    Draw { nonce: u32 },
}

#[derive(Clone, Copy, Debug, PartialEq, Eq)]
pub enum BookReply {
    Begun,
    Ready { gift: Gift, terms: u32, epoch: u32 },
    Nothing,
    Url { gift: Gift, evicted: u32 },
    Cached { gift: Gift },
    Default,
    Follow { prompt: u32 },
    Lead { prompt: u32, ordinal: u32 },
    Removed,
    Kept { ordinal: u32 },
    Renewed,
    Given { gift: Gift, evicted: u32 },
    Cancelled,
    Lost { loss: Loss },
    Pending,
    Gave { gift: Gift },
    Noted,
    Ended,
    Drawn { count: u32, epoch: u32 },
}

#[derive(Clone, Copy, Debug, PartialEq, Eq)]
pub struct Entry {
    pub caller: u32,
    pub request: u32,
    pub call: Call,
    pub reply: BookReply,
}

/// Entries, with room for 64 of each request. Seen as the number of requests and the list of the
/// entries.
#[derive(Drop)]
pub struct Journal {
    requests: u32,
    entries: Vec<Entry>,
}

impl Model for Journal {
    ghost use Rattle.std.specs.Prelude.{◌*◌, ◌≤◌, vec_capacity};
    ghost use Rattle.auth_events.specs.Pages.{Pages, IsWithinRoom};

    ghost Value = { Pages };

    ghost view = { λ j. record { requests = j.requests; entries = j.entries.items } };

    ghost invariant = { λ j. IsWithinRoom j.requests j.entries.items
        × (64 * j.requests ≤ vec_capacity j.entries) };
}

impl Journal {
    ghost use Rattle.auth_events.specs.Pages.{IsWithinRoom, HasRoomFor};

    /// Takes the room.
    pub fn new(alloc: Global, requests: u32) -> Result<Journal, NoMemory>
        requires { requests ≤ 2048 }
        ensures { IfOk result (λ journal. journal ≡ record { requests = requests; entries = [] }) }
    {
        let entries = Vec::with_capacity(alloc, 64 * requests as usize)?;
        Ok(Journal { requests, entries })
    }

    /// Adds an entry. It takes no memory.
    pub fn push(&mut self, entry: Entry)
        requires { HasRoomFor self.old entry }
        ensures { self.new ≡ record self.old { entries = self.old.entries ++ entry ∷ [] } }
    {
        self.entries.push_reserved(entry);
    }

    pub fn entries(&self) -> &[Entry]
        ensures entries { result.now ≡ self.now.entries }
        ensures within { IsWithinRoom self.now.requests self.now.entries }
    {
        self.entries.as_slice()
    }
}
