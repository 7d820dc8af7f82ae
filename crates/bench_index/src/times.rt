//! How long calls take.

use auth_events::Call;
use auth_text::NoMemory;
use std::alloc::Global;

/// A call and its time in nanoseconds.
#[derive(Clone, Copy, Drop)]
pub struct Time {
    pub call: Call,
    pub nanos: u32,
}

/// The times so far, and memory that is gone over before a call: so each call finds the processor's
/// caches without the book, however long the journal is.
#[derive(Drop)]
pub struct Meter {
    pub is_on: bool,
    pub times: Vec<Time>,
    swept: Vec<u64>,
}

/// 8 MiB, more than a processor keeps close to it.
const SWEPT: usize = 1_048_576;

impl Meter {
    /// A meter that is off.
    pub fn new(alloc: Global) -> Result<Meter, NoMemory> {
        let swept = vec![in alloc; 0; SWEPT]?;
        Ok(Meter {
            is_on: false,
            times: Vec::new(alloc),
            swept,
        })
    }

    /// Goes over the memory, where the meter is on.
    pub fn sweep(&mut self) {
        if self.is_on {
            for word in &mut self.swept {
                *word = word.wrapping_add(1);
            }
        }
    }

    /// Keeps the time of a call, where the meter is on.
    pub fn add(&mut self, call: Call, nanos: u32) -> Result<(), NoMemory> {
        if self.is_on {
            self.times.push(Time { call, nanos })?;
        }
        Ok(())
    }
}

/// The word for calls of this kind. Books are asked for no draws.
pub fn word(call: Call) -> &'static str {
    match call {
        Call::Begin => "begin",
        Call::Preempt { .. } => "preempt",
        Call::Select { .. } => "select",
        Call::Reject { .. } => "reject",
        Call::Renew { .. } => "renew",
        Call::Answer { .. } => "answer",
        Call::Lose { .. } => "lose",
        Call::Take { .. } => "take",
        Call::Note { .. } => "note",
        Call::End => "end",
        Call::Draw { .. } => "draw",
    }
}
