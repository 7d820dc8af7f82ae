//! Replies that come in pieces. The reader keeps the current head, and once the final one was read,
//! in its place what the reply carries of it, and numbers; never the body. Its contract speaks of the
//! bytes fed alone.

ghost use Rattle.std.specs.Prelude.{◌≡◌, ◌++◌, [], List, ℕ, length, false, true, IfOk};
ghost use Rattle.spaces.specs.declared.roster.Method.{Method};
ghost use Rattle.wire_head.specs.Feeding.{IsFed, IsAnswer, IsMore, IsAnswerAtEnd};
ghost use Rattle.wire_head.specs.Replies.{reply};
ghost use Rattle.wire_head.specs.declared.state.State.TheVariants.{InHead};

use crate::progress::Progress;
use crate::reading::{Stepped, read, with_body};
use crate::reply::{Reply, WireFault};
use crate::state::{Next, State};
use auth_text::{Bytes, NoMemory};
use spaces::Method;
use std::alloc::Global;
use std::marker::Model;
use std::mem;

/// What all bytes show that were fed.
#[derive(Debug, Drop)]
pub enum At {
    /// Nothing is decided yet.
    More,
    Whole(Reply),
    Fault(WireFault),
    NoMemory,
}

/// What a reader answers to a piece.
#[derive(Debug, Drop)]
pub struct Fed {
    /// How many bytes of the piece belong to the reply: all of them with `More`, 0 with a fault and
    /// with `NoMemory`.
    pub used: usize,
    pub at: At,
}

/// Reads a reply that comes in pieces. It is fed until it answers something else than `More`.
#[derive(Drop)]
pub struct ReplyReader {
    method: Method,
    alloc: Global,
    state: State,
}

impl Model for ReplyReader {
    ghost use Rattle.wire_head.specs.Feeding.{Reading};
    ghost use Rattle.wire_head.specs.ReadingStates.{IsState};

    ghost Value = { Reading };

    ghost view = { λ r. record { method = r.method; state = r.state } };

    ghost invariant = { λ r. IsState r.state };
}

/// The state before any byte.
fn fresh(alloc: Global) -> State
    ensures { result ≡ InHead 0 [] }
{
    State::InHead {
        at: 0,
        front: Bytes::new(alloc),
    }
}

impl ReplyReader {
    /// A reader of the reply to a request of this method, before any byte.
    pub fn new(alloc: Global, method: Method) -> Result<ReplyReader, NoMemory>
        ensures { IfOk result (λ reader. IsFed reader method []) }
    {
        Ok(ReplyReader {
            method,
            alloc,
            state: fresh(alloc),
        })
    }

    /// Reads one more piece. The answer is that of all the bytes fed, however they were cut. Behind
    /// any other answer than `More` the reader is one of a new reply.
    pub fn feed(&mut self, bytes: &[u8]) -> Fed
        ensures answer { (method : Method) (fed : List ℕ) → IsFed self.old method fed
            → IsAnswer
            (reply method (fed ++ bytes.now) false) (length fed) (length bytes.now) result }
        ensures fed { (method : Method) (fed : List ℕ) → IsFed self.old method fed
            → IsMore result → IsFed self.new method (fed ++ bytes.now) }
    {
        let state = mem::replace(&mut self.state, fresh(self.alloc));
        match read(self.alloc, self.method, state, bytes) {
            Ok(Stepped { used, next }) => match next {
                Next::On(state) => {
                    self.state = state;
                    Fed { used, at: At::More }
                }
                Next::Over(Progress::Whole(reply, _)) => Fed {
                    used,
                    at: At::Whole(reply),
                },
                Next::Over(Progress::Fault(fault)) => Fed {
                    used: 0,
                    at: At::Fault(fault),
                },
                Next::Over(Progress::Open(_)) => unreachable!(),
            },
            Err(NoMemory) => Fed {
                used: 0,
                at: At::NoMemory,
            },
        }
    }

    /// The reply where the stream has ended, or `Cut`.
    pub fn end(self) -> Result<Reply, WireFault>
        ensures { (method : Method) (fed : List ℕ)
            → IsFed self method fed → IsAnswerAtEnd (reply method fed true) result }
    {
        let ReplyReader {
            method: _,
            alloc: _,
            state,
        } = self;
        match state {
            State::InOpen { reply, count } => Ok(with_body(reply, count)),
            _ => Err(WireFault::Cut),
        }
    }
}
