//! The plain form of a reply's reader, which keeps every byte and judges all of them anew at each
//! piece, as the definition does.

ghost use Rattle.std.specs.Prelude.{◌≡◌, ◌++◌, [], List, ℕ, length, false, true, IfOk};
ghost use Rattle.spaces.specs.declared.roster.Method.{Method};
ghost use Rattle.wire_head.specs.Feeding.{IsKept, IsAnswer, IsMore, IsAnswerAtEnd};
ghost use Rattle.wire_head.specs.Replies.{reply};

use super::plain::progress_of;
use crate::progress::Progress;
use crate::reader::{At, Fed};
use crate::reply::{Reply, WireFault};
use auth_text::{Bytes, NoMemory};
use spaces::Method;
use std::alloc::Global;
use std::marker::Model;

/// Reads a reply that comes in pieces. It is fed until it answers something else than `More`.
#[derive(Drop)]
pub struct PlainReader {
    method: Method,
    alloc: Global,
    bytes: Bytes,
    at_end: Option<Reply>,
}

impl Model for PlainReader {
    ghost use Rattle.std.specs.Prelude.{◌≡◌};
    ghost use Rattle.wire_head.specs.Feeding.{Text};
    ghost use Rattle.wire_head.specs.Replies.{progress};
    ghost use Rattle.wire_head.specs.declared.progress.Progress.TheVariants.{Open};

    ghost Value = { Text };

    ghost view = { λ r. record { method = r.method; bytes = r.bytes } };

    ghost invariant = { λ r. progress r.method r.bytes ≡ Open r.at_end };
}

impl PlainReader {
    /// A reader of the reply to a request of this method, before any byte.
    pub fn new(alloc: Global, method: Method) -> Result<PlainReader, NoMemory>
        ensures { IfOk result (λ reader. IsKept reader method []) }
    {
        Ok(PlainReader {
            method,
            alloc,
            bytes: Bytes::new(alloc),
            at_end: None,
        })
    }

    /// Reads one more piece. The answer is that of all the bytes fed, however they were cut.
    pub fn feed(&mut self, bytes: &[u8]) -> Fed
        ensures answer { (method : Method) (fed : List ℕ) → IsKept self.old method fed
            → IsAnswer
            (reply method (fed ++ bytes.now) false) (length fed) (length bytes.now) result }
        ensures fed { (method : Method) (fed : List ℕ) → IsKept self.old method fed
            → IsMore result → IsKept self.new method (fed ++ bytes.now) }
    {
        let before = self.bytes.len();
        let Ok(()) = self.bytes.extend_from_slice(bytes) else {
            return Fed {
                used: 0,
                at: At::NoMemory,
            };
        };
        match progress_of(self.alloc, self.method, self.bytes.as_slice()) {
            Ok(Progress::Open(at_end)) => {
                self.at_end = at_end;
                Fed {
                    used: bytes.len(),
                    at: At::More,
                }
            }
            Ok(Progress::Whole(reply, n)) => {
                self.bytes.truncate(before);
                Fed {
                    used: n.saturating_sub(before),
                    at: At::Whole(reply),
                }
            }
            Ok(Progress::Fault(fault)) => {
                self.bytes.truncate(before);
                Fed {
                    used: 0,
                    at: At::Fault(fault),
                }
            }
            Err(NoMemory) => {
                self.bytes.truncate(before);
                Fed {
                    used: 0,
                    at: At::NoMemory,
                }
            }
        }
    }

    /// The reply where the stream has ended, or `Cut`.
    pub fn end(self) -> Result<Reply, WireFault>
        ensures { (method : Method) (fed : List ℕ)
            → IsKept self method fed → IsAnswerAtEnd (reply method fed true) result }
    {
        let PlainReader {
            method: _,
            alloc: _,
            bytes: _,
            at_end,
        } = self;
        match at_end {
            Some(reply) => Ok(reply),
            None => Err(WireFault::Cut),
        }
    }
}
