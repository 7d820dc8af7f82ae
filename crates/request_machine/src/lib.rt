//! The machine of one request: what comes next in it, by what has happened. It keeps the request's
//! events and, in its fields and its stage, what they say by the rule of a request; each change of
//! it is proved to keep that. The caller gives it what the book, the words and the user tell.
//!
//! It covers the calls that begin a request, the way to each head with Basic and Digest identities
//! for both targets, dials, draws and heads, replies over free links, which challenge is answered
//! and which decides on what is held, the names of spaces, terms and texts, the book's choice,
//! prompts that are led or followed, rejections, renewals behind a stale challenge and by a next
//! nonce, the calls at the end, and want of memory. One call, `step`, drives the whole from one
//! need to the next. Negotiate challenges are passed over so far.
#![tactic(auto)]

mod ask;
mod begin;
mod challenge;
mod choose;
mod close;
mod context;
mod cut;
mod decide;
mod fields;
mod finish;
mod follow;
mod gave;
mod gear;
mod go;
mod go_on;
mod holding;
mod known;
mod lose;
mod machine;
mod naming;
mod need;
mod needs;
mod open_link;
mod pick;
mod read;
mod renew;
mod send;
mod spn;
mod stage;
mod start;
mod step;
mod told;
mod turn;

pub use gave::Gave;
pub use gear::Gear;
pub use holding::{Context, Holding, NamedTerms, Token};
pub use machine::Machine;
pub use need::Need;
pub use stage::{Closing, Piece, Prompt, Stage};
