//! A book of credentials: what may be asked of it, what it replies, and when a history of calls and
//! draws is legal and fresh. A legal history is defined over the list of its entries alone, so that
//! every book, whatever it keeps, is judged by the same few definitions.
#![tactic(auto)]

mod controller;
mod identities;
mod journal;
mod ledger;
mod names;
mod told;

pub use controller::{Controller, Did, TermsRef};
pub use journal::{BookReply, Call, Drawn, Entry, Gift, Journal, Loss};
pub use ledger::Ledger;
pub use names::{Names, NonceName, TermsName};
pub use told::{NameKind, NewName, Told};
