//! A book of credentials that many callers call. It lies behind a turn lock, with the words of its
//! nonces beside it: each call is made in one turn, and each draw is one atomic step on a word.
#![tactic(auto)]

mod asking;
mod bell;
mod caller;
mod callers;
mod locked;
mod namings;
mod opening;
mod readings;
mod room;
mod shared;
mod threads;

pub use caller::Caller;
pub use callers::Callers;
pub use locked::{Fixed, Locked};
pub use readings::Reading;
pub use shared::{NotShared, SharedBook};
