//! What a reply's challenges offer: which of them can be answered, which is the best, and which
//! decides on an identity that is held; the token that a reply brings to a context, and the nonce
//! that it gives for the next request. The definitions are those by which traces are judged.
#![tactic(auto)]

mod choice;
mod infos;
mod offer;
mod offers;
mod tokens;

pub use choice::{best_offer, deciding_offer};
pub use infos::next_nonce;
pub use offer::Offer;
pub use tokens::token_offered;
