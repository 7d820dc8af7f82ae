//! What holds of a book that many callers share, over the definitions alone: what a caller was
//! allowed and has left stays so while others make entries, a gift keeps its identity, and a legal
//! journal stays legal, and becomes fresh, once the draws of its requests are inserted.
#![tactic(auto)]

mod callers;
mod draws;

pub use callers::{
    gifts_keep_their_identity, names_stay_within_shares, what_was_allowed_is_allowed,
    what_was_left_is_left,
};
pub use draws::merged_history_is_legal_and_fresh;
