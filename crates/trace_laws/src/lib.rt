//! Laws of a request's trace that nothing of its rule rests on: how long it is and how it ends,
//! where its tokens go, whose identities its heads carry, what makes it, and that a book that
//! serves it may be asked, and answers, what the rule wants.
#![tactic(auto)]

mod answering;
mod bindings;
mod endings;
mod homes;
mod lengths;
mod links;
mod naming;
mod sources;

pub use answering::{answers_suit, texts_suit};
pub use bindings::{pasts_keep_to_their_link, tokens_keep_to_their_link};
pub use endings::{cuts_are_allowed, losses_are_allowed, prompts_are_settled, traces_are_whole};
pub use homes::heads_carry_their_own;
pub use lengths::{choices_are_few, events_are_few, pasts_leave_room, terms_are_few};
pub use links::{
    bound_links_are_last, heads_go_over_the_last, later_links_are_unread, replies_come_on_the_last,
};
pub use naming::{
    drawn_nonces_are_known, held_is_readable, next_terms_are_at_home, offered_terms_are_at_home,
    renewed_terms_are_at_home,
};
pub use sources::traces_are_determined_by_streams;
