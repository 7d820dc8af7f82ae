//! Counts of nonces that many threads draw, each count once.
//!
//! `NonceWords` has an atomic word for each nonce: `epoch * 2^32 + count`. The seats that draw add
//! 1 to a word, and the book's seat adds 2^32 where the nonce is taken out of use. Each is one
//! atomic step that waits for nobody. What the seats drew is joined again at the end, and is then
//! known as a whole.
#![tactic(auto)]

mod draw;
pub mod laws;
mod rule;
mod seats;
mod words;

pub use draw::NonceDraw;
pub use seats::{BookSeat, DrawSeat};
pub use words::NonceWords;

#[cfg(test)]
mod tests;
