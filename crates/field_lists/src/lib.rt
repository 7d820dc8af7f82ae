//! Field values that are lists (RFC 7230, section 7): the elements between their commas, which may
//! stand in several fields of one name.
#![tactic(auto)]

mod blanks;
mod lists;
#[cfg(test)]
mod tests;

pub use blanks::{blank_len, is_blank, trim_end, trim_start};
pub use lists::{elements, elements_of};
