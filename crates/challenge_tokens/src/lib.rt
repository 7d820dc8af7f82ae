//! Lists of challenges, as they stand in `WWW-Authenticate` and `Proxy-Authenticate` fields
//! (RFC 7235), both ways. A field may hold several challenges, with commas in quoted strings and
//! between parameters, so it is read by one rule on its pieces that has an answer for any bytes.
#![tactic(auto)]

mod begun;
mod challenge;
mod field;
mod gathering;
mod head;
mod info;
mod laws;
mod params;
mod piece;
mod scan;
mod write;

pub use challenge::{Body, Challenge, Challenges, FieldRead};
pub use field::read_field;
pub use info::read_info;
pub use laws::{challenge_reads_back, example_fields, spellings_are_read, token68_reads_back};
pub use params::{Param, Params};
pub use write::{write_challenge, write_token68};
