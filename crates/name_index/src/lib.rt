//! The numbers of named spaces, terms and nonces, and of the first space of a site, found without
//! going over the names.
#![tactic(auto)]

mod checked;
mod index;
mod nonce_key;
mod noting;
mod terms_key;

pub use index::NameIndex;
