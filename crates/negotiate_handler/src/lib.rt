//! Contexts of the Negotiate scheme (RFC 4559) over a provider of tokens, and the token that a
//! peer's challenge brings. A context is spent by each step that gives no further token.
#![tactic(auto)]

mod challenge;
mod context;

pub use challenge::peer_token;
pub use context::{Context, Said, Stepped};
