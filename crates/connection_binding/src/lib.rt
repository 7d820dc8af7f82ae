//! Links as requests use them: dialed, written to, read reply by reply, and closed. A free link is
//! one over which no token of a context went; it carries one exchange. The head that carries the
//! first token binds it, and a bound link is never a free one again.
#![tactic(auto)]

mod bound;
mod ends;
mod free;
mod laws;
mod reading;
mod sending;
mod window;

pub use bound::BoundLink;
pub use ends::{DialEnd, ReadEnd, SendEnd};
pub use free::FreeLink;
pub use laws::new_links;
