//! The top calls: a command's words and an input in, a text and a status out.
#![tactic(auto)]

mod serve;
mod standard;
mod status;
mod streams;
mod top;
mod words;

pub use auth_controller::Gear;
pub use session_text::What;
pub use standard::{StdSink, StdSource};
pub use status::Status;
pub use top::{Gears, authfetch, authfetch_alone};
pub use words::{Command, Word};
