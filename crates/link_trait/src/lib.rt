//! The outside as traits (where bytes come from and go to, links that are dialed, prompts,
//! providers of tokens), and implementations in memory, which answer from lists.
#![tactic(auto)]

mod answers;
mod calls;
mod dialer;
mod links;
mod log;
mod memory;
mod numbering;
mod prompts;
mod recorded;
mod script_tokens;
mod scripts;
mod space_key;
mod steps;
mod streams;
mod table;
mod taken;
mod tokens;

pub use answers::Answers;
pub use calls::Calls;
pub use dialer::{Dial, Dialed, Dialer, Traffic, Wrote};
pub use links::{LinkName, Links, same_link};
pub use log::LinkLog;
pub use memory::{MemSink, MemSource};
pub use prompts::{Ask, AskSeen, Asked, Prompter};
pub use recorded::{RecordedDialer, stream_in};
pub use script_tokens::ScriptTokens;
pub use scripts::{FailingPrompter, ScriptPrompter};
pub use steps::{Step, StepSeen, Steps};
pub use streams::{Got, Sink, Source, Took};
pub use tokens::{NoTokens, TokenCall, Tokens};
