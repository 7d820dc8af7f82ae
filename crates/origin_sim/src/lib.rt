//! Simulated servers and a proxy that answer by stated rules, a provider of tokens for them, and a
//! large session that is made for them: for trying a client without a network.
#![tactic(auto)]

mod answering;
mod failing;
mod generator;
mod judged;
mod judging;
mod laws;
mod named;
mod peers;
mod rules;
mod sim_dialer;
mod texts;
mod tokens;
mod world;

pub use generator::generated;
pub use laws::answers_are_one;
pub use rules::{Kind, Rule, Rules};
pub use sim_dialer::SimDialer;
pub use tokens::SimTokens;
pub use world::World;
