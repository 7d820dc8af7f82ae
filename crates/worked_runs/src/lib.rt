//! Whole commands, from their words to their text and status, over a source and a sink in memory.
#![tactic(auto)]

#[cfg(test)]
mod tests;
