//! Which challenge of a reply is taken, and the nonce for the next request, by examples of the
//! RFCs.
#![tactic(auto)]

#[cfg(test)]
mod tests;
