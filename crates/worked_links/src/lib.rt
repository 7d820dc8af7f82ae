//! The outside in memory (sources and sinks, links, prompters, providers of tokens), tried call by
//! call with ample memory and with failures at listed calls, and exchanges over its links.
#![tactic(auto)]

#[cfg(test)]
mod exchanges;
#[cfg(test)]
mod tests;
