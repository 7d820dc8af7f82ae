//! What one worker serves requests by.

/// A dialer of links and a provider of tokens, which one worker uses at a time.
#[derive(Debug, Drop)]
pub struct Gear<D, T> {
    pub dialer: D,
    pub tokens: T,
}
