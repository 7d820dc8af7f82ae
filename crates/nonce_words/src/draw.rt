//! One draw as contracts speak of it: the nonce beside what the draw gave.

/// A count of a nonce, and the epoch that was read with it. It stands in contracts alone: what a
/// seat drew is a list of these.
#[derive(Clone, Copy)]
pub struct NonceDraw {
    pub nonce: u32,
    pub count: u32,
    pub epoch: u32,
}
