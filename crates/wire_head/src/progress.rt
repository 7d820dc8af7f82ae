//! How far a text is as a reply.

use crate::reply::{Reply, WireFault};

/// How far a text is as a reply.
#[derive(Debug, Drop)]
pub(crate) enum Progress {
    /// Nothing is decided. With the reply that the text is, where the stream ends here and that is
    /// no cut.
    Open(Option<Reply>),
    /// A whole reply, of so many bytes.
    Whole(Reply, usize),
    Fault(WireFault),
}
