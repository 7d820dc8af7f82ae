//! HTTP/1.1 on the wire: the heads of requests, written and read back, and replies, read from any
//! pieces of a stream.
#![tactic(auto)]

mod chunk_place;
mod chunk_run;
mod chunked_body;
mod framing;
mod head_limits;
mod head_reader;
mod header_fields;
mod laws;
mod lines;
mod progress;
mod reader;
mod reading;
mod reply;
mod request_head;
mod response_head;
mod state;

pub use head_reader::{HeadFault, ReadHead, read_head};
pub use laws::plain_reader::PlainReader;
pub use laws::{carried, heads_read_back, limits, outcomes, replies_end, worked};
pub use reader::{At, Fed, ReplyReader};
pub use reply::{Fields, Reply, WireFault, is_challenge};
pub use request_head::{HeadParts, write_head};
