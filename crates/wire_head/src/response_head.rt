//! The heads of replies, read by `httparse`.

ghost use Rattle.std.specs.Prelude.{◌≡◌, ◌≤◌, length, map, All, IfOk, MatchOption};
ghost use Rattle.httparse.specs.Spans.{IsHeaderWithin, header_bytes};
ghost use Rattle.wire_head.specs.ResponseHeads.{IsNoHead, IsHeadRead, field_of, reply_head};

use auth_text::{Bytes, Items, NoMemory};
use httparse::Status;
use httparse::spans::{EMPTY_HEADER_SPAN, HeaderSpan, parse_response};
use std::alloc::Global;

/// A field of a head.
#[derive(Debug, Drop)]
pub(crate) struct Field {
    pub name: Bytes,
    pub value: Bytes,
}

/// What a head says.
#[derive(Debug, Drop)]
pub(crate) struct ReplyHead {
    pub code: u16,
    pub minor: u8,
    pub fields: Items<Field>,
}

fn fields_of(alloc: Global, bytes: &[u8], spans: &[HeaderSpan]) -> Result<Items<Field>, NoMemory>
    requires { All (IsHeaderWithin (length bytes.now)) spans.now }
    ensures { IfOk result (λ them. them ≡ map field_of (map (header_bytes bytes.now) spans.now)) }
{
    let mut them = Items::new(alloc);
    for span in spans {
        let name = Bytes::from_slice(alloc, span.name.of(bytes))?;
        let value = Bytes::from_slice(alloc, span.value.of(bytes))?;
        them.push(Field { name, value })?;
    }
    Ok(them)
}

/// The head that the bytes are, all of them.
fn whole_head(alloc: Global, bytes: &[u8]) -> Result<Option<ReplyHead>, NoMemory>
    ensures { IfOk result (λ read. MatchOption read (IsNoHead bytes.now) (IsHeadRead bytes.now)) }
{
    let mut spans = [EMPTY_HEADER_SPAN; 256];
    match parse_response(bytes, &mut spans) {
        Ok(Status::Complete(head)) => {
            if head.len != bytes.len() {
                return Ok(None);
            }
            let fields = fields_of(alloc, bytes, &spans[..head.headers])?;
            Ok(Some(ReplyHead {
                code: head.code,
                minor: head.version,
                fields,
            }))
        }
        _ => Ok(None),
    }
}

/// What the bytes say as a head, where they are one.
pub(crate) fn head_of(alloc: Global, bytes: &[u8]) -> Result<Option<ReplyHead>, NoMemory>
    ensures { IfOk result (λ read. read ≡ reply_head bytes.now) }
{
    whole_head(alloc, bytes)
}
