//! The target in a request line: neither the fragment nor the identity of a URL goes out in it.

ghost use Rattle.std.specs.Prelude.{◌≡◌, ◌++◌, IfOk, OnOk, option_copied};
ghost use Rattle.spaces.specs.RequestTargets.{authority, port_text, query_text, request_target};
ghost use Rattle.spaces.specs.RequestTargets.{target_start};

use crate::place::{Origin, Place};
use auth_text::{Bytes, NoMemory};
use itoa::Buffer;
use std::alloc::Global;

/// Adds `:` and the port, unless it is http's own, 80.
pub fn push_port(out: &mut Bytes, port: u16) -> Result<(), NoMemory>
    ensures { OnOk result (out.new ≡ out.old ++ port_text port) }
{
    if port == 80 {
        return Ok(());
    }
    let mut digits = Buffer::new();
    out.push(b':')?;
    out.extend_from_slice(digits.format(port).as_bytes())
}

fn push_query(out: &mut Bytes, query: Option<&Bytes>) -> Result<(), NoMemory>
    ensures { OnOk result (out.new ≡ out.old ++ query_text (option_copied query.entry)) }
{
    match query {
        None => Ok(()),
        Some(query) => {
            out.push(b'?')?;
            out.extend_from_slice(query.as_slice())
        }
    }
}

fn target_start(alloc: Global, origin: &Origin, proxy: bool) -> Result<Bytes, NoMemory>
    ensures { IfOk result (λ start. start ≡ target_start origin.now proxy) }
{
    if !proxy {
        return Ok(Bytes::new(alloc));
    }
    let mut start = Bytes::from_slice(alloc, b"http://")?;
    start.extend_from_slice(origin.host.as_slice())?;
    push_port(&mut start, origin.port)?;
    Ok(start)
}

impl Place {
    /// What the request line names: path and query, and for a proxy also `http://`, the host and,
    /// where it isn't 80, the port (RFC 7230 section 5.3).
    pub fn request_target(&self, alloc: Global, proxy: bool) -> Result<Bytes, NoMemory>
        ensures { IfOk result (λ target. target ≡ request_target self.now proxy) }
    {
        let mut target = target_start(alloc, &self.origin, proxy)?;
        target.extend_from_slice(self.path.as_slice())?;
        push_query(&mut target, self.query.as_ref())?;
        Ok(target)
    }
}
