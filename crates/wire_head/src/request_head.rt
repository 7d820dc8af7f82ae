//! The heads of requests. Each line is written here and nowhere else, so that nothing goes out that
//! the contract of `write_head` doesn't show.

ghost use Rattle.std.specs.Prelude.{◌≡◌, ◌++◌, IfOk, OnOk};
ghost use Rattle.std.specs.Option.{option_map};
ghost use Rattle.wire_head.specs.RequestHeads as spec;

use auth_text::{Bytes, NoMemory};
use spaces::{Method, Origin, push_port};
use std::alloc::Global;

/// The parts of a request's head. They are fit to be written where the target has no space, CR or
/// LF, the values have no CR or LF, and the host has no CR or LF and either has no colon or stands
/// in brackets.
#[derive(Clone, Copy, Debug)]
pub struct HeadParts<'a> {
    pub method: Method,
    /// The request target, in absolute form where the request goes to a proxy.
    pub target: &'a [u8],
    /// The server's.
    pub origin: &'a Origin,
    /// The value of `Proxy-Authorization`.
    pub proxy: Option<&'a [u8]>,
    /// The value of `Authorization`.
    pub server: Option<&'a [u8]>,
    /// Whether the connection is to stay open.
    pub keep: bool,
}

fn push_request_line(out: &mut Bytes, method: Method, target: &[u8]) -> Result<(), NoMemory>
    ensures { OnOk result (out.new ≡ out.old ++ spec.request_line method target.now) }
{
    out.extend_from_slice(method.name())?;
    out.extend_from_slice(b" ")?;
    out.extend_from_slice(target)?;
    out.extend_from_slice(b" HTTP/1.1\r\n")
}

fn push_host(out: &mut Bytes, origin: &Origin) -> Result<(), NoMemory>
    ensures { OnOk result (out.new ≡ out.old ++ spec.host_line origin.now) }
{
    out.extend_from_slice(b"Host: ")?;
    out.extend_from_slice(origin.host.as_slice())?;
    push_port(out, origin.port)?;
    out.extend_from_slice(b"\r\n")
}

fn push_field(out: &mut Bytes, name: &[u8], value: Option<&[u8]>) -> Result<(), NoMemory>
    ensures { OnOk result (out.new
        ≡ out.old ++ spec.field_line name.now (option_map (λ v. v.now) value.entry)) }
{
    let Some(value) = value else {
        return Ok(());
    };
    out.extend_from_slice(name)?;
    out.extend_from_slice(b": ")?;
    out.extend_from_slice(value)?;
    out.extend_from_slice(b"\r\n")
}

fn push_connection(out: &mut Bytes, keep: bool) -> Result<(), NoMemory>
    ensures { OnOk result (out.new ≡ out.old ++ spec.connection_line keep) }
{
    if keep {
        out.extend_from_slice(b"Connection: keep-alive\r\n")
    } else {
        out.extend_from_slice(b"Connection: close\r\n")
    }
}

/// The head of a request of these parts, up to and with its empty line.
pub fn write_head(alloc: Global, parts: &HeadParts) -> Result<Bytes, NoMemory>
    ensures { IfOk result (λ text. text
        ≡ spec.head parts.now.method parts.now.target.now parts.now.origin.now (option_map
        (λ v. v.now) parts.now.proxy) (option_map (λ v. v.now) parts.now.server) parts.now.keep) }
{
    let mut out = Bytes::new(alloc);
    push_request_line(&mut out, parts.method, parts.target)?;
    push_host(&mut out, parts.origin)?;
    push_field(&mut out, b"Proxy-Authorization", parts.proxy)?;
    push_field(&mut out, b"Authorization", parts.server)?;
    push_connection(&mut out, parts.keep)?;
    out.extend_from_slice(b"\r\n")?;
    Ok(out)
}
