//! The lines of the roster: allowed origins and requests.

ghost use Rattle.std.specs.Prelude.{◌≡◌, ◌≤◌, ◌++◌, length, OnOk};
ghost use Rattle.report_lines.specs.RosterLines as spec;

use crate::words::{push_number, push_origin, push_text, push_value};
use auth_text::{Bytes, NoMemory};
use spaces::{Method, Origin, Request};
use std::alloc::Global;

/// Appends the line of the seed.
pub fn push_seed_line(alloc: Global, out: &mut Bytes, seed: &[u8]) -> Result<(), NoMemory>
    ensures { OnOk result (out.new ≡ out.old ++ spec.seed_line seed.now) }
{
    let digits = hex::encode(alloc, seed)?;
    push_text(out, b"seed ")?;
    push_text(out, digits.as_bytes())?;
    push_text(out, b"\n")
}

fn method_word(method: Method) -> &'static [u8]
    ensures { result.now ≡ spec.method_word method }
{
    match method {
        Method::Get => b" GET",
        Method::Head => b" HEAD",
    }
}

/// Appends the line of an allowed origin.
pub fn push_default_line(alloc: Global, out: &mut Bytes, origin: &Origin) -> Result<(), NoMemory>
    ensures { OnOk result (out.new ≡ out.old ++ spec.default_line origin.now) }
{
    push_text(out, b"default")?;
    push_origin(alloc, out, origin)?;
    push_text(out, b"\n")
}

/// Appends the line of each allowed origin.
pub fn push_default_lines(
    alloc: Global,
    out: &mut Bytes,
    origins: &[Origin],
) -> Result<(), NoMemory>
    ensures { OnOk result (out.new ≡ out.old ++ spec.default_lines origins.now) }
{
    for origin in origins {
        push_default_line(alloc, out, origin)?;
    }
    Ok(())
}

fn push_proxy(alloc: Global, out: &mut Bytes, proxy: &Option<Origin>) -> Result<(), NoMemory>
    ensures { OnOk result (out.new ≡ out.old ++ spec.proxy_word proxy.now) }
{
    match proxy {
        None => push_text(out, b" -"),
        Some(origin) => push_origin(alloc, out, origin),
    }
}

/// Appends the line of the request of that number.
pub fn push_request_line(
    alloc: Global,
    out: &mut Bytes,
    number: u32,
    request: &Request,
) -> Result<(), NoMemory>
    ensures { OnOk result (out.new ≡ out.old ++ spec.request_line number request.now) }
{
    push_text(out, b"request")?;
    push_number(out, number)?;
    push_text(out, method_word(request.method))?;
    push_value(alloc, out, request.partition.name())?;
    push_value(alloc, out, request.place.text.as_slice())?;
    push_proxy(alloc, out, &request.proxy)?;
    push_text(out, b"\n")
}

/// Appends the line of each request.
pub fn push_request_lines(
    alloc: Global,
    out: &mut Bytes,
    requests: &[Request],
) -> Result<(), NoMemory>
    requires { length requests.now ≤ 2048 }
    ensures { OnOk result (out.new ≡ out.old ++ spec.request_lines 1 requests.now) }
{
    let mut number = 1u32;
    for request in requests {
        push_request_line(alloc, out, number, request)?;
        number += 1;
    }
    Ok(())
}
