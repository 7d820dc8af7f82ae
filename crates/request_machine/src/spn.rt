//! The name by which a provider of tokens knows a service: `HTTP@` and the host (RFC 2743
//! section 4.1).

ghost use Rattle.std.specs.Prelude.{◌≡◌, IfOk, option_map, option_copied};
ghost use Rattle.spaces.specs.Sites.{site};
ghost use Rattle.request_machine.specs.Contexts.{spn_told};

use auth_text::{Bytes, NoMemory};
use spaces::{Request, Target};
use std::alloc::Global;

/// The host of the target's site, where the target is on the route.
fn host_of(request: &Request, target: Target) -> Option<&[u8]>
    ensures { option_copied result
        ≡ option_map (λ place. place.origin.host) (site request.now target) }
{
    match target {
        Target::Server => Some(request.place.origin.host.as_slice()),
        Target::Proxy => match &request.proxy {
            Some(proxy) => Some(proxy.host.as_slice()),
            None => None,
        },
        Target::Socks => None,
    }
}

/// The name of the target's service.
pub(crate) fn spn_of(alloc: Global, request: &Request, target: Target) -> Result<Bytes, NoMemory>
    ensures { IfOk result (λ name. name ≡ spn_told request.now target) }
{
    let mut name = Bytes::from_slice(alloc, b"HTTP@")?;
    if let Some(host) = host_of(request, target) {
        name.extend_from_slice(host)?;
    }
    Ok(name)
}
