//! A space as a key of an ordered map: its parts, of which each has an order.

ghost use Rattle.std.specs.Prelude.{◌≡◌, IfOk};
ghost use Rattle.link_trait.specs.Index.{IsKeyOf, target_number, scheme_number};

use auth_text::NoMemory;
use spaces::{Scheme, Space, Target};
use std::alloc::Global;

/// The parts of a space.
#[derive(PartialEq, Eq, PartialOrd, Ord, Drop)]
pub(crate) struct SpaceKey {
    partition: Vec<u8>,
    target: u8,
    host: Vec<u8>,
    port: u16,
    scheme: u8,
    realm: Vec<u8>,
}

fn target_number(target: Target) -> u8
    ensures { result ≡ target_number target }
{
    match target {
        Target::Server => 0,
        Target::Proxy => 1,
        Target::Socks => 2,
    }
}

fn scheme_number(scheme: Scheme) -> u8
    ensures { result ≡ scheme_number scheme }
{
    match scheme {
        Scheme::Basic => 0,
        Scheme::Digest => 1,
        Scheme::Negotiate => 2,
        Scheme::Password => 3,
    }
}

/// The key of a space.
pub(crate) fn key_of(alloc: Global, space: &Space) -> Result<SpaceKey, NoMemory>
    ensures { IfOk result (λ key. IsKeyOf key space.now) }
{
    let site = space.site();
    Ok(SpaceKey {
        partition: Vec::from_slice(alloc, site.partition.name())?,
        target: target_number(site.target),
        host: Vec::from_slice(alloc, site.origin.host.as_slice())?,
        port: site.origin.port,
        scheme: scheme_number(space.scheme()),
        realm: Vec::from_slice(alloc, space.realm())?,
    })
}
