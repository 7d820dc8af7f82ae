//! The keys. A key has copies of what it stands for, since a map keeps its keys.

ghost use Rattle.std.specs.Prelude.{◌≡◌, IfOk};
ghost use Rattle.space_keys.specs.Keys.{IsKeyOfSite, IsKeyOfSpace, scheme_number, target_number};

use auth_text::NoMemory;
use spaces::{Scheme, Site, Space, Target};
use std::alloc::Global;

/// The parts of a site.
#[derive(PartialEq, Eq, PartialOrd, Ord, Drop)]
pub struct SiteKey {
    partition: Vec<u8>,
    target: u8,
    host: Vec<u8>,
    port: u16,
}

/// The parts of a space.
#[derive(PartialEq, Eq, PartialOrd, Ord, Drop)]
pub struct SpaceKey {
    site: SiteKey,
    scheme: u8,
    realm: Vec<u8>,
}

fn target_number(target: Target) -> u8
    ensures { result ≡ target_number target }
{
    match target {
        Target::Server => 0,
        Target::Proxy => 1,
        Target::Socks => 2,
    }
}

fn scheme_number(scheme: Scheme) -> u8
    ensures { result ≡ scheme_number scheme }
{
    match scheme {
        Scheme::Basic => 0,
        Scheme::Digest => 1,
        Scheme::Negotiate => 2,
        Scheme::Password => 3,
    }
}

/// The key of a site.
pub fn key_of_site(alloc: Global, site: &Site) -> Result<SiteKey, NoMemory>
    ensures { IfOk result (λ key. IsKeyOfSite key site.now) }
{
    Ok(SiteKey {
        partition: Vec::from_slice(alloc, site.partition.name())?,
        target: target_number(site.target),
        host: Vec::from_slice(alloc, site.origin.host.as_slice())?,
        port: site.origin.port,
    })
}

/// The key of a space.
pub fn key_of_space(alloc: Global, space: &Space) -> Result<SpaceKey, NoMemory>
    ensures { IfOk result (λ key. IsKeyOfSpace key space.now) }
{
    Ok(SpaceKey {
        site: key_of_site(alloc, space.site())?,
        scheme: scheme_number(space.scheme()),
        realm: Vec::from_slice(alloc, space.realm())?,
    })
}
