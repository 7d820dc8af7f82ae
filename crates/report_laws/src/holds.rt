//! What the parts of a roster and of names hold, since their types hold no more.

ghost use Rattle.std.specs.Prelude.{◌≡◌, ◌<◌, ◌^◌, length, true};
ghost use Rattle.report_laws.specs.Ranges.{are_bytes, are_all_bytes, NameHolds, OpaqueHolds};
ghost use Rattle.report_laws.specs.Ranges.{OriginHolds, ProxyHolds, RequestHolds, SiteHolds};
ghost use Rattle.report_laws.specs.Ranges.{SpaceHolds, TermsHolds, TextHolds};

use auth_events::TermsName;
use auth_text::{Bytes, Identity};
use spaces::{Origin, Partition, Request, Site, Space};

pub fn keeps_bytes(bytes: &[u8])
    ensures { are_bytes bytes.now ≡ true }
{}

/// The bytes of a seed.
pub fn keeps_seed(seed: &[u8; 32])
    ensures bytes { are_bytes seed.now ≡ true }
    ensures size { length seed.now ≡ 32 }
{
    keeps_bytes(seed.as_slice());
}

pub fn keeps_code(code: u16)
    ensures { code < 2 ^ 16 }
{}

pub fn keeps_number(number: u32)
    ensures { number < 2 ^ 32 }
{}

pub fn keeps_count(count: u64)
    ensures { count < 2 ^ 64 }
{}

pub fn keeps_all_bytes(all: &[Bytes])
    ensures { are_all_bytes all.now ≡ true }
{
    for bytes in all {
        keeps_bytes(bytes.as_slice());
    }
}

pub fn keeps_origin(origin: &Origin)
    ensures { OriginHolds origin.now }
{
    keeps_bytes(origin.host.as_slice());
    keeps_code(origin.port);
}

fn keeps_proxy(proxy: &Option<Origin>)
    ensures { ProxyHolds proxy.now }
{
    match proxy {
        None => {}
        Some(origin) => keeps_origin(origin),
    }
}

fn keeps_partition(partition: &Partition)
    ensures { NameHolds partition.now }
{
    keeps_bytes(partition.name());
}

pub fn keeps_request(request: &Request)
    ensures { RequestHolds request.now }
{
    keeps_partition(&request.partition);
    keeps_bytes(request.place.text.as_slice());
    keeps_proxy(&request.proxy);
}

fn keeps_site(site: &Site)
    ensures { SiteHolds site.now }
{
    keeps_partition(&site.partition);
    keeps_origin(&site.origin);
}

pub fn keeps_space(space: &Space)
    ensures { SpaceHolds space.now }
{
    keeps_site(space.site());
    let _scheme = space.scheme();
    keeps_bytes(space.realm());
}

fn keeps_opaque(opaque: &Option<Bytes>)
    ensures { OpaqueHolds opaque.now }
{
    match opaque {
        None => {}
        Some(opaque) => keeps_bytes(opaque.as_slice()),
    }
}

pub fn keeps_terms(name: &TermsName)
    ensures { TermsHolds name.now }
{
    keeps_number(name.space);
    keeps_number(name.nonce);
    keeps_bytes(name.terms.nonce.as_slice());
    keeps_opaque(&name.terms.opaque);
}

pub fn keeps_text(text: &Identity)
    ensures { TextHolds text.now }
{
    keeps_bytes(text.user());
    keeps_bytes(text.password());
}
