//! The number of a site, which is that of the first space that is named of it, and the live spaces
//! of a site.

ghost use Rattle.std.specs.Prelude.{◌≡◌, ◌<◌, IfSome, length};
ghost use Rattle.std.specs.List.{position_from};
ghost use Rattle.std.specs.Prelude.{bytes_eq, find, option_copied, option_map};
ghost use Rattle.spaces.specs.Sites.{same_site, site};
ghost use Rattle.auth_events.specs.Book as Book;
ghost use Rattle.auth_book.specs.SiteNumbers.{site_no, site_number};

use auth_cache::Held;
use auth_events::Names;
use spaces::{
    Origin, Partition, Request, Site, Space, Target, same_origin, same_site, same_target,
};

fn position_of_site(spaces: &[Space], site: &Site) -> Option<usize>
    ensures place { result ≡ position_from (λ named. same_site named.site site.now) 0 spaces.now }
    ensures within { IfSome result (λ at. at < length spaces.now) }
{
    spaces
        .iter()
        .position(|named| same_site(named.site(), site))
}

/// The number of the site, or 0.
pub fn site_number(names: &Names, site: &Site) -> u32
    ensures { result ≡ site_number names.now site.now }
{
    match position_of_site(names.spaces(), site) {
        Some(at) => at as u32 + 1,
        None => 0,
    }
}

/// The number of the space's site, or 0.
pub fn site_no(names: &Names, space: u32) -> u32
    ensures { result ≡ site_no names.now space }
{
    match names.space(space) {
        Some(named) => site_number(names, named.site()),
        None => 0,
    }
}

fn same_bytes(a: &[u8], b: &[u8]) -> bool
    ensures { result ≡ bytes_eq a.now b.now }
{
    a == b
}

/// Whether the space is of the site of these parts.
fn is_of_site(
    names: &Names,
    space: u32,
    partition: &Partition,
    target: Target,
    origin: &Origin,
) -> bool
    ensures { result ≡ Book.is_of_site names.now
        (record { partition = partition.now; target = target; origin = origin.now }) space }
{
    match names.space(space) {
        Some(named) => is_site(named.site(), partition, target, origin),
        None => false,
    }
}

/// Whether the site is the one of these parts.
fn is_site(site: &Site, partition: &Partition, target: Target, origin: &Origin) -> bool
    ensures { result ≡ same_site site.now
        (record { partition = partition.now; target = target; origin = origin.now }) }
{
    same_bytes(site.partition.name(), partition.name())
        && same_target(site.target, target)
        && same_origin(&site.origin, origin)
}

/// The entry of a live space of the site of these parts, where there is one.
pub fn live_at(
    names: &Names,
    entries: &[Held],
    partition: &Partition,
    target: Target,
    origin: &Origin,
) -> Option<Held>
    ensures { result ≡ find (λ held. Book.is_of_site names.now
        (record { partition = partition.now; target = target; origin = origin.now })
        held.gift.space) entries.now }
{
    for held in entries {
        if is_of_site(names, held.gift.space, partition, target, origin) {
            return Some(*held);
        }
    }
    None
}

/// The origin of the request's site for the target, where it has that site.
pub fn origin_of(request: &Request, target: Target) -> Option<&Origin>
    ensures { option_map (λ origin. record {
      partition = request.now.partition;
      target = target;
      origin = origin;
    }) (option_copied result) ≡ site request.now target }
{
    match target {
        Target::Server => Some(&request.place.origin),
        Target::Proxy => request.proxy.as_ref(),
        Target::Socks => None,
    }
}
