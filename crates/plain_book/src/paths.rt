//! The directories of a space, and what is found by a path. A directory is known by the place of
//! the entry that noted it, so nothing is copied.

ghost use Rattle.std.specs.Prelude.{◌≡◌, ◌^◌, ◌<◌, ◌≤◌, reverse, length, map, filter, not};
ghost use Rattle.std.specs.Prelude.{option_map, if◌then◌else◌, nat_lt, drop, ◌&&◌, bytes_eq};
ghost use Rattle.std.specs.List.{list_any};
ghost use Rattle.spaces.specs.Paths.{covers};
ghost use Rattle.spaces.specs.Sites.{site, same_site};
ghost use Rattle.auth_events.specs.Book as Book;
ghost use Rattle.auth_events.specs.Past as Past;
ghost use Rattle.plain_book.specs.Places.{request_at, noted_at, found_at, site_seen, best_dir};

use crate::find::{first_given, is_basic, is_digest, live, target_of};
use crate::scan::takes_away;
use arrayvec::ArrayVec;
use auth_events::{BookReply, Call, Entry, Names};
use spaces::{
    Origin, Partition, Request, Roster, Site, Target, covers, dir_of, same_origin, same_target,
};

/// A directory of a space, by the place of the entry that noted it.
#[derive(Clone, Copy, Debug, PartialEq, Eq)]
pub struct FoundAt {
    pub space: u32,
    pub place: u32,
}

fn path_of<'a>(roster: &'a Roster, request: u32, target: Target) -> &'a [u8]
    ensures { result.now ≡ Book.path_of roster.now request target }
{
    match roster.requests.get(request) {
        Some(found) => match target {
            Target::Server => found.place.path.as_slice(),
            _ => b"/",
        },
        None => &[],
    }
}

fn request_at(entries: &[Entry], place: u32) -> u32
    ensures { result ≡ request_at entries.now place }
{
    match entries.get(place as usize) {
        Some(entry) => entry.request,
        None => 0,
    }
}

fn dir_at<'a>(roster: &'a Roster, entries: &[Entry], target: Target, place: u32) -> &'a [u8]
    ensures { result.now ≡ (noted_at roster.now entries.now target place).dir }
{
    dir_of(path_of(roster, request_at(entries, place), target))
}

/// Whether one of the directories covers that of the place.
fn is_covered(roster: &Roster, entries: &[Entry], target: Target, held: &[u32], place: u32) -> bool
    ensures { result
        ≡ list_any (λ one. covers one.dir (noted_at roster.now entries.now target place).dir)
        (map (noted_at roster.now entries.now target) held.now) }
{
    let mut found = false;
    for one in held {
        if covers(
            dir_at(roster, entries, target, *one),
            dir_at(roster, entries, target, place),
        ) {
            found = true;
        }
    }
    found
}

/// Those that the directory of the place doesn't cover.
fn uncovered(
    roster: &Roster,
    entries: &[Entry],
    target: Target,
    held: &[u32],
    place: u32,
) -> ArrayVec<u32, 10>
    requires { length held.now ≤ 10 }
    ensures { map (noted_at roster.now entries.now target) result.items
        ≡ filter (λ one. not (covers (noted_at roster.now entries.now target place).dir one.dir))
        (map (noted_at roster.now entries.now target) held.now) }
{
    let mut kept = ArrayVec::new();
    for one in held {
        if !covers(
            dir_at(roster, entries, target, place),
            dir_at(roster, entries, target, *one),
        ) {
            kept.push(*one);
        }
    }
    kept
}

/// Of ten places the first is dropped.
fn with_room(mut places: ArrayVec<u32, 10>) -> ArrayVec<u32, 10>
    ensures places { result.items
        ≡ (if nat_lt (length places.items) 10 then places.items else drop 1 places.items) }
    ensures room { length result.items < 10 }
{
    if places.is_full() {
        places.remove(0);
    }
    places
}

/// With the directory of the place.
#[tactic(auto, using(crate::proofs::Kept::with_room_map))]
fn with_dir(
    roster: &Roster,
    entries: &[Entry],
    target: Target,
    held: ArrayVec<u32, 10>,
    place: u32,
) -> ArrayVec<u32, 10>
    ensures { map (noted_at roster.now entries.now target) result.items
        ≡ Book.with_dir (noted_at roster.now entries.now target place)
        (map (noted_at roster.now entries.now target) held.items) }
{
    if is_covered(roster, entries, target, held.as_slice(), place) {
        return held;
    }
    let mut kept = with_room(uncovered(roster, entries, target, held.as_slice(), place));
    kept.push(place);
    kept
}

fn notes(entry: &Entry, space: u32) -> bool
    ensures { result ≡ (Book.notes entry.now.call space && Book.is_noted entry.now.reply) }
{
    match entry.call {
        Call::Note { gift } => gift.space == space && matches!(entry.reply, BookReply::Noted),
        _ => false,
    }
}

/// The directories of the space.
#[tactic(auto, using(crate::proofs::Kept::dirs_more))]
fn dirs(roster: &Roster, names: &Names, entries: &[Entry], space: u32) -> ArrayVec<u32, 10>
    requires { length entries.now < 2 ^ 32 }
    ensures { map (noted_at roster.now entries.now (Book.target_of names.now space)) result.items
        ≡ Book.dirs roster.now names.now (reverse entries.now) space }
{
    let target = target_of(names, space);
    let mut held = ArrayVec::new();
    for at in 0..entries.len() {
        let entry = &entries[at];
        if takes_away(entry, space) {
            held = ArrayVec::new();
        } else if notes(entry, space) {
            held = with_dir(roster, entries, target, held, at as u32);
        }
    }
    held
}

/// Of two that were found the better one.
fn better(
    roster: &Roster,
    names: &Names,
    entries: &[Entry],
    a: Option<FoundAt>,
    b: Option<FoundAt>,
) -> Option<FoundAt>
    ensures { option_map (found_at roster.now names.now entries.now) result
        ≡ Book.better (option_map (found_at roster.now names.now entries.now) a)
        (option_map (found_at roster.now names.now entries.now) b) }
{
    match (a, b) {
        (None, b) => b,
        (Some(a), None) => Some(a),
        (Some(a), Some(b)) => {
            if is_longer(roster, names, entries, a, b) {
                Some(a)
            } else {
                Some(b)
            }
        }
    }
}

fn is_longer(roster: &Roster, names: &Names, entries: &[Entry], a: FoundAt, b: FoundAt) -> bool
    ensures { result ≡ Book.longer (found_at roster.now names.now entries.now a).noted
        (found_at roster.now names.now entries.now b).noted }
{
    let a_len = dir_at(roster, entries, target_of(names, a.space), a.place).len();
    let b_len = dir_at(roster, entries, target_of(names, b.space), b.place).len();
    b_len < a_len || a_len == b_len && b.place < a.place
}

/// A site, by its parts.
#[derive(Clone, Copy)]
pub struct SiteRef<'a> {
    pub partition: &'a Partition,
    pub target: Target,
    pub origin: &'a Origin,
}

/// The request's site for the target.
pub fn site<'a>(request: &'a Request, target: Target) -> Option<SiteRef<'a>>
    ensures { option_map site_seen result ≡ site request.now target }
{
    match target {
        Target::Server => Some(SiteRef {
            partition: &request.partition,
            target,
            origin: &request.place.origin,
        }),
        Target::Proxy => match &request.proxy {
            Some(origin) => Some(SiteRef {
                partition: &request.partition,
                target,
                origin,
            }),
            None => None,
        },
        Target::Socks => None,
    }
}

/// Whether two texts are the same bytes.
fn same_bytes(a: &[u8], b: &[u8]) -> bool
    ensures { result ≡ bytes_eq a.now b.now }
{
    a == b
}

/// Whether a request's site is the site.
pub fn is_site_seen(place: SiteRef<'_>, site: &Site) -> bool
    ensures { result ≡ same_site (site_seen place.entry) site.now }
{
    same_bytes(place.partition.name(), site.partition.name())
        && same_target(place.target, site.target)
        && same_origin(place.origin, &site.origin)
}

/// Whether the site is that of a request.
fn is_that_site(site: &Site, place: SiteRef<'_>) -> bool
    ensures { result ≡ same_site site.now (site_seen place.entry) }
{
    same_bytes(site.partition.name(), place.partition.name())
        && same_target(site.target, place.target)
        && same_origin(&site.origin, place.origin)
}

fn is_of_site(names: &Names, place: SiteRef<'_>, space: u32) -> bool
    ensures { result ≡ Book.is_of_site names.now (site_seen place.entry) space }
{
    match names.space(space) {
        Some(named) => is_that_site(named.site(), place),
        None => false,
    }
}

/// The best of the directories that covers the path.
#[tactic(auto, using(crate::proofs::Kept::best_dir_more))]
fn best_dir(
    roster: &Roster,
    names: &Names,
    entries: &[Entry],
    path: &[u8],
    space: u32,
    held: &[u32],
) -> Option<FoundAt>
    ensures { option_map (found_at roster.now names.now entries.now) result
        ≡ best_dir path.now space
        (map (noted_at roster.now entries.now (Book.target_of names.now space)) held.now) }
{
    let mut best = None;
    for place in held {
        let mut one = None;
        if covers(
            dir_at(roster, entries, target_of(names, space), *place),
            path,
        ) {
            one = Some(FoundAt {
                space,
                place: *place,
            });
        }
        best = better(roster, names, entries, best, one);
    }
    best
}

/// What is found in the space.
fn found_in(
    roster: &Roster,
    names: &Names,
    entries: &[Entry],
    place: SiteRef<'_>,
    path: &[u8],
    space: u32,
) -> Option<FoundAt>
    requires { length entries.now < 2 ^ 32 }
    ensures { option_map (found_at roster.now names.now entries.now) result
        ≡ Book.found_in roster.now names.now
        (reverse entries.now) (site_seen place.entry) path.now space }
{
    // The names go first: they cost less than a look at the entries.
    if (is_basic(names, space) || is_digest(names, space))
        && is_of_site(names, place, space)
        && live(entries, space)
    {
        best_dir(
            roster,
            names,
            entries,
            path,
            space,
            dirs(roster, names, entries, space).as_slice(),
        )
    } else {
        None
    }
}

/// What is found by the path.
fn found_by_path(
    roster: &Roster,
    names: &Names,
    entries: &[Entry],
    place: SiteRef<'_>,
    path: &[u8],
) -> Option<FoundAt>
    requires { length entries.now < 2 ^ 32 }
    ensures { option_map (found_at roster.now names.now entries.now) result
        ≡ Book.best_found (Book.found_in roster.now names.now (reverse entries.now)
        (site_seen place.entry) path.now) (Past.spaces_given (reverse entries.now)) }
{
    let mut best = None;
    for entry in entries {
        if let Some(space) = first_given(entry) {
            best = better(
                roster,
                names,
                entries,
                found_in(roster, names, entries, place, path, space),
                best,
            );
        }
    }
    best
}

/// The space of the request's site with the best directory for its path.
pub fn space_by_path(
    roster: &Roster,
    names: &Names,
    entries: &[Entry],
    request: u32,
    target: Target,
) -> Option<u32>
    requires { length entries.now < 2 ^ 32 }
    ensures { result
        ≡ Book.space_by_path roster.now names.now (reverse entries.now) request target }
{
    let found = roster.requests.get(request)?;
    let place = site(found, target)?;
    let best = found_by_path(
        roster,
        names,
        entries,
        place,
        path_of(roster, request, target),
    )?;
    Some(best.space)
}
