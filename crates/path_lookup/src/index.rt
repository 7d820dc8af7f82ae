//! The index: notes in the order in which they were added, each of a directory of a space. A note
//! keeps whose path its directory is of, and no copy of it: the roster has the path. All room is
//! taken at once, and each call goes over the notes of its index alone, at most ten for each of
//! its spaces.

ghost use Rattle.std.specs.Prelude.{◌≡◌, ◌≤◌, ◌<◌, ◌*◌, ◌++◌, ◌∷◌, ◌||◌, ◌==◌, [], IfOk, IsTrue};
ghost use Rattle.std.specs.Prelude.{is_some, length, drop, take, not, option_map, unwrap_or};
ghost use Rattle.std.specs.Prelude.{nat_lt, nat_le, filter, ◌&&◌, count_by, vec_capacity, IfSome};
ghost use Rattle.std.specs.List.{list_any, position_from};
ghost use Rattle.spaces.specs.Sites.{numbered};
ghost use Rattle.spaces.specs.Paths.{covers};
ghost use Rattle.path_lookup.specs.Notes.{added, best_note, better_note, covers_it, deepest};
ghost use Rattle.path_lookup.specs.Notes.{dir_at, drop_first, has_free_row, is_covered, is_of};
ghost use Rattle.path_lookup.specs.Notes.{under, with_room, without};

use auth_text::NoMemory;
use spaces::{Roster, Target, covers, dir_of};
use std::alloc::Global;
use std::marker::Model;

/// A directory of a space, whose site has that number: the directory of the request's path, or `/`
/// for a proxy.
#[derive(Clone, Copy)]
struct Note {
    space: u32,
    site: u32,
    request: u32,
    target: Target,
}

/// The most directories that are kept of a space.
const MOST: usize = 10;

/// The directories under which the spaces of one partition are known to be asked for.
#[derive(Drop)]
pub struct PathIndex {
    spaces: u32,
    notes: Vec<Note>,
}

impl Model for PathIndex {
    ghost use Rattle.std.specs.Prelude.{◌*◌, ◌≤◌, vec_capacity};
    ghost use Rattle.path_lookup.specs.Notes.{Index, AreWithinRows};

    ghost Value = { Index };

    ghost view = { λ p. record { spaces = p.spaces; notes = p.notes.items } };

    ghost invariant = { λ p. AreWithinRows p.spaces p.notes.items
        × (10 * p.spaces ≤ vec_capacity p.notes) };
}

impl PathIndex {
    /// An empty index, with room for so many spaces of ten directories each.
    pub fn new(alloc: Global, spaces: u32) -> Result<PathIndex, NoMemory>
        ensures { IfOk result (λ index. index ≡ record { spaces = spaces; notes = [] }) }
    {
        let notes = Vec::with_capacity(alloc, MOST * spaces as usize)?;
        Ok(PathIndex { spaces, notes })
    }

    /// Notes the directory of the request's path, or `/` for a proxy, as one of the space, whose
    /// site has that number. It isn't added where a directory of the space covers it. Where it is
    /// added, those that it covers go, and of more than ten the one that was added first.
    ///
    /// An index has the request's number, so it is only asked with the roster that it was noted
    /// with.
    pub fn add(&mut self, roster: &Roster, space: u32, site: u32, request: u32, target: Target)
        requires row { IsTrue (has_free_row self.old.spaces self.old.notes space) }
        requires request { IsTrue (is_some (numbered roster.now.requests request)) }
        ensures { self.new ≡ record self.old {
          notes = added roster.now (record {
            space = space;
            site = site;
            request = request;
            target = target;
          }) self.old.notes;
        } }
    {
        let note = Note {
            space,
            site,
            request,
            target,
        };
        if is_covered(roster, self.notes.as_slice(), note) {
            return;
        }
        drop_covered(roster, &mut self.notes, note);
        make_room(&mut self.notes, space);
        self.notes.push_reserved(note);
    }

    /// Drops the directories of the space, where it has some.
    pub fn drop_space(&mut self, space: u32)
        ensures { self.new ≡ record self.old { notes = without space self.old.notes } }
    {
        drop_notes(&mut self.notes, space);
    }

    /// The space of the site with the longest directory that covers the path (RFC 7617 section
    /// 2.2), of equally long ones that whose directory was added last; 0 where there is none.
    pub fn deepest(&self, roster: &Roster, site: u32, path: &[u8]) -> u32
        ensures { result ≡ deepest roster.now site path.now self.now.notes }
    {
        match best_note(roster, self.notes.as_slice(), site, path) {
            Some(note) => note.space,
            None => 0,
        }
    }
}

/// The directory that the note is of.
fn dir_at(roster: &Roster, note: Note) -> &[u8]
    ensures { result.now ≡ dir_at roster.now note }
{
    match roster.requests.get(note.request) {
        Some(request) => match note.target {
            Target::Server => dir_of(request.place.path.as_slice()),
            _ => b"/",
        },
        None => &[],
    }
}

/// Whether a directory of the note's space covers the note's.
fn is_covered(roster: &Roster, notes: &[Note], note: Note) -> bool
    ensures { result ≡ is_covered roster.now note notes.now }
{
    notes.iter().any(|held| held.space == note.space
        && covers(dir_at(roster, *held), dir_at(roster, note)))
}

/// Whether the other one is of the note's space, and its directory is covered.
fn covers_it(roster: &Roster, note: Note, held: Note) -> bool
    ensures { result ≡ covers_it roster.now note held }
{
    held.space == note.space && covers(dir_at(roster, note), dir_at(roster, held))
}

/// Drops the directories of the note's space that the note's covers.
fn drop_covered(roster: &Roster, notes: &mut Vec<Note>, note: Note)
    ensures notes { notes.new.items
        ≡ filter (λ held. not (covers_it roster.now note held)) notes.old.items }
    ensures capacity { vec_capacity notes.new ≡ vec_capacity notes.old }
{
    notes.retain(|held| !covers_it(roster, note, *held));
}

/// Drops the space's notes.
fn drop_notes(notes: &mut Vec<Note>, space: u32)
    ensures notes { notes.new.items ≡ without space notes.old.items }
    ensures capacity { vec_capacity notes.new ≡ vec_capacity notes.old }
{
    notes.retain(|held| held.space != space);
}

/// The place of the space's first note.
fn first_of(notes: &[Note], space: u32) -> Option<usize>
    ensures place { result ≡ position_from (is_of space) 0 notes.now }
    ensures within { IfSome result (λ at. at < length notes.now) }
{
    notes.iter().position(|held| held.space == space)
}

/// Drops the space's first note.
fn drop_first(notes: &mut Vec<Note>, space: u32)
    ensures notes { notes.new.items ≡ drop_first space notes.old.items }
    ensures capacity { vec_capacity notes.new ≡ vec_capacity notes.old }
{
    if let Some(at) = first_of(notes.as_slice(), space) {
        notes.remove(at);
    }
}

/// Of ten directories of the space drops the first.
fn make_room(notes: &mut Vec<Note>, space: u32)
    ensures notes { notes.new.items ≡ with_room space notes.old.items }
    ensures capacity { vec_capacity notes.new ≡ vec_capacity notes.old }
{
    if count(notes.as_slice(), space) >= MOST {
        drop_first(notes, space);
    }
}

/// How many directories the space has.
fn count(notes: &[Note], space: u32) -> usize
    ensures { result ≡ count_by (is_of space) notes.now }
{
    notes.iter().filter(|held| held.space == space).count()
}

/// Of the best so far and a note the better one.
fn better_note(roster: &Roster, best: Option<Note>, note: Note) -> Option<Note>
    ensures { result ≡ better_note roster.now best note }
{
    match best {
        Some(held) if dir_at(roster, note).len() < dir_at(roster, held).len() => Some(held),
        _ => Some(note),
    }
}

/// The best directory of the site that covers the path.
fn best_note(roster: &Roster, notes: &[Note], site: u32, path: &[u8]) -> Option<Note>
    ensures { result ≡ best_note roster.now site path.now notes.now }
{
    let mut best = None;
    for note in notes {
        if note.site == site && covers(dir_at(roster, *note), path) {
            best = better_note(roster, best, *note);
        }
    }
    best
}
