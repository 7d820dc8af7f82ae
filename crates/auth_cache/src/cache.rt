//! The cache: one entry for each live space, the one touched last at the end, so that the first is
//! the one to give up. Its bound is at most 32, so each call looks at no more entries than that,
//! and it takes no memory but its own.

ghost use Rattle.std.specs.Prelude.{◌≡◌, ◌≤◌, ◌<◌, [], IsTrue, IfSome, is_some, length, option_map};
ghost use Rattle.std.specs.Prelude.{Some, None, find, map, ◌||◌, nat_lt};
ghost use Rattle.auth_cache.specs.Cached.{evicted, held_in, is_of, put_in, removal, taken_out};
ghost use Rattle.auth_cache.specs.Cached.{touched, with_terms, without, retermed};

use arrayvec::ArrayVec;
use auth_events::Gift;
use std::marker::Model;

/// The gift that a space holds, and the number of its terms: 0 where the space has none.
#[derive(Clone, Copy, Debug, PartialEq, Eq)]
pub struct Held {
    pub gift: Gift,
    pub terms: u32,
}

/// A free place of a cache: no space has the number 0.
impl Default for Held {
    fn default() -> Held {
        Held {
            gift: Gift {
                space: 0,
                ordinal: 0,
            },
            terms: 0,
        }
    }
}

/// What became of a gift that was to be removed.
#[derive(Clone, Copy, Debug, PartialEq, Eq)]
pub enum Removal {
    /// The space held it, and now holds none.
    Removed(Held),
    /// The space holds another gift, of this ordinal, or none (0). Nothing changed.
    Kept { ordinal: u32 },
}

/// The greatest bound.
const ROOM: usize = 32;

/// The credentials of some spaces, in order of last touch.
#[derive(Drop)]
pub struct AuthCache {
    bound: usize,
    entries: ArrayVec<Held, ROOM>,
}

impl Model for AuthCache {
    ghost use Rattle.std.specs.Prelude.{◌≤◌};
    ghost use Rattle.arrayvec.specs.ArrayVec.{array_vec_len};
    ghost use Rattle.auth_cache.specs.Cached.{Cached};

    ghost Value = { Cached };

    ghost view = { λ c. record { bound = c.bound; entries = c.entries.items } };

    ghost invariant = { λ c. (1 ≤ c.bound) × (c.bound ≤ 32) × (array_vec_len c.entries ≤ c.bound) };
}

impl AuthCache {
    /// An empty cache of at most `bound` entries, from 1 to 32.
    pub fn new(bound: u32) -> AuthCache
        requires at_least { 1 ≤ bound }
        requires at_most { bound ≤ 32 }
        ensures { result ≡ record { bound = bound; entries = [] } }
    {
        AuthCache {
            bound: bound as usize,
            entries: ArrayVec::new(),
        }
    }

    /// Keeps the gift and its terms for its space, as the entry that was touched last. Where the
    /// space has no entry and there is no room for one, the entry that was not touched for longest
    /// goes, and is the answer.
    pub fn put(&mut self, gift: Gift, terms: u32) -> Option<Held>
        ensures after { self.new ≡ record self.old {
          entries = put_in self.old.bound self.old.entries (record { gift = gift; terms = terms });
        } }
        ensures evicted { result ≡ evicted self.old.bound self.old.entries gift.space }
    {
        drop_space(&mut self.entries, gift.space);
        let gone = if self.entries.len() < self.bound {
            None
        } else {
            Some(self.entries.remove(0))
        };
        self.entries.push(Held { gift, terms });
        gone
    }

    /// The entry that would go if a gift of the space were put now. It changes nothing, so a book
    /// can name who is evicted before it gives.
    pub fn outgoing(&self, space: u32) -> Option<Held>
        ensures { result ≡ evicted self.now.bound self.now.entries space }
    {
        outgoing(self.bound, self.entries.as_slice(), space)
    }

    /// Removes the entry of the gift's space, where it holds this gift.
    pub fn remove_if(&mut self, gift: Gift) -> Removal
        ensures removal { result ≡ removal gift (held_in self.old.entries gift.space) }
        ensures after { self.new ≡ record self.old { entries = taken_out gift self.old.entries } }
    {
        match find_space(self.entries.as_slice(), gift.space) {
            Some(held) if held.gift == gift => {
                drop_space(&mut self.entries, gift.space);
                Removal::Removed(held)
            }
            Some(held) => Removal::Kept {
                ordinal: held.gift.ordinal,
            },
            None => Removal::Kept { ordinal: 0 },
        }
    }

    /// Gives the space's entry other terms, and answers the old ones. It is no touch.
    pub fn set_terms(&mut self, space: u32, terms: u32) -> u32
        requires { IsTrue (is_some (held_in self.old.entries space)) }
        ensures old { Some result
            ≡ option_map (λ held. held.terms) (held_in self.old.entries space) }
        ensures after { self.new
            ≡ record self.old { entries = with_terms space terms self.old.entries } }
    {
        let old = match find_space(self.entries.as_slice(), space) {
            Some(held) => held.terms,
            None => unreachable!(),
        };
        write_terms(self.entries.as_mut_slice(), space, terms);
        old
    }

    /// Makes the space's entry, where it has one, the one that was touched last.
    pub fn touch(&mut self, space: u32)
        ensures { self.new ≡ record self.old { entries = touched space self.old.entries } }
    {
        if let Some(held) = take_space(&mut self.entries, space) {
            self.entries.push(held);
        }
    }

    /// The entries, that of the space touched last at the end. It is no touch.
    pub fn entries(&self) -> &[Held]
        ensures { result.now ≡ self.now.entries }
    {
        self.entries.as_slice()
    }

    /// What the space holds. It is no touch.
    pub fn get(&self, space: u32) -> Option<Held>
        ensures { result ≡ held_in self.now.entries space }
    {
        find_space(self.entries.as_slice(), space)
    }
}

/// The entry of the space.
fn find_space(entries: &[Held], space: u32) -> Option<Held>
    ensures { result ≡ held_in entries.now space }
{
    for held in entries {
        if held.gift.space == space {
            return Some(*held);
        }
    }
    None
}

/// Drops the space's entry.
fn drop_space(entries: &mut ArrayVec<Held, ROOM>, space: u32)
    ensures items { entries.new.items ≡ without space entries.old.items }
    ensures fewer { length entries.new.items ≤ length entries.old.items }
{
    entries.retain(|held| held.gift.space != space);
}

/// Takes the space's entry out.
fn take_space(entries: &mut ArrayVec<Held, ROOM>, space: u32) -> Option<Held>
    ensures items { entries.new.items ≡ without space entries.old.items }
    ensures found { result ≡ held_in entries.old.items space }
    ensures fewer { length entries.new.items ≤ length entries.old.items }
    ensures taken { IfSome result (λ held. length entries.new.items < length entries.old.items) }
{
    let found = find_space(entries.as_slice(), space);
    drop_space(entries, space);
    found
}

/// Whether nobody has to go for the space.
fn has_room(bound: usize, entries: &[Held], space: u32) -> bool
    ensures { result ≡ (is_some (held_in entries.now space) || nat_lt (length entries.now) bound) }
{
    find_space(entries, space).is_some() || entries.len() < bound
}

/// The first entry, where there is no room for the space.
fn outgoing(bound: usize, entries: &[Held], space: u32) -> Option<Held>
    requires { length entries.now ≤ bound }
    ensures { result ≡ evicted bound entries.now space }
{
    if has_room(bound, entries, space) {
        return None;
    }
    entries.first().copied()
}

/// The entry with other terms, where it is of the space.
fn retermed(space: u32, terms: u32, held: Held) -> Held
    ensures { result ≡ retermed space terms held }
{
    if held.gift.space == space {
        Held { terms, ..held }
    } else {
        held
    }
}

/// Gives the space's entry other terms.
fn write_terms(entries: &mut [Held], space: u32, terms: u32)
    ensures { entries.new ≡ with_terms space terms entries.old }
{
    for held in entries.iter_mut() {
        *held = retermed(space, terms, *held);
    }
}
