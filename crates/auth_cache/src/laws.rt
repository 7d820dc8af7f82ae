//! A cache that is told what happens in the spaces of its partition has the live ones of the
//! history. Each law is the contract of a function that does nothing, so the check proves it for
//! all legal histories of any book.

ghost use Rattle.std.specs.Prelude.{◌≡◌, ◌≤◌, ◌∷◌, [], length, ℕ, Bool, true, false, List};
ghost use Rattle.std.specs.Prelude.{option_map, unwrap_or};
ghost use Rattle.spaces.specs.Sites.{numbered};
ghost use Rattle.spaces.specs.declared.roster.Roster.{Roster};
ghost use Rattle.auth_events.specs.declared.journal.Entry.{Entry};
ghost use Rattle.auth_events.specs.Tables.{Tables};
ghost use Rattle.auth_events.specs.Past.{evicted as evicted_space, live};
ghost use Rattle.auth_events.specs.Book.{IsLegalPast, is_of_partition, is_rival};
ghost use Rattle.auth_cache.specs.declared.cache.Held.{Held};
ghost use Rattle.auth_cache.specs.Cached.{evicted};
ghost use Rattle.auth_cache.specs.Histories.{HasLive, entries_told};

/// An empty cache has the live spaces of a partition that has none: of each before the first
/// entry, and of one whose first space is named later.
pub fn starts_empty()
    ensures { (is_in : ℕ → Bool) (past : List Entry)
        → ((s : ℕ) → is_in s ≡ true → live past s ≡ false)
        → HasLive is_in past [] }
{}

/// After each entry of a legal history, a cache of a partition that is told each entry about a
/// space of that partition has the live spaces of the partition, in order of touch, each with its
/// gift and its terms. Entries about other partitions leave it as it is.
pub fn keeps_the_live_spaces()
    ensures { (roster : Roster) (names : Tables) (partition : List ℕ)
        (past : List Entry) (entry : Entry) (entries : List Held)
        → IsLegalPast roster names (entry ∷ past)
        → HasLive (is_of_partition names partition) past entries
        → HasLive (is_of_partition names partition) (entry ∷ past)
        (entries_told (is_of_partition names partition) 32 entry.call entry.reply entries) }
{}

/// A partition has at most 32 live spaces. What its cache gives up for a space is what the book
/// evicts for it: the live space of the partition that was not touched for longest.
pub fn evicts_as_the_book()
    ensures few { (roster : Roster) (names : Tables) (partition : List ℕ)
        (past : List Entry) (entries : List Held)
        → IsLegalPast roster names past
        → HasLive (is_of_partition names partition) past entries
        → length entries ≤ 32 }
    ensures space { (roster : Roster) (names : Tables) (partition : List ℕ)
        (past : List Entry) (entries : List Held) (s : ℕ)
        → IsLegalPast roster names past
        → HasLive (is_of_partition names partition) past entries
        → is_of_partition names partition s ≡ true
        → unwrap_or (option_map (λ held. held.gift.space) (evicted 32 entries s)) 0
        ≡ evicted_space (is_rival names s) past s }
{}

/// A cache of a partition has its live spaces under other names too, where those of live spaces
/// stay: so it lasts when more is named.
pub fn lasts_under_more_names()
    ensures { (names more : Tables) (partition : List ℕ) (past : List Entry) (entries : List Held)
        → ((s : ℕ) → live past s ≡ true → numbered more.spaces s ≡ numbered names.spaces s)
        → HasLive (is_of_partition names partition) past entries
        → HasLive (is_of_partition more partition) past entries }
{}
