//! An index that is told what happens in the spaces of its partition has their directories of the
//! history. Each law is the contract of a function that does nothing, so the check proves it for
//! all legal histories of any book.

ghost use Rattle.std.specs.Prelude.{◌≡◌, ◌∷◌, [], ◌==◌, ℕ, Bool, true, false, IsTrue, List};
ghost use Rattle.std.specs.Prelude.{unwrap_or};
ghost use Rattle.spaces.specs.Sites.{numbered};
ghost use Rattle.spaces.specs.declared.roster.Roster.{Roster};
ghost use Rattle.spaces.specs.declared.site.Site.{Site};
ghost use Rattle.auth_events.specs.declared.journal.Entry.{Entry};
ghost use Rattle.auth_events.specs.Tables.{Tables};
ghost use Rattle.auth_events.specs.Past.{live};
ghost use Rattle.auth_events.specs.Book.{IsLegalPast, by_path, is_of_partition, is_of_site};
ghost use Rattle.path_lookup.specs.declared.index.Note.{Note};
ghost use Rattle.path_lookup.specs.Notes.{deepest, has_free_row};
ghost use Rattle.path_lookup.specs.Histories.{HasDirs, notes_told};

/// An empty index has the directories of a partition that has no live space: of each before the
/// first entry, and of one whose first space is named later.
pub fn starts_empty()
    ensures { (roster : Roster) (names : Tables) (sites : ℕ → ℕ) (is_in : ℕ → Bool)
        (past : List Entry)
        → IsLegalPast roster names past
        → ((s : ℕ) → is_in s ≡ true → live past s ≡ false)
        → HasDirs roster names sites is_in past [] }
{}

/// After each entry of a legal history, an index of a partition that is told each entry about a
/// space of that partition has the directories of the partition's live Basic and Digest spaces, in
/// the order in which they were added. Entries about other partitions leave it as it is.
pub fn keeps_the_directories()
    ensures { (roster : Roster) (names : Tables) (sites : ℕ → ℕ) (partition : List ℕ)
        (past : List Entry) (entry : Entry) (notes : List Note)
        → IsLegalPast roster names (entry ∷ past)
        → HasDirs roster names sites (is_of_partition names partition) past notes
        → HasDirs roster names sites (is_of_partition names partition) (entry ∷ past)
        (notes_told roster names sites (is_of_partition names partition)
        entry.request entry.call entry.reply notes) }
{}

/// The deepest directory of a site, in the index of the site's partition, is the one that the book
/// finds by path, where the site's number is that of its live spaces alone.
pub fn finds_by_path()
    ensures { (roster : Roster) (names : Tables) (sites : ℕ → ℕ)
        (past : List Entry) (notes : List Note) (n : ℕ) (place : Site) (path : List ℕ)
        → IsLegalPast roster names past
        → HasDirs roster names sites (is_of_partition names place.partition) past notes
        → ((s : ℕ) → IsTrue (live past s) → is_of_site names place s ≡ (sites s == n))
        → deepest roster n path notes ≡ unwrap_or (by_path roster names past place path) 0 }
{}

/// An index with room for 32 spaces has room for a directory of each live space of its partition.
pub fn has_room_for_live_spaces()
    ensures { (roster : Roster) (names : Tables) (sites : ℕ → ℕ) (partition : List ℕ)
        (past : List Entry) (notes : List Note) (s : ℕ)
        → IsLegalPast roster names past
        → HasDirs roster names sites (is_of_partition names partition) past notes
        → is_of_partition names partition s ≡ true → live past s ≡ true
        → IsTrue (has_free_row 32 notes s) }
{}

/// An index of a partition has its directories under other names and site numbers too, where those
/// of live spaces stay: so it lasts when more is named.
pub fn lasts_under_more_names()
    ensures { (roster : Roster) (names more : Tables) (sites more_sites : ℕ → ℕ)
        (partition : List ℕ) (past : List Entry) (notes : List Note)
        → IsLegalPast roster names past → IsLegalPast roster more past
        → ((s : ℕ) → live past s ≡ true → numbered more.spaces s ≡ numbered names.spaces s)
        → ((s : ℕ) → live past s ≡ true → more_sites s ≡ sites s)
        → HasDirs roster names sites (is_of_partition names partition) past notes
        → HasDirs roster more more_sites (is_of_partition more partition) past notes }
{}
