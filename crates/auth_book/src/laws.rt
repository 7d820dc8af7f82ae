//! An index that stands for a history replies as its book, and stands for the history with the
//! entry once it was told of it. Each law is the contract of a function that does nothing, so the
//! check proves it for all legal histories of any book.

ghost use Rattle.std.specs.Prelude.{◌≡◌, ◌∷◌, ◌++◌, ◌+◌, [], ℕ, IsTrue, List, is_some, length};
ghost use Rattle.spaces.specs.ProtectionSpaces.{ProtectionSpace};
ghost use Rattle.spaces.specs.declared.roster.Roster.{Roster};
ghost use Rattle.auth_events.specs.declared.journal.Call.{Call};
ghost use Rattle.auth_events.specs.declared.journal.Entry.{Entry};
ghost use Rattle.auth_events.specs.Tables.{AreFew, AreNames, Tables, with_space, with_terms};
ghost use Rattle.auth_events.specs.Tables.{with_text};
ghost use Rattle.auth_events.specs.declared.names.TermsName.{TermsName};
ghost use Rattle.auth_text.specs.Login.{Login};
ghost use Rattle.auth_events.specs.Book.{IsLegalPast, allowed, answer, retired};
ghost use Rattle.auth_book.specs.declared.index.BookIndex.{BookIndex};
ghost use Rattle.auth_book.specs.Indices.{StandsFor, space_row};
ghost use Rattle.auth_book.specs.Replies.{reply_in};
ghost use Rattle.auth_book.specs.Parts.{part_of};
ghost use Rattle.auth_book.specs.Steps.{IsTold, retired_in};

/// What the index replies is the book's answer.
pub fn replies_as_the_book()
    ensures { (roster : Roster) (names : Tables) (past : List Entry) (index : BookIndex)
        → AreNames names → AreFew (length roster.requests) names
        → IsLegalPast roster names past → StandsFor index roster names past
        → (caller r : ℕ) (call : Call) → IsTrue (allowed roster names past caller r call)
        → reply_in index roster names r call ≡ answer roster names past r call }
{}

/// The nonce that is read off the cache is the one that the entry retires.
pub fn retires_as_the_book()
    ensures { (roster : Roster)
        (names : Tables) (past : List Entry) (entry : Entry) (index : BookIndex)
        → IsLegalPast roster names (entry ∷ past) → StandsFor index roster names past
        → retired_in names entry.call entry.reply index ≡ retired names entry past }
{}

/// An index that was told an entry stands for the history with that entry.
pub fn stands_for_each_history()
    ensures { (roster : Roster) (names : Tables) (past : List Entry) (entry : Entry)
        (index after : BookIndex)
        → AreNames names → AreFew (length roster.requests) names
        → IsLegalPast roster names (entry ∷ past) → StandsFor index roster names past
        → IsTold roster names entry.request entry.call entry.reply index after
        → StandsFor after roster names (entry ∷ past) }
{}

/// Under a space more an index stands for the same history, once the space has its row.
pub fn stands_under_more_names()
    ensures { (roster : Roster) (names : Tables) (space : ProtectionSpace) (past : List Entry)
        (index after : BookIndex)
        → AreNames names → IsLegalPast roster names past → StandsFor index roster names past
        → length index.spaces.items ≡ length names.spaces
        → after.spaces.items ≡ index.spaces.items
        ++ space_row (with_space names space) index.partitions [] (length names.spaces + 1) ∷ []
        → IsTrue (is_some (part_of index.partitions space.site.partition))
        → after.partitions ≡ index.partitions → after.prompts ≡ index.prompts
        → after.led ≡ index.led → after.requests ≡ index.requests → after.epochs ≡ index.epochs
        → StandsFor after roster (with_space names space) past }
{}

/// Under more terms or texts an index stands for the same history as it is.
pub fn stands_under_terms_and_texts()
    ensures terms { (roster : Roster) (names : Tables) (name : TermsName) (past : List Entry)
        (index : BookIndex)
        → AreNames names → AreFew (length roster.requests) names
        → IsLegalPast roster names past → StandsFor index roster names past
        → StandsFor index roster (with_terms names name) past }
    ensures texts { (roster : Roster) (names : Tables) (text : Login) (past : List Entry)
        (index : BookIndex)
        → AreNames names → AreFew (length roster.requests) names
        → IsLegalPast roster names past → StandsFor index roster names past
        → StandsFor index roster (with_text names text) past }
{}
