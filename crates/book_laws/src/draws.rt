//! Draws inserted into a journal.

ghost use Rattle.std.specs.Prelude.{◌≡◌, List, IsTrue};
ghost use Rattle.spaces.specs.declared.roster.Roster.{Roster};
ghost use Rattle.nonce_words.specs.declared.draw.NonceDraw.{NonceDraw};
ghost use Rattle.auth_events.specs.declared.journal.Entry.{Entry};
ghost use Rattle.auth_events.specs.Tables.{Tables, AreNames};
ghost use Rattle.auth_events.specs.Book.{IsLegal, without_draws};
ghost use Rattle.auth_events.specs.Fresh.{StepTold, fresh, merge};
ghost use Rattle.book_laws.specs.Drawing.{AreDraws};

/// A legal journal stays legal when the draws of its requests' traces are inserted, and the merged
/// history is fresh, where the draws are those of the words: each count of a nonce once, no epoch
/// below what the request had seen or above the journal's.
pub fn merged_history_is_legal_and_fresh()
    ensures entries { (names : Tables) (journal : List Entry)
        (traces : List (List StepTold)) (drawn : List NonceDraw)
        → AreDraws names journal traces drawn → without_draws journal ≡ journal
        → without_draws (merge journal traces) ≡ journal }
    ensures legal { (roster : Roster) (names : Tables) (journal : List Entry)
        (traces : List (List StepTold)) (drawn : List NonceDraw)
        → AreDraws names journal traces drawn → without_draws journal ≡ journal
        → IsLegal roster names journal → IsLegal roster names (merge journal traces) }
    ensures fresh { (names : Tables) (journal : List Entry)
        (traces : List (List StepTold)) (drawn : List NonceDraw)
        → AreDraws names journal traces drawn → without_draws journal ≡ journal → AreNames names
        → IsTrue (fresh names (merge journal traces)) }
{}
