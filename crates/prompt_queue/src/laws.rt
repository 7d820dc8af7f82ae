//! A queue that is told what happens in a book has the prompts of its history. Each law is the
//! contract of a function that does nothing, so the check proves it for all legal histories of any
//! book.

ghost use Rattle.std.specs.Prelude.{◌≡◌, ◌*◌, ◌<◌, ◌∷◌, length, reverse, ℕ, Bool, false, IsTrue};
ghost use Rattle.std.specs.Prelude.{List, None, Some, is_some, option_map};
ghost use Rattle.spaces.specs.declared.roster.Roster.{Roster};
ghost use Rattle.auth_events.specs.declared.journal.Call.{Call};
ghost use Rattle.auth_events.specs.declared.journal.Entry.{Entry};
ghost use Rattle.auth_events.specs.Tables.{Tables};
ghost use Rattle.auth_events.specs.Pages.{IsWithinRoom, HasRoomFor};
ghost use Rattle.auth_events.specs.Past.{lead, open_lead, end};
ghost use Rattle.auth_events.specs.Book.{IsLegalPast, allowed_call, first_choice, select_answer};
ghost use Rattle.auth_events.specs.Book.{space_of_prompt};
ghost use Rattle.prompt_queue.specs.Prompts.{joined, ending_of};
ghost use Rattle.prompt_queue.specs.Histories.{prompts_of, prompts_after, reply_joined};
ghost use Rattle.prompt_queue.specs.Histories.{reply_taken, MayBeTold};

/// After each entry a queue that was told it has the prompts of the history with that entry.
#[tactic(auto, using(crate::proofs::HistoryLemmas::keeps))]
pub fn keeps_the_prompts()
    ensures { (roster : Roster) (names : Tables) (past : List Entry) (entry : Entry)
        → IsLegalPast roster names (entry ∷ past) → prompts_of (entry ∷ past)
        ≡ prompts_after entry.request entry.call entry.reply (prompts_of past) }
{}

/// An answer, a loss or a take that may be asked of the book may be told to the queue.
#[tactic(auto, using(crate::proofs::HistoryLemmas::may_tell))]
pub fn may_be_told()
    ensures { (roster : Roster) (names : Tables) (past : List Entry) (r : ℕ) (call : Call)
        → IsLegalPast roster names past → IsTrue (allowed_call roster names past r call)
        → MayBeTold call (prompts_of past) }
{}

/// While a journal has room for an entry, a queue for as many requests has room for a prompt: a
/// request settles each prompt that it leads before it leads the next.
pub fn has_room_with_the_journal()
    ensures { (roster : Roster) (names : Tables) (n : ℕ) (journal : List Entry) (entry : Entry)
        → IsWithinRoom n journal → HasRoomFor (record { requests = n; entries = journal }) entry
        → IsLegalPast roster names (reverse journal)
        → length (prompts_of (reverse journal)) < 32 * n }
{}

/// The queue says who leads and who follows: it joins a request as the book replies where neither
/// the URL, the cache nor the default identity gives one.
#[tactic(auto, using(crate::proofs::Prompting::joins))]
pub fn joins_as_the_book()
    ensures { (roster : Roster) (names : Tables) (past : List Entry) → IsLegalPast roster names past
        → (is_rival : ℕ → Bool) (s : ℕ)
        → reply_joined (joined (prompts_of past) s)
        ≡ select_answer is_rival past s (first_choice false None false (open_lead past s)) }
{}

/// Whoever takes of a prompt takes its one end in the history, a gift of its space.
#[tactic(auto, using(crate::proofs::HistoryLemmas::takes_end))]
pub fn takes_the_one_end()
    ensures { (roster : Roster) (names : Tables) (past : List Entry)
        → IsLegalPast roster names past → (p : ℕ) → IsTrue (is_some (lead past p))
        → option_map (reply_taken (space_of_prompt past p)) (ending_of (prompts_of past) p)
        ≡ Some (end past p) }
{}
