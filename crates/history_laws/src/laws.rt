//! What holds in every legal history, whoever asked, in whatever order.

ghost use Rattle.std.specs.Prelude.{◌≡◌, ◌≢◌, ℕ, List, IsTrue};
ghost use Rattle.spaces.specs.declared.roster.Roster.{Roster};
ghost use Rattle.auth_events.specs.declared.journal.Entry.{Entry};
ghost use Rattle.auth_events.specs.Tables.{Tables};
ghost use Rattle.auth_events.specs.Past.{current, gift_given, live};
ghost use Rattle.auth_events.specs.Book.{IsLegal, IsStep, dirs, retired, takes_out};
ghost use Rattle.history_laws.specs.Laws.{AreFewAndApart, AreFewLive, AreTakenFromBefore};
ghost use Rattle.history_laws.specs.Laws.{AreToldAtHome, HasOneOpenPrompt, IsSettledOnce};
ghost use Rattle.history_laws.specs.Laws.{LeaveOthersAlone, WasGivenAndKept, past_of};

/// A request is only told gifts of the space that it asks for: of its own partition, and of the
/// target, origin, scheme and realm of that space.
pub fn identities_stay_at_home()
    ensures { (roster : Roster) (names : Tables) (history : List Entry)
        → IsLegal roster names history → AreToldAtHome roster names (past_of history) }
{}

/// A live space holds a gift that was given in it and was not taken away since, and a space that
/// was given and not taken away since is live.
pub fn live_spaces_were_given()
    ensures given { (past : List Entry) (s : ℕ) → IsTrue (live past s)
        → (w : WasGivenAndKept past s) × (current past s ≡ gift_given w.giving.reply) }
    ensures live { (past : List Entry) (s : ℕ) → WasGivenAndKept past s → IsTrue (live past s) }
{}

/// At most 32 spaces of one partition are live.
pub fn at_most_32_spaces_of_a_partition_are_live()
    ensures { (roster : Roster) (names : Tables) (history : List Entry)
        → IsLegal roster names history → AreFewLive names (past_of history) }
{}

/// Who gives credentials in one partition, whatever is evicted for them, leaves the live spaces of
/// every other partition as they were, with their gifts, terms and directories.
pub fn partitions_are_left_alone()
    ensures { (roster : Roster) (names : Tables) (history : List Entry)
        → IsLegal roster names history → LeaveOthersAlone roster names (past_of history) }
{}

/// A space has at most ten directories, and none covers another.
pub fn directories_are_few()
    ensures { (roster : Roster) (names : Tables) (past : List Entry) (s : ℕ)
        → AreFewAndApart (dirs roster names past s) }
{}

/// No two prompts of one space are open at once.
pub fn prompts_are_open_alone()
    ensures { (roster : Roster) (names : Tables) (history : List Entry) (s : ℕ)
        → IsLegal roster names history → HasOneOpenPrompt (past_of history) s }
{}

/// A prompt has one answer or one loss, and all that wait for it take that one, once it stands.
pub fn prompts_have_one_answer()
    ensures one { (roster : Roster) (names : Tables) (history : List Entry) (p : ℕ)
        → IsLegal roster names history → IsSettledOnce (past_of history) p }
    ensures taken { (roster : Roster) (names : Tables) (history : List Entry)
        → IsLegal roster names history → AreTakenFromBefore (past_of history) }
{}

/// An entry takes at most one nonce out of live spaces, the one that it retires, and where it
/// retires one it takes that one out.
pub fn entries_take_out_one_nonce()
    ensures retired { (roster : Roster) (names : Tables) (past : List Entry) (entry : Entry) (n : ℕ)
        → IsStep roster names past entry → IsTrue (takes_out names entry past n)
        → retired names entry past ≡ n }
    ensures out { (names : Tables) (past : List Entry) (entry : Entry) → retired names entry past
        ≢ 0 → IsTrue (takes_out names entry past (retired names entry past)) }
{}
