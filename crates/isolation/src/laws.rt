//! What holds of every legal history and each partition. `alone_in` is what a partition has
//! alone of a history: the entries of its own requests, with its prompts numbered among its
//! own.

ghost use Rattle.std.specs.Prelude.{◌≡◌, ◌++◌, ◌∷◌, ℕ, List, IsTrue, false};
ghost use Rattle.spaces.specs.declared.roster.Roster.{Roster};
ghost use Rattle.auth_events.specs.declared.journal.Call.{Call};
ghost use Rattle.auth_events.specs.declared.journal.Entry.{Entry};
ghost use Rattle.auth_events.specs.Tables.{Tables, AreNames};
ghost use Rattle.auth_events.specs.Book.{IsLegal, allowed, answer};
ghost use Rattle.auth_events.specs.Fresh.{fresh};
ghost use Rattle.history_laws.specs.Laws.{past_of};
ghost use Rattle.isolation.specs.Partitions.{is_in, alone_in, call_in, reply_in};

/// What a partition has alone of a legal history is legal by itself: each of its replies, and
/// each eviction among its spaces, is what it would be had no other partition asked for
/// anything. Where the history is fresh, so is that part.
pub fn partitions_are_alone()
    ensures legal { (roster : Roster) (names : Tables) (partition : List ℕ) (history : List Entry)
        → AreNames names → IsLegal roster names history
        → IsLegal roster names (alone_in roster partition history) }
    ensures fresh { (roster : Roster) (names : Tables) (partition : List ℕ) (history : List Entry)
        → AreNames names → IsLegal roster names history → IsTrue (fresh names history)
        → IsTrue (fresh names (alone_in roster partition history)) }
{}

/// A request of a partition may ask the same of a book that has the whole history and of one
/// that has only what the partition has alone of it, and gets the same reply: no gift,
/// eviction, prompt, epoch or directory of another partition enters it. Only prompts have other
/// numbers.
pub fn replies_are_the_partitions_own()
    ensures allowed { (roster : Roster) (names : Tables) (partition : List ℕ)
        (history : List Entry) (caller r : ℕ) (call : Call)
        → AreNames names → IsLegal roster names history → IsTrue (is_in roster partition r)
        → allowed roster names (past_of (alone_in roster partition history)) caller r
        (call_in roster partition history call)
        ≡ allowed roster names (past_of history) caller r call }
    ensures reply { (roster : Roster) (names : Tables) (partition : List ℕ)
        (history : List Entry) (caller r : ℕ) (call : Call)
        → AreNames names → IsLegal roster names history → IsTrue (is_in roster partition r)
        → IsTrue (allowed roster names (past_of history) caller r call)
        → answer roster names (past_of (alone_in roster partition history)) r
        (call_in roster partition history call)
        ≡ reply_in roster partition history (answer roster names (past_of history) r call) }
{}

/// Whatever other partitions ask changes no reply of a partition: an entry of theirs adds
/// nothing to what it has alone, and where it has the same alone of two histories, its requests
/// may ask the same in both and get the same replies, but for the numbers of prompts.
pub fn other_partitions_change_no_reply()
    ensures entries { (roster : Roster) (partition : List ℕ)
        (earlier later : List Entry) (entry : Entry)
        → is_in roster partition entry.request ≡ false
        → alone_in roster partition (earlier ++ entry ∷ later)
        ≡ alone_in roster partition (earlier ++ later) }
    ensures allowed { (roster : Roster) (names : Tables) (partition : List ℕ)
        (one other : List Entry) (caller r : ℕ) (call like : Call)
        → AreNames names → IsLegal roster names one → IsLegal roster names other
        → alone_in roster partition one ≡ alone_in roster partition other
        → IsTrue (is_in roster partition r)
        → call_in roster partition one call ≡ call_in roster partition other like
        → allowed roster names (past_of one) caller r call
        ≡ allowed roster names (past_of other) caller r like }
    ensures reply { (roster : Roster) (names : Tables) (partition : List ℕ)
        (one other : List Entry) (caller r : ℕ) (call like : Call)
        → AreNames names → IsLegal roster names one → IsLegal roster names other
        → alone_in roster partition one ≡ alone_in roster partition other
        → IsTrue (is_in roster partition r)
        → call_in roster partition one call ≡ call_in roster partition other like
        → IsTrue (allowed roster names (past_of one) caller r call)
        → reply_in roster partition one (answer roster names (past_of one) r call)
        ≡ reply_in roster partition other (answer roster names (past_of other) r like) }
{}
