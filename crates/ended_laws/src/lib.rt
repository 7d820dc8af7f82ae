//! What holds in every legal history in which each request that began has its end: nothing that was
//! open is left so. It has no code: what it says is proved of the definitions, so it holds of every
//! book.
#![tactic(auto)]

ghost use Rattle.std.specs.Prelude.{List};
ghost use Rattle.spaces.specs.declared.roster.Roster.{Roster};
ghost use Rattle.auth_events.specs.declared.journal.Entry.{Entry};
ghost use Rattle.auth_events.specs.Tables.{Tables};
ghost use Rattle.auth_events.specs.Book.{IsLegal};
ghost use Rattle.history_laws.specs.Laws.{past_of};
ghost use Rattle.ended_laws.specs.Ended.{HaveAllEnded, AreAllSettled, AreAllTaken};

/// Where every request that began has its end, every prompt has exactly one answer or loss, and who
/// follows a prompt has taken its end behind that, exactly once.
pub fn ended_requests_leave_nothing_open()
    ensures settled { (roster : Roster) (names : Tables) (history : List Entry)
        → IsLegal roster names history → HaveAllEnded (past_of history)
        → AreAllSettled (past_of history) }
    ensures taken { (roster : Roster) (names : Tables) (history : List Entry)
        → IsLegal roster names history → HaveAllEnded (past_of history)
        → AreAllTaken (past_of history) }
{}
