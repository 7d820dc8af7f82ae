//! The end of a prompt that is asked for too soon, computed from the definitions.

ghost use Rattle.std.specs.Prelude.{◌≡◌, [], ◌∷◌, List, IsTrue, replicate, reverse, take};
ghost use Rattle.auth_events.specs.declared.journal.Call.TheVariants.{Answer, Take};
ghost use Rattle.auth_events.specs.declared.journal.BookReply.TheVariants.{Cancelled, Pending};
ghost use Rattle.auth_events.specs.declared.told.Told.{Told};
ghost use Rattle.auth_events.specs.Book.{allowed, answer};
ghost use Rattle.auth_events.specs.Told.{told_after};
ghost use Rattle.history_laws.specs.Worked as worked;

/// One leads a prompt, and two follow it. Before it is answered, a follower may take its end: the
/// reply is that it waits, and the history stays as it was.
pub fn early_takes_wait()
    ensures allowed { IsTrue (allowed (worked.roster_of (replicate 3 (worked.request_of 65)))
        (worked.names_of (worked.basic_in 109 65 ∷ []) 0)
        (reverse (take 9 (worked.shared_prompt (Answer 1 0 0) Cancelled))) 2 2 (Take 1)) }
    ensures reply { answer (worked.roster_of (replicate 3 (worked.request_of 65)))
        (worked.names_of (worked.basic_in 109 65 ∷ []) 0)
        (reverse (take 9 (worked.shared_prompt (Answer 1 0 0) Cancelled))) 2 (Take 1) ≡ Pending }
    ensures told { (told : List Told)
        → told_after told (record { caller = 2; request = 2; call = Take 1; reply = Pending })
        ≡ told }
{}
