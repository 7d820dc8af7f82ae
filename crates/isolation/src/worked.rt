//! Worked histories of two partitions, computed from the definitions.

ghost use Rattle.std.specs.Prelude.{◌≡◌, ◌-◌, [], ◌∷◌, drop, map};
ghost use Rattle.auth_events.specs.Book.{IsLegal};
ghost use Rattle.history_laws.specs.Worked as worked;
ghost use Rattle.isolation.specs.Partitions.{alone_in, renumbered};
ghost use Rattle.isolation.specs.Worked.{alone_of_p, alone_of_q};
ghost use Rattle.isolation.specs.Worked.{shared, shared_names, shared_roster};

/// A history of two partitions is legal, and so is what each of them has of it alone: its own
/// entries, its prompts numbered from 1. A partition whose cache fills up has alone what stands
/// behind the four entries of another one that came first, each prompt with the number before
/// its own.
pub fn worked_partitions()
    ensures shared { IsLegal shared_roster shared_names shared }
    ensures alone_p { alone_in shared_roster (112 ∷ []) shared ≡ alone_of_p }
    ensures alone_q { alone_in shared_roster (113 ∷ []) shared ≡ alone_of_q }
    ensures legal_p { IsLegal shared_roster shared_names alone_of_p }
    ensures legal_q { IsLegal shared_roster shared_names alone_of_q }
    ensures full { alone_in worked.full_cache_beside_roster (109 ∷ []) worked.full_cache_beside
        ≡ map (renumbered (λ p. p - 1)) (drop 4 worked.full_cache_beside) }
{}
