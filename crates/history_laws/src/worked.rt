//! Worked histories, computed from the definitions.

ghost use Rattle.std.specs.Prelude.{◌≡◌, IsTrue, false, [], ◌∷◌, reverse};
ghost use Rattle.std.specs.List.{range_with_len};
ghost use Rattle.auth_events.specs.declared.journal.Call.TheVariants.{Answer, Lose};
ghost use Rattle.auth_events.specs.declared.journal.BookReply.TheVariants.{Cancelled, Lost};
ghost use Rattle.auth_events.specs.declared.journal.Loss.TheVariants.{Fault};
ghost use Rattle.auth_events.specs.Past.{live_spaces};
ghost use Rattle.auth_events.specs.Book.{IsLegal};
ghost use Rattle.auth_events.specs.Fresh.{fresh, merge};
ghost use Rattle.auth_events.specs.Fresh.StepTold.{DidCall, DidDraw};
ghost use Rattle.history_laws.specs.Worked as worked;

/// These histories are legal, and the draws of one nonce that is sent again and again are fresh,
/// unless a count begins anew or an epoch is of the past.
pub fn worked_histories()
    ensures old_gift { IsLegal (worked.visitors 2) (worked.one_space 2) worked.old_gift }
    ensures cancelled { IsLegal
        (worked.visitors 3) (worked.one_space 0) (worked.shared_prompt (Answer 1 0 0) Cancelled) }
    ensures lost { IsLegal (worked.visitors 3) (worked.one_space 0)
        (worked.shared_prompt (Lose 1 (Fault 5)) (Lost (Fault 5))) }
    ensures full { IsLegal
        worked.full_cache_roster worked.full_cache_names worked.full_cache_again }
    ensures live { live_spaces (reverse worked.full_cache) ≡ reverse (1 ∷ range_with_len 3 31) }
    ensures beside { IsLegal
        worked.full_cache_beside_roster worked.full_cache_beside_names worked.full_cache_beside }
    ensures stays { live_spaces (reverse worked.full_cache_beside)
        ≡ reverse (1 ∷ 2 ∷ range_with_len 4 31) }
    ensures sides { IsLegal worked.two_sides_roster worked.two_sides_names worked.two_sides }
    ensures all { live_spaces (reverse worked.two_sides) ≡ reverse (range_with_len 1 33) }
    ensures directories { IsLegal worked.directories_roster
        (worked.one_space 1) worked.directories }
    ensures partitions { IsLegal
        worked.partitions_roster worked.partitions_names worked.partitions }
    ensures counts { IsLegal (worked.visitors 1) worked.counts_names worked.counts }
    ensures fresh { IsTrue (fresh worked.counts_names (merge worked.counts (worked.drawing
        (DidDraw 1 1 0 ∷ DidDraw 1 2 1 ∷ DidDraw 1 3 2 ∷ DidDraw 1 4 3 ∷ [])))) }
    ensures anew { fresh worked.counts_names
        (merge worked.counts (worked.drawing (DidDraw 1 1 0 ∷ DidDraw 1 1 1 ∷ []))) ≡ false }
    ensures stale { fresh worked.counts_names (merge worked.counts
        ((DidCall ∷ DidCall ∷ DidCall ∷ DidCall ∷ DidCall ∷ DidDraw 1 1 0 ∷ []) ∷ [])) ≡ false }
{}
