//! What a caller knows by what it has seen holds still: others made entries of their own requests
//! alone.

ghost use Rattle.std.specs.Prelude.{◌≡◌, ◌++◌, ◌∷◌, [], ◌*◌, ◌<◌, ◌≤◌, ℕ, List, IsTrue, is_some};
ghost use Rattle.std.specs.Prelude.{length};
ghost use mathlib.Core.List.{IsPrefix};
ghost use Rattle.auth_text.specs.Login.{Login};
ghost use Rattle.spaces.specs.declared.roster.Roster.{Roster};
ghost use Rattle.spaces.specs.declared.terms.Terms.{Terms};
ghost use Rattle.spaces.specs.ProtectionSpaces.{ProtectionSpace};
ghost use Rattle.auth_events.specs.declared.journal.Call.{Call};
ghost use Rattle.auth_events.specs.declared.journal.Gift.{Gift};
ghost use Rattle.auth_events.specs.declared.told.Told.{Told};
ghost use Rattle.auth_events.specs.declared.told.Told.TheVariants.{TextNamed};
ghost use Rattle.auth_events.specs.Book.{IsLegal, allowed};
ghost use Rattle.auth_events.specs.Identities.{giving, identity};
ghost use Rattle.auth_events.specs.Told.{MayNameSpace, MayNameTerms, journal, names_told, past};
ghost use Rattle.auth_events.specs.Told.{told_space, told_terms};
ghost use Rattle.book_laws.specs.Owners.{HasSeen, IsShared, items_of, owner};
ghost use Rattle.book_laws.specs.Shares.{HasSpaceLeft, HasTermsLeft, HasTextLeft, IsWithinShares};

/// A call that is allowed by what its caller has seen is allowed by all that was told.
pub fn what_was_allowed_is_allowed()
    ensures { (roster : Roster) (callers : ℕ) (seen told : List Told) (request : ℕ) (call : Call)
        → IsShared roster callers told → HasSeen (owner callers request) seen told
        → IsTrue
        (allowed roster (names_told seen) (past seen) (owner callers request) request call)
        → IsTrue
        (allowed roster (names_told told) (past told) (owner callers request) request call) }
{}

/// What a caller may name by what it has seen, the book may name: while no caller has named more
/// than its share, the limits of the roster aren't reached before the caller's own.
pub fn what_was_left_is_left()
    ensures spaces { (roster : Roster)
        (callers c : ℕ) (seen told : List Told) (space : ProtectionSpace)
        → IsShared roster callers told → IsWithinShares told
        → HasSeen c seen told → 1 ≤ c → c ≤ callers → HasSpaceLeft (items_of c seen) seen space
        → MayNameSpace roster (names_told told) space }
    ensures terms { (roster : Roster)
        (callers c : ℕ) (seen told : List Told) (s : ℕ) (terms : Terms)
        → IsShared roster callers told → IsWithinShares told → HasSeen c seen told
        → 1 ≤ c → c ≤ callers → HasTermsLeft c (items_of c seen) seen s terms
        → MayNameTerms roster (names_told told) s terms }
    ensures texts { (roster : Roster) (callers c : ℕ) (seen told : List Told)
        → IsShared roster callers told → IsWithinShares told → HasSeen c seen told
        → 1 ≤ c → c ≤ callers → HasTextLeft (items_of c seen)
        → length (names_told told).texts < 64 * length roster.requests }
{}

/// A caller that names what is left to it passes no share.
pub fn names_stay_within_shares()
    ensures spaces { (c : ℕ) (told : List Told) (space : ProtectionSpace) → IsWithinShares told
        → HasSpaceLeft (items_of c told) told space
        → IsWithinShares (told_space c (names_told told) told space) }
    ensures terms { (c : ℕ) (told : List Told) (s : ℕ) (terms : Terms) → IsWithinShares told
        → HasTermsLeft c (items_of c told) told s terms
        → IsWithinShares (told_terms c (names_told told) told s terms) }
    ensures texts { (c : ℕ) (told : List Told) (text : Login) → IsWithinShares told
        → HasTextLeft (items_of c told) → IsWithinShares (told ++ TextNamed c text ∷ []) }
{}

/// A gift that a caller has seen given stands for the same identity for good.
pub fn gifts_keep_their_identity()
    ensures { (roster : Roster) (callers : ℕ) (seen told : List Told) (gift : Gift)
        → IsShared roster callers told → IsPrefix seen told
        → IsLegal roster (names_told seen) (journal seen)
        → IsTrue (is_some (giving (past seen) gift))
        → identity roster (names_told told) (past told) gift
        ≡ identity roster (names_told seen) (past seen) gift }
{}
