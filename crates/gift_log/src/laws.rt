//! The givings of a journal tell whose credentials its gifts are. The law is the contract of a
//! function that does nothing.

ghost use Rattle.std.specs.Prelude.{◌≡◌, List, reverse};
ghost use Rattle.spaces.specs.declared.roster.Roster.{Roster};
ghost use Rattle.auth_events.specs.declared.journal.Entry.{Entry};
ghost use Rattle.auth_events.specs.declared.journal.Gift.{Gift};
ghost use Rattle.auth_events.specs.Tables.{Tables};
ghost use Rattle.auth_events.specs.Identities.{identity};
ghost use Rattle.gift_log.specs.Gifts.{givings_of, identity_found};

/// What is found among the givings of a journal is the identity that the gift stands for.
pub fn finds_identities()
    ensures { (roster : Roster) (names : Tables) (entries : List Entry) (gift : Gift)
        → identity_found roster names (givings_of entries) gift
        ≡ identity roster names (reverse entries) gift }
{}
