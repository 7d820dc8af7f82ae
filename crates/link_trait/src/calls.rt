//! Which calls fail, for the implementations in memory that fail on purpose, so that callers can be
//! tried on a failure at each of their calls.

ghost use Rattle.std.specs.Prelude.{◌≡◌, ◌==◌, ◌<◌, ◌^◌, IsTrue};
ghost use Rattle.std.specs.List.{list_any};
ghost use Rattle.link_trait.specs.Faults.{next_fails, counted};

use auth_text::Items;
use std::marker::Model;

/// The numbers of the calls that fail, counted from 1.
pub type Calls = Items<u32>;

/// Counts calls and failures; the listed calls fail.
#[derive(Drop)]
pub(crate) struct Failures {
    listed: Calls,
    made: u64,
    faults: u64,
}

impl Model for Failures {
    ghost use Rattle.std.specs.Prelude.{◌≤◌};
    ghost use Rattle.link_trait.specs.Faults.{Schedule, Counted};

    ghost Value = { Counted };

    ghost view = { λ it.
        record { schedule = record { made = it.made; listed = it.listed }; faults = it.faults } };

    ghost invariant = { λ it. it.faults ≤ it.made };
}

// Whether the number is listed. Only a u32 is.
fn is_listed(listed: &[u32], number: u64) -> bool
    ensures listed { result ≡ list_any (λ other. other == number) listed.now }
    ensures range { IsTrue result → number < 2 ^ 32 }
{
    for other in listed {
        if u64::from(*other) == number {
            return true;
        }
    }
    false
}

impl Failures {
    /// No call was made yet.
    pub(crate) fn new(listed: Calls) -> Failures
        ensures { result ≡ record { schedule = record { made = 0; listed = listed }; faults = 0 } }
    {
        Failures {
            listed,
            made: 0,
            faults: 0,
        }
    }

    /// Counts a call, and tells whether it fails.
    pub(crate) fn next_fails(&mut self) -> bool
        ensures fails { result ≡ next_fails self.old.schedule }
        ensures counts { self.new ≡ counted self.old }
        ensures range { IsTrue result → self.old.faults < 2 ^ 32 }
    {
        self.made = self.made.saturating_add(1);
        let fails = is_listed(self.listed.as_slice(), self.made);
        if fails {
            self.faults += 1;
        }
        fails
    }

    /// How many calls failed.
    pub(crate) fn faults(&self) -> u64
        ensures { result ≡ self.now.faults }
    {
        self.faults
    }
}
