//! Which writes of a dialer fail.

ghost use Rattle.std.specs.Prelude.{◌≡◌, ◌==◌, ◌<◌, ◌^◌, IsTrue};
ghost use Rattle.std.specs.List.{list_any};
ghost use Rattle.link_trait.specs.Faults.{next_fails, counted};

use link_trait::Calls;
use std::marker::Model;

/// Counts writes and failures; the listed writes fail.
#[derive(Drop)]
pub(crate) struct Failing {
    listed: Calls,
    made: u64,
    faults: u64,
}

impl Model for Failing {
    ghost use Rattle.std.specs.Prelude.{◌≤◌};
    ghost use Rattle.link_trait.specs.Faults.{Counted};

    ghost Value = { Counted };

    ghost view = { λ it.
        record { schedule = record { made = it.made; listed = it.listed }; faults = it.faults } };

    ghost invariant = { λ it. it.faults ≤ it.made };
}

// Whether the number is listed. Only a u32 is.
fn has(listed: &[u32], number: u64) -> bool
    ensures listed { result ≡ list_any (λ other. other == number) listed.now }
    ensures range { IsTrue result → number < 2 ^ 32 }
{
    for other in listed {
        if u64::from(*other) == number {
            return true;
        }
    }
    false
}

impl Failing {
    /// No write was made yet.
    pub(crate) fn new(listed: Calls) -> Failing
        ensures { result ≡ record { schedule = record { made = 0; listed = listed }; faults = 0 } }
    {
        Failing {
            listed,
            made: 0,
            faults: 0,
        }
    }

    /// Counts a write, and tells whether it fails.
    pub(crate) fn next_fails(&mut self) -> bool
        ensures fails { result ≡ next_fails self.old.schedule }
        ensures counts { self.new ≡ counted self.old }
        ensures range { IsTrue result → self.old.faults < 2 ^ 32 }
    {
        self.made = self.made.saturating_add(1);
        let fails = has(self.listed.as_slice(), self.made);
        if fails {
            self.faults += 1;
        }
        fails
    }

    /// How many writes failed.
    pub(crate) fn faults(&self) -> u64
        ensures { result ≡ self.now.faults }
    {
        self.faults
    }
}
