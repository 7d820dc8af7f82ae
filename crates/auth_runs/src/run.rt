//! A run: a session's requests, what the book was asked and replied, and every request's trace.

ghost use Rattle.std.specs.Prelude.{◌≡◌};
ghost use Rattle.auth_runs.specs.Runs.{AreWithinLimits};

use crate::trace::{Trace, Traces};
use auth_events::{Entry, Journal, Names};
use spaces::Roster;
use std::marker::Model;

/// All that happened while a roster's requests were served: at most 2,048 requests and traces.
#[derive(Drop)]
pub struct Run {
    seed: [u8; 32],
    roster: Roster,
    names: Names,
    journal: Journal,
    traces: Traces,
}

impl Model for Run {
    ghost use Rattle.auth_runs.specs.Runs.{Run, AreWithinLimits};

    ghost Value = { Run };

    ghost view = { λ it. record {
      seed = it.seed;
      roster = it.roster;
      names = it.names;
      journal = it.journal.entries;
      traces = it.traces;
    } };

    ghost invariant = { λ it. AreWithinLimits it.roster.requests it.traces };
}

impl Run {
    /// The run of these parts.
    pub fn new(
        seed: [u8; 32],
        roster: Roster,
        names: Names,
        journal: Journal,
        traces: Traces,
    ) -> Run
        requires { AreWithinLimits roster.requests traces }
        ensures { result ≡ record {
          seed = seed;
          roster = roster;
          names = names;
          journal = journal.entries;
          traces = traces;
        } }
    {
        Run {
            seed,
            roster,
            names,
            journal,
            traces,
        }
    }

    /// What client nonces are made of.
    pub fn seed(&self) -> &[u8]
        ensures { result.now ≡ self.now.seed }
    {
        self.seed.as_slice()
    }

    /// The requests, and the origins of the default identity.
    pub fn roster(&self) -> &Roster
        ensures roster { result.now ≡ self.now.roster }
        ensures limits { AreWithinLimits self.now.roster.requests self.now.traces }
    {
        &self.roster
    }

    /// What the numbers in the journal name.
    pub fn names(&self) -> &Names
        ensures { result.now ≡ self.now.names }
    {
        &self.names
    }

    /// The calls of the book and their replies, in order.
    pub fn entries(&self) -> &[Entry]
        ensures { result.now ≡ self.now.journal }
    {
        self.journal.entries()
    }

    /// One trace for each request.
    pub fn traces(&self) -> &[Trace]
        ensures traces { result.now ≡ self.now.traces }
        ensures limits { AreWithinLimits self.now.roster.requests self.now.traces }
    {
        self.traces.as_slice()
    }
}
