//! Traces: all events of one request.

ghost use Rattle.std.specs.Prelude.{◌≡◌, IsTrue, true};
ghost use Rattle.auth_runs.specs.Runs.{is_whole};

use crate::event::{Event, Events};
use auth_text::Items;
use std::marker::Model;

/// All events of one request, in order. Seen as their list, whose last one, and no other, is
/// `Ended`.
#[derive(Debug, Drop)]
pub struct Trace {
    events: Events,
}

impl Model for Trace {
    ghost use Rattle.std.specs.Prelude.{List, IsTrue};
    ghost use Rattle.auth_runs.specs.declared.event.Event.{Event};
    ghost use Rattle.auth_runs.specs.Runs.{is_whole};

    ghost Value = { List Event };

    ghost view = { λ it. it.events };

    ghost invariant = { λ it. IsTrue (is_whole it.events) };
}

impl Trace {
    /// The trace of events whose last one, and no other, is `Ended`.
    pub fn new(events: Events) -> Trace
        requires { IsTrue (is_whole events) }
        ensures { result ≡ events }
    {
        Trace { events }
    }

    /// The events, in order.
    pub fn events(&self) -> &[Event]
        ensures events { result.now ≡ self.now }
        ensures whole { is_whole self.now ≡ true }
    {
        self.events.as_slice()
    }
}

/// One trace for each request, in order of their numbers.
pub type Traces = Items<Trace>;
