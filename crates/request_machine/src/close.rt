//! The calls at the end of a request, and its outcome.

ghost use Rattle.std.specs.Prelude.{◌≡◌};
ghost use Rattle.request_machine.specs.Needs.{first_left};
ghost use Rattle.request_machine.specs.Told.{closing_by};

use crate::machine::Machine;
use crate::stage::{Closing, Stage};
use auth_events::{BookReply, Call, Gift};
use auth_runs::{Event, Outcome};

impl Machine {
    ghost use Rattle.request_machine.specs.Work.{is_waiting};
    ghost use Rattle.std.specs.Prelude.{false, ◌≡◌, ◌<◌, ◌∷◌, [], IsTrue, true, length};
    ghost use Rattle.trace_rule.specs.Settings.{Setting};
    ghost use Rattle.trace_rule.specs.Traces.{suits};
    ghost use Rattle.request_machine.specs.Turns.{is_asking};
    ghost use Rattle.request_machine.specs.Linked.{line, way, goes_on};
    ghost use Rattle.request_machine.specs.Kept.{Ties, calls_left};

    /// The book was told what to note.
    #[tactic(auto, using(crate::proofs::Ending::noted_ties))]
    pub(crate) fn noted(&mut self, closing: Closing, rest: Closing, gift: Gift, reply: BookReply)
        requires room { length self.old.past < 256 }
        requires stage { self.old.stage ≡ Stage.Close closing }
        requires outcome { rest.outcome ≡ closing.outcome }
        requires left { calls_left closing ≡ Call.Note gift ∷ calls_left rest }
        ensures past { self.new.past ≡ Event.Called (Call.Note gift) reply ∷ self.old.past }
        ensures kept { line self.new ≡ line self.old }
        ensures goes { IsTrue (goes_on (way self.old.stage) (way self.new.stage)) }
        ensures free { is_waiting self.new.stage ≡ false }
        ensures ties { (s : Setting) → IsTrue (suits s self.old.past (Call.Note gift) reply)
            → Ties s self.old → Ties s self.new }
    {
        self.push(Event::Called {
            call: Call::Note { gift },
            reply,
        });
        self.stage = Stage::Close(rest);
    }

    /// The request was ended.
    #[tactic(auto, using(crate::proofs::Ending::ended_ties))]
    pub(crate) fn ended(&mut self, closing: Closing, reply: BookReply)
        requires room { length self.old.past < 256 }
        requires stage { self.old.stage ≡ Stage.Close closing }
        requires left { calls_left closing ≡ Call.End ∷ [] }
        ensures past { self.new.past ≡ Event.Called Call.End reply ∷ self.old.past }
        ensures kept { line self.new ≡ line self.old }
        ensures goes { IsTrue (goes_on (way self.old.stage) (way self.new.stage)) }
        ensures free { is_waiting self.new.stage ≡ false }
        ensures ties { (s : Setting) → IsTrue (suits s self.old.past Call.End reply)
            → Ties s self.old → Ties s self.new }
    {
        self.push(Event::Called {
            call: Call::End,
            reply,
        });
        self.stage = Stage::End(closing.outcome);
    }

    /// The outcome is the last event.
    #[tactic(auto, using(crate::proofs::Ending::finished_ties))]
    pub(crate) fn finished(&mut self, outcome: Outcome)
        requires room { length self.old.past < 256 }
        requires stage { self.old.stage ≡ Stage.End outcome }
        ensures past { self.new.past ≡ Event.Ended outcome ∷ self.old.past }
        ensures asks { is_asking self.new ≡ true }
        ensures kept { line self.new ≡ line self.old }
        ensures goes { IsTrue (goes_on (way self.old.stage) (way self.new.stage)) }
        ensures free { is_waiting self.new.stage ≡ false }
        ensures ties { (s : Setting) → Ties s self.old → Ties s self.new }
    {
        self.push(Event::Ended { outcome });
        self.stage = Stage::Over;
    }
}

pub(crate) fn closing_by(outcome: Outcome) -> Closing
    ensures { result ≡ closing_by outcome }
{
    Closing {
        outcome,
        proxy: None,
        server: None,
    }
}

/// The first of the calls that are left at the end.
pub(crate) fn first_left(closing: Closing) -> Call
    ensures { result ≡ first_left closing.proxy closing.server }
{
    match closing.proxy {
        Some(gift) => Call::Note { gift },
        None => match closing.server {
            Some(gift) => Call::Note { gift },
            None => Call::End,
        },
    }
}
