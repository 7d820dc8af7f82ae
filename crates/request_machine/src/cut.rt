//! Want of memory: from each place where it may run out, an open prompt is lost, the request is
//! ended, and nothing else happens.

ghost use Rattle.std.specs.Prelude.{◌≡◌};

use crate::machine::Machine;
use crate::stage::Stage;
use auth_events::{BookReply, Call, Loss};
use auth_runs::{Event, Outcome};

impl Machine {
    ghost use Rattle.request_machine.specs.Work.{is_waiting, work_left};
    ghost use Rattle.std.specs.Prelude.{◌≤◌, ◌≡◌, ◌<◌, ◌∷◌, length, false, true, ◌==◌, IsTrue};
    ghost use Rattle.trace_rule.specs.Settings.{Setting};
    ghost use Rattle.request_machine.specs.Turns.{is_asking};
    ghost use Rattle.request_machine.specs.Linked.{line, way, goes_on, is_away};
    ghost use Rattle.request_machine.specs.Kept.{Ties, is_regular, can_stop};

    /// Memory ran out.
    #[tactic(auto, using(crate::proofs::Spending::spent_ties))]
    pub(crate) fn spend(&mut self)
        requires regular { is_regular self.old.stage ≡ true }
        requires stop { can_stop self.old.stage ≡ true }
        ensures stage { self.new.stage ≡ Stage.Spent }
        ensures past { self.new.past ≡ self.old.past }
        ensures asks { is_asking self.new ≡ true }
        ensures away { IsTrue (is_away (way self.new.stage)) }
        ensures kept { line self.new ≡ line self.old }
        ensures goes { IsTrue (goes_on (way self.old.stage) (way self.new.stage)) }
        ensures free { is_waiting self.new.stage ≡ false }
        ensures less { work_left self.new ≤ work_left self.old }
        ensures rest { self.new ≡ record self.old { stage = self.new.stage } }
        ensures ties { (s : Setting) → Ties s self.old → Ties s self.new }
    {
        self.stage = Stage::Spent;
    }

    /// The open prompt was lost for want of memory.
    #[tactic(auto, using(crate::proofs::Spending::prompt_lost_ties))]
    pub(crate) fn prompt_lost(&mut self)
        requires room { length self.old.past < 256 }
        requires stage { self.old.stage ≡ Stage.Spent }
        requires some { (self.old.prompt == 0) ≡ false }
        ensures past { self.new.past
            ≡ Event.Called (Call.Lose self.old.prompt Loss.Memory) (BookReply.Lost Loss.Memory)
            ∷ self.old.past }
        ensures kept { line self.new ≡ line self.old }
        ensures goes { IsTrue (goes_on (way self.old.stage) (way self.new.stage)) }
        ensures free { is_waiting self.new.stage ≡ false }
        ensures stage { self.new.stage ≡ Stage.SpentEnd }
        ensures ties { (s : Setting) → Ties s self.old → Ties s self.new }
    {
        self.push(Event::Called {
            call: Call::Lose {
                prompt: self.prompt,
                loss: Loss::Memory,
            },
            reply: BookReply::Lost { loss: Loss::Memory },
        });
        self.prompt = 0;
        self.stage = Stage::SpentEnd;
    }

    /// The request was ended, where no prompt was open when memory ran out.
    #[tactic(auto, using(crate::proofs::Spending::spent_end_ties))]
    pub(crate) fn spent_end(&mut self)
        requires room { length self.old.past < 256 }
        requires stage { self.old.stage ≡ Stage.Spent }
        requires none { (self.old.prompt == 0) ≡ true }
        ensures past { self.new.past ≡ Event.Called Call.End BookReply.Ended ∷ self.old.past }
        ensures kept { line self.new ≡ line self.old }
        ensures goes { IsTrue (goes_on (way self.old.stage) (way self.new.stage)) }
        ensures free { is_waiting self.new.stage ≡ false }
        ensures stage { self.new.stage ≡ Stage.SpentOver }
        ensures ties { (s : Setting) → Ties s self.old → Ties s self.new }
    {
        self.push(Event::Called {
            call: Call::End,
            reply: BookReply::Ended,
        });
        self.stage = Stage::SpentOver;
    }

    /// The request was ended behind a prompt that was lost for want of memory.
    #[tactic(auto, using(crate::proofs::Spending::lost_end_ties))]
    pub(crate) fn lost_end(&mut self)
        requires room { length self.old.past < 256 }
        requires stage { self.old.stage ≡ Stage.SpentEnd }
        ensures past { self.new.past ≡ Event.Called Call.End BookReply.Ended ∷ self.old.past }
        ensures kept { line self.new ≡ line self.old }
        ensures goes { IsTrue (goes_on (way self.old.stage) (way self.new.stage)) }
        ensures free { is_waiting self.new.stage ≡ false }
        ensures stage { self.new.stage ≡ Stage.SpentOver }
        ensures ties { (s : Setting) → Ties s self.old → Ties s self.new }
    {
        self.push(Event::Called {
            call: Call::End,
            reply: BookReply::Ended,
        });
        self.stage = Stage::SpentOver;
    }

    /// The outcome is the want of memory.
    #[tactic(auto, using(crate::proofs::Spending::spent_over_ties))]
    pub(crate) fn spent_over(&mut self)
        requires room { length self.old.past < 256 }
        requires stage { self.old.stage ≡ Stage.SpentOver }
        ensures past { self.new.past ≡ Event.Ended Outcome.NoMemory ∷ self.old.past }
        ensures asks { is_asking self.new ≡ true }
        ensures kept { line self.new ≡ line self.old }
        ensures goes { IsTrue (goes_on (way self.old.stage) (way self.new.stage)) }
        ensures free { is_waiting self.new.stage ≡ false }
        ensures stage { self.new.stage ≡ Stage.Over }
        ensures ties { (s : Setting) → Ties s self.old → Ties s self.new }
    {
        self.push(Event::Ended {
            outcome: Outcome::NoMemory,
        });
        self.stage = Stage::Over;
    }
}
