//! Prompts of other requests: the book tells how they ended.

ghost use Rattle.std.specs.Prelude.{◌≡◌};

use crate::ask::closing_lost;
use crate::machine::Machine;
use crate::stage::{Prompt, Stage};
use auth_events::{BookReply, Call, Gift, Loss};
use auth_runs::{Event, Why};
use spaces::Target;

impl Machine {
    ghost use Rattle.request_machine.specs.Work.{is_waiting};
    ghost use Rattle.std.specs.Prelude.{false, ◌≡◌, ◌<◌, ◌∷◌, IsTrue, length};
    ghost use Rattle.trace_rule.specs.Settings.{Setting};
    ghost use Rattle.trace_rule.specs.Traces.{suits};
    ghost use Rattle.request_machine.specs.Asking.{refused_by};
    ghost use Rattle.request_machine.specs.Linked.{line, way, goes_on};
    ghost use Rattle.request_machine.specs.Kept.{Ties};

    /// The book made the request follow a prompt.
    #[tactic(auto, using(crate::proofs::Following::followed_ties))]
    pub(crate) fn followed(&mut self, target: Target, space: u32, terms: u32, number: u32)
        requires room { length self.old.past < 256 }
        requires stage { self.old.stage ≡ Stage.Select target space terms }
        ensures past { self.new.past
            ≡ Event.Called (Call.Select space terms) (BookReply.Follow number) ∷ self.old.past }
        ensures kept { line self.new ≡ line self.old }
        ensures goes { IsTrue (goes_on (way self.old.stage) (way self.new.stage)) }
        ensures free { is_waiting self.new.stage ≡ false }
        ensures ties { (s : Setting)
            → IsTrue (suits s self.old.past (Call.Select space terms) (BookReply.Follow number))
            → Ties s self.old → Ties s self.new }
    {
        self.push(Event::Called {
            call: Call::Select { space, terms },
            reply: BookReply::Follow { prompt: number },
        });
        self.stage = Stage::Take(Prompt {
            target,
            number,
            space,
            terms,
        });
    }

    /// The prompt that the request follows gave a gift.
    pub(crate) fn taken(&mut self, prompt: Prompt, gift: Gift)
        requires room { length self.old.past < 256 }
        requires stage { self.old.stage ≡ Stage.Take prompt }
        ensures past { self.new.past
            ≡ Event.Called (Call.Take prompt.number) (BookReply.Gave gift) ∷ self.old.past }
        ensures kept { line self.new ≡ line self.old }
        ensures goes { IsTrue (goes_on (way self.old.stage) (way self.new.stage)) }
        ensures free { is_waiting self.new.stage ≡ false }
        ensures ties { (s : Setting)
            → IsTrue (suits s self.old.past (Call.Take prompt.number) (BookReply.Gave gift))
            → Ties s self.old → Ties s self.new }
    {
        self.push(Event::Called {
            call: Call::Take {
                prompt: prompt.number,
            },
            reply: BookReply::Gave { gift },
        });
        self.hold(prompt.target, gift, prompt.terms);
        self.stage = Stage::Go;
    }

    /// The prompt that the request follows was cancelled.
    pub(crate) fn not_taken(&mut self, prompt: Prompt)
        requires room { length self.old.past < 256 }
        requires stage { self.old.stage ≡ Stage.Take prompt }
        ensures past { self.new.past
            ≡ Event.Called (Call.Take prompt.number) BookReply.Cancelled ∷ self.old.past }
        ensures kept { line self.new ≡ line self.old }
        ensures goes { IsTrue (goes_on (way self.old.stage) (way self.new.stage)) }
        ensures free { is_waiting self.new.stage ≡ false }
        ensures ties { (s : Setting)
            → IsTrue (suits s self.old.past (Call.Take prompt.number) BookReply.Cancelled)
            → Ties s self.old → Ties s self.new }
    {
        let closing = self.refused_by(Why::Cancelled(prompt.number));
        self.push(Event::Called {
            call: Call::Take {
                prompt: prompt.number,
            },
            reply: BookReply::Cancelled,
        });
        self.stage = Stage::Close(closing);
    }

    /// The prompt that the request follows was lost.
    pub(crate) fn lost_with_it(&mut self, prompt: Prompt, loss: Loss)
        requires room { length self.old.past < 256 }
        requires stage { self.old.stage ≡ Stage.Take prompt }
        ensures past { self.new.past
            ≡ Event.Called (Call.Take prompt.number) (BookReply.Lost loss) ∷ self.old.past }
        ensures kept { line self.new ≡ line self.old }
        ensures goes { IsTrue (goes_on (way self.old.stage) (way self.new.stage)) }
        ensures free { is_waiting self.new.stage ≡ false }
        ensures ties { (s : Setting)
            → IsTrue (suits s self.old.past (Call.Take prompt.number) (BookReply.Lost loss))
            → Ties s self.old → Ties s self.new }
    {
        self.push(Event::Called {
            call: Call::Take {
                prompt: prompt.number,
            },
            reply: BookReply::Lost { loss },
        });
        self.stage = Stage::Close(closing_lost(loss));
    }
}
