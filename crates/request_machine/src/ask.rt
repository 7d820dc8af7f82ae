//! Prompts. One that the request leads is asked of the user, and the book is told the answer, or
//! that the prompt is lost.

ghost use Rattle.std.specs.Prelude.{◌≡◌};
ghost use Rattle.request_machine.specs.Asking.{stage_asked, outcome_lost, unless_told};
ghost use Rattle.request_machine.specs.Told.{closing_by};

use crate::close::closing_by;
use crate::machine::Machine;
use crate::read::challenged_told;
use crate::stage::{Closing, Prompt, Stage};
use auth_events::{BookReply, Call, Gift, Loss};
use auth_runs::{Event, Outcome, Why};
use auth_text::Identity;
use link_trait::{AskSeen, Asked, Prompter};
use spaces::{Space, Target, same_target};

impl Machine {
    ghost use Rattle.request_machine.specs.Work.{is_waiting};
    ghost use Rattle.std.specs.Prelude.{false, ◌≡◌, ◌<◌, ◌∷◌, IsTrue, IsSome, Some, None, is_some};
    ghost use Rattle.std.specs.Prelude.{true, length, not, ◌==◌, List, Option, ℕ};
    ghost use Rattle.link_trait.specs.Told.{grown};
    ghost use Rattle.link_trait.specs.declared.prompts.Ask.{Ask};
    ghost use Rattle.trace_rule.specs.Settings.{Setting};
    ghost use Rattle.trace_rule.specs.Traces.{suits};
    ghost use Rattle.trace_rule.specs.Telling.{prompted};
    ghost use Rattle.request_machine.specs.Driven.{insides};
    ghost use Rattle.request_machine.specs.Provided.{steps};
    ghost use Rattle.request_machine.specs.Asking.{refused_by, IsAskedIn};
    ghost use Rattle.request_machine.specs.Turns.{is_asking};
    ghost use Rattle.auth_text.specs.Login.{Login};
    ghost use Rattle.spaces.specs.ProtectionSpaces.{ProtectionSpace};
    ghost use Rattle.request_machine.specs.Failed.{ask_faults, TellsAskFaults};
    ghost use Rattle.request_machine.specs.Prompted.{AreAnswered, IsAnsweredBy, IsPrompted};
    ghost use Rattle.request_machine.specs.Linked.{line, way, goes_on, is_away, IsLinked};
    ghost use Rattle.request_machine.specs.Kept.{Ties};

    /// The book made the request lead a prompt.
    #[tactic(auto, using(crate::proofs::Prompting::led_ties))]
    pub(crate) fn led(&mut self, target: Target, space: u32, terms: u32, number: u32, ordinal: u32)
        requires room { length self.old.past < 256 }
        requires stage { self.old.stage ≡ Stage.Select target space terms }
        ensures past { self.new.past
            ≡ Event.Called (Call.Select space terms) (BookReply.Lead number ordinal)
            ∷ self.old.past }
        ensures kept { line self.new ≡ line self.old }
        ensures goes { IsTrue (goes_on (way self.old.stage) (way self.new.stage)) }
        ensures free { is_waiting self.new.stage ≡ false }
        ensures ties { (s : Setting) → IsTrue
            (suits s self.old.past (Call.Select space terms) (BookReply.Lead number ordinal))
            → Ties s self.old → Ties s self.new }
    {
        self.push(Event::Called {
            call: Call::Select { space, terms },
            reply: BookReply::Lead {
                prompt: number,
                ordinal,
            },
        });
        self.prompt = number;
        self.stage = Stage::Ask(
            Prompt {
                target,
                number,
                space,
                terms,
            },
            ordinal,
        );
    }

    /// Keeps the identity that the user gave.
    fn put_given(&mut self, identity: Identity)
        ensures { self.new ≡ record self.old { given = Some identity } }
    {
        self.given = Some(identity);
    }

    /// The user was asked.
    fn asked(&mut self, prompt: Prompt, ordinal: u32, given: AskSeen)
        requires room { length self.old.past < 256 }
        requires stage { self.old.stage ≡ Stage.Ask prompt ordinal }
        requires kept { given ≡ AskSeen.Given → IsSome self.old.given }
        ensures past { self.new.past ≡ Event.AskedFor prompt.number given ∷ self.old.past }
        ensures kept { line self.new ≡ line self.old }
        ensures away { IsTrue (is_away (way self.new.stage)) }
        ensures asks { is_asking self.new ≡ true }
        ensures free { is_waiting self.new.stage ≡ false }
        ensures ties { (s : Setting) → Ties s self.old → Ties s self.new }
    {
        self.push(Event::AskedFor {
            prompt: prompt.number,
            given,
        });
        self.stage = stage_asked(prompt, given);
    }

    /// Asks the user for an identity.
    #[tactic(auto, using(crate::proofs::Asking::given_kept_ties))]
    pub(crate) fn ask<P: Prompter>(
        &mut self,
        prompter: &mut P,
        prompt: Prompt,
        ordinal: u32,
        space: &Space,
    )
        requires room { length self.old.past < 256 }
        requires stage { self.old.stage ≡ Stage.Ask prompt ordinal }
        ensures free { is_waiting self.new.stage ≡ false }
        ensures ties { (s : Setting) → Ties s self.old → Ties s self.new }
        ensures prompted { (s : Setting) (before : Option (List Ask)) → Ties s self.old
            → s.space_of prompt.space ≡ Some space.now
            → P.told prompter.old ≡ grown before (prompted s self.old.past)
            → P.told prompter.new ≡ grown before (prompted s self.new.past) }
        ensures answered { (s : Setting) (answers : ProtectionSpace → ℕ → Option Login)
            → Ties s self.old → s.space_of prompt.space ≡ Some space.now
            → P.answers prompter.old ≡ Some answers → AreAnswered s answers self.old.past
            → IsAnsweredBy s answers self.new }
        ensures answers { P.answers prompter.new ≡ P.answers prompter.old }
        ensures faults { TellsAskFaults P.sticks self.old self.new
            (P.faults prompter.old) (P.faults prompter.new) }
        ensures quiet { P.quiet prompter.old → P.quiet prompter.new
            × (ask_faults self.new.past ≡ ask_faults self.old.past) }
        ensures past { IsAskedIn prompt.number self.old.past self.new.past }
        ensures insides { insides self.new.past ≡ insides self.old.past }
        ensures steps { steps self.new.past ≡ steps self.old.past }
        ensures line { line self.new ≡ record (line self.old) { given = self.new.given } }
        ensures away { IsTrue (is_away (way self.new.stage)) }
        ensures asks { is_asking self.new ≡ true }
    {
        match prompter.ask(space, ordinal) {
            Asked::Given(identity) => {
                self.put_given(identity);
                self.asked(prompt, ordinal, AskSeen::Given);
            }
            Asked::Cancel => self.asked(prompt, ordinal, AskSeen::Cancel),
            Asked::Failed => {
                let count = prompter.faults();
                self.asked(prompt, ordinal, AskSeen::Failed(count));
            }
            Asked::NoMemory => self.asked(prompt, ordinal, AskSeen::NoMemory),
        }
    }

    /// The space that is asked for, which was told; then it is so no more.
    #[tactic(auto, using(crate::proofs::Beside::spaced_ties))]
    fn take_space(&mut self) -> Option<Space>
        ensures value { result ≡ self.old.space }
        ensures rest { self.new ≡ record self.old { space = None } }
        ensures ties { (s : Setting) → Ties s self.old → Ties s self.new }
    {
        self.space.take()
    }

    /// Asks the user for an identity in the space that was told.
    #[tactic(auto, using(crate::proofs::Asking::asked_behind))]
    pub(crate) fn ask_next<P: Prompter>(&mut self, prompter: &mut P, prompt: Prompt, ordinal: u32)
        requires room { length self.old.past < 256 }
        requires stage { self.old.stage ≡ Stage.Ask prompt ordinal }
        requires told { is_some self.old.space ≡ true }
        requires linked { IsLinked self.old }
        ensures free { is_waiting self.new.stage ≡ false }
        ensures ties { (s : Setting) → Ties s self.old → Ties s self.new }
        ensures prompted { (s : Setting) (before : Option (List Ask)) → Ties s self.old
            → self.old.space ≡ s.space_of prompt.space
            → P.told prompter.old ≡ grown before (prompted s self.old.past)
            → P.told prompter.new ≡ grown before (prompted s self.new.past) }
        ensures prompts { (s : Setting) (before : Option (List Ask)) → Ties s self.old
            → IsPrompted s before (P.answers prompter.old) self.old (P.told prompter.old)
            → IsPrompted s before (P.answers prompter.old) self.new (P.told prompter.new) }
        ensures answers { P.answers prompter.new ≡ P.answers prompter.old }
        ensures faults { TellsAskFaults P.sticks self.old self.new
            (P.faults prompter.old) (P.faults prompter.new) }
        ensures quiet { P.quiet prompter.old → P.quiet prompter.new
            × (ask_faults self.new.past ≡ ask_faults self.old.past) }
        ensures past { IsAskedIn prompt.number self.old.past self.new.past }
        ensures insides { insides self.new.past ≡ insides self.old.past }
        ensures steps { steps self.new.past ≡ steps self.old.past }
        ensures line { line self.new
            ≡ record (line self.old) { space = None; given = self.new.given } }
        ensures away { IsTrue (is_away (way self.new.stage)) }
        ensures asks { is_asking self.new ≡ true }
    {
        match self.take_space() {
            Some(space) => self.ask(prompter, prompt, ordinal, &space),
            None => unreachable!(),
        }
    }

    /// The identity that the user gave has a number.
    #[tactic(auto, using(crate::proofs::Asking::text_named_ties))]
    pub(crate) fn text_named(&mut self, prompt: Prompt, text: u32)
        requires stage { self.old.stage ≡ Stage.NameText prompt }
        requires text { IsTrue (not (text == 0)) }
        ensures past { self.new.past ≡ self.old.past }
        ensures kept { line self.new ≡ line self.old }
        ensures goes { IsTrue (goes_on (way self.old.stage) (way self.new.stage)) }
        ensures stage { self.new.stage ≡ Stage.Answer prompt text }
        ensures rest { self.new ≡ record self.old { stage = self.new.stage } }
        ensures ties { (s : Setting) → Ties s self.old → Ties s self.new }
    {
        self.stage = Stage::Answer(prompt, text);
    }

    /// The book made a gift of the answer.
    pub(crate) fn given(&mut self, prompt: Prompt, text: u32, gift: Gift, evicted: u32)
        requires room { length self.old.past < 256 }
        requires stage { self.old.stage ≡ Stage.Answer prompt text }
        ensures past { self.new.past ≡ Event.Called (Call.Answer prompt.number text prompt.terms)
            (BookReply.Given gift evicted) ∷ self.old.past }
        ensures kept { line self.new ≡ line self.old }
        ensures goes { IsTrue (goes_on (way self.old.stage) (way self.new.stage)) }
        ensures free { is_waiting self.new.stage ≡ false }
        ensures ties { (s : Setting)
            → IsTrue (suits s self.old.past (Call.Answer prompt.number text prompt.terms)
            (BookReply.Given gift evicted))
            → Ties s self.old → Ties s self.new }
    {
        self.push(Event::Called {
            call: Call::Answer {
                prompt: prompt.number,
                text,
                terms: prompt.terms,
            },
            reply: BookReply::Given { gift, evicted },
        });
        self.hold(prompt.target, gift, prompt.terms);
        self.prompt = 0;
        self.stage = Stage::Go;
    }

    /// How the request closes where it is refused: it notes what the last head carried for the
    /// target that the last reply doesn't challenge.
    pub(crate) fn refused_by(&self, why: Why) -> Closing
        ensures { result ≡ refused_by self.now why }
    {
        let challenged = challenged_told(self.is_proxied, self.code);
        Closing {
            outcome: Outcome::Refused(self.code, why),
            proxy: unless_told(challenged, Target::Proxy, self.noted_proxy),
            server: unless_told(challenged, Target::Server, self.noted_server),
        }
    }

    /// The book was told that the user cancelled.
    pub(crate) fn cancelled(&mut self, prompt: Prompt)
        requires room { length self.old.past < 256 }
        requires stage { self.old.stage ≡ Stage.Cancel prompt }
        ensures past { self.new.past
            ≡ Event.Called (Call.Answer prompt.number 0 prompt.terms) BookReply.Cancelled
            ∷ self.old.past }
        ensures kept { line self.new ≡ line self.old }
        ensures goes { IsTrue (goes_on (way self.old.stage) (way self.new.stage)) }
        ensures free { is_waiting self.new.stage ≡ false }
        ensures ties { (s : Setting)
            → IsTrue (suits s self.old.past (Call.Answer prompt.number 0 prompt.terms)
            BookReply.Cancelled)
            → Ties s self.old → Ties s self.new }
    {
        let closing = self.refused_by(Why::Cancelled(prompt.number));
        self.push(Event::Called {
            call: Call::Answer {
                prompt: prompt.number,
                text: 0,
                terms: prompt.terms,
            },
            reply: BookReply::Cancelled,
        });
        self.prompt = 0;
        self.stage = Stage::Close(closing);
    }

    /// The book was told that the prompt is lost.
    pub(crate) fn prompt_failed(&mut self, prompt: Prompt, loss: Loss, told: Loss)
        requires room { length self.old.past < 256 }
        requires stage { self.old.stage ≡ Stage.Lose prompt loss }
        ensures past { self.new.past
            ≡ Event.Called (Call.Lose prompt.number loss) (BookReply.Lost told) ∷ self.old.past }
        ensures kept { line self.new ≡ line self.old }
        ensures goes { IsTrue (goes_on (way self.old.stage) (way self.new.stage)) }
        ensures free { is_waiting self.new.stage ≡ false }
        ensures ties { (s : Setting)
            → IsTrue (suits s self.old.past (Call.Lose prompt.number loss) (BookReply.Lost told))
            → Ties s self.old → Ties s self.new }
    {
        self.push(Event::Called {
            call: Call::Lose {
                prompt: prompt.number,
                loss,
            },
            reply: BookReply::Lost { loss: told },
        });
        self.prompt = 0;
        self.stage = Stage::Close(closing_lost(told));
    }
}

/// Where a request stands by what the prompter gave.
fn stage_asked(prompt: Prompt, given: AskSeen) -> Stage
    ensures { result ≡ stage_asked prompt given }
{
    match given {
        AskSeen::Given => Stage::NameText(prompt),
        AskSeen::Cancel => Stage::Cancel(prompt),
        AskSeen::Failed(count) => Stage::Lose(prompt, Loss::Fault(count)),
        AskSeen::NoMemory => Stage::Lose(prompt, Loss::Memory),
    }
}

fn outcome_lost(loss: Loss) -> Outcome
    ensures { result ≡ outcome_lost loss }
{
    match loss {
        Loss::Fault(count) => Outcome::PromptFailed(count),
        Loss::Memory => Outcome::NoMemory,
    }
}

/// How a request closes behind a lost prompt.
pub(crate) fn closing_lost(loss: Loss) -> Closing
    ensures { result ≡ closing_by (outcome_lost loss) }
{
    closing_by(outcome_lost(loss))
}

/// What is noted for a target, unless it is challenged.
fn unless_told(challenged: Option<Target>, target: Target, gift: Option<Gift>) -> Option<Gift>
    ensures { result ≡ unless_told challenged target gift }
{
    match challenged {
        Some(challenged) => {
            if same_target(target, challenged) {
                None
            } else {
                gift
            }
        }
        None => gift,
    }
}
