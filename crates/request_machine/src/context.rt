//! Steps of the provider of tokens (RFC 4559): a context begins, and what is held goes out with its
//! token, is rejected, or is dropped where there is no mechanism.

ghost use Rattle.std.specs.Prelude.{◌≡◌};
ghost use Rattle.std.specs.Prelude.{true, false, IsTrue};
ghost use Rattle.request_machine.specs.Contexts.{seen_said, none_said, stage_refused};
ghost use Rattle.request_machine.specs.Linked.{way, is_away};
ghost use Rattle.request_machine.specs.Work.{is_waiting};

use crate::close::closing_by;
use crate::known::with_context;
use crate::machine::Machine;
use crate::stage::{Closing, Stage};
use auth_events::Gift;
use auth_runs::{Event, Outcome, Why};
use auth_text::Bytes;
use link_trait::StepSeen;
use negotiate_handler::{Context, Said};
use spaces::Target;

impl Machine {
    ghost use Rattle.std.specs.Prelude.{◌≡◌, ◌<◌, ◌≤◌, ◌∷◌, IsSome, IsTrue, IfSome, None, Some};
    ghost use Rattle.std.specs.Prelude.{length, true, false, option_map};
    ghost use Rattle.trace_rule.specs.Settings.{Setting};
    ghost use Rattle.trace_rule.specs.Moves.{Asking};
    ghost use Rattle.request_machine.specs.Changed.{holding};
    ghost use Rattle.request_machine.specs.Contexts.{IsBefore, IsBegun, seen_said};
    ghost use Rattle.request_machine.specs.Kept.{Ties};
    ghost use Rattle.request_machine.specs.Linked.{line, way, is_away};
    ghost use Rattle.request_machine.specs.Work.{is_waiting};
    ghost use Rattle.request_machine.specs.Linked.{is_ending};
    ghost use Rattle.request_machine.specs.Turns.{is_asking};

    /// The provider gave a token, which the context goes on behind.
    pub(crate) fn stepped_token(&mut self, target: Target, token: Bytes, live: Context)
        requires room { length self.old.past < 256 }
        requires some { IsSome (holding self.old target) }
        requires same { token ≡ live }
        ensures past { self.new.past
            ≡ Event.Stepped target (StepSeen.Token token) ∷ self.old.past }
        ensures kept { line self.new ≡ line self.old }
        ensures stage { self.new.stage ≡ Stage.Go }
        ensures ties { (s : Setting) (asking : Asking) → IsBefore s self.old target asking
            → Ties s self.old → Ties s self.new }
    {
        self.push(Event::Stepped {
            target,
            step: StepSeen::Token(token),
        });
        let before = self.take(target);
        self.put(target, with_context(before, live));
        self.stage = Stage::Go;
    }

    /// The provider refuses the gift that is held for the target: it is rejected, or, in the
    /// seventeenth round, the request is refused. That there is no mechanism is a refusal only of a
    /// context that has begun.
    pub(crate) fn stepped_refused(&mut self, target: Target, gift: Gift, said: Said)
        requires room { length self.old.past < 256 }
        requires few { self.old.rounds < 256 }
        requires begun { (said ≡ Said.NoMechanism) → IsBegun (holding self.old target) }
        requires gift { IfSome (holding self.old target) (λ held. held.gift ≡ gift) }
        requires some { IsSome (holding self.old target) }
        ensures past { self.new.past ≡ Event.Stepped target (seen_said said) ∷ self.old.past }
        ensures kept { line self.new ≡ line self.old }
        ensures asks { is_asking self.new ≡ true }
        ensures away { IsTrue (is_away (way self.new.stage)) }
        ensures free { is_waiting self.new.stage ≡ false }
        ensures ties { (s : Setting) (asking : Asking) → IsBefore s self.old target asking
            → Ties s self.old → Ties s self.new }
    {
        let closing = self.refused_by(Why::Rounds);
        self.push(Event::Stepped {
            target,
            step: seen_said(said),
        });
        self.has_none = none_said(self.has_none, said);
        self.stage = stage_refused(self.rounds, target, gift, closing);
        self.rounds += 1;
    }

    /// There is no mechanism for the target: what is held for it is dropped, and the last reply's
    /// challenges are looked at again.
    pub(crate) fn stepped_none(&mut self, target: Target)
        requires room { length self.old.past < 256 }
        requires some { IsSome (holding self.old target) }
        requires free { IfSome (holding self.old target) (λ held. held.context ≡ None) }
        ensures past { self.new.past
            ≡ Event.Stepped target StepSeen.NoMechanism ∷ self.old.past }
        ensures kept { line self.new ≡ line self.old }
        ensures away { IsTrue (is_away (way self.new.stage)) }
        ensures free { is_waiting self.new.stage ≡ false }
        ensures ties { (s : Setting) (asking : Asking) → IsBefore s self.old target asking
            → Ties s self.old → Ties s self.new }
    {
        self.push(Event::Stepped {
            target,
            step: StepSeen::NoMechanism,
        });
        self.drop_held(target);
        self.choose_again();
        self.has_none = true;
    }

    /// The provider failed.
    pub(crate) fn stepped_failed(&mut self, target: Target, count: u64)
        requires room { length self.old.past < 256 }
        ensures past { self.new.past
            ≡ Event.Stepped target (StepSeen.Failed count) ∷ self.old.past }
        ensures kept { line self.new ≡ line self.old }
        ensures asks { is_asking self.new ≡ true }
        ensures away { IsTrue (is_away (way self.new.stage)) }
        ensures free { is_waiting self.new.stage ≡ false }
        ensures ties { (s : Setting) (asking : Asking) → IsBefore s self.old target asking
            → Ties s self.old → Ties s self.new }
    {
        self.push(Event::Stepped {
            target,
            step: StepSeen::Failed(count),
        });
        self.stage = Stage::Close(closing_by(Outcome::ProviderFailed(count)));
    }

    /// The provider had no memory.
    pub(crate) fn stepped_spent(&mut self, target: Target)
        requires room { length self.old.past < 256 }
        ensures past { self.new.past
            ≡ Event.Stepped target StepSeen.NoMemory ∷ self.old.past }
        ensures kept { line self.new ≡ line self.old }
        ensures asks { is_asking self.new ≡ true }
        ensures ends { is_ending (way self.new.stage) ≡ true }
        ensures away { IsTrue (is_away (way self.new.stage)) }
        ensures free { is_waiting self.new.stage ≡ false }
        ensures ties { (s : Setting) (asking : Asking) → IsBefore s self.old target asking
            → Ties s self.old → Ties s self.new }
    {
        self.push(Event::Stepped {
            target,
            step: StepSeen::NoMemory,
        });
        self.stage = Stage::Close(closing_by(Outcome::NoMemory));
    }
}

/// How a refusal of the provider is seen.
fn seen_said(said: Said) -> StepSeen
    ensures { result ≡ seen_said said }
{
    match said {
        Said::Refused => StepSeen::Refused,
        Said::Done => StepSeen::Done,
        Said::NoMechanism => StepSeen::NoMechanism,
    }
}

/// Whether the provider has said that there is no mechanism, by its refusal too.
fn none_said(before: bool, said: Said) -> bool
    ensures { result ≡ none_said before said }
{
    match said {
        Said::NoMechanism => true,
        _ => before,
    }
}

/// Where the request stands behind a refusal, after so many rounds.
fn stage_refused(rounds: u32, target: Target, gift: Gift, closing: Closing) -> Stage
    ensures stage { result ≡ stage_refused rounds target gift closing }
    ensures away { IsTrue (is_away (way result)) }
    ensures free { is_waiting result ≡ false }
{
    if rounds >= 16 {
        Stage::Close(closing)
    } else {
        Stage::Reject(target, gift)
    }
}
