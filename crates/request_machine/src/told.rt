//! What the book tells of what is held, and of the prompt that is asked next.

ghost use Rattle.std.specs.Prelude.{◌≡◌};

use crate::gave::Gave;
use crate::holding::{Holding, NamedTerms};
use crate::known::{with_identity, with_named, with_space};
use crate::machine::Machine;
use crate::stage::{Piece, Stage};
use auth_text::Identity;
use spaces::{Space, Target, Terms};

impl Machine {
    ghost use Rattle.std.specs.Prelude.{◌≡◌, ◌<◌, IsTrue, None, false};
    ghost use Rattle.trace_rule.specs.Settings.{Setting};
    ghost use Rattle.request_machine.specs.Changed.{holding, put_held};
    ghost use Rattle.request_machine.specs.Gives.{IsSpaceTold, IsIdentityTold, IsTermsTold};
    ghost use Rattle.request_machine.specs.Linked.{line, way, goes_on};
    ghost use Rattle.request_machine.specs.Kept.{Ties};
    ghost use Rattle.request_machine.specs.Told.{IsLacking};
    ghost use Rattle.request_machine.specs.Work.{is_answer, is_unspent, stage_told, work_left};

    /// What is held for the target; then nothing is.
    pub(crate) fn take(&mut self, target: Target) -> Option<Holding>
        ensures value { result ≡ holding self.old target }
        ensures rest { self.new ≡ put_held target None self.old }
    {
        match target {
            Target::Proxy => self.take_proxy(),
            Target::Server => self.take_server(),
            Target::Socks => None,
        }
    }

    /// The book told the space of what is held.
    pub(crate) fn told_space(&mut self, target: Target, space: Space)
        requires stage { self.old.stage ≡ Stage.Learn target Piece.Space }
        ensures past { self.new.past ≡ self.old.past }
        ensures kept { line self.new ≡ line self.old }
        ensures goes { IsTrue (goes_on (way self.old.stage) (way self.new.stage)) }
        ensures stage { self.new.stage ≡ Stage.Go }
        ensures less { IsLacking Piece.Space (holding self.old target)
            → work_left self.new < work_left self.old }
        ensures ties { (s : Setting) → IsSpaceTold s self.old target space
            → Ties s self.old → Ties s self.new }
    {
        let before = self.take(target);
        self.put(target, with_space(before, space));
        self.stage = Stage::Go;
    }

    /// The book told the space of the prompt that is asked next.
    #[tactic(auto, using(crate::proofs::Beside::spaced_ties))]
    pub(crate) fn told_prompt(&mut self, space: Space)
        ensures same { self.new ≡ record self.old { space = Some space } }
        ensures ties { (s : Setting) → Ties s self.old → Ties s self.new }
    {
        self.space = Some(space);
    }

    /// The book told the identity of what is held.
    pub(crate) fn told_identity(&mut self, target: Target, identity: Identity)
        requires stage { self.old.stage ≡ Stage.Learn target Piece.Identity }
        ensures past { self.new.past ≡ self.old.past }
        ensures kept { line self.new ≡ line self.old }
        ensures goes { IsTrue (goes_on (way self.old.stage) (way self.new.stage)) }
        ensures stage { self.new.stage ≡ Stage.Go }
        ensures less { IsLacking Piece.Identity (holding self.old target)
            → work_left self.new < work_left self.old }
        ensures ties { (s : Setting) → IsIdentityTold s self.old target identity
            → Ties s self.old → Ties s self.new }
    {
        let before = self.take(target);
        self.put(target, with_identity(before, identity));
        self.stage = Stage::Go;
    }

    /// The book told the terms of what is held.
    pub(crate) fn told_terms(&mut self, target: Target, named: NamedTerms)
        requires stage { self.old.stage ≡ Stage.Learn target Piece.Terms }
        ensures past { self.new.past ≡ self.old.past }
        ensures kept { line self.new ≡ line self.old }
        ensures goes { IsTrue (goes_on (way self.old.stage) (way self.new.stage)) }
        ensures stage { self.new.stage ≡ Stage.Go }
        ensures less { IsLacking Piece.Terms (holding self.old target)
            → work_left self.new < work_left self.old }
        ensures ties { (s : Setting) → IsTermsTold s self.old target named
            → Ties s self.old → Ties s self.new }
    {
        let before = self.take(target);
        self.put(target, with_named(before, named));
        self.stage = Stage::Go;
    }

    /// There was no memory to tell it.
    pub(crate) fn not_told(&mut self)
        ensures past { self.new.past ≡ self.old.past }
        ensures kept { line self.new ≡ line self.old }
        ensures goes { IsTrue (goes_on (way self.old.stage) (way self.new.stage)) }
        ensures unspent { is_unspent self.old.stage ≡ false → is_unspent self.new.stage ≡ false }
        ensures stage { IsTrue (is_answer self.old.stage Gave.NoMemory)
            → self.new.stage ≡ stage_told self.old self.old.stage Gave.NoMemory }
        ensures unanswered { is_answer self.old.stage Gave.NoMemory ≡ false
            → self.new.stage ≡ self.old.stage }
        ensures rest { self.new ≡ record self.old { stage = self.new.stage } }
        ensures ties { (s : Setting) → Ties s self.old → Ties s self.new }
    {
        match self.stage {
            Stage::Learn(_, _) => self.spend(),
            Stage::Ask(_, _) => self.spend(),
            Stage::NameSpace(_) => self.spend(),
            Stage::NameTerms(_, _) => self.spend(),
            Stage::NameText(_) => self.spend(),
            Stage::NameRenewal(_, _) => self.spend(),
            Stage::NameLast(_, _, _) => self.spend(),
            _ => (),
        }
    }
}
