//! What the machine does by itself.

ghost use Rattle.std.specs.Prelude.{◌≡◌, None};

use crate::machine::Machine;
use crate::need::Need;
use crate::stage::{Piece, Stage};
use link_trait::{Dialer, Prompter, Tokens};
use spaces::{Request, Target};
use std::alloc::Global;

impl Machine {
    ghost use Rattle.request_machine.specs.Work.{is_waiting, work_left, is_unspent};
    ghost use Rattle.std.specs.Prelude.{◌≤◌, ◌≡◌, ◌<◌, None, IsTrue, is_some, true, false, List};
    ghost use Rattle.std.specs.Prelude.{Option, ℕ};
    ghost use Rattle.trace_rule.specs.Settings.{Setting};
    ghost use Rattle.trace_rule.specs.Traces.{is_spent};
    ghost use Rattle.trace_rule.specs.Telling.{dials};
    ghost use Rattle.link_trait.specs.Told.{grown};
    ghost use Rattle.link_trait.specs.declared.dialer.Dial.{Dial};
    ghost use Rattle.request_machine.specs.Driven.{insides};
    ghost use Rattle.link_trait.specs.declared.dialer.Traffic.{Traffic};
    ghost use Rattle.link_trait.specs.declared.links.LinkName.{LinkName};
    ghost use Rattle.request_machine.specs.Carried.{IsCarried, TellsTraffic};
    ghost use Rattle.request_machine.specs.Failed.{link_faults, ask_faults, TellsLinkFaults};
    ghost use Rattle.request_machine.specs.Failed.{TellsAskFaults};
    ghost use Rattle.request_machine.specs.Prompted.{TellsPrompts};
    ghost use Rattle.request_machine.specs.Provided.{IsTouchedBySteps, TellsSteps, shown};
    ghost use Rattle.request_machine.specs.Provided.{step_faults};
    ghost use Rattle.request_machine.specs.Kept.{Ties};
    ghost use Rattle.request_machine.specs.Needs.{need_at, IsWantedAt};
    ghost use Rattle.request_machine.specs.Rooms.{HasSettingOf};
    ghost use Rattle.request_machine.specs.Turns.{is_asking, is_going, turns_left, opened_without};
    ghost use Rattle.request_machine.specs.Turns.{IsLinkKept, IsStill};
    ghost use Rattle.request_machine.specs.Linked.{way, goes_on, is_ending, line, IsLinked};
    ghost use Rattle.request_machine.specs.Linked.{IsOnlyLink, AreDialsOf, IsDriven};

    /// Does what comes next, where the machine goes on by itself.
    pub(crate) fn turn<D: Dialer, T: Tokens, P: Prompter>(
        &mut self,
        alloc: Global,
        request: &Request,
        dialer: &mut D,
        tokens: &mut T,
        prompter: &mut P,
    )
        requires linked { IsLinked self.old }
        requires links { IsOnlyLink (line self.old) (D.opened dialer.old) }
        requires told { AreDialsOf (line self.old) (D.dials dialer.old) }
        requires idle { is_asking self.old ≡ false }
        requires going { is_going self.old.stage ≡ true }
        requires tied { HasSettingOf request.now self.old }
        ensures free { is_waiting self.new.stage ≡ false }
        ensures less { work_left self.new ≤ work_left self.old }
        ensures spent { is_unspent self.old.stage ≡ false → self.new.stage ≡ Stage.Over }
        ensures told_spent { is_unspent self.old.stage ≡ false → is_spent self.new.past ≡ true }
        ensures ties { (s : Setting) → s.request ≡ request.now → Ties s self.old
            → Ties s self.new }
        ensures dials { (s : Setting) (before : Option (List Dial)) → s.request ≡ request.now
            → Ties s self.old → D.dials dialer.old ≡ grown before (dials s self.old.past)
            → D.dials dialer.new ≡ grown before (dials s self.new.past) }
        ensures driven { IsDriven self.old self.new
            (D.opened dialer.old) (D.opened dialer.new) (D.dials dialer.new) }
        ensures insides { insides self.new.past ≡ insides self.old.past }
        ensures provider { TellsSteps request.now T.sticks self.old self.new
            (shown (T.told tokens.old) (T.script tokens.old) (T.faults tokens.old))
            (shown (T.told tokens.new) (T.script tokens.new) (T.faults tokens.new)) }
        ensures steps_quiet { T.quiet tokens.old → T.quiet tokens.new
            × (step_faults self.new.past ≡ step_faults self.old.past) }
        ensures touched { IsTouchedBySteps tokens.old tokens.new self.old.past self.new.past }
        ensures traffic { TellsTraffic request.now self.old self.new (D.streams dialer.old)
            (D.traffic dialer.old) (D.traffic dialer.new) }
        ensures streams { D.streams dialer.new ≡ D.streams dialer.old }
        ensures faults { TellsLinkFaults D.sticks self.old self.new
            (D.faults dialer.old) (D.faults dialer.new) }
        ensures quiet { D.quiet dialer.old → D.quiet dialer.new
            × (link_faults self.new.past ≡ link_faults self.old.past) }
        ensures prompts { TellsPrompts request.now self.old self.new (P.answers prompter.old)
            (P.told prompter.old) (P.told prompter.new) }
        ensures answers { P.answers prompter.new ≡ P.answers prompter.old }
        ensures prompt_faults { TellsAskFaults P.sticks self.old self.new
            (P.faults prompter.old) (P.faults prompter.new) }
        ensures prompt_quiet { P.quiet prompter.old → P.quiet prompter.new
            × (ask_faults self.new.past ≡ ask_faults self.old.past) }
        ensures nearer { turns_left self.new < turns_left self.old }
    {
        match self.stage {
            Stage::Go => self.go(alloc, request, dialer, tokens),
            Stage::Choose(target) => self.choose(alloc, request, target),
            Stage::Continue(target) => self.go_on(alloc, tokens, target),
            Stage::LoseLink(link) => self.lose(link),
            Stage::Read(link) => self.read(alloc, request, dialer, link),
            Stage::Ask(prompt, ordinal) => self.ask_next(prompter, prompt, ordinal),
            Stage::NextNonce(target, closing) => self.renew_next(alloc, target, closing),
            Stage::End(outcome) => self.finished(outcome),
            Stage::SpentOver => self.spent_over(),
            Stage::Learn(target, piece) => self.resume(target, piece),
            _ => unreachable!(),
        }
    }

    /// Nothing is held of which more is to be told, so the way to the next head goes on.
    #[tactic(auto, using(crate::proofs::Choosing::resume_ties, crate::proofs::Nearing::resumed_nearer))]
    fn resume(&mut self, target: Target, piece: Piece)
        requires stage { self.old.stage ≡ Stage.Learn target piece }
        requires idle { is_asking self.old ≡ false }
        ensures past { self.new.past ≡ self.old.past }
        ensures kept { line self.new ≡ line self.old }
        ensures goes { IsTrue (goes_on (way self.old.stage) (way self.new.stage)) }
        ensures nearer { turns_left self.new < turns_left self.old }
        ensures free { is_waiting self.new.stage ≡ false }
        ensures less { work_left self.new ≤ work_left self.old }
        ensures ties { (s : Setting) → Ties s self.old → Ties s self.new }
    {
        self.stage = Stage::Go;
    }

    /// Closes a link that is still open.
    pub(crate) fn drop_link<D: Dialer>(&mut self, dialer: &mut D)
        requires { IsLinkKept self.old.link (D.opened dialer.old) }
        ensures same { self.new ≡ record self.old { link = None } }
        ensures traffic { D.traffic dialer.new ≡ D.traffic dialer.old }
        ensures streams { D.streams dialer.new ≡ D.streams dialer.old }
        ensures faults { D.faults dialer.new ≡ D.faults dialer.old }
        ensures quiet { D.quiet dialer.old → D.quiet dialer.new }
        ensures dials { D.dials dialer.new ≡ D.dials dialer.old }
        ensures opened { D.opened dialer.new ≡ opened_without self.old.link (D.opened dialer.old) }
    {
        match self.link.take() {
            Some(link) => link.spend(dialer),
            None => (),
        }
    }

    /// Whether no head and no reply follows any more.
    fn is_ending(&self) -> bool
        ensures { result ≡ is_ending (way self.now.stage) }
    {
        match self.stage {
            Stage::NextNonce(_, _) => true,
            Stage::NameLast(_, _, _) => true,
            Stage::RenewLast(_, _, _, _) => true,
            Stage::Close(_) => true,
            Stage::End(_) => true,
            Stage::Spent => true,
            Stage::SpentEnd => true,
            Stage::SpentOver => true,
            Stage::Over => true,
            _ => false,
        }
    }

    /// Closes the link where no head and no reply follows on it.
    #[tactic(auto, using(crate::proofs::Beside::linked_ties, crate::proofs::Driving::link_kept, crate::proofs::Carrying::carried_settled))]
    pub(crate) fn settle_link<D: Dialer>(&mut self, dialer: &mut D)
        requires linked { IsLinked self.old }
        requires links { IsOnlyLink (line self.old) (D.opened dialer.old) }
        requires told { AreDialsOf (line self.old) (D.dials dialer.old) }
        ensures none { is_ending (way self.new.stage) ≡ true → self.new.link ≡ None }
        ensures past { self.new.past ≡ self.old.past }
        ensures same { self.new ≡ record self.old { link = self.new.link } }
        ensures left { turns_left self.new ≡ turns_left self.old }
        ensures traffic { D.traffic dialer.new ≡ D.traffic dialer.old }
        ensures streams { D.streams dialer.new ≡ D.streams dialer.old }
        ensures faults { D.faults dialer.new ≡ D.faults dialer.old }
        ensures quiet { D.quiet dialer.old → D.quiet dialer.new }
        ensures carried { (s : Setting) (streams : Option (LinkName → List ℕ))
            (before : Option (List Traffic)) (more : List Traffic)
            → IsCarried s streams before self.old more → IsCarried s streams before self.new more }
        ensures dials { D.dials dialer.new ≡ D.dials dialer.old }
        ensures driven { IsDriven self.old self.new
            (D.opened dialer.old) (D.opened dialer.new) (D.dials dialer.new) }
        ensures ties { (s : Setting) → Ties s self.old → Ties s self.new }
    {
        if self.is_ending() {
            self.drop_link(dialer);
        }
    }

    /// What is asked of the caller, with the link closed where nothing follows on it; nothing where
    /// the machine goes on by itself.
    #[tactic(auto, using(crate::proofs::Driving::linked_on, crate::proofs::Needing::wanted_now))]
    pub(crate) fn next_need<D: Dialer>(&mut self, dialer: &mut D) -> Option<Need>
        requires linked { IsLinked self.old }
        requires links { IsOnlyLink (line self.old) (D.opened dialer.old) }
        requires told { AreDialsOf (line self.old) (D.dials dialer.old) }
        ensures need { result ≡ need_at self.new self.new.stage }
        ensures asks { is_some result ≡ is_asking self.new }
        ensures wanted { (s : Setting) → Ties s self.new → IsWantedAt s self.new self.new.stage }
        ensures none { is_ending (way self.new.stage) ≡ true → self.new.link ≡ None }
        ensures past { self.new.past ≡ self.old.past }
        ensures left { result ≡ None → turns_left self.new ≡ turns_left self.old }
        ensures given { self.new.given ≡ self.old.given }
        ensures space { self.new.space ≡ self.old.space }
        ensures traffic { D.traffic dialer.new ≡ D.traffic dialer.old }
        ensures streams { D.streams dialer.new ≡ D.streams dialer.old }
        ensures faults { D.faults dialer.new ≡ D.faults dialer.old }
        ensures quiet { D.quiet dialer.old → D.quiet dialer.new }
        ensures carried { (s : Setting) (streams : Option (LinkName → List ℕ))
            (before : Option (List Traffic)) (more : List Traffic)
            → IsCarried s streams before self.old more → IsCarried s streams before self.new more }
        ensures dials { D.dials dialer.new ≡ D.dials dialer.old }
        ensures driven { IsDriven self.old self.new
            (D.opened dialer.old) (D.opened dialer.new) (D.dials dialer.new) }
        ensures same { IsStill self.old self.new }
        ensures less { work_left self.new ≤ work_left self.old }
        ensures ties { (s : Setting) → Ties s self.old → Ties s self.new }
    {
        let next = self.need();
        self.settle_link(dialer);
        next
    }
}
