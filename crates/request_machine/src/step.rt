//! The one call that drives a request: all work up to the next thing that the book or the words
//! must tell.

use crate::gear::Gear;
use crate::machine::Machine;
use crate::need::Need;
use crate::stage::Stage;
use link_trait::{Dialer, Prompter, Tokens};
use spaces::Roster;
use std::alloc::Global;

impl Machine {
    ghost use Rattle.std.specs.Prelude.{◌≡◌, ◌≤◌, ◌⊎◌, None, Some, IsSome, true, false, List};
    ghost use Rattle.std.specs.Prelude.{Option};
    ghost use Rattle.spaces.specs.Sites.{numbered};
    ghost use Rattle.trace_rule.specs.Settings.{Setting};
    ghost use Rattle.trace_rule.specs.Telling.{dials};
    ghost use Rattle.trace_rule.specs.Traces.{is_spent};
    ghost use Rattle.link_trait.specs.Told.{grown};
    ghost use Rattle.link_trait.specs.declared.dialer.Dial.{Dial};
    ghost use Rattle.request_machine.specs.Driven.{insides};
    ghost use Rattle.link_trait.specs.declared.dialer.Traffic.{Traffic};
    ghost use Rattle.link_trait.specs.declared.prompts.Ask.{Ask};
    ghost use Rattle.request_machine.specs.Carried.{IsCarried};
    ghost use Rattle.request_machine.specs.Failed.{link_faults, ask_faults, TellsLinkFaults};
    ghost use Rattle.request_machine.specs.Failed.{TellsAskFaults};
    ghost use Rattle.request_machine.specs.Prompted.{IsPrompted};
    ghost use Rattle.request_machine.specs.Provided.{IsAskedSoFar, IsTouchedBySteps};
    ghost use Rattle.request_machine.specs.Provided.{TellsStepFaults, step_faults};
    ghost use Rattle.link_trait.specs.declared.tokens.TokenCall.{TokenCall};
    ghost use Rattle.request_machine.specs.Kept.{Ties, IsSettingOf};
    ghost use Rattle.request_machine.specs.Needs.{need_at, IsWantedAt};
    ghost use Rattle.request_machine.specs.Rooms.{HasSettingIn};
    ghost use Rattle.request_machine.specs.Turns.{is_asking, IsStill};
    ghost use Rattle.request_machine.specs.Work.{is_waiting, is_unspent, work_left};
    ghost use Rattle.request_machine.specs.Linked.{way, line, is_ending, of_others, IsLinked};
    ghost use Rattle.request_machine.specs.Linked.{IsOnlyLink, AreDialsOf};

    /// Goes on with the request up to what the book or the words must tell next, or to its end. The
    /// roster is the one of which the machine was made. Of the request's links only the machine's
    /// own may be open, and none may have been dialed that the machine did not dial.
    pub fn step<D: Dialer, T: Tokens, P: Prompter>(
        &mut self,
        alloc: Global,
        roster: &Roster,
        gear: &mut Gear<D, T>,
        prompter: &mut P,
    ) -> Need
        requires tied { HasSettingIn roster.now self.old }
        requires linked { IsLinked self.old }
        requires links { IsOnlyLink (line self.old) (D.opened gear.old.dialer) }
        requires told { AreDialsOf (line self.old) (D.dials gear.old.dialer) }
        ensures number { self.new.number ≡ self.old.number }
        ensures seed { self.new.seed ≡ self.old.seed }
        ensures ties { (s : Setting) → IsSettingOf s roster.now self.old.number self.old.seed
            → Ties s self.old → Ties s self.new }
        ensures need { need_at self.new self.new.stage ≡ Some result }
        ensures wanted { (s : Setting) → Ties s self.new → IsWantedAt s self.new self.new.stage }
        ensures linked { IsLinked self.new }
        ensures links { IsOnlyLink (line self.new) (D.opened gear.new.dialer) }
        ensures dialed { AreDialsOf (line self.new) (D.dials gear.new.dialer) }
        ensures closed { is_ending (way self.new.stage) ≡ true → self.new.link ≡ None }
        ensures others { of_others self.old.number (D.opened gear.new.dialer)
            ≡ of_others self.old.number (D.opened gear.old.dialer) }
        ensures dials { (s : Setting) (before : Option (List Dial))
            → IsSettingOf s roster.now self.old.number self.old.seed → Ties s self.old
            → D.dials gear.old.dialer ≡ grown before (dials s self.old.past)
            → D.dials gear.new.dialer ≡ grown before (dials s self.new.past) }
        ensures still { is_asking self.old ≡ true
            → (self.new.past ≡ self.old.past) × IsStill self.old self.new }
        ensures free { is_asking self.old ≡ false → is_waiting self.new.stage ≡ false }
        ensures left { work_left self.new ≤ work_left self.old }
        ensures unspent { is_unspent self.old.stage ≡ false
            → (is_unspent self.new.stage ≡ false) ⊎ (self.new.stage ≡ Stage.Over) }
        ensures spent { is_unspent self.old.stage ≡ false → self.new.stage ≡ Stage.Over
            → is_spent self.new.past ≡ true }
        ensures asked { (s : Setting) (before : Option (List TokenCall)) (calls : List TokenCall)
            → IsSettingOf s roster.now self.old.number self.old.seed → Ties s self.old
            → T.told gear.old.tokens ≡ grown before calls
            → IsAskedSoFar s (is_ending (way self.old.stage)) self.old.past calls
            → (more : List TokenCall) × (T.told gear.new.tokens ≡ grown before more)
            × IsAskedSoFar s (is_ending (way self.new.stage)) self.new.past more }
        ensures script { T.script gear.new.tokens ≡ T.script gear.old.tokens }
        ensures step_faults { TellsStepFaults T.sticks self.old self.new
            (T.faults gear.old.tokens) (T.faults gear.new.tokens) }
        ensures step_quiet { T.quiet gear.old.tokens → T.quiet gear.new.tokens
            × (step_faults self.new.past ≡ step_faults self.old.past) }
        ensures touched { IsTouchedBySteps gear.old.tokens gear.new.tokens
            self.old.past self.new.past }
        ensures insides { insides self.new.past ≡ insides self.old.past }
        ensures traffic { (s : Setting) (before : Option (List Traffic)) (more : List Traffic)
            → IsSettingOf s roster.now self.old.number self.old.seed → Ties s self.old
            → D.traffic gear.old.dialer ≡ grown before more
            → IsCarried s (D.streams gear.old.dialer) before self.old more
            → (further : List Traffic) × (D.traffic gear.new.dialer ≡ grown before further)
            × IsCarried s (D.streams gear.old.dialer) before self.new further }
        ensures streams { D.streams gear.new.dialer ≡ D.streams gear.old.dialer }
        ensures faults { TellsLinkFaults D.sticks self.old self.new
            (D.faults gear.old.dialer) (D.faults gear.new.dialer) }
        ensures quiet { D.quiet gear.old.dialer → D.quiet gear.new.dialer
            × (link_faults self.new.past ≡ link_faults self.old.past) }
        ensures prompts { (s : Setting) (before : Option (List Ask))
            → IsSettingOf s roster.now self.old.number self.old.seed → Ties s self.old
            → IsPrompted s before (P.answers prompter.old) self.old (P.told prompter.old)
            → IsPrompted s before (P.answers prompter.old) self.new (P.told prompter.new) }
        ensures answers { P.answers prompter.new ≡ P.answers prompter.old }
        ensures prompt_faults { TellsAskFaults P.sticks self.old self.new
            (P.faults prompter.old) (P.faults prompter.new) }
        ensures prompt_quiet { P.quiet prompter.old → P.quiet prompter.new
            × (ask_faults self.new.past ≡ ask_faults self.old.past) }
    {
        let Some(request) = roster.requests.get(self.number) else {
            unreachable!()
        };
        loop {
            if let Some(need) = self.next_need(&mut gear.dialer) {
                return need;
            }
            self.turn(alloc, request, &mut gear.dialer, &mut gear.tokens, prompter);
        }
    }
}
