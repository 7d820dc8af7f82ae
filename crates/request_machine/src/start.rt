//! The beginning of a context: the provider of tokens is asked for its first one, before a link is
//! dialed (RFC 4559 section 4.1).

ghost use Rattle.std.specs.Prelude.{◌≡◌, option_copied};
ghost use Rattle.request_machine.specs.Contexts.{identity_told};

use crate::holding::Holding;
use crate::machine::Machine;
use crate::spn::spn_of;
use auth_events::Gift;
use auth_text::{Bytes, Identity, NoMemory};
use link_trait::Tokens;
use negotiate_handler::{Context, Stepped};
use spaces::{Request, Target};
use std::alloc::Global;

impl Machine {
    ghost use Rattle.std.specs.Prelude.{◌≡◌, ◌≢◌, ◌<◌, ◌≤◌, IsSome, IsTrue, IfSome, None, length};
    ghost use Rattle.std.specs.Prelude.{true, false, option_copied};
    ghost use Rattle.link_trait.specs.Faults.{Rose};
    ghost use Rattle.negotiate_handler.specs.Contexts.{is_failed};
    ghost use Rattle.trace_rule.specs.Settings.{Setting};
    ghost use Rattle.trace_rule.specs.Moves.{Asking};
    ghost use Rattle.negotiate_handler.specs.declared.context.Said.TheVariants.{NoMechanism as SaidNone};
    ghost use Rattle.request_machine.specs.declared.stage.Stage.TheVariants.{Go};
    ghost use Rattle.request_machine.specs.Changed.{holding};
    ghost use Rattle.request_machine.specs.Contexts.{CanStart, IsStarting, IsBefore, IsBegun};
    ghost use Rattle.request_machine.specs.Contexts.{IsBegunBy};
    ghost use Rattle.request_machine.specs.Kept.{Ties};
    ghost use Rattle.request_machine.specs.Linked.{line, way, goes_on, is_away};
    ghost use Rattle.request_machine.specs.Work.{is_waiting, work_left};
    ghost use Rattle.request_machine.specs.Turns.{turns_left};
    ghost use Rattle.request_machine.specs.Provided.{IsSeenBy, IsStepMore, IsTouchedBySteps};
    ghost use Rattle.request_machine.specs.Provided.{TellsSteps, shown, step_faults};

    /// What is held for the target.
    pub(crate) fn holding(&self, target: Target) -> Option<&Holding>
        ensures { option_copied result ≡ holding self.now target }
    {
        match target {
            Target::Proxy => self.proxy.as_ref(),
            Target::Server => self.server.as_ref(),
            Target::Socks => None,
        }
    }

    /// Asks the provider for the first token of the context of what is held for the target. Its
    /// gift comes back beside what the provider's step comes to.
    fn begin<T: Tokens>(&self, tokens: &mut T, target: Target, spn: &[u8]) -> (Gift, Stepped)
        requires { CanStart (holding self.now target) }
        ensures gift { IfSome (holding self.now target) (λ held. held.gift ≡ result.0) }
        ensures begun { IfSome (holding self.now target) (λ held. IsBegunBy held self.now.number
            spn.now result.1 (T.told tokens.old) (T.told tokens.new)
            (T.script tokens.old) (T.taken tokens.old) (T.taken tokens.new)
            (T.faults tokens.new)) }
        ensures never { result.1 ≢ Stepped.Refused SaidNone }
        ensures script { T.script tokens.new ≡ T.script tokens.old }
        ensures later { T.faults tokens.old ≤ T.faults tokens.new }
        ensures failed { is_failed result.1 ≡ true
            → Rose T.sticks (T.faults tokens.old) (T.faults tokens.new) }
        ensures quiet { T.quiet tokens.old → T.quiet tokens.new × (is_failed result.1 ≡ false) }
    {
        let Some(held) = self.holding(target) else {
            unreachable!();
        };
        let stepped = Context::begin(tokens, self.number, spn, identity_told(held));
        (held.gift, stepped)
    }

    /// Goes on by what the provider's step comes to.
    pub(crate) fn stepped(&mut self, alloc: Global, target: Target, gift: Gift, stepped: Stepped)
        requires room { length self.old.past < 256 }
        requires few { self.old.rounds < 256 }
        requires some { IsSome (holding self.old target) }
        requires gift { IfSome (holding self.old target) (λ held. held.gift ≡ gift) }
        requires begun { stepped ≡ Stepped.Refused SaidNone
            → IsBegun (holding self.old target) }
        requires unbegun { stepped ≡ Stepped.NoMechanism
            → IfSome (holding self.old target) (λ held. held.context ≡ None) }
        ensures seen { IsSeenBy stepped target self.old self.new }
        ensures kept { line self.new ≡ line self.old }
        ensures away { IsTrue (is_away (way self.new.stage)) }
        ensures free { is_waiting self.new.stage ≡ false }
        ensures ties { (s : Setting) (asking : Asking) → IsBefore s self.old target asking
            → Ties s self.old → Ties s self.new }
    {
        match stepped {
            Stepped::Ready(live) => match Bytes::from_slice(alloc, live.token()) {
                Ok(token) => self.stepped_token(target, token, live),
                Err(NoMemory) => self.stepped_spent(target),
            },
            Stepped::Refused(said) => self.stepped_refused(target, gift, said),
            Stepped::NoMechanism => self.stepped_none(target),
            Stepped::Failed { count } => self.stepped_failed(target, count),
            Stepped::NoMemory => self.stepped_spent(target),
        }
    }

    /// Begins the context of what is held for the target.
    pub(crate) fn start<T: Tokens>(
        &mut self,
        alloc: Global,
        request: &Request,
        tokens: &mut T,
        target: Target,
    )
        requires room { length self.old.past < 256 }
        requires few { self.old.rounds < 256 }
        requires stage { self.old.stage ≡ Go }
        requires starting { IsStarting self.old target }
        ensures past { IsStepMore self.old.past self.new.past }
        ensures provider { TellsSteps request.now T.sticks self.old self.new
            (shown (T.told tokens.old) (T.script tokens.old) (T.faults tokens.old))
            (shown (T.told tokens.new) (T.script tokens.new) (T.faults tokens.new)) }
        ensures quiet { T.quiet tokens.old → T.quiet tokens.new
            × (step_faults self.new.past ≡ step_faults self.old.past) }
        ensures touched { IsTouchedBySteps tokens.old tokens.new self.old.past self.new.past }
        ensures nearer { turns_left self.new < turns_left self.old }
        ensures less { work_left self.new ≤ work_left self.old }
        ensures kept { line self.new ≡ line self.old }
        ensures goes { IsTrue (goes_on (way self.old.stage) (way self.new.stage)) }
        ensures away { IsTrue (is_away (way self.new.stage)) }
        ensures free { is_waiting self.new.stage ≡ false }
        ensures ties { (s : Setting) → Ties s self.old → Ties s self.new }
    {
        match spn_of(alloc, request, target) {
            Err(NoMemory) => self.spend(),
            Ok(spn) => {
                let (gift, stepped) = self.begin(tokens, target, spn.as_slice());
                self.stepped(alloc, target, gift, stepped);
            }
        }
    }
}

/// The identity that the provider is told: none for the default one.
fn identity_told(held: &Holding) -> Option<&Identity>
    ensures { option_copied result ≡ identity_told held.now }
{
    if held.gift.ordinal == 0 {
        return None;
    }
    held.identity.as_ref()
}
