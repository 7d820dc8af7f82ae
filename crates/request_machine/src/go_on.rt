//! A context goes on: the provider is asked for the token that answers the peer's (RFC 4559
//! section 4.2).

use crate::known::{ended_on, last_token};
use crate::machine::Machine;
use crate::stage::Stage;
use auth_events::Gift;
use auth_text::{Bytes, NoMemory};
use link_trait::Tokens;
use negotiate_handler::Context;
use spaces::{Request, Target};
use std::alloc::Global;

impl Machine {
    ghost use Rattle.std.specs.Prelude.{◌≡◌, ◌<◌, ◌≤◌, IsSome, IsTrue, IfSome, None, Some};
    ghost use Rattle.std.specs.Prelude.{false, length, option_map};
    ghost use Rattle.trace_rule.specs.Settings.{Setting};
    ghost use Rattle.request_machine.specs.Changed.{holding, put_held};
    ghost use Rattle.request_machine.specs.Kept.{Ties};
    ghost use Rattle.request_machine.specs.Linked.{line, way, goes_on, is_away};
    ghost use Rattle.request_machine.specs.Told.{ended_told, IsLive, IsTokenOf};
    ghost use Rattle.request_machine.specs.Work.{is_waiting, work_left};
    ghost use Rattle.request_machine.specs.Turns.{turns_left};
    ghost use Rattle.request_machine.specs.Provided.{IsStepMore, IsTouchedBySteps, TellsSteps};
    ghost use Rattle.request_machine.specs.Provided.{shown, step_faults};

    /// The gift of what is held for the target, its context, and the peer's token. What is held
    /// keeps the context's last token.
    fn take_going(&mut self, target: Target, last: Bytes) -> (Gift, Context, Bytes)
        requires live { IsLive (holding self.old target) }
        requires last { IsTokenOf last (holding self.old target) }
        requires peer { IsSome self.old.peer }
        ensures gift { IfSome (holding self.old target) (λ held. held.gift ≡ result.0) }
        ensures peer { self.old.peer ≡ Some result.2 }
        ensures rest { self.new ≡ record (put_held target
            (option_map ended_told (holding self.old target)) self.old) { peer = None } }
    {
        let Some(peer) = self.take_peer() else {
            unreachable!();
        };
        let Some(before) = self.take(target) else {
            unreachable!();
        };
        let gift = before.gift;
        let (held, live) = ended_on(Some(before), last);
        self.put(target, held);
        (gift, live, peer)
    }

    /// Asks the provider, and goes on by its step. Until it has answered, the request stands as one
    /// whose memory has run out.
    fn answer_peer<T: Tokens>(&mut self, alloc: Global, tokens: &mut T, target: Target, last: Bytes)
        requires room { length self.old.past < 256 }
        requires few { self.old.rounds < 256 }
        requires stage { self.old.stage ≡ Stage.Continue target }
        requires live { IsLive (holding self.old target) }
        requires last { IsTokenOf last (holding self.old target) }
        requires peer { IsSome self.old.peer }
        ensures past { IsStepMore self.old.past self.new.past }
        ensures provider { (request : Request) → TellsSteps request T.sticks self.old self.new
            (shown (T.told tokens.old) (T.script tokens.old) (T.faults tokens.old))
            (shown (T.told tokens.new) (T.script tokens.new) (T.faults tokens.new)) }
        ensures quiet { T.quiet tokens.old → T.quiet tokens.new
            × (step_faults self.new.past ≡ step_faults self.old.past) }
        ensures touched { IsTouchedBySteps tokens.old tokens.new self.old.past self.new.past }
        ensures nearer { turns_left self.new < turns_left self.old }
        ensures less { work_left self.new ≤ work_left self.old }
        ensures kept { line self.new ≡ line self.old }
        ensures away { IsTrue (is_away (way self.new.stage)) }
        ensures free { is_waiting self.new.stage ≡ false }
        ensures ties { (s : Setting) → Ties s self.old → Ties s self.new }
    {
        self.spend();
        let (gift, live, peer) = self.take_going(target, last);
        let stepped = live.go_on(tokens, self.number, peer.as_slice());
        self.stepped(alloc, target, gift, stepped);
    }

    /// The context of what is held for the target goes on with the peer's token.
    pub(crate) fn go_on<T: Tokens>(&mut self, alloc: Global, tokens: &mut T, target: Target)
        requires room { length self.old.past < 256 }
        requires few { self.old.rounds < 256 }
        requires stage { self.old.stage ≡ Stage.Continue target }
        requires live { IsLive (holding self.old target) }
        requires peer { IsSome self.old.peer }
        ensures past { IsStepMore self.old.past self.new.past }
        ensures provider { (request : Request) → TellsSteps request T.sticks self.old self.new
            (shown (T.told tokens.old) (T.script tokens.old) (T.faults tokens.old))
            (shown (T.told tokens.new) (T.script tokens.new) (T.faults tokens.new)) }
        ensures quiet { T.quiet tokens.old → T.quiet tokens.new
            × (step_faults self.new.past ≡ step_faults self.old.past) }
        ensures touched { IsTouchedBySteps tokens.old tokens.new self.old.past self.new.past }
        ensures nearer { turns_left self.new < turns_left self.old }
        ensures less { work_left self.new ≤ work_left self.old }
        ensures kept { line self.new ≡ line self.old }
        ensures goes { IsTrue (goes_on (way self.old.stage) (way self.new.stage)) }
        ensures free { is_waiting self.new.stage ≡ false }
        ensures ties { (s : Setting) → Ties s self.old → Ties s self.new }
    {
        let Some(held) = self.holding(target) else {
            unreachable!();
        };
        match last_token(alloc, held) {
            Err(NoMemory) => self.spend(),
            Ok(last) => self.answer_peer(alloc, tokens, target, last),
        }
    }
}
