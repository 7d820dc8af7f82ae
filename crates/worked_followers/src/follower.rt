//! A machine is driven from need to need, and told what a book replies to a request that follows
//! prompt 1 of space 1.

ghost use Rattle.std.specs.Prelude.{◌≡◌, IfSome, true, false};
ghost use Rattle.worked_followers.specs.Following.{GoesOn, HasFollowing, IsTaken, IsThrough};
ghost use Rattle.worked_followers.specs.Following.{IsToldFor, SuitsNamed};

use auth_events::{BookReply, Call};
use link_trait::{Dialer, Prompter, Tokens};
use request_machine::{Gave, Gear, Machine, Need};
use spaces::Roster;
use std::alloc::Global;

/// Where a machine stands behind an answer.
#[derive(Clone, Copy, Debug, PartialEq, Eq)]
pub(crate) enum Stand {
    /// It goes on; its space was named, or wasn't.
    Going(bool),
    /// Its request is over.
    Over,
    /// It asked for what no follower needs.
    Astray,
}

/// What the book replies to the call of a follower; taking the prompt's answer has that reply.
fn reply_to(call: Call, is_named: bool, taken: BookReply) -> Option<BookReply>
    requires { IsTaken taken }
    ensures { IfSome result (λ reply. SuitsNamed is_named call reply) }
{
    match call {
        Call::Begin => Some(BookReply::Begun),
        Call::Preempt { target: _ } => Some(BookReply::Nothing),
        Call::Select { space: 1, terms: _ } if is_named => Some(BookReply::Follow { prompt: 1 }),
        Call::Take { prompt: 1 } => Some(taken),
        Call::End => Some(BookReply::Ended),
        _ => None,
    }
}

/// What a follower is told, and whether its space is named then.
fn answer_to(need: Need, is_named: bool, taken: BookReply) -> Option<(Gave, bool)>
    requires { IsTaken taken }
    ensures { IfSome result (λ told. IsToldFor need is_named told.0 told.1) }
{
    match need {
        Need::Book(call) => match reply_to(call, is_named, taken) {
            Some(reply) => Some((Gave::Reply(reply), is_named)),
            None => None,
        },
        Need::SpaceNo(_) => if is_named {
            None
        } else {
            Some((Gave::Number(1), true))
        },
        _ => None,
    }
}

/// Goes on to the machine's next need, and answers it.
fn go_on<D: Dialer, T: Tokens, P: Prompter>(
    alloc: Global,
    roster: &Roster,
    gear: &mut Gear<D, T>,
    prompter: &mut P,
    machine: &mut Machine,
    is_named: bool,
    taken: BookReply,
) -> Stand
    requires taken { IsTaken taken }
    requires following { HasFollowing roster.now is_named (D.opened gear.old.dialer)
        (D.dials gear.old.dialer) machine.old }
    ensures { GoesOn roster.now result (D.opened gear.new.dialer) (D.dials gear.new.dialer)
        machine.new }
{
    let need = machine.step(alloc, roster, gear, prompter);
    if let Need::Ended = need {
        return Stand::Over;
    }
    match answer_to(need, is_named, taken) {
        Some((gave, named)) => {
            machine.gave(gave);
            Stand::Going(named)
        }
        None => Stand::Astray,
    }
}

/// Drives the machine of a request that hasn't begun and has one space, in which another request
/// leads prompt 1: taking that prompt's answer has the reply `taken`. It tells whether the machine
/// came to its end, with a trace that can be taken; it stops where the machine asks for what such a
/// request doesn't need, as where it goes on with credentials.
pub fn follow<D: Dialer, T: Tokens, P: Prompter>(
    alloc: Global,
    roster: &Roster,
    gear: &mut Gear<D, T>,
    prompter: &mut P,
    machine: &mut Machine,
    taken: BookReply,
) -> bool
    requires taken { IsTaken taken }
    requires following { HasFollowing roster.now false (D.opened gear.old.dialer)
        (D.dials gear.old.dialer) machine.old }
    ensures { result ≡ true → IsThrough machine.new }
{
    let mut is_named = false;
    for _ in 0..8 {
        match go_on(alloc, roster, gear, prompter, machine, is_named, taken) {
            Stand::Going(now) => is_named = now,
            Stand::Over => return true,
            Stand::Astray => return false,
        }
    }
    false
}
