//! A request whose space has a prompt of another request ends as that prompt does.

ghost use Rattle.std.specs.Prelude.{◌≡◌, length};
ghost use Rattle.worked_followers.specs.Following.{IsTaken};

use crate::follow;
use auth_events::{BookReply, Call, Loss};
use auth_runs::{Event, Outcome, Trace, Why};
use auth_text::NoMemory;
use link_trait::{Calls, RecordedDialer, ScriptPrompter, ScriptTokens};
use request_machine::{Gear, Machine};
use session_text::{Session, read_session};
use std::alloc::Global;
use std::process::Abort;
use std::test::Fail;

const SESSION: &str = "authfetch 1
request GET main http://intra.example/
request GET main http://intra.example/
link HTTP/1.1%20401%20Unauthorized%0D%0AWWW-Authenticate:%20Basic%20realm=\"x\"%0D%0AContent-Length:%200%0D%0A%0D%0A
";

/// The trace of the second request, while the first one leads prompt 1: taking that prompt's answer
/// has this reply.
fn play(
    rt: &impl Abort,
    alloc: Global,
    session: Session,
    taken: BookReply,
) -> Result<Trace, NoMemory>
    requires requests { length session.roster.requests ≡ 2 }
    requires taken { IsTaken taken }
{
    let roster = session.roster;
    let mut prompter = ScriptPrompter::new(alloc, &session.answers)?;
    let dialer = RecordedDialer::new(alloc, session.links, Calls::new(alloc));
    let tokens = ScriptTokens::new(alloc, session.steps);
    let mut gear = Gear { dialer, tokens };
    let mut machine = Machine::new(alloc, &roster, 2, [0; 32])?;
    let is_over = follow(
        alloc,
        &roster,
        &mut gear,
        &mut prompter,
        &mut machine,
        taken,
    );
    assert!(rt; is_over, "the machine asked for what no follower needs");
    Ok(machine.finish())
}

/// Whether an event is that call of the book, with that reply.
fn is_call(event: Option<&Event>, wanted: Call, told: BookReply) -> bool {
    match event {
        Some(Event::Called { call, reply }) => *call == wanted && *reply == told,
        _ => false,
    }
}

/// How a request ended that followed prompt 1 behind one reply, took this from it and called
/// nothing but its end behind that.
fn outcome(trace: &Trace, taken: BookReply) -> Option<Outcome> {
    let events = trace.events();
    let select = Call::Select { space: 1, terms: 0 };
    let is_taken = is_call(events.get(5), select, BookReply::Follow { prompt: 1 })
        && is_call(events.get(6), Call::Take { prompt: 1 }, taken)
        && is_call(events.get(7), Call::End, BookReply::Ended);
    match events.get(8) {
        Some(Event::Ended { outcome }) if is_taken => Some(*outcome),
        _ => None,
    }
}

/// How the second request ends.
fn end_by(rt: &impl Abort, alloc: Global, taken: BookReply) -> Result<Option<Outcome>, Fail>
    requires { IsTaken taken }
{
    let session = match read_session(alloc, SESSION.as_bytes()) {
        Ok(session) => session,
        Err(_) => return Err("no session".into()),
    };
    if session.roster.requests.len() != 2 {
        return Err("not two requests".into());
    }
    let trace = play(rt, alloc, session, taken).map_err(|_| "memory")?;
    Ok(outcome(&trace, taken))
}

#[test]
fn a_cancelled_prompt_refuses_the_follower(rt: HostRuntime) -> Result<(), Fail> {
    let ended = end_by(&rt, rt.alloc(), BookReply::Cancelled)?;
    assert!(rt; ended == Some(Outcome::Refused(401, Why::Cancelled(1))));
    Ok(())
}

#[test]
fn a_lost_prompt_fails_the_follower(rt: HostRuntime) -> Result<(), Fail> {
    let loss = Loss::Fault(5);
    let ended = end_by(&rt, rt.alloc(), BookReply::Lost { loss })?;
    assert!(rt; ended == Some(Outcome::PromptFailed(5)));
    Ok(())
}

#[test]
fn a_prompt_lost_for_want_of_memory_ends_the_follower_so(rt: HostRuntime) -> Result<(), Fail> {
    let loss = Loss::Memory;
    let ended = end_by(&rt, rt.alloc(), BookReply::Lost { loss })?;
    assert!(rt; ended == Some(Outcome::NoMemory));
    Ok(())
}
