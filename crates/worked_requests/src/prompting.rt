//! Two requests of one space, served one behind the other, of which the first can't ask the user:
//! its prompt is lost, and the second one asks anew, for the space's second answer.

ghost use Rattle.std.specs.Prelude.{◌≡◌, [], Some, length, replicate};
ghost use Rattle.plain_book.specs.Words.{unused};

use crate::calls::{PROMPTED, PROMPTED_ENTRIES, PROMPTED_HEAD};
use auth_controller::{Gear, serve_alone};
use auth_events::{Controller, Journal};
use auth_runs::{Event, Outcome, Trace};
use auth_text::NoMemory;
use link_trait::{Calls, Dialer, FailingPrompter, Prompter, RecordedDialer, ScriptTokens, Tokens};
use plain_book::{PlainBook, PlainWords};
use session_text::{Session, read_session};
use spaces::Roster;
use std::alloc::Global;
use std::test::Fail;

/// The traces of two requests.
#[derive(Drop)]
struct Both {
    first: Trace,
    second: Trace,
}

/// Serves both requests of a roster, over a book that has told nothing.
fn serve_both<B: Controller, D: Dialer, T: Tokens, P: Prompter>(
    alloc: Global,
    book: &mut B,
    words: &mut PlainWords,
    gear: &mut Gear<D, T>,
    prompter: &mut P,
    roster: &Roster,
) -> Result<Both, NoMemory>
    requires roster { roster.now ≡ B.roster book.old }
    requires two { length roster.now.requests ≡ 2 }
    requires untold { B.told book.old ≡ [] }
    requires words { words.old ≡ replicate 32 unused }
    requires undialed { D.dials gear.old.dialer ≡ Some [] }
    requires unlinked { D.opened gear.old.dialer ≡ [] }
{
    let first = serve_alone(alloc, book, words, gear, prompter, roster, 1, [0; 32])?;
    let second = serve_alone(alloc, book, words, gear, prompter, roster, 2, [0; 32])?;
    Ok(Both { first, second })
}

/// Serves the session's two requests, with these calls of its prompter failing.
fn serve(alloc: Global, session: Session, failing: Calls) -> Result<(Both, Journal), NoMemory>
    requires { length session.roster.requests ≡ 2 }
{
    let roster = session.roster;
    let mut book = PlainBook::new(alloc, &roster)?;
    let mut words = PlainWords::new(alloc, 32)?;
    let mut prompter = FailingPrompter::new(alloc, &session.answers, failing)?;
    let dialer = RecordedDialer::new(alloc, session.links, Calls::new(alloc));
    let tokens = ScriptTokens::new(alloc, session.steps);
    let mut gear = Gear { dialer, tokens };
    let both = serve_both(
        alloc,
        &mut book,
        &mut words,
        &mut gear,
        &mut prompter,
        &roster,
    )?;
    let (_, _, journal) = book.into_parts();
    Ok((both, journal))
}

/// Serves the worked session, with the first call of its prompter failing.
fn serve_worked(alloc: Global) -> Result<(Both, Journal), Fail> {
    let session = match read_session(alloc, PROMPTED.as_bytes()) {
        Ok(session) => session,
        Err(_) => return Err("no session".into()),
    };
    if session.roster.requests.len() != 2 {
        return Err("not two requests".into());
    }
    let failing = Calls::from_slice(alloc, &[1]).map_err(|_| "memory")?;
    Ok(serve(alloc, session, failing).map_err(|_| "memory")?)
}

/// How the request ended.
fn outcome(trace: &Trace) -> Option<Outcome> {
    match trace.events().last() {
        Some(Event::Ended { outcome }) => Some(*outcome),
        _ => None,
    }
}

/// Whether the request wrote that head on its second link.
fn has_written(trace: &Trace, head: &str) -> bool {
    for event in trace.events() {
        if let Event::Headed { link: 2, bytes } = event {
            return bytes.as_slice() == head.as_bytes();
        }
    }
    false
}

#[test]
fn a_lost_prompt_is_asked_anew(rt: HostRuntime) -> Result<(), Fail> {
    let (both, journal) = serve_worked(rt.alloc())?;
    assert_eq!(rt; journal.entries(), PROMPTED_ENTRIES.as_slice());
    assert!(rt; outcome(&both.first) == Some(Outcome::PromptFailed(1)));
    assert!(rt; outcome(&both.second) == Some(Outcome::Answered(200)));
    assert!(rt; has_written(&both.second, PROMPTED_HEAD));
    Ok(())
}
