//! Worked sessions, with each call of their links failing in turn: the request ends there as a
//! failed link, behind the calls on the book that it makes without a failure, and it is ended in
//! the book.

ghost use Rattle.std.specs.Prelude.{◌≡◌, [], Some, length, replicate};
ghost use Rattle.plain_book.specs.Words.{unused};

use crate::calls::{CALLS, PROXIED, PROXIED_CALLS, SESSION};
use auth_controller::{Gear, serve_alone};
use auth_events::{BookReply, Call, Controller, Entry, Journal};
use auth_runs::{Event, Outcome, Trace};
use auth_text::NoMemory;
use link_trait::{Calls, Dialer, Prompter, RecordedDialer, ScriptPrompter, ScriptTokens, Tokens};
use plain_book::{PlainBook, PlainWords};
use session_text::{Session, read_session};
use spaces::Roster;
use std::alloc::Global;
use std::test::Fail;

/// Which call of a request's links failed, with the link's number.
#[derive(Clone, Copy, Debug, PartialEq, Eq)]
enum Failure {
    Nothing,
    Dial(u32),
    Write(u32),
    Read(u32),
}

/// What is left of a request that was served: its trace, and the book's journal.
#[derive(Drop)]
struct Served {
    trace: Trace,
    journal: Journal,
}

/// Serves the only request of a roster, over a book that has told nothing.
fn serve_first<B: Controller, D: Dialer, T: Tokens, P: Prompter>(
    alloc: Global,
    book: &mut B,
    words: &mut PlainWords,
    gear: &mut Gear<D, T>,
    prompter: &mut P,
    roster: &Roster,
) -> Result<Trace, NoMemory>
    requires roster { roster.now ≡ B.roster book.old }
    requires one { length roster.now.requests ≡ 1 }
    requires untold { B.told book.old ≡ [] }
    requires words { words.old ≡ replicate 16 unused }
    requires undialed { D.dials gear.old.dialer ≡ Some [] }
    requires unlinked { D.opened gear.old.dialer ≡ [] }
{
    serve_alone(alloc, book, words, gear, prompter, roster, 1, [0; 32])
}

/// Serves the session's request, with the link calls of these numbers failing.
fn serve(alloc: Global, session: Session, failing: Calls) -> Result<Served, NoMemory>
    requires { length session.roster.requests ≡ 1 }
{
    let roster = session.roster;
    let mut book = PlainBook::new(alloc, &roster)?;
    let mut words = PlainWords::new(alloc, 16)?;
    let mut prompter = ScriptPrompter::new(alloc, &session.answers)?;
    let dialer = RecordedDialer::new(alloc, session.links, failing);
    let tokens = ScriptTokens::new(alloc, session.steps);
    let mut gear = Gear { dialer, tokens };
    let trace = serve_first(
        alloc,
        &mut book,
        &mut words,
        &mut gear,
        &mut prompter,
        &roster,
    )?;
    let (_, _, journal) = book.into_parts();
    Ok(Served { trace, journal })
}

/// Serves the only request of a session's text, with one call of its links failing.
fn serve_text(alloc: Global, text: &str, failing: u32) -> Result<Served, Fail> {
    let text = text.as_bytes();
    if text.len() > 4_194_304 {
        return Err("no session".into());
    }
    let session = match read_session(alloc, text) {
        Ok(session) => session,
        Err(_) => return Err("no session".into()),
    };
    if session.roster.requests.len() != 1 {
        return Err("not one request".into());
    }
    let failing = Calls::from_slice(alloc, &[failing]).map_err(|_| "memory")?;
    Ok(serve(alloc, session, failing).map_err(|_| "memory")?)
}

/// How the request ended, and what of its links had failed right before, if anything had.
fn end_of(trace: &Trace) -> Option<(Failure, Outcome)> {
    let events = trace.events();
    let failure = match events.get(events.len().checked_sub(3)?) {
        Some(Event::DialFailed { link, count: 1 }) => Failure::Dial(*link),
        Some(Event::WriteFailed { link, count: 1 }) => Failure::Write(*link),
        Some(Event::ReadFailed { link, count: 1 }) => Failure::Read(*link),
        _ => Failure::Nothing,
    };
    match events.last() {
        Some(Event::Ended { outcome }) => Some((failure, *outcome)),
        _ => None,
    }
}

/// Whether an entry is that call of the request, with that reply.
fn is_entry(entry: Option<&Entry>, wanted: Option<&(Call, BookReply)>) -> bool {
    match (entry, wanted) {
        (Some(entry), Some((call, reply))) => {
            entry.caller == 1 && entry.request == 1 && entry.call == *call && entry.reply == *reply
        }
        _ => false,
    }
}

/// Whether the entries are the first of these calls, so many, and the last one.
fn are_first(entries: &[Entry], calls: &[(Call, BookReply)], many: usize) -> bool {
    for k in 0..many {
        if !is_entry(entries.get(k), calls.get(k)) {
            return false;
        }
    }
    entries.len().checked_sub(many) == Some(1) && is_entry(entries.last(), calls.last())
}

/// Whether the request of a session with these calls on the book fails so at one call of its
/// links, behind so many of them, and is ended then.
fn is_cut(served: &Served, calls: &[(Call, BookReply)], many: usize, failure: Failure) -> bool {
    end_of(&served.trace) == Some((failure, Outcome::LinkFailed(1)))
        && are_first(served.journal.entries(), calls, many)
}

/// Whether nothing of the request failed, and it made all of these calls.
fn is_whole(served: &Served, calls: &[(Call, BookReply)]) -> bool {
    end_of(&served.trace) == Some((Failure::Nothing, Outcome::Answered(200)))
        && are_first(
            served.journal.entries(),
            calls,
            calls.len().saturating_sub(1),
        )
}

#[test]
fn each_link_call_fails(rt: HostRuntime) -> Result<(), Fail> {
    for (failing, many, failure) in [
        (1, 2, Failure::Dial(1)),
        (2, 2, Failure::Write(1)),
        (3, 2, Failure::Read(1)),
        (4, 4, Failure::Dial(2)),
        (5, 4, Failure::Write(2)),
        (6, 4, Failure::Read(2)),
    ] {
        let served = serve_text(rt.alloc(), SESSION, failing)?;
        assert!(rt;
            is_cut(&served, &CALLS, many, failure),
            "at link call {failing}"
        );
    }
    Ok(())
}

#[test]
fn each_link_call_before_a_proxy_fails(rt: HostRuntime) -> Result<(), Fail> {
    for (failing, many, failure) in [
        (1, 3, Failure::Dial(1)),
        (2, 3, Failure::Write(1)),
        (3, 3, Failure::Read(1)),
        (4, 5, Failure::Dial(2)),
        (5, 5, Failure::Write(2)),
        (6, 5, Failure::Read(2)),
        (7, 7, Failure::Dial(3)),
        (8, 7, Failure::Write(3)),
        (9, 7, Failure::Read(3)),
    ] {
        let served = serve_text(rt.alloc(), PROXIED, failing)?;
        assert!(rt;
            is_cut(&served, &PROXIED_CALLS, many, failure),
            "at link call {failing}"
        );
    }
    Ok(())
}

#[test]
fn no_further_link_call_is_made(rt: HostRuntime) -> Result<(), Fail> {
    assert!(rt; is_whole(&serve_text(rt.alloc(), SESSION, 7)?, &CALLS));
    assert!(rt; is_whole(&serve_text(rt.alloc(), PROXIED, 10)?, &PROXIED_CALLS));
    Ok(())
}
