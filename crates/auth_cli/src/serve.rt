//! A session's requests are served, and what a command writes of it.

ghost use Rattle.std.specs.Prelude.{◌≤◌, IfOk, length};
ghost use Rattle.auth_cli.specs.Headline.{IsLoneRunOf, IsTextOf};

use crate::words::Command;
use auth_book::AuthBook;
use auth_controller::Gear;
use auth_report::text_of;
use auth_runs::Run;
use auth_text::{Bytes, NoMemory};
use link_trait::{Calls, RecordedDialer, ScriptPrompter, ScriptTokens};
use lone_caller::serve_all;
use session_text::{Session, counts_of};
use std::alloc::Global;

/// The run of a session, through a book, recorded links and a script of answers.
fn run_for(alloc: Global, session: Session, seed: [u8; 32]) -> Result<Run, NoMemory>
    requires { length session.roster.requests ≤ 2048 }
    ensures { IfOk result (λ run. IsLoneRunOf session seed run) }
{
    let mut book = AuthBook::new(alloc, &session.roster)?;
    let mut prompter = ScriptPrompter::new(alloc, &session.answers)?;
    let dialer = RecordedDialer::new(alloc, session.links, Calls::new(alloc));
    let tokens = ScriptTokens::new(alloc, session.steps);
    let mut gear = Gear { dialer, tokens };
    let traces = serve_all(
        alloc,
        &mut book,
        &mut gear,
        &mut prompter,
        &session.roster,
        seed,
    )?;
    let (roster, names, journal) = book.into_parts();
    Ok(Run::new(seed, roster, names, journal, traces))
}

fn report(alloc: Global, session: Session, seed: [u8; 32]) -> Result<Bytes, NoMemory>
    requires { length session.roster.requests ≤ 2048 }
    ensures { IfOk result (λ text. IsTextOf Command.Alone seed session text) }
{
    let run = run_for(alloc, session, seed)?;
    let text = text_of(alloc, &run)?;
    Ok(text)
}

/// The text that a command writes for a session.
pub(crate) fn text_for(
    alloc: Global,
    command: Command,
    session: Session,
    seed: [u8; 32],
) -> Result<Bytes, NoMemory>
    requires { length session.roster.requests ≤ 2048 }
    ensures { IfOk result (λ text. IsTextOf command seed session text) }
{
    match command {
        Command::Check => counts_of(alloc, &session),
        Command::Alone => report(alloc, session, seed),
    }
}
