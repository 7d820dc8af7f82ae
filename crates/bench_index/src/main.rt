//! How long each call on a book takes behind a journal of a given length. The words are `plain` or
//! `indexed`, for the book that scans its journal or the one that has an index, and the number of
//! entries; then a line for each call that is made behind them tells its kind and its time in
//! nanoseconds.
#![tactic(auto)]

mod history;
mod names;
mod roster;
mod times;

use crate::history::played;
use crate::roster::roster;
use crate::times::{Time, word};
use auth_book::AuthBook;
use auth_text::NoMemory;
use plain_book::PlainBook;
use std::alloc::Global;
use std::process::ExitCode;
use std::rt::{Clock, Env};
use std::{env, io};

/// How a run ended.
#[derive(Drop)]
enum Outcome {
    Done(Vec<Time>),
    Idle,
    Usage,
    Wrong,
    NoMemory,
}

fn ended_with(times: Option<Vec<Time>>) -> Outcome {
    match times {
        Some(times) => Outcome::Done(times),
        None => Outcome::Wrong,
    }
}

/// The times on the book that scans its journal.
fn plain<C: Clock>(alloc: Global, clock: &C, entries: usize) -> Result<Outcome, NoMemory> {
    let roster = roster(alloc)?;
    if roster.requests.len() > 2048 {
        return Ok(Outcome::Wrong);
    }
    let mut book = PlainBook::new(alloc, &roster)?;
    Ok(ended_with(played(alloc, clock, &mut book, &roster, entries)?))
}

/// The times on the book that has an index.
fn indexed<C: Clock>(alloc: Global, clock: &C, entries: usize) -> Result<Outcome, NoMemory> {
    let roster = roster(alloc)?;
    if roster.requests.len() > 2048 {
        return Ok(Outcome::Wrong);
    }
    let mut book = AuthBook::new(alloc, &roster)?;
    Ok(ended_with(played(alloc, clock, &mut book, &roster, entries)?))
}

/// What the two words ask for.
fn measured<R: AllocGlobal + Clock>(rt: &R, book: &str, entries: &str) -> Outcome {
    let Ok(entries) = entries.parse::<usize>() else {
        return Outcome::Usage;
    };
    let times = match book {
        "plain" => plain(rt.alloc(), rt, entries),
        "indexed" => indexed(rt.alloc(), rt, entries),
        _ => Ok(Outcome::Usage),
    };
    times.unwrap_or(Outcome::NoMemory)
}

/// What the words ask for. Without words there is nothing to do.
fn asked<R: AllocGlobal + Clock + Env>(rt: &R) -> io::Result<Outcome> {
    let mut args = env::args(rt)?.skip(1);
    let Some(book) = args.next() else {
        return Ok(Outcome::Idle);
    };
    let Some(entries) = args.next() else {
        return Ok(Outcome::Usage);
    };
    Ok(measured(rt, book.as_str(), entries.as_str()))
}

/// Prints the times.
fn print(rt: &HostRuntime, times: &[Time]) -> io::Result<()> {
    for time in times {
        println!(rt; "{} {}", word(time.call), time.nanos)?;
    }
    Ok(())
}

fn main(rt: HostRuntime) -> ExitCode {
    match asked(&rt) {
        Ok(Outcome::Done(times)) => match print(&rt, times.as_slice()) {
            Ok(()) => ExitCode::from(0),
            Err(_) => ExitCode::from(7),
        },
        Ok(Outcome::Idle) => ExitCode::from(0),
        Ok(Outcome::Wrong) => ExitCode::from(1),
        Ok(Outcome::Usage) => ExitCode::from(2),
        Ok(Outcome::NoMemory) | Err(_) => ExitCode::from(6),
    }
}
