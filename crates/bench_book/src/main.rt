//! A day of requests on a book that scans its journal. The one word says how many of the last
//! hundred requests ask what is ready for them, all others being served before. Nothing is printed,
//! so the time of the whole program is that of the calls.
#![tactic(auto)]

mod day;
mod names;
mod roster;

use auth_text::NoMemory;
use std::process::ExitCode;
use std::rt::Env;
use std::{env, io};

/// The entries that the last requests find at least.
const ENTRIES: usize = 9_517;

/// How a run ended.
#[derive(Clone, Copy, Debug, PartialEq, Eq)]
enum Outcome {
    Done,
    Usage,
    Wrong,
    NoMemory,
}

/// `Done` where as many requests asked as were to, behind a long journal.
fn played(asking: u32, day: Result<day::Day, NoMemory>) -> Outcome {
    match day {
        Ok(day) if day.asked == asking && day.entries >= ENTRIES => Outcome::Done,
        Ok(_) => Outcome::Wrong,
        Err(NoMemory) => Outcome::NoMemory,
    }
}

/// What the word asks for. Without a word there is nothing to do.
fn measured<R: AllocGlobal + Env>(rt: &R) -> io::Result<Outcome> {
    let mut args = env::args(rt)?.skip(1);
    let Some(word) = args.next() else {
        return Ok(Outcome::Done);
    };
    match word.as_str().parse::<u32>() {
        Ok(asking) => Ok(played(asking, day::run(rt.alloc(), asking))),
        Err(_) => Ok(Outcome::Usage),
    }
}

fn main(rt: HostRuntime) -> ExitCode {
    match measured(&rt) {
        Ok(Outcome::Done) => ExitCode::from(0),
        Ok(Outcome::Wrong) => ExitCode::from(1),
        Ok(Outcome::Usage) => ExitCode::from(2),
        Ok(Outcome::NoMemory) | Err(_) => ExitCode::from(6),
    }
}
