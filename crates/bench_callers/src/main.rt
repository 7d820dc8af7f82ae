//! Calls by callers of one shared book: the first word names what they do, and the second says how
//! often, or how many callers there are. Nothing is printed, so the time of the whole program is
//! that of the calls.
#![tactic(auto)]

mod callers;
mod crew;
mod ground;
mod kernels;
mod works;

use crate::kernels::{hold_takes, hold_waits};
use auth_text::NoMemory;
use std::process::ExitCode;
use std::rt::Env;
use std::sync::Wait;
use std::thread::Threads;
use std::{env, io};

/// How a run ended.
#[derive(Clone, Copy, Debug, PartialEq, Eq)]
enum Outcome {
    Done,
    Usage,
    Wrong,
    NoMemory,
}

/// `Done` where as much was done as was asked for.
fn compared(done: Result<u32, NoMemory>, wanted: u32) -> Outcome {
    match done {
        Ok(done) if done == wanted => Outcome::Done,
        Ok(_) => Outcome::Wrong,
        Err(NoMemory) => Outcome::NoMemory,
    }
}

fn run<R: AllocGlobal + Input + Threads + Wait + Sync>(rt: &R, name: &str, count: u32) -> Outcome {
    match name {
        "takes1" => compared(hold_takes(rt, rt.alloc(), 1, count), count),
        "takes2" => compared(hold_takes(rt, rt.alloc(), 2, count), count),
        "takes4" => compared(hold_takes(rt, rt.alloc(), 4, count), count),
        "waits" if 1 <= count && count <= 16 => {
            compared(hold_waits(rt, rt.alloc(), count), count - 1)
        }
        _ => Outcome::Usage,
    }
}

/// What the words ask for. Without words there is nothing to do.
fn measured<R: AllocGlobal + Env + Input + Threads + Wait + Sync>(rt: &R) -> io::Result<Outcome> {
    let mut args = env::args(rt)?.skip(1);
    let Some(name) = args.next() else {
        return Ok(Outcome::Done);
    };
    let Some(count) = args.next() else {
        return Ok(Outcome::Usage);
    };
    match count.as_str().parse::<u32>() {
        Ok(count) => Ok(run(rt, name.as_str(), count)),
        Err(_) => Ok(Outcome::Usage),
    }
}

fn main(rt: HostRuntime) -> ExitCode {
    match measured(&rt) {
        Ok(Outcome::Done) => ExitCode::from(0),
        Ok(Outcome::Wrong) => ExitCode::from(1),
        Ok(Outcome::Usage) => ExitCode::from(2),
        Ok(Outcome::NoMemory) | Err(_) => ExitCode::from(6),
    }
}
