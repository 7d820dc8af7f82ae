//! Kernels for measurements of speed: the first word names one, and the second says how often it
//! runs. Nothing is printed, so the time of the whole program is the kernel's.
#![tactic(auto)]

mod challenges;
mod draws;
mod prompts;
mod replies;
mod respond;
mod turns;
mod words;

use crate::words::{Kernel, kernel_of};
use auth_text::NoMemory;
use std::process::ExitCode;
use std::rt::Env;
use std::sync::Wait;
use std::thread::Threads;
use std::{env, io};

/// How a run ended.
#[derive(Clone, Copy, Debug, PartialEq, Eq)]
enum Outcome {
    Done,
    Usage,
    Wrong,
    NoMemory,
}

/// `Done` where the kernel did its work as often as it was asked to.
fn compared(done: Result<u32, NoMemory>, times: u32) -> Outcome {
    match done {
        Ok(done) if done == times => Outcome::Done,
        Ok(_) => Outcome::Wrong,
        Err(NoMemory) => Outcome::NoMemory,
    }
}

fn run<R: AllocGlobal + Threads + Wait + Sync>(rt: &R, kernel: Kernel, times: u32) -> Outcome {
    let alloc = rt.alloc();
    let done = match kernel {
        Kernel::Challenges => challenges::run(alloc, 400, times),
        Kernel::ChallengesQuarter => challenges::run(alloc, 100, times),
        Kernel::Parameters => challenges::run_long(alloc, 10_000, times),
        Kernel::ParametersQuarter => challenges::run_long(alloc, 2_500, times),
        Kernel::Prompts => prompts::run(alloc, 256, times),
        Kernel::PromptsQuarter => prompts::run(alloc, 128, times),
        Kernel::Replies => replies::run(alloc, times),
        Kernel::LongReplies { chunks, piece } => {
            replies::run_long(alloc, chunks, piece.max(1), times)
        }
        Kernel::Respond(algorithm) => respond::run(alloc, algorithm, times),
        Kernel::Turns(threads) => turns::run(rt, alloc, threads, times),
        Kernel::Draws(crew) => draws::run(rt, alloc, crew, times),
    };
    compared(done, times)
}

/// What the words ask for. Without words there is nothing to do.
fn measured<R: AllocGlobal + Env + Threads + Wait + Sync>(rt: &R) -> io::Result<Outcome> {
    let mut args = env::args(rt)?.skip(1);
    let Some(name) = args.next() else {
        return Ok(Outcome::Done);
    };
    let Some(count) = args.next() else {
        return Ok(Outcome::Usage);
    };
    let Some(kernel) = kernel_of(name.as_str()) else {
        return Ok(Outcome::Usage);
    };
    match count.as_str().parse::<u32>() {
        Ok(times) => Ok(run(rt, kernel, times)),
        Err(_) => Ok(Outcome::Usage),
    }
}

fn main(rt: HostRuntime) -> ExitCode {
    match measured(&rt) {
        Ok(Outcome::Done) => ExitCode::from(0),
        Ok(Outcome::Wrong) => ExitCode::from(1),
        Ok(Outcome::Usage) => ExitCode::from(2),
        Ok(Outcome::NoMemory) | Err(_) => ExitCode::from(6),
    }
}
