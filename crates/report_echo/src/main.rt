//! Reads a report from standard input and writes it again to standard output. Of a text that is no
//! report the first line at fault is told on standard error.
//!
//! Exit status: 0 done, 3 bad line, 4 input or output failed, 6 no memory, 7 too large.
#![tactic(auto)]

mod echo;

use crate::echo::{Outcome, echo_all};
use std::io::{self, ErrorKind};
use std::process::ExitCode;

/// The exit status.
fn number(outcome: Outcome) -> u8 {
    match outcome {
        Outcome::Done => 0,
        Outcome::BadLine(_) => 3,
        Outcome::NoMemory => 6,
        Outcome::TooLarge => 7,
    }
}

/// Tells the first line at fault, where one is.
fn tell(rt: &HostRuntime, outcome: Outcome) -> io::Result<()> {
    match outcome {
        Outcome::BadLine(line) => eprintln!(rt; "bad line {line}"),
        Outcome::Done | Outcome::NoMemory | Outcome::TooLarge => Ok(()),
    }
}

fn main(rt: HostRuntime) -> ExitCode {
    match echo_all(rt.alloc(), &mut rt.reader(), &mut io::writer(&rt)) {
        Ok(outcome) => {
            let _ = tell(&rt, outcome);
            ExitCode::from(number(outcome))
        }
        Err(error) => if error.kind() == ErrorKind::OutOfMemory {
            ExitCode::from(number(Outcome::NoMemory))
        } else {
            ExitCode::from(4)
        },
    }
}
