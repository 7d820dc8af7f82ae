//! What the program tells of itself and of how it ended.

use auth_cli::{Status, What};
use std::io;

/// The answer to `--help`.
pub(crate) const HELP: &str = "authfetch answers HTTP 401 and 407 challenges.

  authfetch check      reads a session from standard input, writes how much it asks for
  authfetch alone      reads a session from standard input, serves its requests in order over
                       the recorded links, writes the report
  authfetch --help     writes this text
  authfetch --version  writes the version, and the logic that it was proved with

docs/FORMATS.md says what a session and a report are, and when a line is wrong. An example:

  authfetch alone < examples/first.session

So far `alone` passes Negotiate challenges over; `recorded`, `live` and `generate N` are not
there yet.

Exit status: 0 done, 2 usage, 3 bad line, 4 read fault, 5 write fault, 6 no memory,
7 too large, 8 too few gears. Each but 0 has its line on standard error.";

/// The answer to `--version`. The sum is the last word of the line that the kit's `rt version`
/// prints.
pub(crate) const VERSION: &str = "authfetch 0.1.0, proved with the kit's logic dac8208d650f15bf";

/// The exit status.
pub(crate) fn number(status: Status) -> u8 {
    match status {
        Status::Done => 0,
        Status::Usage => 2,
        Status::BadSession { .. } => 3,
        Status::ReadFault => 4,
        Status::WriteFault => 5,
        Status::NoMemory => 6,
        Status::TooLarge { .. } => 7,
        Status::TooFewGears { .. } => 8,
    }
}

/// Writes the status' line on standard error, where it has one.
pub(crate) fn tell(rt: &impl Eprint, status: Status) -> io::Result<()> {
    match status {
        Status::Done => Ok(()),
        Status::Usage => eprintln!(rt; "usage: authfetch check, alone, recorded, live, generate N"),
        Status::BadSession { line } => eprintln!(rt; "bad line {line}"),
        Status::ReadFault => eprintln!(rt; "read fault"),
        Status::WriteFault => eprintln!(rt; "write fault"),
        Status::NoMemory => eprintln!(rt; "no memory"),
        Status::TooLarge { what, number } => match what {
            What::Bytes => eprintln!(rt; "too large: {number} bytes"),
            What::Requests => eprintln!(rt; "too large: {number} requests"),
            What::Workers => eprintln!(rt; "too large: {number} workers"),
        },
        Status::TooFewGears { asked, given } => {
            eprintln!(rt; "too few gears: {asked} asked, {given} given")
        }
    }
}
