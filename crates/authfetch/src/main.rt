//! The program `authfetch`: its words, standard input and standard output are handed to the top
//! call.
#![tactic(auto)]

mod told;

use auth_cli::{Gears, Status, StdSink, StdSource, Word, authfetch};
use auth_text::{Bytes, Items, NoMemory};
use link_trait::{NoTokens, RecordedDialer};
use std::io::ErrorKind;
use std::process::ExitCode;
use std::rt::Env;
use std::{env, io};
use told::{HELP, VERSION, number, tell};

/// The seed of the commands whose client nonces are to be the same in each run.
const SEED: [u8; 32] = [0; 32];

/// The words behind the program's name. Words that are no text are told as none.
fn words(rt: &(impl Env + AllocGlobal)) -> Result<Items<Word>, NoMemory> {
    let alloc = rt.alloc();
    let mut words = Items::new(alloc);
    match env::args(rt) {
        Ok(args) => for arg in args.skip(1) {
            words.push(Bytes::from_slice(alloc, arg.as_bytes())?)?;
        },
        Err(error) => if error.kind() == ErrorKind::OutOfMemory {
            return Err(NoMemory);
        },
    }
    Ok(words)
}

fn is_word(words: &[Word], expected: &[u8]) -> bool {
    match words {
        [word] => word.as_slice() == expected,
        _ => false,
    }
}

/// Writes a text of the program's own. A write that fails ends the program as one of the report
/// would.
fn print(rt: &HostRuntime, text: &str) -> ExitCode {
    match println!(rt; "{text}") {
        Ok(()) => ExitCode::SUCCESS,
        Err(_) => end(rt, Status::WriteFault),
    }
}

/// Tells how the program ended, and gives the exit status.
fn end(rt: &HostRuntime, status: Status) -> ExitCode {
    let _ = tell(rt, status);
    ExitCode::from(number(status))
}

fn serve(rt: &HostRuntime, words: &[Word]) -> Status {
    let alloc = rt.alloc();
    let mut input = StdSource::new(rt.reader());
    let mut output = StdSink::new(io::writer(rt));
    let gears: Gears<RecordedDialer, NoTokens> = Gears::new(alloc);
    let (status, _) = authfetch(rt, alloc, words, &mut input, &mut output, gears, SEED);
    status
}

fn main(rt: HostRuntime) -> ExitCode {
    let Ok(words) = words(&rt) else {
        return end(&rt, Status::NoMemory);
    };
    if is_word(words.as_slice(), b"--help") {
        return print(&rt, HELP);
    }
    if is_word(words.as_slice(), b"--version") {
        return print(&rt, VERSION);
    }
    let status = serve(&rt, words.as_slice());
    end(&rt, status)
}
