//! Worked sessions, row by row. Each of the program's words names one: the session of
//! `NAME.session` is served by the top call, and its report has to be `NAME.report`, byte for byte.
//! Those reports were made by a program that knows nothing of this one.
//!
//! Exit status: 0 each report is the expected one, 1 one isn't, 4 a file or the output failed.
#![tactic(auto)]

use auth_cli::{Status, authfetch_alone};
use auth_text::{Bytes, Items, NoMemory};
use link_trait::{Calls, MemSink, MemSource};
use std::alloc::Global;
use std::process::ExitCode;
use std::{env, fs, io};

/// Whether the session is served, and its report is the expected one.
fn is_served(alloc: Global, session: &[u8], report: &[u8]) -> Result<bool, NoMemory> {
    let mut words = Items::new(alloc);
    words.push(Bytes::from_slice(alloc, b"alone")?)?;
    let session = Bytes::from_slice(alloc, session)?;
    let mut input = MemSource::new(session, Calls::new(alloc));
    let mut output = MemSink::new(alloc, 65536, Calls::new(alloc));
    let status = authfetch_alone(alloc, words.as_slice(), &mut input, &mut output, [0; 32]);
    Ok(status == Status::Done && output.bytes() == report)
}

/// Serves the session of that name, and tells whether its report is the expected one.
fn tell(rt: &HostRuntime, name: &str) -> io::Result<bool> {
    let alloc = rt.alloc();
    let session = fs::read(rt, format!(in alloc; "{name}.session")?)?;
    let report = fs::read(rt, format!(in alloc; "{name}.report")?)?;
    let is_right = is_served(alloc, session.as_slice(), report.as_slice()).unwrap_or(false);
    let verdict = if is_right {
        "as expected"
    } else {
        "NOT as expected"
    };
    println!(rt; "{name}: {verdict}")?;
    Ok(is_right)
}

/// Serves all that are named, and tells whether each report is the expected one.
fn tell_all(rt: &HostRuntime) -> io::Result<bool> {
    let mut are_right = true;
    if let Ok(names) = env::args(rt) {
        for name in names.skip(1) {
            are_right = tell(rt, name.as_str())? && are_right;
        }
    }
    Ok(are_right)
}

fn main(rt: HostRuntime) -> ExitCode {
    match tell_all(&rt) {
        Ok(true) => ExitCode::SUCCESS,
        Ok(false) => ExitCode::from(1),
        Err(_) => ExitCode::from(4),
    }
}
