//! A report is read: the run that a text is, or the first line at fault.

ghost use Rattle.std.specs.Prelude.{◌≡◌, ◌≤◌, ◌+◌, ◌-◌, ◌^◌, length, IfOk};
ghost use Rattle.report_reading.specs.Cuts.{lines};
ghost use Rattle.auth_report.specs.Report as written;
ghost use Rattle.auth_report.specs.Reading.{IsReport, IsWhole, ended, end_line, last_line};
ghost use Rattle.auth_report.specs.Reading.{body_front, from_seed, whole, report};

use crate::book::read_journal;
use crate::names_front::read_names;
use crate::roster_front::read_roster;
use crate::trace_front::read_traces;
use auth_runs::Run;
use auth_text::NoMemory;
use report_reading::{next_line, seed_at};
use std::alloc::Global;
use thiserror::Error;

/// Why a text is no report.
#[derive(Clone, Copy, Debug, PartialEq, Eq, Error)]
pub enum ReportFault {
    /// The first line, from 1, that can't follow those before it.
    #[error("line {line} is at fault")]
    BadLine { line: u32 },
    #[error("no memory")]
    NoMemory,
}

/// A run, or what is left of the text from the first line at fault.
type Whole<'a> = Result<Run, &'a [u8]>;

fn last_line<'a>(run: Run, text: &'a [u8]) -> Whole<'a>
    ensures { IsWhole (last_line run (lines text.now)) result }
{
    match next_line(text) {
        None => Ok(run),
        Some(_) => Err(text),
    }
}

fn end_line<'a>(run: Run, text: &'a [u8]) -> Whole<'a>
    ensures { IsWhole (end_line run (lines text.now)) result }
{
    match next_line(text) {
        None => Err(text),
        Some((line, left)) => {
            if line == b"end\n".as_slice() {
                return last_line(run, left);
            }
            Err(text)
        }
    }
}

fn read_body<'a>(alloc: Global, seed: [u8; 32], text: &'a [u8]) -> Result<Whole<'a>, NoMemory>
    ensures { IfOk result (λ got. IsWhole (ended (body_front seed (lines text.now))) got) }
{
    let (roster, rest) = read_roster(alloc, text)?;
    let requests = roster.requests.len() as u32;
    let (names, rest) = read_names(alloc, requests, rest)?;
    let (book, rest) = read_journal(alloc, requests, rest)?;
    let (traces, rest) = read_traces(alloc, &book, requests, rest)?;
    if traces.len() != requests as usize {
        return Ok(Err(rest));
    }
    let run = Run::new(seed, roster, names, book.into_journal(), traces);
    Ok(end_line(run, rest))
}

fn from_seed<'a>(alloc: Global, text: &'a [u8]) -> Result<Whole<'a>, NoMemory>
    ensures { IfOk result (λ got. IsWhole (from_seed (lines text.now)) got) }
{
    match next_line(text) {
        None => Ok(Err(text)),
        Some((line, left)) => match seed_at(alloc, line)? {
            None => Ok(Err(text)),
            Some(seed) => read_body(alloc, seed, left),
        },
    }
}

fn read_whole<'a>(alloc: Global, text: &'a [u8]) -> Result<Whole<'a>, NoMemory>
    ensures { IfOk result (λ got. IsWhole (whole (lines text.now)) got) }
{
    match next_line(text) {
        None => Ok(Err(text)),
        Some((line, left)) => {
            if line == b"authreport 1\n".as_slice() {
                return from_seed(alloc, left);
            }
            Ok(Err(text))
        }
    }
}

fn lines_in(text: &[u8]) -> usize
    ensures { result ≡ length (lines text.now) }
{
    let mut number = 0;
    let mut rest = text;
    'lines: loop {
        match next_line(rest) {
            None => return number,
            Some((_, left)) => {
                number += 1;
                rest = left;
            }
        }
    }
}

/// The number of the first of the lines that are left.
fn first_left(text: &[u8], left: &[u8]) -> u32
    requires { length (lines text.now) ≤ 2 ^ 31 + 1 }
    ensures { result ≡ length (lines text.now) + 1 - length (lines left.now) }
{
    (lines_in(text) + 1).saturating_sub(lines_in(left)) as u32
}

/// Reads a report: the run whose text it is, or the number, from 1, of the first line that can't
/// follow those before it. Where no line is at fault and the text ends before its `end` line, that
/// is the number of its lines plus 1. It doesn't judge whether the run is legal.
pub fn read_report(alloc: Global, text: &[u8]) -> Result<Run, ReportFault>
    requires { length (lines text.now) ≤ 2 ^ 31 + 1 }
    ensures read { IsReport (report text.now) result }
    ensures text { IfOk result (λ run. written.text run ≡ text.now) }
{
    match read_whole(alloc, text) {
        Ok(Ok(run)) => Ok(run),
        Ok(Err(left)) => Err(ReportFault::BadLine {
            line: first_left(text, left),
        }),
        Err(NoMemory) => Err(ReportFault::NoMemory),
    }
}
