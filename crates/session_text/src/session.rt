//! The session: its lines are read once, in order, and each is judged by those before it.

ghost use Rattle.std.specs.Prelude.{◌≡◌, ◌≤◌, ◌++◌, ◌∷◌, [], length, All, IfOk, IsTrue, None, Some};
ghost use Rattle.std.specs.Prelude.{if◌then◌else◌};
ghost use Rattle.auth_text.specs.Gives.{GivesBy};
ghost use Rattle.link_trait.specs.Tokens.{are_answered};
ghost use Rattle.spaces.specs.Places.{IsPlaced};
ghost use Rattle.spaces.specs.declared.roster.Request.{Request};
ghost use Rattle.session_text.specs.Played.{IsPlayable};
ghost use Rattle.session_text.specs.Readings as spec;
ghost use Rattle.session_text.specs.Sessions.{session};

use crate::cut::{behind, first_len};
use crate::line::{Line, LineFault, read_line};
use auth_text::{Items, NoMemory, front_of};
use link_trait::{Answers, Links, Steps};
use spaces::{Origins, Requests, Roster};
use std::alloc::Global;
use std::fmt;
use thiserror::Error;

/// What there may be too much of.
#[derive(Clone, Copy, Debug, PartialEq, Eq)]
pub enum What {
    /// Bytes of the text: at most 4,194,304.
    Bytes,
    /// Requests: at most 2,048.
    Requests,
    /// Workers: at most 16.
    Workers,
}

impl fmt::Display for What {
    fn fmt<W: fmt::Write>(&self, f: &mut fmt::Formatter<W>) -> fmt::Result {
        f.write_str(match self {
            What::Bytes => "bytes",
            What::Requests => "requests",
            What::Workers => "workers",
        })
    }
}

/// Why a text is no session: what its first line at fault, counted from 1, is at fault by.
#[derive(Clone, Copy, Debug, PartialEq, Eq, Error)]
pub enum SessionFault {
    /// The line has none of the forms, or may not stand there.
    #[error("bad line {line}")]
    BadLine { line: u32 },
    /// The line is the 2,049th request, or asks for more than 16 workers. The number is 2,049, or
    /// that of the workers.
    #[error("too large: {number} {what}")]
    TooMany { what: What, number: u32 },
    #[error("no memory")]
    NoMemory,
}

/// What a user asks for.
#[derive(Debug, Drop)]
pub struct Session {
    /// How many workers serve the requests: 1 to 16.
    pub workers: u32,
    /// The requests, and the origins for which the default identity is allowed.
    pub roster: Roster,
    /// What the prompts are answered with.
    pub answers: Answers,
    /// For each request the recorded streams of its links.
    pub links: Links,
    /// For each request the recorded steps of its provider of tokens.
    pub steps: Steps,
}

/// What the lines read so far say.
#[derive(Drop)]
struct Reading {
    begun: bool,
    workers: Option<u32>,
    roster: Roster,
    answers: Answers,
    links: Links,
    steps: Steps,
}

/// The line is bad, unless it may stand there.
fn bad_unless(right: bool, number: u32) -> Option<SessionFault>
    ensures { result ≡ (if right then None else Some (SessionFault.BadLine number)) }
{
    if right {
        return None;
    }
    Some(SessionFault::BadLine { line: number })
}

fn workers_fault(number: u32, reading: &Reading, workers: u32) -> Option<SessionFault>
    ensures { result ≡ spec.fault_in number reading.now (Line.Workers workers) }
{
    if reading.begun && workers > 16 {
        return Some(SessionFault::TooMany {
            what: What::Workers,
            number: workers,
        });
    }
    let right = reading.begun && workers > 0 && reading.workers.is_none();
    bad_unless(right, number)
}

fn request_fault(number: u32, reading: &Reading) -> Option<SessionFault>
    ensures { (request : Request)
        → result ≡ spec.fault_in number reading.now (Line.Request request) }
{
    if reading.begun && reading.roster.requests.len() >= 2048 {
        return Some(SessionFault::TooMany {
            what: What::Requests,
            number: 2049,
        });
    }
    bad_unless(reading.begun, number)
}

fn fault_in(number: u32, reading: &Reading, line: &Line) -> Option<SessionFault>
    ensures { result ≡ spec.fault_in number reading.now line.now }
{
    match line {
        Line::Passed => None,
        Line::Header => bad_unless(!reading.begun, number),
        Line::Workers(workers) => workers_fault(number, reading, *workers),
        Line::Request(_) => request_fault(number, reading),
        Line::Link(_) | Line::Token(_) => bad_unless(reading.roster.requests.len() > 0, number),
        Line::Default(_) | Line::Answer(_, _) => bad_unless(reading.begun, number),
    }
}

fn pushed<T: Drop>(items: Items<T>, item: T) -> Result<Items<T>, NoMemory>
    ensures { IfOk result (λ more. more ≡ items ++ item ∷ []) }
{
    let mut items = items;
    items.push(item)?;
    Ok(items)
}

fn in_last<T: Drop>(groups: Items<Items<T>>, item: T) -> Result<Items<Items<T>>, NoMemory>
    ensures { IfOk result (λ more. more ≡ spec.in_last groups item) }
{
    let mut groups = groups;
    match groups.pop() {
        None => Ok(groups),
        Some(last) => pushed(groups, pushed(last, item)?),
    }
}

fn with_line(alloc: Global, reading: Reading, line: Line) -> Result<Reading, NoMemory>
    ensures { IfOk result (λ next. next ≡ spec.with_line reading line) }
{
    let mut reading = reading;
    match line {
        Line::Passed => return Ok(reading),
        Line::Header => {}
        Line::Workers(n) => reading.workers = Some(reading.workers.unwrap_or(n)),
        Line::Default(origin) => reading.roster.allowed.push(origin)?,
        Line::Request(request) => {
            reading.roster.requests.push(request)?;
            reading.links.push(Items::new(alloc))?;
            reading.steps.push(Items::new(alloc))?;
        }
        Line::Link(bytes) => reading.links = in_last(reading.links, bytes)?,
        Line::Token(step) => reading.steps = in_last(reading.steps, step)?,
        Line::Answer(space, gift) => reading.answers.push((space, gift))?,
    }
    reading.begun = true;
    Ok(reading)
}

fn after_text(
    alloc: Global,
    number: u32,
    reading: Reading,
    text: &[u8],
) -> Result<Reading, SessionFault>
    ensures value { GivesBy SessionFault.NoMemory
        (λ r. r) result (spec.after_text number reading text.now) }
    ensures playable { IsPlayable reading → IfOk result IsPlayable }
{
    let line = match read_line(alloc, text) {
        Ok(line) => line,
        Err(LineFault::Bad) => return Err(SessionFault::BadLine { line: number }),
        Err(LineFault::NoMemory) => return Err(SessionFault::NoMemory),
    };
    if let Some(fault) = fault_in(number, &reading, &line) {
        return Err(fault);
    }
    match with_line(alloc, reading, line) {
        Ok(reading) => Ok(reading),
        Err(_) => Err(SessionFault::NoMemory),
    }
}

fn finished(reading: Reading) -> Session
    ensures { result ≡ spec.finished reading }
{
    Session {
        workers: reading.workers.unwrap_or(1),
        roster: reading.roster,
        answers: reading.answers,
        links: reading.links,
        steps: reading.steps,
    }
}

/// Reads a session. The first line at fault decides: `TooMany` where it is the 2,049th request or
/// asks for more than 16 workers, else `BadLine`. A text without any line that says something is at
/// fault behind its last line. The place of each request is the one that its text reads as, and no
/// step of a provider is a failure or want of memory.
pub fn read_session(alloc: Global, text: &[u8]) -> Result<Session, SessionFault>
    requires { length text.now ≤ 4194304 }
    ensures session { GivesBy SessionFault.NoMemory (λ s. s) result (session text.now) }
    ensures placed { IfOk result (λ s. All IsPlaced s.roster.requests) }
    ensures answered { IfOk result (λ s. IsTrue (are_answered s.steps)) }
{
    let mut reading = Reading {
        begun: false,
        workers: None,
        roster: Roster {
            requests: Requests::new(alloc),
            allowed: Origins::new(alloc),
        },
        answers: Answers::new(alloc),
        links: Items::new(alloc),
        steps: Items::new(alloc),
    };
    let mut number: u32 = 1;
    let mut rest = text;
    'lines: while !rest.is_empty() {
        let n = first_len(rest, b'\n');
        match after_text(alloc, number, reading, front_of(rest, n)) {
            Ok(next) => reading = next,
            Err(fault) => return Err(fault),
        }
        number += 1;
        rest = behind(rest, n);
    }
    if reading.begun {
        return Ok(finished(reading));
    }
    Err(SessionFault::BadLine { line: number })
}
