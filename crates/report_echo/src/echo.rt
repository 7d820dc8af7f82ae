//! A report is read from a reader and written again to a writer.

ghost use Rattle.std.specs.Prelude.{IfOk, IfSome};
ghost use Rattle.report_echo.specs.Echo.{IsEcho};

use auth_report::ReportFault;
use std::alloc::Global;
use std::io;
use std::io::{Read, Write};
use worked_reports::{MOST_BYTES, written_again};

/// How a run ended.
#[derive(Clone, Copy, Debug, PartialEq, Eq)]
pub enum Outcome {
    Done,
    /// The first line, from 1, that can't follow those before it.
    BadLine(u32),
    TooLarge,
    NoMemory,
}

/// Reads all there is and writes the report that it is again; where it is none, nothing is written.
pub fn echo_all<R: Read, W: Write>(
    alloc: Global,
    reader: &mut R,
    writer: &mut W,
) -> io::Result<Outcome>
    ensures { IfOk result (λ outcome. IfSome (R.remaining reader.old)
        (λ text. IsEcho text (W.contents writer.old) (W.contents writer.new) outcome)) }
{
    let mut text = Vec::new(alloc);
    reader.read_to_end(&mut text)?;
    if text.len() > MOST_BYTES {
        return Ok(Outcome::TooLarge);
    }
    match written_again(alloc, text.as_slice()) {
        Ok(again) => {
            writer.write_all(again.as_slice())?;
            Ok(Outcome::Done)
        }
        Err(ReportFault::BadLine { line }) => Ok(Outcome::BadLine(line)),
        Err(ReportFault::NoMemory) => Ok(Outcome::NoMemory),
    }
}
