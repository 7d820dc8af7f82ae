//! A report is read and written again.

ghost use Rattle.std.specs.Prelude.{◌≡◌, ◌≤◌, length, Err, IfOk, IfErr, IsOk};
ghost use Rattle.auth_report.specs.Reading.{IsReport, report};

use auth_report::{ReportFault, read_report, text_of};
use auth_text::{Bytes, NoMemory};
use std::alloc::Global;

/// The most bytes of a text that is read here, sixteen times those of a session.
pub const MOST_BYTES: usize = 67_108_864;

/// Reads a report and writes the run that it tells: the same text again. A text that is no report
/// has the number, from 1, of the first line that can't follow those before it.
#[tactic(auto, using(crate::proofs::FewLines::few_lines))]
pub fn written_again(alloc: Global, text: &[u8]) -> Result<Bytes, ReportFault>
    requires { length text.now ≤ MOST_BYTES }
    ensures run { IfOk result (λ again. IsOk (report text.now)) }
    ensures same { IfOk result (λ again. again ≡ text.now) }
    ensures fault { IfErr result (λ fault. IsReport (report text.now) (Err fault)) }
{
    let run = read_report(alloc, text)?;
    match text_of(alloc, &run) {
        Ok(again) => Ok(again),
        Err(NoMemory) => Err(ReportFault::NoMemory),
    }
}
