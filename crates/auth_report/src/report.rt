//! The whole text of a run.

ghost use Rattle.std.specs.Prelude.{◌≡◌, ◌≤◌, ◌++◌, length, IfOk, OnOk};
ghost use Rattle.auth_report.specs.Report as spec;

use auth_runs::Run;
use auth_text::{Bytes, NoMemory};
use report_lines::{
    push_default_lines, push_entry_lines, push_request_lines, push_seed_line, push_space_lines,
    push_terms_lines, push_text, push_text_lines, push_trace_lines,
};
use std::alloc::Global;

fn push_roster(alloc: Global, out: &mut Bytes, run: &Run) -> Result<(), NoMemory>
    ensures { OnOk result (out.new ≡ out.old ++ spec.roster_lines run.now) }
{
    push_default_lines(alloc, out, run.roster().allowed.as_slice())?;
    push_request_lines(alloc, out, run.roster().requests.as_slice())
}

fn push_names(alloc: Global, out: &mut Bytes, run: &Run) -> Result<(), NoMemory>
    ensures { OnOk result (out.new ≡ out.old ++ spec.name_lines run.now) }
{
    push_space_lines(alloc, out, run.names().spaces())?;
    push_terms_lines(alloc, out, run.names().all_terms())?;
    push_text_lines(alloc, out, run.names().texts())
}

/// The report of a run: its seed, its roster, its names, its journal and its traces, a line for
/// each thing, from `authreport 1` to `end`.
pub fn text_of(alloc: Global, run: &Run) -> Result<Bytes, NoMemory>
    ensures { IfOk result (λ text. text ≡ spec.text run.now) }
{
    let mut out = Bytes::from_slice(alloc, b"authreport 1\n")?;
    push_seed_line(alloc, &mut out, run.seed())?;
    push_roster(alloc, &mut out, run)?;
    push_names(alloc, &mut out, run)?;
    push_entry_lines(&mut out, run.entries())?;
    push_trace_lines(alloc, &mut out, run.traces())?;
    push_text(&mut out, b"end\n")?;
    Ok(out)
}
