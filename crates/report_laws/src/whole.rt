//! The whole text of a run.

ghost use Rattle.std.specs.Prelude.{◌≡◌, Ok};
ghost use Rattle.auth_report.specs.Report.{text};
ghost use Rattle.auth_report.specs.Reading.{report};
ghost use Rattle.report_laws.specs.Kept.{IsKept};
ghost use Rattle.report_laws.specs.Ranges.{RunHolds};
ghost use Rattle.report_laws.specs.Read.{HasNames, HasRoom, HasTraces};

use crate::holds::keeps_bytes;
use crate::run_holds::{
    keeps_all_terms, keeps_entries, keeps_origins, keeps_requests, keeps_spaces, keeps_texts,
    keeps_traces,
};
use auth_runs::Run;

fn keeps_run(run: &Run)
    ensures { RunHolds run.now }
{
    keeps_bytes(run.seed());
    keeps_origins(run.roster().allowed.as_slice());
    keeps_requests(run.roster().requests.as_slice());
    keeps_spaces(run.names().spaces());
    keeps_all_terms(run.names().all_terms());
    keeps_texts(run.names().texts());
    keeps_entries(run.entries());
    keeps_traces(run.traces());
}

/// What is read of the text of a run is that run, where the run keeps what a report can tell.
pub fn text_reads_back(run: &Run)
    requires { IsKept run.now }
    ensures { report (text run.now) ≡ Ok run.now }
{
    keeps_run(run);
}

/// A text is the text of one run only.
pub fn text_is_of_one_run(a: &Run, b: &Run)
    requires first { IsKept a.now }
    requires second { IsKept b.now }
    requires same { text a.now ≡ text b.now }
    ensures { a.now ≡ b.now }
{
    keeps_run(a);
    keeps_run(b);
}

/// A run that is read has at most 2,048 requests, at most 64 entries of each, each of a request of
/// the roster, and one trace for each request.
pub fn what_is_read_has_room(bytes: &[u8], run: &Run)
    requires { report bytes.now ≡ Ok run.now }
    ensures { HasRoom run.now }
{}

/// The names of a run that is read are such as a book gives, and keep their limits.
pub fn what_is_read_has_names(bytes: &[u8], run: &Run)
    requires { report bytes.now ≡ Ok run.now }
    ensures { HasNames run.now }
{}

/// Each trace of a run that is read is whole, its calls are its request's entries in order, only
/// challenges have fields, and no challenge has infos.
pub fn what_is_read_has_traces(bytes: &[u8], run: &Run)
    requires { report bytes.now ≡ Ok run.now }
    ensures { HasTraces run.now }
{}
