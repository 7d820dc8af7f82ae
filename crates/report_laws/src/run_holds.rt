//! What the parts of a run hold, since their types hold no more.

ghost use Rattle.std.specs.Prelude.{◌≡◌};
ghost use Rattle.auth_runs.specs.Runs.{Each};
ghost use Rattle.report_laws.specs.Ranges.{EntryHolds, EventHolds, OriginHolds, RequestHolds};
ghost use Rattle.report_laws.specs.Ranges.{RunHolds, SpaceHolds, TermsHolds, TextHolds};

use crate::entry_holds::keeps_entry;
use crate::event_holds::keeps_event;
use crate::holds::{keeps_origin, keeps_request, keeps_space, keeps_terms, keeps_text};
use auth_events::{Entry, TermsName};
use auth_runs::{Event, Run, Trace};
use auth_text::Identity;
use spaces::{Origin, Request, Space};

pub fn keeps_origins(all: &[Origin])
    ensures { Each OriginHolds all.now }
{
    for it in all {
        keeps_origin(it);
    }
}

pub fn keeps_requests(all: &[Request])
    ensures { Each RequestHolds all.now }
{
    for it in all {
        keeps_request(it);
    }
}

pub fn keeps_spaces(all: &[Space])
    ensures { Each SpaceHolds all.now }
{
    for it in all {
        keeps_space(it);
    }
}

pub fn keeps_all_terms(all: &[TermsName])
    ensures { Each TermsHolds all.now }
{
    for it in all {
        keeps_terms(it);
    }
}

pub fn keeps_texts(all: &[Identity])
    ensures { Each TextHolds all.now }
{
    for it in all {
        keeps_text(it);
    }
}

pub fn keeps_entries(all: &[Entry])
    ensures { Each EntryHolds all.now }
{
    for it in all {
        keeps_entry(*it);
    }
}

fn keeps_events(all: &[Event])
    ensures { Each EventHolds all.now }
{
    for it in all {
        keeps_event(it);
    }
}

fn keeps_trace(trace: &Trace)
    ensures { Each EventHolds trace.now }
{
    keeps_events(trace.events());
}

pub fn keeps_traces(all: &[Trace])
    ensures { Each (λ events. Each EventHolds events) all.now }
{
    for it in all {
        keeps_trace(it);
    }
}
