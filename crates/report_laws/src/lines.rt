//! Lines: what is written for a thing is read as that thing.

ghost use Rattle.std.specs.Prelude.{◌≡◌, IsTrue, Some};
ghost use Rattle.spaces.specs.Places.{IsPlaced};
ghost use Rattle.auth_events.specs.Pages.{fits};
ghost use Rattle.report_lines.specs.RosterLines.{default_line, request_line, seed_line};
ghost use Rattle.report_lines.specs.NameLines.{space_line, terms_line, text_line};
ghost use Rattle.report_lines.specs.EntryLines.{entry_line};
ghost use Rattle.report_lines.specs.EventLines.{event_line};
ghost use Rattle.report_reading.specs.Forms.{realm_at};
ghost use Rattle.report_reading.specs.Reading as spec;
ghost use Rattle.report_laws.specs.Kept.{IsKeptEvent};

use crate::entry_holds::keeps_entry;
use crate::event_holds::keeps_event;
use crate::holds::{
    keeps_number, keeps_origin, keeps_request, keeps_seed, keeps_space, keeps_terms, keeps_text,
};
use auth_events::{Entry, TermsName};
use auth_runs::Event;
use auth_text::Identity;
use spaces::{Origin, Request, Space};

/// The line of the seed.
pub fn seed_line_reads_back(seed: [u8; 32])
    ensures { spec.seed_at (seed_line seed) ≡ Some seed }
{
    keeps_seed(&seed);
}

/// The line of an allowed origin.
pub fn default_line_reads_back(origin: &Origin)
    ensures { spec.default_at (default_line origin.now) ≡ Some origin.now }
{
    keeps_origin(origin);
}

/// The line of a request with its number, where its place is the one that its text is read as.
pub fn request_line_reads_back(number: u32, request: &Request)
    requires { IsPlaced request.now }
    ensures { spec.request_at number (request_line number request.now) ≡ Some request.now }
{
    keeps_number(number);
    keeps_request(request);
}

/// The line of a space with its number.
pub fn space_line_reads_back(number: u32, space: &Space)
    ensures { spec.space_at number (space_line number space.now) ≡ Some space.now }
{
    keeps_number(number);
    keeps_space(space);
}

/// The line of terms with their number, among spaces where their realm is that of their space.
pub fn terms_line_reads_back(number: u32, spaces: &[Space], name: &TermsName)
    requires { realm_at spaces.now name.now.space ≡ Some name.now.terms.realm }
    ensures { spec.terms_at number spaces.now (terms_line number name.now) ≡ Some name.now }
{
    keeps_number(number);
    keeps_terms(name);
}

/// The line of an identity's text with its number.
pub fn text_line_reads_back(number: u32, text: &Identity)
    ensures { spec.text_at number (text_line number text.now) ≡ Some text.now }
{
    keeps_number(number);
    keeps_text(text);
}

/// The line of an entry whose reply is one of its call's.
pub fn entry_line_reads_back(entry: Entry)
    requires { IsTrue (fits entry.call entry.reply) }
    ensures { spec.entry_at (entry_line entry) ≡ Some entry }
{
    keeps_entry(entry);
}

/// The line of an event of a request. A call is the next entry of the request; only a challenge
/// has fields, and it has no infos.
pub fn event_line_reads_back(next: Option<Entry>, request: u32, event: &Event)
    requires { IsKeptEvent next event.now }
    ensures { spec.event_at next request (event_line request event.now) ≡ Some event.now }
{
    keeps_number(request);
    keeps_event(event);
}
