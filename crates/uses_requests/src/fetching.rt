//! A request that is served from its first call of the book to its outcome.

ghost use Rattle.std.specs.Prelude.{◌≡◌, ◌*◌, ◌≤◌, ℕ, IfOk, List, Some, [], length, replicate};
ghost use Rattle.spaces.specs.Sites.{numbered};
ghost use Rattle.spaces.specs.declared.roster.Request.{Request};
ghost use Rattle.link_trait.specs.Links.{IsUndialed};
ghost use Rattle.auth_events.specs.Told.{names_told, past};
ghost use Rattle.auth_events.specs.declared.told.Told.{Told};
ghost use Rattle.plain_book.specs.Words.{unused};
ghost use Rattle.trace_rule.specs.Settings.{setting_of};
ghost use Rattle.trace_rule.specs.Traces.{IsTrace};
ghost use Rattle.uses_requests.specs.Outcomes.{answer};

use auth_book::AuthBook;
use auth_controller::{Gear, serve_alone};
use auth_runs::{Event, Outcome, Trace};
use auth_text::NoMemory;
use link_trait::{Dialer, NoTokens, Prompter};
use plain_book::PlainWords;
use spaces::Roster;
use std::alloc::Global;

/// Words for the nonces of a roster's requests, none of which was drawn.
fn words_for(alloc: Global, roster: &Roster) -> Result<PlainWords, NoMemory>
    requires { length roster.now.requests ≤ 2048 }
    ensures { IfOk result (λ words. words ≡ replicate (16 * length roster.now.requests) unused) }
{
    let requests = roster.requests.len() as u32;
    PlainWords::new(alloc, 16 * requests)
}

/// Serves the first request of a roster over a dialer and a prompter, with a book of its own. The
/// trace obeys the rule of requests, whatever the peers send and the user answers, and no link
/// stays open. An error is want of memory before the request began.
pub fn fetch<D: Dialer, P: Prompter>(
    alloc: Global,
    roster: &Roster,
    gear: &mut Gear<D, NoTokens>,
    prompter: &mut P,
    seed: [u8; 32],
) -> Result<Trace, NoMemory>
    requires some { 1 ≤ length roster.now.requests }
    requires few { length roster.now.requests ≤ 2048 }
    requires unlinked { D.opened gear.old.dialer ≡ [] }
    requires undialed { (n : ℕ) → IsUndialed (record { request = 1; nth = n })
        (D.dials gear.old.dialer) }
    ensures trace { IfOk result (λ trace. (found : Request)
        → numbered roster.now.requests 1 ≡ Some found → (told : List Told)
        × IsTrace (setting_of roster.now seed (names_told told) (past told) 1 found) trace) }
    ensures closed { D.opened gear.new.dialer ≡ [] }
{
    let mut book = AuthBook::new(alloc, roster)?;
    let mut words = words_for(alloc, roster)?;
    let trace = serve_alone(
        alloc, &mut book, &mut words, gear, prompter, roster, 1, seed,
    )?;
    Ok(trace)
}

/// The code of the reply that answered the request, where one did.
pub fn code_of(trace: &Trace) -> Option<u16>
    ensures { result ≡ answer trace.now }
{
    match trace.events().last() {
        Some(
            Event::Ended {
                outcome: Outcome::Answered(code),
            },
        ) => Some(*code),
        _ => None,
    }
}
