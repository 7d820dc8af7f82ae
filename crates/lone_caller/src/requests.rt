//! All requests of a roster, served by one caller, one behind the other.

ghost use Rattle.std.specs.Prelude.{◌≡◌, ◌≤◌, [], IfOk, IsSome, Some, length};
ghost use Rattle.lone_caller.specs.Served.{AreAllServed};

use auth_controller::{Gear, serve_alone};
use auth_events::Controller;
use auth_runs::Traces;
use auth_text::NoMemory;
use link_trait::{Dialer, Prompter, Tokens};
use plain_book::PlainWords;
use spaces::Roster;
use std::alloc::Global;

/// Serves all requests of the roster in order, each to its end before the next one begins, over a
/// book and a dialer that have told nothing yet, where nothing fails. The traces are in the order
/// of the requests. Want of memory may leave the later requests unserved.
pub fn serve_all<B: Controller, D: Dialer, T: Tokens, P: Prompter>(
    alloc: Global,
    book: &mut B,
    gear: &mut Gear<D, T>,
    prompter: &mut P,
    roster: &Roster,
    seed: [u8; 32],
) -> Result<Traces, NoMemory>
    requires roster { roster.now ≡ B.roster book.old }
    requires few { length roster.now.requests ≤ 2048 }
    requires untold { B.told book.old ≡ [] }
    requires undialed { D.dials gear.old.dialer ≡ Some [] }
    requires unlinked { D.opened gear.old.dialer ≡ [] }
    requires streams { IsSome (D.streams gear.old.dialer) }
    requires answers { IsSome (P.answers prompter.old) }
    requires quiet { D.quiet gear.old.dialer }
    requires calm { P.quiet prompter.old }
    ensures roster { B.roster book.new ≡ B.roster book.old }
    ensures served { IfOk result (λ traces. AreAllServed roster.now seed (D.streams gear.old.dialer)
        (P.answers prompter.old) traces (B.told book.new)) }
{
    let requests = roster.requests.len() as u32;
    let mut words = PlainWords::new(alloc, 16 * requests)?;
    let mut traces = Traces::new(alloc);
    'requests: for served in 0..requests {
        let trace = serve_alone(
            alloc,
            book,
            &mut words,
            gear,
            prompter,
            roster,
            served + 1,
            seed,
        )?;
        traces.push(trace)?;
    }
    Ok(traces)
}
