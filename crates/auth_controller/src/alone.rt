//! One request of one caller, from its first call of the book to its outcome.

ghost use Rattle.std.specs.Prelude.{◌≡◌, ◌≤◌, ◌*◌, ◌^◌, ℕ, IfOk, IsSome, OnErr, None, Some, []};
ghost use Rattle.std.specs.Prelude.{false, length, reverse};
ghost use Rattle.spaces.specs.Sites.{numbered};
ghost use Rattle.spaces.specs.declared.roster.Request.{Request};
ghost use Rattle.link_trait.specs.Links.{IsUndialed};
ghost use Rattle.auth_events.specs.Book.{own};
ghost use Rattle.auth_events.specs.Tables.{AreFew};
ghost use Rattle.auth_events.specs.Told.{names_told, past};
ghost use Rattle.plain_book.specs.Words.{draws_of};
ghost use Rattle.trace_rule.specs.Settings.{setting_of};
ghost use Rattle.request_machine.specs.Failed.{RoseBy, ask_faults, link_faults};
ghost use Rattle.serving_laws.specs.Alone.{has_open_prompt};
ghost use Rattle.serving_laws.specs.Draws.{AreEpochs};
ghost use Rattle.serving_laws.specs.Rooms.{begun};
ghost use Rattle.serving_laws.specs.Service.{IsServedAlone};
ghost use Rattle.auth_controller.specs.Driving.{HasDriving, peers, seen};
ghost use Rattle.auth_controller.specs.Service.{IsCarriedOut, IsPromptedOut};

use crate::answers::answer;
use auth_events::Controller;
use auth_runs::Trace;
use auth_text::NoMemory;
use link_trait::{Dialer, Prompter, Tokens};
use plain_book::PlainWords;
use request_machine::{Gear, Machine, Need, Stage};
use spaces::Roster;
use std::alloc::Global;

/// Serves the machine's request to its end.
fn serve_on<B: Controller, D: Dialer, T: Tokens, P: Prompter>(
    alloc: Global,
    book: &mut B,
    words: &mut PlainWords,
    gear: &mut Gear<D, T>,
    prompter: &mut P,
    roster: &Roster,
    machine: &mut Machine,
    request: u32,
)
    requires roster { roster.now ≡ B.roster book.old }
    requires number { request ≡ machine.old.number }
    requires unbegun { machine.old.past ≡ [] }
    requires driving { HasDriving roster.now
        (peers (D.streams gear.old.dialer) (P.answers prompter.old))
        (seen (B.told book.old) words.old (D.dials gear.old.dialer) (D.opened gear.old.dialer)
        (D.traffic gear.old.dialer) (P.told prompter.old))
        (seen (B.told book.old) words.old (D.dials gear.old.dialer) (D.opened gear.old.dialer)
        (D.traffic gear.old.dialer) (P.told prompter.old))
        machine.old }
    ensures roster { B.roster book.new ≡ B.roster book.old }
    ensures number { machine.new.number ≡ machine.old.number }
    ensures seed { machine.new.seed ≡ machine.old.seed }
    ensures over { machine.new.stage ≡ Stage.Over }
    ensures closed { machine.new.link ≡ None }
    ensures tokens { gear.new.tokens ≡ gear.old.tokens }
    ensures streams { D.streams gear.new.dialer ≡ D.streams gear.old.dialer }
    ensures answers { P.answers prompter.new ≡ P.answers prompter.old }
    ensures faults { RoseBy D.sticks (D.faults gear.old.dialer) (link_faults machine.new.past)
        (D.faults gear.new.dialer) }
    ensures quiet { D.quiet gear.old.dialer → D.quiet gear.new.dialer
        × (link_faults machine.new.past ≡ []) }
    ensures prompt_faults { RoseBy P.sticks (P.faults prompter.old) (ask_faults machine.new.past)
        (P.faults prompter.new) }
    ensures prompt_quiet { P.quiet prompter.old → P.quiet prompter.new
        × (ask_faults machine.new.past ≡ []) }
    ensures driving { HasDriving roster.now
        (peers (D.streams gear.old.dialer) (P.answers prompter.old))
        (seen (B.told book.old) words.old (D.dials gear.old.dialer) (D.opened gear.old.dialer)
        (D.traffic gear.old.dialer) (P.told prompter.old))
        (seen (B.told book.new) words.new (D.dials gear.new.dialer) (D.opened gear.new.dialer)
        (D.traffic gear.new.dialer) (P.told prompter.new))
        machine.new }
{
    loop {
        let need = machine.step(alloc, roster, gear, prompter);
        if let Need::Ended = need {
            break;
        }
        answer(book, words, machine, request, need);
    }
}

/// Serves a request by one caller, number 1, with nobody beside it: calls the book, draws counts
/// from the words, dials links, writes heads and reads replies, and asks the user, until the
/// request is over. It takes the memory for its trace first: an error has changed nothing.
pub fn serve_alone<B: Controller, D: Dialer, T: Tokens, P: Prompter>(
    alloc: Global,
    book: &mut B,
    words: &mut PlainWords,
    gear: &mut Gear<D, T>,
    prompter: &mut P,
    roster: &Roster,
    request: u32,
    seed: [u8; 32],
) -> Result<Trace, NoMemory>
    requires roster { roster.now ≡ B.roster book.old }
    requires request { IsSome (numbered roster.now.requests request) }
    requires unserved { own (past (B.told book.old)) request ≡ [] }
    requires settled { has_open_prompt (past (B.told book.old)) ≡ false }
    requires few { AreFew (begun (past (B.told book.old))) (B.names book.old) }
    requires words { length words.old ≡ 16 * length roster.now.requests }
    requires draws { (n : ℕ) → draws_of words.old n ≤ 2 ^ 29 }
    requires epochs { AreEpochs (B.names book.old) (past (B.told book.old)) words.old }
    requires unlinked { D.opened gear.old.dialer ≡ [] }
    requires undialed { (n : ℕ) → IsUndialed (record { request = request; nth = n })
        (D.dials gear.old.dialer) }
    ensures roster { B.roster book.new ≡ B.roster book.old }
    ensures told_err { OnErr result (B.told book.new ≡ B.told book.old) }
    ensures words_err { OnErr result (words.new ≡ words.old) }
    ensures gear_err { OnErr result (gear.new ≡ gear.old) }
    ensures prompter_err { OnErr result (prompter.new ≡ prompter.old) }
    ensures served { IfOk result (λ trace. (found : Request)
        → numbered roster.now.requests request ≡ Some found
        → IsServedAlone roster.now seed (B.told book.old) (B.told book.new)
        words.old words.new request found trace) }
    ensures carried { IfOk result (λ trace. (found : Request)
        → numbered roster.now.requests request ≡ Some found
        → IsCarriedOut (setting_of roster.now seed (names_told (B.told book.new))
        (past (B.told book.new)) request found) (D.streams gear.old.dialer)
        (D.dials gear.old.dialer) (D.dials gear.new.dialer)
        (D.traffic gear.old.dialer) (D.traffic gear.new.dialer) trace) }
    ensures prompted { IfOk result (λ trace. (found : Request)
        → numbered roster.now.requests request ≡ Some found
        → IsPromptedOut (setting_of roster.now seed (names_told (B.told book.new))
        (past (B.told book.new)) request found) (P.answers prompter.old)
        (names_told (B.told book.new)) (P.told prompter.old) (P.told prompter.new) trace) }
    ensures faults { IfOk result (λ trace. RoseBy D.sticks (D.faults gear.old.dialer)
        (link_faults (reverse trace)) (D.faults gear.new.dialer)) }
    ensures quiet { IfOk result (λ trace. D.quiet gear.old.dialer → D.quiet gear.new.dialer
        × (link_faults (reverse trace) ≡ [])) }
    ensures prompt_faults { IfOk result (λ trace. RoseBy P.sticks (P.faults prompter.old)
        (ask_faults (reverse trace)) (P.faults prompter.new)) }
    ensures prompt_quiet { IfOk result (λ trace. P.quiet prompter.old → P.quiet prompter.new
        × (ask_faults (reverse trace) ≡ [])) }
    ensures tokens { gear.new.tokens ≡ gear.old.tokens }
    ensures streams { D.streams gear.new.dialer ≡ D.streams gear.old.dialer }
    ensures answers { P.answers prompter.new ≡ P.answers prompter.old }
    ensures closed { D.opened gear.new.dialer ≡ [] }
{
    let mut machine = Machine::new(alloc, roster, request, seed)?;
    serve_on(
        alloc,
        book,
        words,
        gear,
        prompter,
        roster,
        &mut machine,
        request,
    );
    Ok(machine.finish())
}
