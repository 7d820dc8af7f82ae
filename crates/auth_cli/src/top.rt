//! The top calls: words and an input in, a text and a status out. What was proved of all crates
//! below comes together in their clauses.

ghost use Rattle.std.specs.Prelude.{◌≡◌, ◌⊎◌, ◌≤◌, ◌↔◌, length, Some, None, List, ℕ};
ghost use Rattle.std.specs.Prelude.{IfOk, IfErr, IsErrOf};
ghost use Rattle.link_trait.specs.Faults.{Rose};
ghost use Rattle.auth_cli.specs.Closed.{WasClosed};
ghost use Rattle.auth_cli.specs.Commands.{command};
ghost use Rattle.auth_cli.specs.Statuses.{IsCaused, IsSilent, IsStop, WasAsked, expected};
ghost use Rattle.auth_cli.specs.Headline.{IsServed, IsServedInPart};

use crate::serve::text_for;
use crate::status::{Status, refused};
use crate::streams::{ReadStop, WriteStop, read_whole, write_whole};
use crate::words::{Command, Word, command_of};
use auth_controller::Gear;
use auth_text::Items;
use link_trait::{Dialer, Sink, Source, Tokens};
use session_text::{Session, What, read_session};
use std::alloc::Global;

/// The status of an input with more bytes than a session may have.
const TOO_LONG: Status = Status::TooLarge {
    what: What::Bytes,
    number: 4_194_305,
};

/// What workers serve requests by, one gear for each.
pub type Gears<D, T> = Items<Gear<D, T>>;

/// Reads a session.
fn read_asked<S: Source>(alloc: Global, input: &mut S) -> Result<Session, Status>
    ensures asked { IfOk result (λ asked. WasAsked asked (S.left input.old) (S.left input.new)) }
    ensures few { IfOk result (λ asked. length asked.roster.requests ≤ 2048) }
    ensures caused { (command : Command)
        → IfErr result (λ status. IsCaused command status (S.left input.old) (S.left input.new)) }
    ensures stop { IfErr result (λ status. IsStop status) }
    ensures fault { IsErrOf result Status.ReadFault
        → Rose S.sticks (S.faults input.old) (S.faults input.new) }
    ensures later { S.faults input.old ≤ S.faults input.new }
{
    let text = match read_whole(alloc, input) {
        Ok(text) => text,
        Err(ReadStop::Fault) => return Err(Status::ReadFault),
        Err(ReadStop::TooLarge) => return Err(TOO_LONG),
        Err(ReadStop::NoMemory) => return Err(Status::NoMemory),
    };
    match read_session(alloc, text.as_slice()) {
        Ok(session) => Ok(session),
        Err(fault) => Err(refused(fault)),
    }
}

/// Serves one command.
fn serve<S: Source, K: Sink>(
    alloc: Global,
    command: Command,
    input: &mut S,
    output: &mut K,
    seed: [u8; 32],
) -> Status
    ensures done { result ≡ Status.Done
        → IsServed command seed (S.left input.old) (S.left input.new)
        (K.held output.old) (K.held output.new) }
    ensures part { result ≡ Status.WriteFault
        → IsServedInPart command seed (S.left input.old) (S.left input.new)
        (K.held output.old) (K.held output.new) }
    ensures spent { result ≡ Status.NoMemory → (K.held output.new ≡ K.held output.old)
        ⊎ IsServedInPart command seed (S.left input.old) (S.left input.new)
        (K.held output.old) (K.held output.new) }
    ensures silent { IsSilent result (K.held output.old) (K.held output.new) }
    ensures caused { IsCaused command result (S.left input.old) (S.left input.new) }
    ensures read_fault { result ≡ Status.ReadFault
        → Rose S.sticks (S.faults input.old) (S.faults input.new) }
    ensures write_fault { result ≡ Status.WriteFault
        → Rose K.sticks (K.faults output.old) (K.faults output.new) }
    ensures input_later { S.faults input.old ≤ S.faults input.new }
    ensures output_later { K.faults output.old ≤ K.faults output.new }
{
    let session = match read_asked(alloc, input) {
        Ok(session) => session,
        Err(status) => return status,
    };
    let text = match text_for(alloc, command, session, seed) {
        Ok(text) => text,
        Err(_) => return Status::NoMemory,
    };
    match write_whole(output, text.as_slice()) {
        Ok(()) => Status::Done,
        Err(WriteStop::Fault) => Status::WriteFault,
        Err(WriteStop::NoMemory) => Status::NoMemory,
    }
}

/// Runs the command that the words are: `check` reads a session and writes how much it asks for,
/// `alone` serves its requests in order by one caller over the recorded links, and writes the
/// report.
///
/// The seed is what client nonces are made of. It waits for nobody and always returns. The status
/// says how it ended, and its first cause in this order: the words, a read fault, the size, the
/// first line at fault, a write fault. Want of memory may come at any place behind the words.
/// Nothing is written before the whole text is made.
pub fn authfetch_alone<S: Source, K: Sink>(
    alloc: Global,
    words: &[Word],
    input: &mut S,
    output: &mut K,
    seed: [u8; 32],
) -> Status
    ensures usage { result ≡ Status.Usage ↔ (command words.now ≡ None) }

    // The headline: what stands there afterwards is what stood there, followed by the command's
    // text, which for `alone` is the report of a run of the session.
    ensures done { (asked : Command) → command words.now ≡ Some asked → result ≡ Status.Done
        → IsServed asked seed (S.left input.old) (S.left input.new)
        (K.held output.old) (K.held output.new) }

    // In the journal that `alone` prints each request ends, every prompt has exactly one answer or
    // loss, and who follows a prompt takes its end behind that, exactly once.
    ensures closed { command words.now ≡ Some Command.Alone → result ≡ Status.Done
        → WasClosed seed (K.held output.old) (K.held output.new) }

    // Each status has its cause.
    ensures caused { (asked : Command) → command words.now ≡ Some asked
        → IsCaused asked result (S.left input.old) (S.left input.new) }
    ensures read_fault { result ≡ Status.ReadFault
        → Rose S.sticks (S.faults input.old) (S.faults input.new) }
    ensures write_fault { result ≡ Status.WriteFault
        → Rose K.sticks (K.faults output.old) (K.faults output.new) }
    ensures input_later { S.faults input.old ≤ S.faults input.new }
    ensures output_later { K.faults output.old ≤ K.faults output.new }

    // Faults aside, the text decides: a session is served, and any other text is refused as it is.
    ensures complete { (asked : Command) (text : List ℕ) → command words.now ≡ Some asked
        → S.left input.old ≡ Some text
        → ¬ (Rose S.sticks (S.faults input.old) (S.faults input.new))
        → ¬ (Rose K.sticks (K.faults output.old) (K.faults output.new))
        → (result ≡ expected asked text) ⊎ (result ≡ Status.NoMemory) }

    // Where it isn't done, a front of that text was written, and for most faults nothing.
    ensures part { (asked : Command) → command words.now ≡ Some asked → result ≡ Status.WriteFault
        → IsServedInPart asked seed (S.left input.old) (S.left input.new)
        (K.held output.old) (K.held output.new) }
    ensures spent { (asked : Command) → command words.now ≡ Some asked → result ≡ Status.NoMemory
        → (K.held output.new ≡ K.held output.old)
        ⊎ IsServedInPart asked seed (S.left input.old) (S.left input.new)
        (K.held output.old) (K.held output.new) }
    ensures silent { IsSilent result (K.held output.old) (K.held output.new) }
{
    match command_of(words) {
        None => Status::Usage,
        Some(asked) => serve(alloc, asked, input, output, seed),
    }
}

/// Runs the command that the words are. It hands them to `authfetch_alone`, whose clauses are its
/// own, and gives the gears back as they came: no command uses gears so far.
pub fn authfetch<R, S: Source, K: Sink, D: Dialer + Send, T: Tokens + Send>(
    _rt: &R,
    alloc: Global,
    words: &[Word],
    input: &mut S,
    output: &mut K,
    gears: Gears<D, T>,
    seed: [u8; 32],
) -> (Status, Gears<D, T>)
    ensures usage { result.0 ≡ Status.Usage ↔ (command words.now ≡ None) }
    ensures gears { result.1 ≡ gears }

    // The headline, and each status' cause, as above.
    ensures done { (asked : Command) → command words.now ≡ Some asked → result.0 ≡ Status.Done
        → IsServed asked seed (S.left input.old) (S.left input.new)
        (K.held output.old) (K.held output.new) }
    ensures closed { command words.now ≡ Some Command.Alone → result.0 ≡ Status.Done
        → WasClosed seed (K.held output.old) (K.held output.new) }
    ensures caused { (asked : Command) → command words.now ≡ Some asked
        → IsCaused asked result.0 (S.left input.old) (S.left input.new) }
    ensures read_fault { result.0 ≡ Status.ReadFault
        → Rose S.sticks (S.faults input.old) (S.faults input.new) }
    ensures write_fault { result.0 ≡ Status.WriteFault
        → Rose K.sticks (K.faults output.old) (K.faults output.new) }
    ensures input_later { S.faults input.old ≤ S.faults input.new }
    ensures output_later { K.faults output.old ≤ K.faults output.new }
    ensures complete { (asked : Command) (text : List ℕ) → command words.now ≡ Some asked
        → S.left input.old ≡ Some text
        → ¬ (Rose S.sticks (S.faults input.old) (S.faults input.new))
        → ¬ (Rose K.sticks (K.faults output.old) (K.faults output.new))
        → (result.0 ≡ expected asked text) ⊎ (result.0 ≡ Status.NoMemory) }
    ensures part { (asked : Command) → command words.now ≡ Some asked → result.0 ≡ Status.WriteFault
        → IsServedInPart asked seed (S.left input.old) (S.left input.new)
        (K.held output.old) (K.held output.new) }
    ensures spent { (asked : Command) → command words.now ≡ Some asked → result.0 ≡ Status.NoMemory
        → (K.held output.new ≡ K.held output.old)
        ⊎ IsServedInPart asked seed (S.left input.old) (S.left input.new)
        (K.held output.old) (K.held output.new) }
    ensures silent { IsSilent result.0 (K.held output.old) (K.held output.new) }
{
    let status = authfetch_alone(alloc, words, input, output, seed);
    (status, gears)
}
