//! A history of pairs of requests. Of each pair one leads prompts that the other follows, by turns,
//! and makes all other calls; each call is made where it is allowed.

ghost use Rattle.std.specs.Prelude.{◌≡◌};

use crate::names::{Numbers, name_pair, name_text};
use crate::roster::PAIRS;
use crate::times::{Meter, Time};
use auth_events::{BookReply, Call, Controller, Gift, Loss};
use auth_text::NoMemory;
use plain_book::is_allowed;
use spaces::{Roster, Target};
use std::alloc::Global;
use std::rt::Clock;
use std::time::Instant;

/// How many pairs are timed.
const TIMED: u32 = 32;

/// How often the two of a pair take turns: so each makes fewer calls than it may.
const TURNS: u32 = 9;

/// How many pairs take none, so that as many spaces as a partition keeps are live early on.
const SHORT: u32 = 32;

/// The reply to a call of the caller that has the request's number, where the call is allowed. Its
/// time is that of the call alone, and not that of the look whether it is allowed, which scans the
/// journal.
fn timed<C: Clock, B: Controller>(
    clock: &C,
    meter: &mut Meter,
    book: &mut B,
    roster: &Roster,
    request: u32,
    call: Call,
) -> Option<BookReply>
    requires { B.roster book.old ≡ roster.now }
    ensures { B.roster book.new ≡ roster.now }
{
    let names = book.names();
    let entries = book.journal().entries();
    if !is_allowed(roster, names, entries, request, request, call) {
        return None;
    }
    meter.sweep();
    let start = Instant::now(clock).ok()?;
    let did = book.call(request, request, call);
    let spent = start.elapsed(clock).ok()?;
    let nanos = spent.subsec_nanos();
    meter.add(call, nanos).ok()?;
    Some(did.reply)
}

/// The prompt that the request leads and the other one follows.
fn prompted<C: Clock, B: Controller>(
    clock: &C,
    meter: &mut Meter,
    book: &mut B,
    roster: &Roster,
    requests: (u32, u32),
    numbers: Numbers,
) -> Option<u32>
    requires { B.roster book.old ≡ roster.now }
    ensures { B.roster book.new ≡ roster.now }
{
    let select = Call::Select {
        space: numbers.space,
        terms: numbers.terms,
    };
    let led = timed(clock, meter, book, roster, requests.0, select)?;
    timed(clock, meter, book, roster, requests.1, select)?;
    match led {
        BookReply::Lead { prompt, .. } => Some(prompt),
        _ => None,
    }
}

/// The gift of a prompt that is answered, once it was used, renewed and noted.
fn answered<C: Clock, B: Controller>(
    clock: &C,
    meter: &mut Meter,
    book: &mut B,
    roster: &Roster,
    requests: (u32, u32),
    numbers: Numbers,
) -> Option<Gift>
    requires { B.roster book.old ≡ roster.now }
    ensures { B.roster book.new ≡ roster.now }
{
    let prompt = prompted(clock, meter, book, roster, requests, numbers)?;
    let Numbers {
        space,
        terms,
        renewed,
    } = numbers;
    let answer = Call::Answer {
        prompt,
        text: 1,
        terms,
    };
    let BookReply::Given { gift, .. } = timed(clock, meter, book, roster, requests.0, answer)?
    else {
        return None;
    };
    timed(
        clock,
        meter,
        book,
        roster,
        requests.1,
        Call::Take { prompt },
    )?;
    let renew = Call::Renew {
        gift,
        terms: renewed,
    };
    for call in [Call::Select { space, terms }, renew, Call::Note { gift }] {
        timed(clock, meter, book, roster, requests.0, call)?;
    }
    Some(gift)
}

/// A gift that was used is rejected, and the next prompt is lost.
fn take_turn<C: Clock, B: Controller>(
    clock: &C,
    meter: &mut Meter,
    book: &mut B,
    roster: &Roster,
    requests: (u32, u32),
    numbers: Numbers,
) -> Option<()>
    requires { B.roster book.old ≡ roster.now }
    ensures { B.roster book.new ≡ roster.now }
{
    let Gift { space, ordinal } = answered(clock, meter, book, roster, requests, numbers)?;
    let reject = Call::Reject { space, ordinal };
    timed(clock, meter, book, roster, requests.0, reject)?;
    lost(clock, meter, book, roster, requests, numbers)
}

/// A prompt is lost.
fn lost<C: Clock, B: Controller>(
    clock: &C,
    meter: &mut Meter,
    book: &mut B,
    roster: &Roster,
    requests: (u32, u32),
    numbers: Numbers,
) -> Option<()>
    requires { B.roster book.old ≡ roster.now }
    ensures { B.roster book.new ≡ roster.now }
{
    let prompt = prompted(clock, meter, book, roster, requests, numbers)?;
    let loss = Loss::Fault(1);
    timed(
        clock,
        meter,
        book,
        roster,
        requests.0,
        Call::Lose { prompt, loss },
    )?;
    timed(
        clock,
        meter,
        book,
        roster,
        requests.1,
        Call::Take { prompt },
    )?;
    Some(())
}

/// Serves a pair, whose space then stays live.
fn serve<C: Clock, B: Controller>(
    clock: &C,
    meter: &mut Meter,
    book: &mut B,
    roster: &Roster,
    pair: u32,
    numbers: Numbers,
) -> Option<()>
    requires { B.roster book.old ≡ roster.now }
    ensures { B.roster book.new ≡ roster.now }
{
    let first = 2 * (pair % PAIRS) + 1;
    let second = first + 1;
    let target = Target::Server;
    for call in [Call::Begin, Call::Preempt { target }] {
        timed(clock, meter, book, roster, first, call)?;
        timed(clock, meter, book, roster, second, call)?;
    }
    let turns = if pair < SHORT { 0 } else { TURNS };
    for turn in 0..turns {
        let requests = if turn % 2 == 0 {
            (first, second)
        } else {
            (second, first)
        };
        take_turn(clock, meter, book, roster, requests, numbers)?;
    }
    answered(clock, meter, book, roster, (second, first), numbers)?;
    timed(clock, meter, book, roster, first, Call::End)?;
    timed(clock, meter, book, roster, second, Call::End)?;
    Some(())
}

/// Serves pairs until the journal has so many entries, and then some more, whose times are the
/// answer; none where a call wasn't allowed, or where there are too few pairs.
pub fn played<C: Clock, B: Controller>(
    alloc: Global,
    clock: &C,
    book: &mut B,
    roster: &Roster,
    entries: usize,
) -> Result<Option<Vec<Time>>, NoMemory>
    requires { B.roster book.old ≡ roster.now }
{
    name_text(alloc, book, roster)?;
    let mut meter = Meter::new(alloc)?;
    let mut left = TIMED;
    for pair in 0..PAIRS {
        if left == 0 {
            return Ok(Some(meter.times));
        }
        if book.journal().entries().len() >= entries {
            meter.is_on = true;
            left -= 1;
        }
        let numbers = name_pair(alloc, book, roster, pair)?;
        if serve(clock, &mut meter, book, roster, pair, numbers).is_none() {
            return Ok(None);
        }
    }
    Ok(None)
}
