//! The calls of a day, each made where it is allowed.

ghost use Rattle.std.specs.Prelude.{◌≡◌, ◌↔◌, ◌≤◌, IsSome, IsTrue};
ghost use Rattle.spaces.specs.declared.site.Target.TheVariants.{Server};
ghost use Rattle.auth_events.specs.declared.journal.Call.TheVariants.{Preempt};
ghost use Rattle.auth_events.specs.Book.{allowed};
ghost use Rattle.auth_events.specs.Told.{past};

use crate::names::{name_all, space_number, terms_number};
use crate::roster::{REQUESTS, is_proxied, roster};
use auth_events::{BookReply, Call, Controller, Gift};
use auth_text::NoMemory;
use plain_book::{PlainBook, is_allowed};
use spaces::{Roster, Target};
use std::alloc::Global;

/// How many requests begin without being served.
const LAST: u32 = 100;

/// What a day came to.
#[derive(Clone, Copy, Debug, PartialEq, Eq)]
pub struct Day {
    /// The entries before the last requests ask what is ready for them.
    pub entries: usize,
    /// How many of the last requests could ask.
    pub asked: u32,
}

/// The reply to a call of the caller that has the request's number, where the call is allowed.
fn reply<B: Controller>(
    book: &mut B,
    roster: &Roster,
    request: u32,
    call: Call,
) -> Option<BookReply>
    requires { B.roster book.old ≡ roster.now }
    ensures roster { B.roster book.new ≡ roster.now }
    ensures allowed { IsSome result ↔ IsTrue
        (allowed roster.now (B.names book.old) (past (B.told book.old)) request request call) }
{
    let names = book.names();
    let entries = book.journal().entries();
    if !is_allowed(roster, names, entries, request, request, call) {
        return None;
    }
    Some(book.call(request, request, call).reply)
}

/// The gift that is ready for the target.
fn ready<B: Controller>(book: &mut B, roster: &Roster, request: u32, target: Target) -> Option<Gift>
    requires { B.roster book.old ≡ roster.now }
    ensures { B.roster book.new ≡ roster.now }
{
    match reply(book, roster, request, Call::Preempt { target })? {
        BookReply::Ready { gift, .. } => Some(gift),
        _ => None,
    }
}

/// The gift of the prompt that the request leads, once it is answered.
fn prompted<B: Controller>(
    book: &mut B,
    roster: &Roster,
    request: u32,
    prompt: u32,
    terms: u32,
) -> Option<Gift>
    requires { B.roster book.old ≡ roster.now }
    ensures { B.roster book.new ≡ roster.now }
{
    let answer = Call::Answer {
        prompt,
        text: 1,
        terms,
    };
    match reply(book, roster, request, answer)? {
        BookReply::Given { gift, .. } => Some(gift),
        _ => None,
    }
}

/// The gift that the request gets in the space, after an answer where it leads a prompt.
fn selected<B: Controller>(
    book: &mut B,
    roster: &Roster,
    request: u32,
    space: u32,
    terms: u32,
) -> Option<Gift>
    requires { B.roster book.old ≡ roster.now }
    ensures { B.roster book.new ≡ roster.now }
{
    match reply(book, roster, request, Call::Select { space, terms })? {
        BookReply::Cached { gift } => Some(gift),
        BookReply::Lead { prompt, .. } => prompted(book, roster, request, prompt, terms),
        _ => None,
    }
}

/// Notes the directory for the gift, where there is one.
fn note<B: Controller>(book: &mut B, roster: &Roster, request: u32, gift: Option<Gift>)
    requires { B.roster book.old ≡ roster.now }
    ensures { B.roster book.new ≡ roster.now }
{
    if let Some(gift) = gift {
        reply(book, roster, request, Call::Note { gift });
    }
}

/// The gift for the proxy, where the request goes over it.
fn proxy_gift<B: Controller>(book: &mut B, roster: &Roster, request: u32) -> Option<Gift>
    requires { B.roster book.old ≡ roster.now }
    ensures { B.roster book.new ≡ roster.now }
{
    if !is_proxied(request) {
        return None;
    }
    match ready(book, roster, request, Target::Proxy) {
        Some(gift) => Some(gift),
        None => selected(book, roster, request, space_number(request % 3, 0), 0),
    }
}

/// The gift for the server. The nonce of the host 2 is renewed after twenty visits of a partition.
fn server_gift<B: Controller>(book: &mut B, roster: &Roster, request: u32) -> Option<Gift>
    requires { B.roster book.old ≡ roster.now }
    ensures { B.roster book.new ≡ roster.now }
{
    let host = request % 5;
    let terms = terms_number(request);
    match ready(book, roster, request, Target::Server) {
        Some(gift) => {
            if host == 2 && request / 15 % 20 == 19 {
                reply(book, roster, request, Call::Renew { gift, terms });
            }
            Some(gift)
        }
        None if host == 0 => None,
        None => selected(
            book,
            roster,
            request,
            space_number(request % 3, host),
            terms,
        ),
    }
}

/// Serves a request.
fn serve<B: Controller>(book: &mut B, roster: &Roster, request: u32)
    requires { B.roster book.old ≡ roster.now }
    ensures { B.roster book.new ≡ roster.now }
{
    reply(book, roster, request, Call::Begin);
    let proxy = proxy_gift(book, roster, request);
    let server = server_gift(book, roster, request);
    note(book, roster, request, proxy);
    note(book, roster, request, server);
    reply(book, roster, request, Call::End);
}

/// Serves all requests but the last, which only begin.
fn begin<B: Controller>(book: &mut B, roster: &Roster)
    requires { B.roster book.old ≡ roster.now }
    ensures { B.roster book.new ≡ roster.now }
{
    for request in 1..REQUESTS - LAST + 1 {
        serve(book, roster, request);
    }
    for last in 0..LAST {
        reply(book, roster, REQUESTS - last, Call::Begin);
    }
}

/// Asks what is ready for the request's server, and tells whether it may.
fn asks<B: Controller>(book: &mut B, roster: &Roster, request: u32) -> bool
    requires { B.roster book.old ≡ roster.now }
    ensures roster { B.roster book.new ≡ roster.now }
    ensures allowed { result ≡ allowed roster.now
        (B.names book.old) (past (B.told book.old)) request request (Preempt Server) }
{
    let target = Target::Server;
    reply(book, roster, request, Call::Preempt { target }).is_some()
}

/// So many of the last requests ask what is ready for them; it answers how many may.
fn asked<B: Controller>(book: &mut B, roster: &Roster, asking: u32) -> u32
    requires { B.roster book.old ≡ roster.now }
    ensures { result ≤ asking }
{
    let mut asked = 0;
    for last in 0..asking.min(LAST) {
        if asks(book, roster, REQUESTS - last) {
            asked += 1;
        }
    }
    asked
}

/// Plays the day on a new book.
pub fn run(alloc: Global, asking: u32) -> Result<Day, NoMemory> {
    let roster = roster(alloc)?;
    if roster.requests.len() > 2048 {
        return Err(NoMemory);
    }
    let mut book = PlainBook::new(alloc, &roster)?;
    name_all(alloc, &mut book, &roster)?;
    begin(&mut book, &roster);
    let entries = book.journal().entries().len();
    let asked = asked(&mut book, &roster, asking);
    Ok(Day { entries, asked })
}
