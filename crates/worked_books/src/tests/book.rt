//! Requests, the names that calls on their book speak of, and the calls themselves.

ghost use Rattle.std.specs.Prelude.{◌≡◌, ◌<◌, ◌*◌, length, IsTrue, IfOk};

use crate::tests::histories::History;
use crate::tests::rows::Row;
use crate::tests::sources::is_space;
use crate::try_call;
use auth_book::AuthBook;
use auth_events::Controller;
use auth_text::{Bytes, Identity, NoMemory};
use plain_book::PlainBook;
use spaces::{
    Method, Origins, Partition, Place, Request, Requests, Roster, Scheme, Site, Space, Target,
    place_of,
};
use std::alloc::Global;
use std::process::Abort;

fn partition(alloc: Global, name: &[u8]) -> Result<Partition, NoMemory> {
    match Partition::new(alloc, name) {
        Ok(partition) => Ok(partition),
        Err(_) => Err(NoMemory),
    }
}

pub(crate) fn place(alloc: Global, url: &[u8]) -> Result<Place, NoMemory> {
    match place_of(alloc, url) {
        Ok(place) => Ok(place),
        Err(_) => Err(NoMemory),
    }
}

/// A GET of the URL in the partition.
pub(crate) fn request(alloc: Global, name: &[u8], url: &[u8]) -> Result<Request, NoMemory> {
    let partition = partition(alloc, name)?;
    let place = place(alloc, url)?;
    Ok(Request {
        method: Method::Get,
        partition,
        place,
        proxy: None,
    })
}

/// A GET of the URL in the partition, over the proxy.
pub(crate) fn request_over(
    alloc: Global,
    name: &[u8],
    url: &[u8],
    proxy: &[u8],
) -> Result<Request, NoMemory> {
    let mut request = request(alloc, name, url)?;
    let proxy = place(alloc, proxy)?;
    request.proxy = Some(proxy.origin);
    Ok(request)
}

/// The site of the request's server.
pub(crate) fn server(request: &Request) -> Result<Site, NoMemory> {
    let partition = request.partition.clone()?;
    let origin = request.place.origin.clone()?;
    Ok(Site {
        partition,
        target: Target::Server,
        origin,
    })
}

/// The site of the URL's host in the partition `main`.
pub(crate) fn site_of(alloc: Global, target: Target, url: &[u8]) -> Result<Site, NoMemory> {
    let partition = partition(alloc, b"main")?;
    let origin = place(alloc, url)?.origin;
    Ok(Site {
        partition,
        target,
        origin,
    })
}

/// The Basic space of the request's server.
fn basic(alloc: Global, request: &Request) -> Result<Space, NoMemory> {
    let site = server(request)?;
    let realm = Bytes::from_slice(alloc, b"x")?;
    Ok(Space::new(site, Scheme::Basic, realm))
}

/// A request of the host whose name is an `h` and that letter, in the partition of a `p` and that
/// digit.
fn request_of_host(alloc: Global, host: u8, side: u8) -> Result<Request, NoMemory> {
    let mut url = Bytes::from_slice(alloc, b"http://h")?;
    url.push(host)?;
    request(alloc, &[b'p', side], url.as_slice())
}

/// A request for each host, and for each its partition.
pub(crate) fn roster_of_hosts(
    alloc: Global,
    hosts: &[u8],
    sides: &[u8],
) -> Result<Roster, NoMemory> {
    let mut requests = Requests::new(alloc);
    for (host, side) in hosts.iter().zip(sides) {
        requests.push(request_of_host(alloc, *host, *side)?)?;
    }
    Ok(Roster {
        requests,
        allowed: Origins::new(alloc),
    })
}

fn identity(alloc: Global, user: &[u8]) -> Result<Identity, NoMemory> {
    match Identity::new(alloc, user, b"p") {
        Ok(identity) => Ok(identity),
        Err(_) => Err(NoMemory),
    }
}

/// Whether the book may name one more space and one more text.
fn has_room<B: Controller>(book: &B, roster: &Roster) -> bool
    requires { B.roster book.now ≡ roster.now }
    ensures spaces { IsTrue result
        → length (B.names book.now).spaces < 64 * length (B.roster book.now).requests }
    ensures texts { IsTrue result
        → length (B.names book.now).texts < 64 * length (B.roster book.now).requests }
{
    let names = book.names();
    let spaces = names.spaces_len();
    let texts = names.texts_len();
    let requests = roster.requests.len();
    requests <= 2048 && (spaces as usize) < 64 * requests && (texts as usize) < 64 * requests
}

/// The number of the space.
pub(crate) fn name_space<B: Controller>(
    rt: &impl Abort,
    book: &mut B,
    roster: &Roster,
    space: &Space,
) -> Result<u32, NoMemory>
    requires { B.roster book.old ≡ roster.now }
    ensures { B.roster book.new ≡ roster.now }
{
    assert!(rt; has_room(book, roster));
    let number = book.space_no(1, space)?;
    Ok(number)
}

/// Names the identity that the next prompt is answered with.
pub(crate) fn name_text<B: Controller>(
    rt: &impl Abort,
    alloc: Global,
    book: &mut B,
    roster: &Roster,
    user: &[u8],
) -> Result<(), NoMemory>
    requires { B.roster book.old ≡ roster.now }
    ensures { B.roster book.new ≡ roster.now }
{
    let text = identity(alloc, user)?;
    assert!(rt; has_room(book, roster));
    book.text_no(1, &text)?;
    Ok(())
}

/// Names the Basic space of the request, and a text.
fn name_one<B: Controller>(
    rt: &impl Abort,
    alloc: Global,
    book: &mut B,
    roster: &Roster,
    request: &Request,
) -> Result<(), NoMemory>
    requires { B.roster book.old ≡ roster.now }
    ensures { B.roster book.new ≡ roster.now }
{
    let space = basic(alloc, request)?;
    name_space(rt, book, roster, &space)?;
    name_text(rt, alloc, book, roster, b"u")?;
    Ok(())
}

/// Names the Basic space of each request, and as many texts.
fn name_all<B: Controller>(
    rt: &impl Abort,
    alloc: Global,
    book: &mut B,
    roster: &Roster,
) -> Result<(), NoMemory>
    requires { B.roster book.old ≡ roster.now }
    ensures { B.roster book.new ≡ roster.now }
{
    for request in roster.requests.as_slice() {
        name_one(rt, alloc, book, roster, request)?;
    }
    Ok(())
}

/// Sees that the call is allowed, and that its reply is the row's. It answers the nonce that it
/// took out.
pub(crate) fn play_one<B: Controller>(
    rt: &impl Abort,
    book: &mut B,
    roster: &Roster,
    row: Row,
) -> u32
    requires { B.roster book.old ≡ roster.now }
    ensures { B.roster book.new ≡ roster.now }
{
    let Some(did) = try_call(book, roster, row.0, row.call()) else {
        panic!(rt; "request {} may not {}", row.0, row.1);
    };
    assert!(rt; did.reply == row.reply(), "request {}, {}", row.0, row.1);
    did.retired
}

/// Plays the rows, each by the caller of its request's number.
fn play<B: Controller>(rt: &impl Abort, book: &mut B, roster: &Roster, rows: &[Row])
    requires { B.roster book.old ≡ roster.now }
    ensures { B.roster book.new ≡ roster.now }
{
    for row in rows {
        play_one(rt, book, roster, *row);
    }
}

/// The first number stands for the Basic space of the first request.
fn keeps_first_space<B: Controller>(
    rt: &impl Abort,
    alloc: Global,
    book: &B,
    roster: &Roster,
) -> Result<(), NoMemory> {
    let Some(request) = roster.requests.get(1) else {
        panic!(rt; "no request");
    };
    is_space(rt, book, 1, &basic(alloc, request)?)
}

/// Names what the rows speak of, and plays them. It answers how many entries the book then has.
pub(crate) fn play_all<B: Controller>(
    rt: &impl Abort,
    alloc: Global,
    book: &mut B,
    roster: &Roster,
    rows: &[Row],
) -> Result<usize, NoMemory>
    requires { B.roster book.old ≡ roster.now }
{
    name_all(rt, alloc, book, roster)?;
    play(rt, book, roster, rows);
    keeps_first_space(rt, alloc, book, roster)?;
    Ok(book.journal().entries().len())
}

/// An empty book of these requests.
pub(crate) fn opened(rt: &impl Abort, alloc: Global, roster: &Roster) -> Result<PlainBook, NoMemory>
    ensures { IfOk result (λ book. ⟦<PlainBook as Controller>⟧.roster book ≡ roster.now) }
{
    assert!(rt; roster.requests.len() <= 2048);
    let book = PlainBook::new(alloc, roster)?;
    Ok(book)
}

/// An empty book of these requests that decides by its index.
pub(crate) fn opened_with_index(
    rt: &impl Abort,
    alloc: Global,
    roster: &Roster,
) -> Result<AuthBook, NoMemory>
    ensures { IfOk result (λ book. ⟦<AuthBook as Controller>⟧.roster book ≡ roster.now) }
{
    assert!(rt; roster.requests.len() <= 2048);
    let book = AuthBook::new(alloc, roster)?;
    Ok(book)
}

/// A book that decides by its index replies as the rows say.
fn play_by_index(
    rt: &impl Abort,
    alloc: Global,
    roster: &Roster,
    rows: &[Row],
) -> Result<usize, NoMemory> {
    let mut book = opened_with_index(rt, alloc, roster)?;
    play_all(rt, alloc, &mut book, roster, rows)
}

/// A book that scans its journal and one that decides by its index reply as the rows say, and both
/// have so many entries behind them.
pub(crate) fn played_on(
    rt: &impl Abort,
    alloc: Global,
    roster: &Roster,
    rows: &[Row],
) -> Result<usize, NoMemory> {
    let entries = play_by_index(rt, alloc, roster, rows)?;
    let mut book = opened(rt, alloc, roster)?;
    let scanned = play_all(rt, alloc, &mut book, roster, rows)?;
    assert!(rt; scanned == entries);
    Ok(entries)
}

/// Both books reply as the history says.
pub(crate) fn played(rt: &impl Abort, alloc: Global, history: History) -> Result<usize, NoMemory> {
    let roster = history.roster(alloc)?;
    let rows = history.rows(alloc)?;
    played_on(rt, alloc, &roster, rows.as_slice())
}
