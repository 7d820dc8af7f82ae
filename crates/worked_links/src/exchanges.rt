//! Exchanges over links of a recorded dialer, with what each shows: over a free link, which carries
//! one, and over a bound one, which is read twice.

ghost use Rattle.std.specs.Prelude.{◌≡◌, [], Some, None, true, false, IfOk};
ghost use Rattle.link_trait.specs.Links.{has_link, IsUndialed};

use auth_text::{Bytes, Items};
use connection_binding::{BoundLink, DialEnd, FreeLink, ReadEnd, SendEnd};
use link_trait::{Calls, Dialer, LinkName, Links, RecordedDialer};
use spaces::{Method, Origin};
use std::alloc::Global;
use std::test::Fail;
use wire_head::WireFault;

/// How an exchange ended.
#[derive(Clone, Copy, Debug, PartialEq, Eq)]
enum Seen {
    Whole { code: u16, body: u32 },
    Broken(WireFault),
    NotDialed(u64),
    NotSent(u64),
    NotRead(u64),
    Lost,
    NoMemory,
}

fn shown(end: ReadEnd) -> Seen {
    match end {
        ReadEnd::Whole(reply) => Seen::Whole {
            code: reply.code,
            body: reply.body,
        },
        ReadEnd::Broken(fault) => Seen::Broken(fault),
        ReadEnd::Lost => Seen::Lost,
        ReadEnd::Failed { count } => Seen::NotRead(count),
        ReadEnd::NoMemory => Seen::NoMemory,
    }
}

const HEAD: &[u8] = b"GET / HTTP/1.1\r\nHost: intra.example\r\n\r\n";

/// The first link of the first request.
const NAME: LinkName = LinkName { request: 1, nth: 1 };

/// What a free link shows behind its head.
fn exchanged<D: Dialer>(alloc: Global, dialer: &mut D, link: &mut FreeLink, method: Method) -> Seen
    requires { has_link link.old (D.opened dialer.old) ≡ true }
    ensures link { link.new ≡ link.old }
    ensures opened { D.opened dialer.new ≡ D.opened dialer.old }
{
    match link.send(dialer, HEAD) {
        SendEnd::All => shown(link.read(alloc, dialer, method)),
        SendEnd::Failed { count } => Seen::NotSent(count),
        SendEnd::NoMemory => Seen::NoMemory,
    }
}

/// One exchange over a new link.
fn exchange<D: Dialer>(alloc: Global, dialer: &mut D, to: &Origin, method: Method) -> Seen
    requires closed { has_link (record { request = 1; nth = 1 }) (D.opened dialer.old) ≡ false }
    requires fresh { IsUndialed (record { request = 1; nth = 1 }) (D.dials dialer.old) }
{
    match FreeLink::dial(dialer, NAME, to) {
        DialEnd::Link(link) => {
            let mut link = link;
            let seen = exchanged(alloc, dialer, &mut link, method);
            link.spend(dialer);
            seen
        }
        DialEnd::Failed { count } => Seen::NotDialed(count),
        DialEnd::NoMemory => Seen::NoMemory,
    }
}

/// What a bound link shows behind a head that was sent so.
fn read_twice<D: Dialer>(
    alloc: Global,
    dialer: &mut D,
    link: &mut BoundLink,
    sent: SendEnd,
) -> (Seen, Seen)
    requires { has_link link.old.name (D.opened dialer.old) ≡ true }
    ensures name { link.new.name ≡ link.old.name }
    ensures opened { D.opened dialer.new ≡ D.opened dialer.old }
{
    match sent {
        SendEnd::All => {
            let first = shown(link.read(alloc, dialer, Method::Get));
            let second = shown(link.read(alloc, dialer, Method::Get));
            (first, second)
        }
        SendEnd::Failed { count } => (Seen::NotSent(count), Seen::NotSent(count)),
        SendEnd::NoMemory => (Seen::NoMemory, Seen::NoMemory),
    }
}

/// Binds a new link, and reads twice.
fn bound_twice<D: Dialer>(alloc: Global, dialer: &mut D, to: &Origin) -> (Seen, Seen)
    requires closed { has_link (record { request = 1; nth = 1 }) (D.opened dialer.old) ≡ false }
    requires fresh { IsUndialed (record { request = 1; nth = 1 }) (D.dials dialer.old) }
{
    match FreeLink::dial(dialer, NAME, to) {
        DialEnd::Link(link) => {
            let (mut link, sent) = link.send_token(dialer, HEAD);
            let seen = read_twice(alloc, dialer, &mut link, sent);
            link.spend(dialer);
            seen
        }
        DialEnd::Failed { count } => (Seen::NotDialed(count), Seen::NotDialed(count)),
        DialEnd::NoMemory => (Seen::NoMemory, Seen::NoMemory),
    }
}

/// Who dials one link, whose peer sends this. The numbered call fails; 0 is none.
fn recorded(alloc: Global, stream: Bytes, failing: u32) -> Result<RecordedDialer, Fail>
    ensures opened { IfOk result (λ dialer. ⟦<RecordedDialer as Dialer>⟧.opened dialer ≡ []) }
    ensures dials { IfOk result (λ dialer. ⟦<RecordedDialer as Dialer>⟧.dials dialer ≡ Some []) }
{
    let mut streams = Items::new(alloc);
    streams.push(stream)?;
    let mut links = Links::new(alloc);
    links.push(streams)?;
    let calls = Calls::from_slice(alloc, &[failing])?;
    Ok(RecordedDialer::new(alloc, links, calls))
}

fn peer(alloc: Global) -> Result<Origin, Fail> {
    let host = Bytes::from_slice(alloc, b"intra.example")?;
    Ok(Origin { host, port: 80 })
}

/// Whether one exchange with a peer that sends this shows that.
fn shows(
    alloc: Global,
    stream: Bytes,
    failing: u32,
    method: Method,
    expected: Seen,
) -> Result<bool, Fail> {
    let mut dialer = recorded(alloc, stream, failing)?;
    let to = peer(alloc)?;
    Ok(exchange(alloc, &mut dialer, &to, method) == expected)
}

/// Whether two readings of a bound link show these.
fn shows_twice(
    alloc: Global,
    stream: Bytes,
    failing: u32,
    first: Seen,
    second: Seen,
) -> Result<bool, Fail> {
    let mut dialer = recorded(alloc, stream, failing)?;
    let to = peer(alloc)?;
    let seen = bound_twice(alloc, &mut dialer, &to);
    Ok(seen.0 == first && seen.1 == second)
}

/// A head of a reply, and a long body behind it.
fn long(alloc: Global, head: &[u8], tens: u32, behind: &[u8]) -> Result<Bytes, Fail> {
    let mut stream = Bytes::from_slice(alloc, head)?;
    for _ in 0..tens {
        stream.extend_from_slice(b"0123456789")?;
    }
    stream.extend_from_slice(behind)?;
    Ok(stream)
}

/// A challenge, and bytes behind it.
const CHALLENGE: &[u8] =
    b"HTTP/1.1 401 No\r\nWWW-Authenticate: Basic\r\nContent-Length: 0\r\n\r\nHTTP/1.1 200 OK";

const NO_BODY: &[u8] = b"HTTP/1.1 200 OK\r\nContent-Length: 9\r\n\r\n";

const SHORT: &[u8] = b"HTTP/1.1 200 OK\r\nContent-Length: 9\r\n\r\nopen";

/// What a peer sends, the call that fails, the method, and what is seen.
fn exchange_row(n: u32) -> (&'static [u8], u32, Method, Seen) {
    let challenged = Seen::Whole { code: 401, body: 0 };
    let opened = |body| Seen::Whole { code: 200, body };
    match n {
        0 => (CHALLENGE, 0, Method::Get, challenged),
        1 => (b"HTTP/1.1 200 OK\r\n\r\nopen", 0, Method::Get, opened(4)),
        2 => (NO_BODY, 0, Method::Head, opened(0)),
        3 => (SHORT, 0, Method::Get, Seen::Broken(WireFault::Cut)),
        4 => (b"", 0, Method::Get, Seen::Broken(WireFault::Cut)),
        5 => (CHALLENGE, 1, Method::Get, Seen::NotDialed(1)),
        6 => (CHALLENGE, 2, Method::Get, Seen::NotSent(1)),
        _ => (CHALLENGE, 3, Method::Get, Seen::NotRead(1)),
    }
}

/// The first row that shows something else.
fn wrong_exchange(alloc: Global) -> Result<Option<u32>, Fail> {
    for n in 0..8 {
        let (stream, failing, method, expected) = exchange_row(n);
        let stream = Bytes::from_slice(alloc, stream)?;
        if !shows(alloc, stream, failing, method, expected)? {
            return Ok(Some(n));
        }
    }
    Ok(None)
}

#[test]
fn free_links_show_what_their_peers_send(rt: HostRuntime) -> Result<(), Fail> {
    assert_eq!(rt; wrong_exchange(rt.alloc())?, None);
    Ok(())
}

const ONE: &[u8] = b"HTTP/1.1 401 No\r\nContent-Length: 2\r\n\r\nno";

const TWO: &[u8] = b"HTTP/1.1 401 No\r\nContent-Length: 2\r\n\r\nno\
HTTP/1.1 200 OK\r\nContent-Length: 4\r\n\r\nopen";

const CUT: &[u8] = b"HTTP/1.1 401 No\r\nContent-Length: 2\r\n\r\nnoHTTP/1.1 200 O";

const BAD: &[u8] = b"HTTP/1.1 401 No\r\nContent-Length: 2\r\n\r\nnoHTP\n\n";

/// What a peer sends on a bound link, the call that fails, and what is seen.
fn bound_row(n: u32) -> (&'static [u8], u32, Seen, Seen) {
    let challenged = Seen::Whole { code: 401, body: 2 };
    let cut = Seen::Broken(WireFault::Cut);
    match n {
        // both came in one read, so that the failing second one is not made
        0 => (TWO, 4, challenged, Seen::Whole { code: 200, body: 4 }),
        1 => (ONE, 0, challenged, Seen::Lost),
        2 => (ONE, 4, challenged, Seen::NotRead(1)),
        3 => (CUT, 0, challenged, cut),
        4 => (BAD, 0, challenged, Seen::Broken(WireFault::BadHead)),
        5 => (b"", 0, cut, cut),
        _ => (TWO, 2, Seen::NotSent(1), Seen::NotSent(1)),
    }
}

#[test]
fn bound_links_show_reply_by_reply(rt: HostRuntime) -> Result<(), Fail> {
    let alloc = rt.alloc();
    for n in 0..7 {
        let (stream, failing, first, second) = bound_row(n);
        let stream = Bytes::from_slice(alloc, stream)?;
        assert!(rt;
            shows_twice(alloc, stream, failing, first, second)?,
            "row {n}"
        );
    }
    Ok(())
}

#[test]
fn a_body_longer_than_the_window_is_read_piece_by_piece(rt: HostRuntime) -> Result<(), Fail> {
    let alloc = rt.alloc();
    let stream = long(
        alloc,
        b"HTTP/1.1 200 OK\r\nContent-Length: 20000\r\n\r\n",
        2000,
        b"",
    )?;
    let expected = Seen::Whole {
        code: 200,
        body: 20_000,
    };
    assert!(rt; shows(alloc, stream, 0, Method::Get, expected)?);
    Ok(())
}

#[test]
fn a_reply_is_cut_by_the_end_of_a_read(rt: HostRuntime) -> Result<(), Fail> {
    let alloc = rt.alloc();
    let stream = long(
        alloc,
        b"HTTP/1.1 401 No\r\nContent-Length: 8140\r\n\r\n",
        814,
        b"HTTP/1.1 200 OK\r\nContent-Length: 4\r\n\r\nopen",
    )?;
    let first = Seen::Whole {
        code: 401,
        body: 8140,
    };
    let second = Seen::Whole { code: 200, body: 4 };
    assert!(rt; shows_twice(alloc, stream, 0, first, second)?);
    Ok(())
}
