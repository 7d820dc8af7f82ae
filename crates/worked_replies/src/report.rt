//! What a report says of replies and of Digest terms: its replies are read from texts.

ghost use Rattle.std.specs.Prelude.{◌≡◌, ◌≤◌, length};
ghost use Rattle.auth_events.specs.Tables.{is_home};

use crate::cuts::read;
use auth_events::{Journal, Names, TermsName};
use auth_report::text_of;
use auth_runs::{Event, Outcome, Reply, Run, Trace, Traces};
use auth_text::{Bytes, Items, NoMemory};
use spaces::{
    Algorithm, Method, Origin, Origins, Partition, Qop, Requests, Roster, Scheme, Site, Space,
    Target, Terms,
};
use std::alloc::Global;
use std::process::Abort;
use std::test::Fail;
use wire_head::ReplyReader;

const EMPTY: &[u8] = b"authreport 1
seed 0000000000000000000000000000000000000000000000000000000000000000
end
";

const SERVER_CHALLENGE: &[u8] =
    b"HTTP/1.1 401 Unauthorized\r\nWWW-Authenticate: Basic realm=\"x\"\r\nAuthentication-Info: a=1\r\nwww-authenticate: Negotiate\r\nContent-Length: 0\r\n\r\n";

const PROXY_CHALLENGE: &[u8] =
    b"HTTP/1.0 407 No\r\nProxy-Authenticate: Basic\r\nProxy-Authentication-Info: a=1\r\n\r\nabc";

const ANSWER: &[u8] =
    b"HTTP/1.1 200 OK\r\nProxy-Authentication-Info: a=1\r\nContent-Length: 2\r\nAuthentication-Info: nextnonce=\"b\"\r\nWWW-Authenticate: Basic\r\nAuthentication-Info: qop=auth\r\nProxy-Authentication-Info:\r\n\r\nok";

const REPORT: &[u8] = b"authreport 1
seed 0000000000000000000000000000000000000000000000000000000000000000
space 1 main server a.example:80 digest d
terms 1 1 1 SHA-256 said auth n noopaque userhash
terms 2 1 1 SHA-256 said auth n opaque userhash
terms 3 1 1 SHA-256 said auth n opaque userhash userhash
t 1 reply 1 401 open 0 Basic%20realm=\"x\" Negotiate
t 1 reply 2 407 close 3 Basic
t 1 reply 3 200 open 2 info nextnonce=\"b\" info qop=auth proxyinfo a=1 proxyinfo -
t 1 outcome answered 200
end
";

/// The report of these names and traces.
fn report(alloc: Global, names: Names, traces: Traces) -> Result<Bytes, NoMemory>
    requires { length traces ≤ 2048 }
{
    let roster = Roster {
        requests: Requests::new(alloc),
        allowed: Origins::new(alloc),
    };
    let journal = Journal::new(alloc, 0)?;
    let run = Run::new([0; 32], roster, names, journal, traces);
    text_of(alloc, &run)
}

/// Whether the space is a Digest space with the terms' realm.
fn is_home(names: &Names, space: u32, terms: &Terms) -> bool
    ensures { result ≡ is_home names.now space terms.now }
{
    match names.space(space) {
        Some(named) => named.scheme() == Scheme::Digest && named.realm() == terms.realm.as_slice(),
        None => false,
    }
}

fn digest(alloc: Global) -> Result<Space, NoMemory> {
    let Ok(partition) = Partition::new(alloc, b"main") else {
        return Err(NoMemory);
    };
    let origin = Origin {
        host: Bytes::from_slice(alloc, b"a.example")?,
        port: 80,
    };
    let site = Site {
        partition,
        target: Target::Server,
        origin,
    };
    let realm = Bytes::from_slice(alloc, b"d")?;
    Ok(Space::new(site, Scheme::Digest, realm))
}

/// Names terms of space 1 with this opaque and this flag.
fn name_terms(
    rt: &impl Abort,
    alloc: Global,
    names: &mut Names,
    opaque: Option<Bytes>,
    userhash: bool,
) -> Result<(), NoMemory> {
    let terms = Terms {
        algorithm: Algorithm::Sha256,
        said: true,
        realm: Bytes::from_slice(alloc, b"d")?,
        nonce: Bytes::from_slice(alloc, b"n")?,
        opaque,
        qop: Qop::Auth,
        userhash,
    };
    let nonce = names.nonce_for(1, &terms);
    assert!(rt; names.terms_len() < 131072 && nonce <= 32768);
    assert!(rt; is_home(names, 1, &terms));
    assert!(rt; names.terms_number(1, &terms).is_none());
    names.push_terms(TermsName {
        space: 1,
        terms,
        nonce,
    })?;
    Ok(())
}

/// A Digest space, and terms whose opaque or flag is `userhash`.
fn named(rt: &impl Abort, alloc: Global) -> Result<Names, NoMemory> {
    let mut names = Names::new(alloc);
    let space = digest(alloc)?;
    assert!(rt; names.space_number(&space).is_none());
    names.push_space(space)?;
    name_terms(rt, alloc, &mut names, None, true)?;
    let opaque = Bytes::from_slice(alloc, b"userhash")?;
    name_terms(rt, alloc, &mut names, Some(opaque), false)?;
    let opaque = Bytes::from_slice(alloc, b"userhash")?;
    name_terms(rt, alloc, &mut names, Some(opaque), true)?;
    Ok(names)
}

fn reply(rt: &impl Abort, alloc: Global, text: &[u8]) -> Result<Reply, NoMemory> {
    match read::<ReplyReader>(alloc, Method::Get, text, 0, 8192)? {
        Ok((reply, _)) => Ok(reply),
        Err(_) => {
            assert!(rt; false, "{}", text.escape_ascii());
            Err(NoMemory)
        }
    }
}

/// The trace of these replies.
fn trace(first: Reply, second: Reply, third: Reply, alloc: Global) -> Result<Trace, NoMemory> {
    let mut events = Items::new(alloc);
    events.push(Event::Replied {
        link: 1,
        reply: first,
    })?;
    events.push(Event::Replied {
        link: 2,
        reply: second,
    })?;
    events.push(Event::Replied {
        link: 3,
        reply: third,
    })?;
    events.push(Event::Ended {
        outcome: Outcome::Answered(200),
    })?;
    Ok(Trace::new(events))
}

/// Challenges, infos and flags are told so.
fn values_are_told(rt: &impl Abort, alloc: Global) -> Result<(), NoMemory> {
    let first = reply(rt, alloc, SERVER_CHALLENGE)?;
    let second = reply(rt, alloc, PROXY_CHALLENGE)?;
    let third = reply(rt, alloc, ANSWER)?;
    let mut traces = Items::new(alloc);
    traces.push(trace(first, second, third, alloc)?)?;
    let names = named(rt, alloc)?;
    let text = report(alloc, names, traces)?;
    assert_eq!(rt; text.as_slice(), REPORT);
    Ok(())
}

#[test]
fn a_report_tells_values(rt: HostRuntime) -> Result<(), Fail> {
    values_are_told(&rt, rt.alloc())?;
    Ok(())
}

#[test]
fn a_report_tells_nothing_else(rt: HostRuntime) -> Result<(), Fail> {
    let alloc = rt.alloc();
    let text = report(alloc, Names::new(alloc), Items::new(alloc))?;
    assert_eq!(rt; text.as_slice(), EMPTY);
    Ok(())
}
