//! One request over a peer that answers at once, and over one that asks a user who gives nothing.

ghost use Rattle.std.specs.Prelude.{◌≡◌, IfOk, length};

use crate::{SteadyPeer, code_of, fetch};
use auth_controller::Gear;
use auth_text::{Bytes, NoMemory};
use link_trait::{Answers, NoTokens, ScriptPrompter};
use spaces::{Method, Origins, Partition, Request, Requests, Roster, place_of};
use std::alloc::Global;
use std::test::Fail;

const FINE: &[u8] = b"HTTP/1.1 200 OK\r\nContent-Length: 2\r\n\r\nok";

const CLOSED: &[u8] =
    b"HTTP/1.1 401 Unauthorized\r\nWWW-Authenticate: Basic realm=\"x\"\r\nContent-Length: 0\r\n\r\n";

fn request(alloc: Global) -> Result<Request, NoMemory> {
    let Ok(partition) = Partition::new(alloc, b"main") else {
        return Err(NoMemory);
    };
    let Ok(place) = place_of(alloc, b"http://a.example/") else {
        return Err(NoMemory);
    };
    Ok(Request {
        method: Method::Get,
        partition,
        place,
        proxy: None,
    })
}

fn roster(alloc: Global) -> Result<Roster, NoMemory>
    ensures { IfOk result (λ roster. length roster.requests ≡ 1) }
{
    let mut requests = Requests::new(alloc);
    requests.push(request(alloc)?)?;
    Ok(Roster {
        requests,
        allowed: Origins::new(alloc),
    })
}

/// How the request ends where the peer says this on every link, and the user cancels each prompt.
fn ends(alloc: Global, reply: &[u8]) -> Result<Option<u16>, NoMemory> {
    let roster = roster(alloc)?;
    let dialer = SteadyPeer::new(Bytes::from_slice(alloc, reply)?);
    let tokens = NoTokens;
    let mut gear = Gear { dialer, tokens };
    let mut prompter = ScriptPrompter::new(alloc, &Answers::new(alloc))?;
    let trace = fetch(alloc, &roster, &mut gear, &mut prompter, [0; 32])?;
    Ok(code_of(&trace))
}

#[test]
fn a_request_is_answered(rt: HostRuntime) -> Result<(), Fail> {
    let fine = ends(rt.alloc(), FINE).map_err(|_| "memory")?;
    assert_eq!(rt; fine, Some(200));
    let closed = ends(rt.alloc(), CLOSED).map_err(|_| "memory")?;
    assert_eq!(rt; closed, None);
    Ok(())
}
