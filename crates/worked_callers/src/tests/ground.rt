//! What the histories stand on: requests of one host, and what their books name.

ghost use Rattle.std.specs.Prelude.{◌≡◌, IfOk, length};

use auth_text::{Bytes, Identity, NoMemory};
use spaces::{
    Algorithm, Method, Origins, Partition, Qop, Request, Requests, Roster, Scheme, Site, Space,
    Target, Terms, place_of,
};
use std::alloc::Global;

fn request(alloc: Global) -> Result<Request, NoMemory> {
    let Ok(partition) = Partition::new(alloc, b"main") else {
        return Err(NoMemory);
    };
    let Ok(place) = place_of(alloc, b"http://a.example/") else {
        return Err(NoMemory);
    };
    Ok(Request {
        method: Method::Get,
        partition,
        place,
        proxy: None,
    })
}

/// Three requests of one URL.
pub(crate) fn roster_of_three(alloc: Global) -> Result<Roster, NoMemory>
    ensures { IfOk result (λ roster. length roster.requests ≡ 3) }
{
    let mut requests = Requests::new(alloc);
    requests.push(request(alloc)?)?;
    requests.push(request(alloc)?)?;
    requests.push(request(alloc)?)?;
    Ok(Roster {
        requests,
        allowed: Origins::new(alloc),
    })
}

/// Four requests of one URL.
pub(crate) fn roster_of_four(alloc: Global) -> Result<Roster, NoMemory>
    ensures { IfOk result (λ roster. length roster.requests ≡ 4) }
{
    let mut roster = roster_of_three(alloc)?;
    roster.requests.push(request(alloc)?)?;
    Ok(roster)
}

fn server(alloc: Global) -> Result<Site, NoMemory> {
    let asked = request(alloc)?;
    Ok(Site {
        partition: asked.partition.clone()?,
        target: Target::Server,
        origin: asked.place.origin.clone()?,
    })
}

/// The Basic space of their server.
pub(crate) fn basic(alloc: Global) -> Result<Space, NoMemory> {
    let site = server(alloc)?;
    let realm = Bytes::from_slice(alloc, b"x")?;
    Ok(Space::new(site, Scheme::Basic, realm))
}

/// A Digest space of their server.
pub(crate) fn digest(alloc: Global) -> Result<Space, NoMemory> {
    let site = server(alloc)?;
    let realm = Bytes::from_slice(alloc, b"d")?;
    Ok(Space::new(site, Scheme::Digest, realm))
}

/// Terms of that Digest space.
pub(crate) fn terms(alloc: Global) -> Result<Terms, NoMemory> {
    let realm = Bytes::from_slice(alloc, b"d")?;
    let nonce = Bytes::from_slice(alloc, b"n")?;
    Ok(Terms {
        algorithm: Algorithm::Sha256,
        said: true,
        realm,
        nonce,
        opaque: None,
        qop: Qop::Auth,
        userhash: false,
    })
}

/// An identity that a prompt is answered with.
pub(crate) fn identity(alloc: Global) -> Result<Identity, NoMemory> {
    match Identity::new(alloc, b"u", b"p") {
        Ok(identity) => Ok(identity),
        Err(_) => Err(NoMemory),
    }
}
