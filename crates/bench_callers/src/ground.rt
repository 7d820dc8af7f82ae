//! Requests of one URL, and the space of its server that they are asked in.

ghost use Rattle.std.specs.Prelude.{◌≡◌, IfOk, length};

use auth_text::{Bytes, NoMemory};
use spaces::{
    Method, Origins, Partition, Request, Requests, Roster, Scheme, Site, Space, Target, place_of,
};
use std::alloc::Global;

fn request(alloc: Global) -> Result<Request, NoMemory> {
    let Ok(partition) = Partition::new(alloc, b"main") else {
        return Err(NoMemory);
    };
    let Ok(place) = place_of(alloc, b"http://a.example/") else {
        return Err(NoMemory);
    };
    Ok(Request {
        method: Method::Get,
        partition,
        place,
        proxy: None,
    })
}

/// So many requests of one URL.
pub(crate) fn roster_of(alloc: Global, count: u32) -> Result<Roster, NoMemory>
    ensures { IfOk result (λ roster. length roster.requests ≡ count) }
{
    let mut requests = Requests::new(alloc);
    for _made in 0..count {
        requests.push(request(alloc)?)?;
    }
    Ok(Roster {
        requests,
        allowed: Origins::new(alloc),
    })
}

/// The Basic space of their server.
pub(crate) fn basic(alloc: Global) -> Result<Space, NoMemory> {
    let asked = request(alloc)?;
    let site = Site {
        partition: asked.partition.clone()?,
        target: Target::Server,
        origin: asked.place.origin.clone()?,
    };
    let realm = Bytes::from_slice(alloc, b"x")?;
    Ok(Space::new(site, Scheme::Basic, realm))
}
