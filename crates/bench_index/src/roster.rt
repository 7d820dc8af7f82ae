//! The requests: each two that follow each other have a host of their own.

use auth_text::{Bytes, NoMemory};
use spaces::{
    Method, Origins, Partition, Place, Request, Requests, Roster, Scheme, Site, Space, Target,
    place_of,
};
use std::alloc::Global;

/// How many pairs of requests there are.
pub const PAIRS: u32 = 1024;

/// The number's last digit.
fn digit(number: u32) -> u8 {
    b'0' + (number % 10) as u8
}

/// The place that the requests of a pair ask for.
fn place(alloc: Global, pair: u32) -> Result<Place, NoMemory> {
    let mut url = *b"http://h0000/d/";
    url[8] = digit(pair / 1000);
    url[9] = digit(pair / 100);
    url[10] = digit(pair / 10);
    url[11] = digit(pair);
    match place_of(alloc, &url) {
        Ok(place) => Ok(place),
        Err(_) => Err(NoMemory),
    }
}

fn partition(alloc: Global) -> Result<Partition, NoMemory> {
    match Partition::new(alloc, b"main") {
        Ok(partition) => Ok(partition),
        Err(_) => Err(NoMemory),
    }
}

fn request(alloc: Global, pair: u32) -> Result<Request, NoMemory> {
    Ok(Request {
        method: Method::Get,
        partition: partition(alloc)?,
        place: place(alloc, pair)?,
        proxy: None,
    })
}

/// Two requests of each pair.
pub fn roster(alloc: Global) -> Result<Roster, NoMemory> {
    let mut requests = Requests::new(alloc);
    for pair in 0..PAIRS {
        requests.push(request(alloc, pair)?)?;
        requests.push(request(alloc, pair)?)?;
    }
    Ok(Roster {
        requests,
        allowed: Origins::new(alloc),
    })
}

/// The Digest space of a pair's host.
pub fn space(alloc: Global, pair: u32) -> Result<Space, NoMemory> {
    let site = Site {
        partition: partition(alloc)?,
        target: Target::Server,
        origin: place(alloc, pair)?.origin,
    };
    let realm = Bytes::from_slice(alloc, b"r")?;
    Ok(Space::new(site, Scheme::Digest, realm))
}
