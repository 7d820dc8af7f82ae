//! The requests of a day: of 2,048 numbers each has its host, its directory and its partition by
//! what is left of it when it is divided by five, seven and three. Half go over a proxy.

use auth_text::{Bytes, NoMemory};
use spaces::{
    Method, Origins, Partition, Place, Request, Requests, Roster, Scheme, Site, Space, Target,
    place_of,
};
use std::alloc::Global;

/// How many requests there are.
pub const REQUESTS: u32 = 2048;

const PROXY: &[u8] = b"http://proxy.example:3128/";

/// Whether the request goes over the proxy.
pub fn is_proxied(request: u32) -> bool {
    request % 2 == 0
}

fn place(alloc: Global, url: &[u8]) -> Result<Place, NoMemory> {
    match place_of(alloc, url) {
        Ok(place) => Ok(place),
        Err(_) => Err(NoMemory),
    }
}

fn host_place(alloc: Global, host: u8, dir: u8) -> Result<Place, NoMemory> {
    let mut url = *b"http://h0.example/d0/f";
    url[8] = b'0' + host % 5;
    url[19] = b'0' + dir % 7;
    place(alloc, &url)
}

fn partition(alloc: Global, side: u8) -> Result<Partition, NoMemory> {
    match Partition::new(alloc, &[b'p', b'0' + side % 3]) {
        Ok(partition) => Ok(partition),
        Err(_) => Err(NoMemory),
    }
}

fn request(alloc: Global, number: u32) -> Result<Request, NoMemory> {
    let partition = partition(alloc, (number % 3) as u8)?;
    let place = host_place(alloc, (number % 5) as u8, (number % 7) as u8)?;
    let mut proxy = None;
    if is_proxied(number) {
        proxy = Some(self::place(alloc, PROXY)?.origin);
    }
    Ok(Request {
        method: Method::Get,
        partition,
        place,
        proxy,
    })
}

/// The requests of the numbers from 1 on. The default identity is allowed for the host 4.
pub fn roster(alloc: Global) -> Result<Roster, NoMemory> {
    let mut requests = Requests::new(alloc);
    for number in 1..REQUESTS + 1 {
        requests.push(request(alloc, number)?)?;
    }
    let mut allowed = Origins::new(alloc);
    allowed.push(host_place(alloc, 4, 0)?.origin)?;
    Ok(Roster { requests, allowed })
}

/// The Basic space of the proxy, where the host is 0, and else that of the host: 1 is Basic, 2 and
/// 3 are Digest, 4 is Negotiate.
pub fn space(alloc: Global, side: u8, host: u8) -> Result<Space, NoMemory> {
    let partition = partition(alloc, side)?;
    let target = if host == 0 {
        Target::Proxy
    } else {
        Target::Server
    };
    let place = if host == 0 {
        place(alloc, PROXY)?
    } else {
        host_place(alloc, host, 0)?
    };
    let site = Site {
        partition,
        target,
        origin: place.origin,
    };
    let realm = Bytes::from_slice(alloc, b"r")?;
    Ok(match host {
        0 | 1 => Space::new(site, Scheme::Basic, realm),
        2 | 3 => Space::new(site, Scheme::Digest, realm),
        _ => Space::new(site, Scheme::Negotiate, Bytes::new(alloc)),
    })
}
