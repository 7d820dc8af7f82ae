//! Copies of what a request, a link or a book keeps of its own: each is equal to what was copied,
//! or there was no memory.

ghost use Rattle.std.specs.Prelude.{◌≡◌, IfOk};

use crate::place::{Origin, Place};
use crate::roster::{Origins, Request, Requests, Roster};
use crate::site::Site;
use crate::space::Space;
use crate::terms::Terms;
use auth_text::{Bytes, Identity, NoMemory};
use std::alloc::Global;

fn copy_query(query: &Option<Bytes>) -> Result<Option<Bytes>, NoMemory>
    ensures { IfOk result (λ copy. copy ≡ query.now) }
{
    match query {
        Some(query) => {
            let copy = query.clone()?;
            Ok(Some(copy))
        }
        None => Ok(None),
    }
}

fn copy_login(identity: &Option<Identity>) -> Result<Option<Identity>, NoMemory>
    ensures { IfOk result (λ copy. copy ≡ identity.now) }
{
    match identity {
        Some(identity) => Ok(Some(copy_identity(identity)?)),
        None => Ok(None),
    }
}

fn copy_proxy(proxy: &Option<Origin>) -> Result<Option<Origin>, NoMemory>
    ensures { IfOk result (λ copy. copy ≡ proxy.now) }
{
    match proxy {
        Some(proxy) => Ok(Some(copy_origin(proxy)?)),
        None => Ok(None),
    }
}

fn copy_place(place: &Place) -> Result<Place, NoMemory>
    ensures { IfOk result (λ copy. copy ≡ place.now) }
{
    let text = place.text.clone()?;
    let origin = copy_origin(&place.origin)?;
    let path = place.path.clone()?;
    let query = copy_query(&place.query)?;
    let identity = copy_login(&place.identity)?;
    Ok(Place {
        text,
        origin,
        path,
        query,
        identity,
    })
}

/// A copy of a request, its place and its proxy.
pub fn copy_request(request: &Request) -> Result<Request, NoMemory>
    ensures { IfOk result (λ copy. copy ≡ request.now) }
{
    let partition = request.partition.clone()?;
    let place = copy_place(&request.place)?;
    let proxy = copy_proxy(&request.proxy)?;
    Ok(Request {
        method: request.method,
        partition,
        place,
        proxy,
    })
}

/// A copy of an origin.
pub fn copy_origin(origin: &Origin) -> Result<Origin, NoMemory>
    ensures { IfOk result (λ copy. copy ≡ origin.now) }
{
    let copy = origin.clone()?;
    Ok(copy)
}

fn copy_requests(alloc: Global, requests: &Requests) -> Result<Requests, NoMemory>
    ensures { IfOk result (λ copy. copy ≡ requests.now) }
{
    let mut copy = Requests::new(alloc);
    for request in requests.as_slice() {
        copy.push(copy_request(request)?)?;
    }
    Ok(copy)
}

fn copy_origins(alloc: Global, origins: &Origins) -> Result<Origins, NoMemory>
    ensures { IfOk result (λ copy. copy ≡ origins.now) }
{
    let mut copy = Origins::new(alloc);
    for origin in origins.as_slice() {
        copy.push(copy_origin(origin)?)?;
    }
    Ok(copy)
}

/// A copy of the requests and of the origins with the default identity.
pub fn copy_roster(alloc: Global, roster: &Roster) -> Result<Roster, NoMemory>
    ensures { IfOk result (λ copy. copy ≡ roster.now) }
{
    let requests = copy_requests(alloc, &roster.requests)?;
    let allowed = copy_origins(alloc, &roster.allowed)?;
    Ok(Roster { requests, allowed })
}

/// A copy of a protection space.
pub fn copy_space(space: &Space) -> Result<Space, NoMemory>
    ensures { IfOk result (λ copy. copy ≡ space.now) }
{
    let copy = space.clone()?;
    Ok(copy)
}

/// A copy of Digest terms.
pub fn copy_terms(terms: &Terms) -> Result<Terms, NoMemory>
    ensures { IfOk result (λ copy. copy ≡ terms.now) }
{
    let copy = terms.clone()?;
    Ok(copy)
}

/// A copy of a user and a password.
pub fn copy_identity(identity: &Identity) -> Result<Identity, NoMemory>
    ensures { IfOk result (λ copy. copy ≡ identity.now) }
{
    let copy = identity.clone()?;
    Ok(copy)
}

/// A copy of a site.
pub fn copy_site(site: &Site) -> Result<Site, NoMemory>
    ensures { IfOk result (λ copy. copy ≡ site.now) }
{
    let copy = site.clone()?;
    Ok(copy)
}
