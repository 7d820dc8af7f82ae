//! Rosters and their sites, which spaces and terms are the same, and copies.

use auth_text::{Bytes, Identity};
use spaces::*;
use std::alloc::Global;
use std::process::Abort;
use std::test::Fail;

fn request(alloc: Global, url: &[u8], proxy: Option<&[u8]>) -> Result<Request, Fail> {
    let proxy = match proxy {
        Some(proxy) => Some(place_of(alloc, proxy)?.origin),
        None => None,
    };
    Ok(Request {
        method: Method::Get,
        partition: Partition::new(alloc, b"main")?,
        place: place_of(alloc, url)?,
        proxy,
    })
}

/// A direct request, and one that goes through a proxy.
fn two_requests(alloc: Global) -> Result<Roster, Fail> {
    let mut requests = Requests::new(alloc);
    requests.push(request(alloc, b"http://u:p@h/x?q", None)?)?;
    requests.push(request(alloc, b"http://h/y", Some(b"http://proxy:3128/"))?)?;
    Ok(Roster {
        requests,
        allowed: Origins::new(alloc),
    })
}

/// Whether the roster has the requests 1 and 2 and no other.
fn has_two(roster: &Roster) -> bool {
    roster.requests.len() == 2
        && roster.requests.get(0).is_none()
        && roster.requests.get(3).is_none()
}

/// Whether the request of that number goes over a proxy.
fn is_over_proxy(roster: &Roster, number: u32) -> bool {
    match roster.requests.get(number) {
        Some(request) => request.proxy.is_some(),
        None => false,
    }
}

#[test]
fn requests_are_numbered(rt: HostRuntime) -> Result<(), Fail> {
    let mut roster = two_requests(rt.alloc())?;
    assert!(rt; has_two(&roster));
    assert!(rt; is_over_proxy(&roster, 2));
    assert!(rt; roster.requests.pop().is_some());
    assert_eq!(rt; roster.requests.as_slice().len(), 1);
    Ok(())
}

/// Whether the site is in the partition `main`, and of that origin.
fn is_site(site: &Site, host: &[u8], port: u16) -> bool {
    site.partition.name() == b"main".as_slice()
        && site.origin.host.as_slice() == host
        && site.origin.port == port
}

/// The site of the second request's proxy.
fn proxy_site(rt: &impl Abort, alloc: Global) -> Result<Site, Fail> {
    let roster = two_requests(alloc)?;
    assert!(rt; roster.requests.len() == 2);
    let Some(proxied) = roster.requests.get(2) else {
        return Err("no second request".into());
    };
    assert!(rt; proxied.proxy.is_some());
    Ok(roster.site(alloc, 2, Target::Proxy)?)
}

/// The site of the second request's server.
fn server_site(rt: &impl Abort, alloc: Global) -> Result<Site, Fail> {
    let roster = two_requests(alloc)?;
    assert!(rt; roster.requests.len() == 2);
    Ok(roster.site(alloc, 2, Target::Server)?)
}

#[test]
fn requests_have_sites(rt: HostRuntime) -> Result<(), Fail> {
    let proxy = proxy_site(&rt, rt.alloc())?;
    assert!(rt; is_site(&proxy, b"proxy", 3128));
    let server = server_site(&rt, rt.alloc())?;
    assert!(rt; is_site(&server, b"h", 80));
    assert!(rt; !same_site(&server, &proxy));
    Ok(())
}

#[test]
fn an_allowed_origin_is_taken_back(rt: HostRuntime) -> Result<(), Fail> {
    let mut allowed = Origins::new(rt.alloc());
    allowed.push(place_of(rt.alloc(), b"http://h/y")?.origin)?;
    assert!(rt; allowed.len() == 1 && allowed.get(1).is_none());
    let Some(taken) = allowed.pop() else {
        return Err("no origin".into());
    };
    assert_eq!(rt; taken.port, 80);
    Ok(())
}

fn space(alloc: Global, partition: &[u8], url: &[u8]) -> Result<Space, Fail> {
    let site = Site {
        partition: Partition::new(alloc, partition)?,
        target: Target::Server,
        origin: place_of(alloc, url)?.origin,
    };
    let realm = Bytes::from_slice(alloc, b"r")?;
    Ok(Space::new(site, Scheme::Basic, realm))
}

/// Three spaces that differ.
fn space_row(alloc: Global, n: u32) -> Result<Space, Fail> {
    match n {
        0 => space(alloc, b"a", b"http://h/"),
        1 => space(alloc, b"b", b"http://h/"),
        _ => space(alloc, b"a", b"http://h:81/"),
    }
}

#[test]
fn same_spaces(rt: HostRuntime) -> Result<(), Fail> {
    for i in 0..3 {
        for k in 0..3 {
            let a = space_row(rt.alloc(), i)?;
            let b = space_row(rt.alloc(), k)?;
            assert!(rt; same_space(&a, &b) == (i == k), "{i} and {k}");
        }
    }
    Ok(())
}

fn terms(alloc: Global, nonce: &[u8], userhash: bool) -> Result<Terms, Fail> {
    Ok(Terms {
        algorithm: Algorithm::Sha256,
        said: true,
        realm: Bytes::from_slice(alloc, b"r")?,
        nonce: Bytes::from_slice(alloc, nonce)?,
        opaque: None,
        qop: Qop::Auth,
        userhash,
    })
}

/// Three terms that differ.
fn terms_row(alloc: Global, n: u32) -> Result<Terms, Fail> {
    match n {
        0 => terms(alloc, b"n", false),
        1 => terms(alloc, b"m", false),
        _ => terms(alloc, b"n", true),
    }
}

#[test]
fn same_digest_terms(rt: HostRuntime) -> Result<(), Fail> {
    for i in 0..3 {
        for k in 0..3 {
            let a = terms_row(rt.alloc(), i)?;
            let b = terms_row(rt.alloc(), k)?;
            assert!(rt; same_terms(&a, &b) == (i == k), "{i} and {k}");
        }
    }
    Ok(())
}

/// Whether a copy of a space is equal to it.
fn space_is_copied(alloc: Global) -> Result<bool, Fail> {
    let space = space(alloc, b"a", b"http://h:81/")?;
    let copy = copy_space(&space)?;
    Ok(copy == space)
}

fn site_is_copied(alloc: Global) -> Result<bool, Fail> {
    let space = space(alloc, b"a", b"http://h:81/")?;
    let copy = copy_site(space.site())?;
    Ok(copy == *space.site())
}

fn terms_are_copied(alloc: Global) -> Result<bool, Fail> {
    let terms = terms(alloc, b"n", true)?;
    let copy = copy_terms(&terms)?;
    Ok(copy == terms)
}

fn login_is_copied(alloc: Global) -> Result<bool, Fail> {
    let login = Identity::new(alloc, b"u", b"p")?;
    let copy = copy_identity(&login)?;
    Ok(copy == login)
}

#[test]
fn copies_are_equal(rt: HostRuntime) -> Result<(), Fail> {
    assert!(rt; space_is_copied(rt.alloc())?);
    assert!(rt; site_is_copied(rt.alloc())?);
    assert!(rt; terms_are_copied(rt.alloc())?);
    assert!(rt; login_is_copied(rt.alloc())?);
    Ok(())
}

/// Whether copies of a request and its origin are equal to these.
fn request_is_copied(request: &Request) -> Result<bool, Fail> {
    let origin = copy_origin(&request.place.origin)?;
    let same = origin == request.place.origin;
    let copy = copy_request(request)?;
    Ok(same && copy == *request)
}

/// Whether the request of the number is in both rosters the same.
fn is_in_both(roster: &Roster, copy: &Roster, number: u32) -> Result<bool, Fail> {
    match (roster.requests.get(number), copy.requests.get(number)) {
        (Some(request), Some(copied)) => Ok(request == copied && request_is_copied(request)?),
        _ => Ok(false),
    }
}

/// Whether a copy of the roster has the same requests.
fn roster_is_copied(alloc: Global) -> Result<bool, Fail> {
    let roster = two_requests(alloc)?;
    let copy = copy_roster(alloc, &roster)?;
    Ok(copy.requests.len() == 2 && is_in_both(&roster, &copy, 1)? && is_in_both(&roster, &copy, 2)?)
}

#[test]
fn rosters_are_copied(rt: HostRuntime) -> Result<(), Fail> {
    assert!(rt; roster_is_copied(rt.alloc())?);
    Ok(())
}

/// A port, and what is written of it behind a host.
fn port_row(n: u32) -> (u16, &'static [u8]) {
    match n {
        0 => (80, b"h"),
        1 => (8080, b"h:8080"),
        _ => (0, b"h:0"),
    }
}

/// What is written of a host `h` and the port.
fn with_port(alloc: Global, port: u16) -> Result<Bytes, Fail> {
    let mut text = Bytes::from_slice(alloc, b"h")?;
    push_port(&mut text, port)?;
    Ok(text)
}

#[test]
fn ports_and_methods(rt: HostRuntime) -> Result<(), Fail> {
    for n in 0..3 {
        let (port, written) = port_row(n);
        let text = with_port(rt.alloc(), port)?;
        assert!(rt; text.as_slice() == written, "row {n}");
    }
    assert!(rt; Method::Get.name() == b"GET".as_slice());
    assert!(rt; Method::Head.name() == b"HEAD".as_slice());
    Ok(())
}
