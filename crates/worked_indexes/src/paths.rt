//! The directory of one request, as other requests of its site find it.

use path_lookup::PathIndex;
use spaces::{Method, Origins, Partition, Request, Requests, Roster, Target, place_of};
use std::alloc::Global;
use std::process::Abort;
use std::test::Fail;

/// A roster of one request of the URL.
fn roster_of(alloc: Global, url: &[u8]) -> Result<Roster, Fail> {
    let mut requests = Requests::new(alloc);
    requests.push(Request {
        method: Method::Get,
        partition: Partition::new(alloc, b"main")?,
        place: place_of(alloc, url)?,
        proxy: None,
    })?;
    Ok(Roster {
        requests,
        allowed: Origins::new(alloc),
    })
}

#[test]
fn a_directory_covers_what_lies_below_it(rt: HostRuntime) -> Result<(), Fail> {
    for (target, path, site, found) in [
        (Target::Server, b"/docs/b/c".as_slice(), 4, 1),
        (Target::Server, b"/docs/", 4, 1),
        (Target::Server, b"/docsx", 4, 0),
        (Target::Server, b"/", 4, 0),
        (Target::Server, b"/docs/b/c", 5, 0),
        (Target::Proxy, b"/", 4, 1),
    ] {
        let roster = roster_of(rt.alloc(), b"http://a/docs/a")?;
        let Some(_) = roster.requests.get(1) else {
            return Err("no request".into());
        };
        let mut index = PathIndex::new(rt.alloc(), 32)?;
        index.add(&roster, 1, 4, 1, target);
        assert_eq!(rt; index.deepest(&roster, site, path), found);
        index.drop_space(1);
        assert_eq!(rt; index.deepest(&roster, site, path), 0);
    }
    Ok(())
}
