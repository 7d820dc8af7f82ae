//! What URLs are read as (by the URL Standard), the directories of paths, and names of partitions.

use auth_text::{Bytes, Identity, NoMemory};
use spaces::{Partition, PartitionFault, Place, PlaceFault, covers, dir_of, place_of, push_port};
use std::alloc::Global;
use std::test::Fail;

/// A text with its URL, its host and port (but 80), and the request target to the server and to a
/// proxy.
fn url_row(n: u32) -> (&'static str, &'static str) {
    match n {
        0 => ("http://h", "http://h/|h|/|http://h/"),
        1 => (" http://h/\n", "http://h/|h|/|http://h/"),
        2 => ("http:h", "http://h/|h|/|http://h/"),
        3 => ("http:\\\\h", "http://h/|h|/|http://h/"),
        4 => ("http:///h", "http://h/|h|/|http://h/"),
        5 => ("http://h:80/a", "http://h/a|h|/a|http://h/a"),
        6 => (
            "HTTP://EXAMPLE:81/a/../b?q#f",
            "http://example:81/b?q#f|example:81|/b?q|http://example:81/b?q",
        ),
        7 => ("http://h/p?", "http://h/p?|h|/p?|http://h/p?"),
        8 => ("http://h/a b", "http://h/a%20b|h|/a%20b|http://h/a%20b"),
        9 => (
            "http://[::1]:8080/x",
            "http://[::1]:8080/x|[::1]:8080|/x|http://[::1]:8080/x",
        ),
        10 => (
            "http://bücher.example/",
            "http://xn--bcher-kva.example/|xn--bcher-kva.example|/|http://xn--bcher-kva.example/",
        ),
        _ => ("http://u:p@h/x", "http://u:p@h/x|h|/x|http://h/x"),
    }
}

fn push_part(text: &mut Bytes, part: &[u8]) -> Result<(), NoMemory> {
    text.extend_from_slice(b"|")?;
    text.extend_from_slice(part)
}

fn written(alloc: Global, place: &Place) -> Result<Bytes, NoMemory> {
    let mut text = Bytes::from_slice(alloc, place.text.as_slice())?;
    push_part(&mut text, place.origin.host.as_slice())?;
    push_port(&mut text, place.origin.port)?;
    let target = place.request_target(alloc, false)?;
    push_part(&mut text, target.as_slice())?;
    let target = place.request_target(alloc, true)?;
    push_part(&mut text, target.as_slice())?;
    Ok(text)
}

/// Whether the text is read as the place that is written so.
fn is_read_as(alloc: Global, text: &str, wanted: &str) -> Result<bool, Fail> {
    let place = place_of(alloc, text.as_bytes())?;
    let written = written(alloc, &place)?;
    Ok(written.as_slice() == wanted.as_bytes())
}

#[test]
fn urls(rt: HostRuntime) -> Result<(), Fail> {
    for n in 0..12 {
        let (text, wanted) = url_row(n);
        assert!(rt; is_read_as(rt.alloc(), text, wanted)?, "row {n}");
    }
    Ok(())
}

/// A text that is no URL of a server, and why.
fn refused_row(n: u32) -> (&'static [u8], PlaceFault) {
    match n {
        0 => (b"", PlaceFault::BadUrl),
        1 => (b"/p", PlaceFault::BadUrl),
        2 => (b"http://", PlaceFault::BadUrl),
        3 => (b"http://h:65536/", PlaceFault::BadUrl),
        4 => (b"http://h/\xff", PlaceFault::BadUrl),
        5 => (b"https://[", PlaceFault::BadUrl),
        6 => (b"https://h/", PlaceFault::NotHttp),
        _ => (b"ftp://h/", PlaceFault::NotHttp),
    }
}

#[test]
fn refused(rt: HostRuntime) {
    for n in 0..8 {
        let (text, fault) = refused_row(n);
        let found = place_of(rt.alloc(), text).err();
        assert!(rt; found == Some(fault), "row {n}");
    }
}

/// A URL, and the user and the password of its identity.
fn identity_row(n: u32) -> (&'static str, Option<(&'static str, &'static str)>) {
    match n {
        0 => ("http://h/", None),
        1 => ("http://@h/", None),
        2 => ("http://:@h/", None),
        3 => ("http://u@h/", Some(("u", ""))),
        4 => ("http://:p@h/", Some(("", "p"))),
        5 => ("http://u:p%40%3A@h/", Some(("u", "p@:"))),
        6 => ("http://u%3Av:p@h/", None),
        _ => ("http://u%0A:p@h/", None),
    }
}

fn is_identity(found: Option<&Identity>, wanted: Option<(&str, &str)>) -> bool {
    match (found, wanted) {
        (None, None) => true,
        (Some(found), Some((user, password))) => {
            found.user() == user.as_bytes() && found.password() == password.as_bytes()
        }
        _ => false,
    }
}

#[test]
fn identities(rt: HostRuntime) -> Result<(), Fail> {
    for n in 0..8 {
        let (text, wanted) = identity_row(n);
        let place = place_of(rt.alloc(), text.as_bytes())?;
        assert!(rt; is_identity(place.identity.as_ref(), wanted), "row {n}");
    }
    Ok(())
}

fn shown(alloc: Global, text: &[u8]) -> Result<String, Fail> {
    let place: Place = place_of(alloc, text)?;
    let shown = format!(in alloc; "{place:?}")?;
    Ok(shown)
}

/// Places that differ in their passwords alone have one debug text.
#[test]
fn passwords_are_not_shown(rt: HostRuntime) -> Result<(), Fail> {
    let one = shown(rt.alloc(), b"http://u:one@h/x")?;
    let other = shown(rt.alloc(), b"http://u:other@h/x")?;
    assert_eq!(rt; one.as_str(), other.as_str());
    let user = shown(rt.alloc(), b"http://v:one@h/x")?;
    assert!(rt; one.as_str() != user.as_str());
    Ok(())
}

/// A path, and its directory.
fn directory_row(n: u32) -> (&'static str, &'static str) {
    match n {
        0 => ("/docs/a", "/docs/"),
        1 => ("/docs", "/"),
        2 => ("/docs/", "/docs/"),
        _ => ("", ""),
    }
}

/// A directory, a path, and whether it covers it.
fn covered_row(n: u32) -> (&'static str, &'static str, bool) {
    match n {
        0 => ("/docs/", "/docs/b/c", true),
        1 => ("/docs/", "/docsx", false),
        2 => ("/docs/", "/docs", false),
        _ => ("/", "/x", true),
    }
}

#[test]
fn paths(rt: HostRuntime) {
    for n in 0..4 {
        let (path, dir) = directory_row(n);
        assert!(rt; dir_of(path.as_bytes()) == dir.as_bytes(), "row {n}");
    }
    for n in 0..4 {
        let (dir, path, covered) = covered_row(n);
        assert!(rt;
            covers(dir.as_bytes(), path.as_bytes()) == covered,
            "row {n}"
        );
    }
}

/// The longest name, and one letter more.
const LONGEST: &[u8] = &[b'a'; 64];

const TOO_LONG: &[u8] = &[b'a'; 65];

/// A name, and whether a partition may have it.
fn partition_row(n: u32) -> (&'static [u8], bool) {
    match n {
        0 => (b"main", true),
        1 => (b"-", true),
        2 => (b"a.b_c-9", true),
        3 => (LONGEST, true),
        4 => (TOO_LONG, false),
        5 => (b"", false),
        6 => (b"Main", false),
        _ => (b"a b", false),
    }
}

fn named(alloc: Global, name: &[u8]) -> bool {
    match Partition::new(alloc, name) {
        Ok(partition) => partition.name() == name,
        Err(fault) => fault != PartitionFault::BadName,
    }
}

#[test]
fn partitions(rt: HostRuntime) {
    for n in 0..8 {
        let (name, right) = partition_row(n);
        assert!(rt; named(rt.alloc(), name) == right, "row {n}");
    }
}
