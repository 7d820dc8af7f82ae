//! Sessions, right and wrong, with the line at fault of each wrong one.

use crate::sessions::Found::{BadLine, ManyWorkers, Right};
use auth_text::Identity;
use link_trait::Step;
use session_text::{Session, SessionFault, What, counts_of, read_session};
use spaces::{Method, Scheme, Target};
use std::alloc::Global;
use std::test::Fail;

/// What a text is found to be: a session, or at fault at that line, or by that many workers.
#[derive(Clone, Copy)]
enum Found {
    Right,
    BadLine(u32),
    ManyWorkers(u32),
}

fn fault_of(found: Found) -> Option<SessionFault> {
    match found {
        Right => None,
        BadLine(line) => Some(SessionFault::BadLine { line }),
        ManyWorkers(number) => Some(SessionFault::TooMany {
            what: What::Workers,
            number,
        }),
    }
}

pub(crate) fn read(alloc: Global, text: &[u8]) -> Result<Session, SessionFault> {
    if text.len() > 4194304 {
        return Err(SessionFault::NoMemory);
    }
    read_session(alloc, text)
}

const FAULTS: [(&str, Found); 51] = [
    ("", BadLine(1)),
    ("\n", BadLine(2)),
    ("# a comment\n\n", BadLine(3)),
    ("authfetch 1", Right),
    ("# a comment\n\nauthfetch 1\n", Right),
    ("authfetch 2\n", BadLine(1)),
    ("authfetch 1 \n", BadLine(1)),
    ("authfetch  1\n", BadLine(1)),
    (" authfetch 1\n", BadLine(1)),
    ("authfetch 1\r\n", BadLine(1)),
    ("authfetch%201\n", BadLine(1)),
    ("%61uthfetch %31\n%77orkers %32\n", Right),
    ("workers 17\n", BadLine(1)),
    ("authfetch 1\nauthfetch 1\n", BadLine(2)),
    ("authfetch 1\n# a comment\n\nnonsense\n", BadLine(4)),
    ("authfetch 1\nworkers 16\n", Right),
    ("authfetch 1\nworkers 17\nnonsense\n", ManyWorkers(17)),
    ("authfetch 1\nworkers 2\nworkers 2\n", BadLine(3)),
    (
        "authfetch 1\nworkers 2\nworkers 999999\n",
        ManyWorkers(999999),
    ),
    ("authfetch 1\nworkers 1000000\n", BadLine(2)),
    ("authfetch 1\nworkers 0\n", BadLine(2)),
    ("authfetch 1\nworkers 017\n", BadLine(2)),
    ("authfetch 1\nworkers -\n", BadLine(2)),
    ("authfetch 1\ndefault http://h/\n", Right),
    ("authfetch 1\ndefault https://h/\n", BadLine(2)),
    (
        "authfetch 1\nrequest GET main https://a.example/\n",
        BadLine(2),
    ),
    ("authfetch 1\nrequest POST main http://h/\n", BadLine(2)),
    ("authfetch 1\nrequest GET Main http://h/\n", BadLine(2)),
    ("authfetch 1\nrequest GET - http://h/\n", BadLine(2)),
    ("authfetch 1\nrequest GET %2D http://h/\n", Right),
    ("authfetch 1\nrequest GET main %20http://h/%0A\n", Right),
    (
        "authfetch 1\nrequest GET main http://h/ via proxy\n",
        BadLine(2),
    ),
    (
        "authfetch 1\nrequest GET main http://h/ by http://p/\n",
        BadLine(2),
    ),
    (
        "authfetch 1\nlink -\nrequest GET main http://h/\n",
        BadLine(2),
    ),
    ("authfetch 1\ntoken done\n", BadLine(2)),
    (
        "authfetch 1\nrequest GET main http://h/\ntoken bytes -\n",
        Right,
    ),
    (
        "authfetch 1\nrequest GET main http://h/\ntoken failed\n",
        BadLine(3),
    ),
    (
        "authfetch 1\nrequest GET main http://h/\nlink\n",
        BadLine(3),
    ),
    (
        "authfetch 1\nrequest GET main http://h/\nlink a b\n",
        BadLine(3),
    ),
    (
        "authfetch 1\nrequest GET main http://h/\ntoken\n",
        BadLine(3),
    ),
    (
        "authfetch 1\nrequest GET main http://h/\ntoken bytes\n",
        BadLine(3),
    ),
    (
        "authfetch 1\nrequest GET main http://h/\ntoken done x\n",
        BadLine(3),
    ),
    (
        "authfetch 1\nrequest GET main http://h/\ntoken bytes a b\n",
        BadLine(3),
    ),
    (
        "authfetch 1\nanswer main server http://h/ basic - cancel\n",
        Right,
    ),
    (
        "authfetch 1\nanswer main socks http://h/ basic - cancel\n",
        BadLine(2),
    ),
    (
        "authfetch 1\nanswer main server http://h/ password - cancel\n",
        BadLine(2),
    ),
    (
        "authfetch 1\nanswer main server http://h/ negotiate - cancel\n",
        Right,
    ),
    (
        "authfetch 1\nanswer main server http://h/ negotiate r cancel\n",
        BadLine(2),
    ),
    (
        "authfetch 1\nanswer main server http://h/ basic r give u:v p\n",
        BadLine(2),
    ),
    (
        "authfetch 1\nanswer main server http://h/ basic r give u %0A\n",
        BadLine(2),
    ),
    (
        "authfetch 1\nanswer main server http://h/ basic r give u\n",
        BadLine(2),
    ),
];

#[test]
fn faults(rt: HostRuntime) {
    for (text, wanted) in &FAULTS {
        let found = read(rt.alloc(), text.as_bytes()).err();
        assert!(rt; found == fault_of(*wanted), "{text}: {found:?}");
    }
}

#[test]
fn too_many_requests(rt: HostRuntime) -> Result<(), Fail> {
    let mut text = Vec::from_slice(rt.alloc(), b"authfetch 1\n")?;
    for _ in 0..2048 {
        text.extend_from_slice(b"request HEAD main http://h/\n")?;
    }
    let session = read(rt.alloc(), text.as_slice())?;
    assert_eq!(rt; session.roster.requests.len(), 2048);
    let length = text.len();
    text.extend_from_slice(b"request GET main https://h/\n")?;
    let found = read(rt.alloc(), text.as_slice()).err();
    assert!(rt; found == fault_of(BadLine(2050)));
    text.truncate(length);
    text.extend_from_slice(b"request GET main http://h/\n")?;
    let found = read(rt.alloc(), text.as_slice()).err();
    let wanted = SessionFault::TooMany {
        what: What::Requests,
        number: 2049,
    };
    assert!(rt; found == Some(wanted));
    Ok(())
}

const WHOLE: &[u8] = b"authfetch 1
default http://H/x
# a comment
request GET main http://u:p@h:81/a?b#c via http://proxy:3128
link HTTP/1.1%20200
link -
request HEAD other http://h/
token bytes abc
token nomech
answer main proxy http://proxy:3128/ digest r give u p%20q
answer main server http://h/ negotiate - cancel
workers 3";

#[test]
fn counts(rt: HostRuntime) -> Result<(), Fail> {
    let session = read(rt.alloc(), WHOLE)?;
    let counts = counts_of(rt.alloc(), &session)?;
    let expected = b"session 2 requests, 3 workers, 2 answers, 2 links\n";
    assert_eq!(rt; counts.as_slice(), expected.as_slice());
    Ok(())
}

#[test]
fn requests(rt: HostRuntime) -> Result<(), Fail> {
    let session = read(rt.alloc(), WHOLE)?;
    let (Some(first), Some(second)) = (
        session.roster.requests.get(1),
        session.roster.requests.get(2),
    ) else {
        return Err("two requests".into());
    };
    assert!(rt; first.method == Method::Get && second.method == Method::Head);
    assert_eq!(rt;
        first.place.text.as_slice(),
        b"http://u:p@h:81/a?b#c".as_slice()
    );
    assert_eq!(rt; second.partition.name(), b"other".as_slice());
    assert!(rt; second.proxy.is_none());
    let Some(proxy) = &first.proxy else {
        return Err("a proxy".into());
    };
    assert_eq!(rt; proxy.port, 3128);
    Ok(())
}

#[test]
fn links_and_steps(rt: HostRuntime) -> Result<(), Fail> {
    let session = read(rt.alloc(), WHOLE)?;
    let (Some(links), Some(steps)) = (session.links.get(0), session.steps.get(1)) else {
        return Err("links and steps".into());
    };
    assert_eq!(rt; links.len(), 2);
    let (Some(Step::Token(token)), Some(Step::NoMechanism)) = (steps.get(0), steps.get(1)) else {
        return Err("steps".into());
    };
    assert_eq!(rt; token.as_slice(), b"abc".as_slice());
    Ok(())
}

fn password(identity: &Option<Identity>) -> &[u8] {
    match identity {
        Some(identity) => identity.password(),
        None => b"cancel",
    }
}

#[test]
fn answers(rt: HostRuntime) -> Result<(), Fail> {
    let session = read(rt.alloc(), WHOLE)?;
    let (Some(one), Some(other)) = (session.answers.get(0), session.answers.get(1)) else {
        return Err("two answers".into());
    };
    assert!(rt; one.0.site().target == Target::Proxy && one.0.scheme() == Scheme::Digest);
    assert_eq!(rt; password(&one.1), b"p q".as_slice());
    assert!(rt; other.0.scheme() == Scheme::Negotiate);
    assert_eq!(rt; password(&other.1), b"cancel".as_slice());
    Ok(())
}

// What a program says of each fault.
const SAID: [(SessionFault, &str); 4] = [
    (SessionFault::BadLine { line: 3 }, "bad line 3"),
    (
        SessionFault::TooMany {
            what: What::Requests,
            number: 2049,
        },
        "too large: 2049 requests",
    ),
    (
        SessionFault::TooMany {
            what: What::Workers,
            number: 17,
        },
        "too large: 17 workers",
    ),
    (SessionFault::NoMemory, "no memory"),
];

#[test]
fn faults_are_said(rt: HostRuntime) -> Result<(), Fail> {
    for (fault, said) in &SAID {
        let text = format!(in rt.alloc(); "{fault}")?;
        assert_eq!(rt; text.as_str(), *said);
    }
    Ok(())
}
