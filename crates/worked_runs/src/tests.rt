//! Commands from their words to their text: the worked session, each refusal, and failures in
//! mid-stream.

use auth_cli::{Gear, Gears, Status, What, Word, authfetch, authfetch_alone};
use auth_text::{Bytes, Items};
use link_trait::{Calls, MemSink, MemSource, NoTokens, RecordedDialer};
use std::alloc::Global;
use std::test::Fail;

const SESSION: &str = "authfetch 1
request GET main http://intra.example/
link HTTP/1.1%20401%20Unauthorized%0D%0AWWW-Authenticate:%20Basic%20realm=\"x\"%0D%0AContent-Length:%200%0D%0A%0D%0A
link HTTP/1.1%20200%20OK%0D%0AContent-Length:%202%0D%0A%0D%0Aok
answer main server http://intra.example/ basic x give Aladdin open%20sesame
";

const REPORT: &str = "authreport 1
seed 0000000000000000000000000000000000000000000000000000000000000000
request 1 GET main http://intra.example/ -
space 1 main server intra.example:80 basic x
text 1 Aladdin open%20sesame
e 1 1 begin = begun
e 1 1 preempt server = nothing
e 1 1 select 1 0 = lead 1 1
e 1 1 answer 1 1 0 = given 1 1 0
e 1 1 note 1 1 = noted
e 1 1 end = ended
t 1 call
t 1 call
t 1 dial 1
t 1 head 1 GET%20/%20HTTP/1.1%0D%0AHost:%20intra.example%0D%0AConnection:%20close%0D%0A%0D%0A
t 1 reply 1 401 open 0 Basic%20realm=\"x\"
t 1 call
t 1 ask 1 given
t 1 call
t 1 dial 2
t 1 head 2 GET%20/%20HTTP/1.1%0D%0AHost:%20intra.example%0D%0AAuthorization:%20Basic%20QWxhZGRpbjpvcGVuIHNlc2FtZQ==%0D%0AConnection:%20close%0D%0A%0D%0A
t 1 reply 2 200 open 2
t 1 call
t 1 call
t 1 outcome answered 200
end
";

const EMPTY: &str = "authreport 1
seed 0000000000000000000000000000000000000000000000000000000000000000
end
";

fn calls(alloc: Global, numbers: &[u32]) -> Result<Calls, Fail> {
    Ok(Calls::from_slice(alloc, numbers).map_err(|_| "memory")?)
}

/// The command line's words, between blanks.
fn words(alloc: Global, line: &str) -> Result<Items<Word>, Fail> {
    let mut words = Items::new(alloc);
    for word in line.split_whitespace() {
        let word = Bytes::from_slice(alloc, word.as_bytes()).map_err(|_| "memory")?;
        words.push(word).map_err(|_| "memory")?;
    }
    Ok(words)
}

/// The status of a command, and what was written.
fn run(
    alloc: Global,
    line: &str,
    mut input: MemSource,
    mut output: MemSink,
) -> Result<(Status, MemSink), Fail> {
    let words = words(alloc, line)?;
    let status = authfetch_alone(alloc, words.as_slice(), &mut input, &mut output, [0; 32]);
    Ok((status, output))
}

fn source(alloc: Global, text: &[u8], failing: &[u32]) -> Result<MemSource, Fail> {
    let text = Bytes::from_slice(alloc, text).map_err(|_| "memory")?;
    Ok(MemSource::new(text, calls(alloc, failing)?))
}

fn bad(line: u32) -> Status {
    Status::BadSession { line }
}

fn too_large(what: What, number: u32) -> Status {
    Status::TooLarge { what, number }
}

#[test]
fn commands(rt: HostRuntime) -> Result<(), Fail> {
    let alloc = rt.alloc();
    for (line, text, status, written) in [
        ("alone", SESSION, Status::Done, REPORT),
        ("alone", "authfetch 1\n", Status::Done, EMPTY),
        (
            "check",
            "authfetch 1\n",
            Status::Done,
            "session 0 requests, 1 workers, 0 answers, 0 links\n",
        ),
        (
            "check",
            SESSION,
            Status::Done,
            "session 1 requests, 1 workers, 1 answers, 2 links\n",
        ),
        ("", SESSION, Status::Usage, ""),
        ("frob", SESSION, Status::Usage, ""),
        ("alone alone", SESSION, Status::Usage, ""),
        ("generate 0", "", Status::Usage, ""),
        ("generate 2049", "", Status::Usage, ""),
        ("alone", "", bad(1), ""),
        ("check", "", bad(1), ""),
        ("alone", "authfetch 1\nworkers 2\n", Status::Done, EMPTY),
        (
            "check",
            "authfetch 1\nrequest GET main https://a.example/\n",
            bad(2),
            "",
        ),
        (
            "check",
            "authfetch 1\nworkers 17\n",
            too_large(What::Workers, 17),
            "",
        ),
    ] {
        let input = source(alloc, text.as_bytes(), &[])?;
        let output = MemSink::new(alloc, 4096, calls(alloc, &[])?);
        let (ended, output) = run(alloc, line, input, output)?;
        assert_eq!(rt; ended, status, "{line} {text}");
        assert_eq!(rt; output.bytes(), written.as_bytes(), "{line} {text}");
    }
    Ok(())
}

#[test]
fn failures(rt: HostRuntime) -> Result<(), Fail> {
    let alloc = rt.alloc();
    for (reads, most, writes, status, held) in [
        ([1].as_slice(), 4096, [].as_slice(), Status::ReadFault, ""),
        (&[2], 4096, &[], Status::ReadFault, ""),
        (&[], 4096, &[1], Status::WriteFault, ""),
        (&[], 10, &[3], Status::WriteFault, "authreport 1\nseed 00"),
    ] {
        let input = source(alloc, SESSION.as_bytes(), reads)?;
        let output = MemSink::new(alloc, most, calls(alloc, writes)?);
        let (ended, output) = run(alloc, "alone", input, output)?;
        assert_eq!(rt; ended, status);
        assert_eq!(rt; output.bytes(), held.as_bytes());
    }
    Ok(())
}

#[test]
fn sizes(rt: HostRuntime) -> Result<(), Fail> {
    let alloc = rt.alloc();
    let mut text = Bytes::from_slice(alloc, b"authfetch 1\n").map_err(|_| "memory")?;
    for (many, status) in [(2048, Status::Done), (1, too_large(What::Requests, 2049))] {
        for _ in 0..many {
            text.extend_from_slice(b"request GET main http://a.example/\n")
                .map_err(|_| "memory")?;
        }
        let input = source(alloc, text.as_slice(), &[])?;
        let output = MemSink::new(alloc, 4096, calls(alloc, &[])?);
        let (ended, _) = run(alloc, "check", input, output)?;
        assert_eq!(rt; ended, status);
    }
    let blank = vec![in alloc; b'\n'; 4_194_305]?;
    let input = source(alloc, blank.as_slice(), &[])?;
    let output = MemSink::new(alloc, 4096, calls(alloc, &[])?);
    let (ended, output) = run(alloc, "alone", input, output)?;
    assert_eq!(rt; ended, too_large(What::Bytes, 4_194_305));
    assert!(rt; output.bytes().is_empty());
    Ok(())
}

#[test]
fn gears_come_back(rt: HostRuntime) -> Result<(), Fail> {
    let alloc = rt.alloc();
    let mut gears = Gears::new(alloc);
    gears
        .push(Gear {
            dialer: RecordedDialer::new(alloc, Items::new(alloc), Calls::new(alloc)),
            tokens: NoTokens,
        })
        .map_err(|_| "memory")?;
    let mut input = source(alloc, b"authfetch 1\n", &[])?;
    let mut output = MemSink::new(alloc, 4096, calls(alloc, &[])?);
    let words = words(alloc, "alone")?;
    let (status, gears) = authfetch(
        &(),
        alloc,
        words.as_slice(),
        &mut input,
        &mut output,
        gears,
        [0; 32],
    );
    assert_eq!(rt; status, Status::Done);
    assert_eq!(rt; gears.len(), 1);
    assert_eq!(rt; output.bytes(), EMPTY.as_bytes());
    Ok(())
}

/// The worked session's status and text, over a sink that takes 100 bytes a write and fails at one.
fn run_failing(alloc: Global, number: u32) -> Result<(Status, MemSink), Fail> {
    let input = source(alloc, SESSION.as_bytes(), &[])?;
    let output = MemSink::new(alloc, 100, calls(alloc, &[number])?);
    run(alloc, "alone", input, output)
}

#[test]
fn each_write_fails(rt: HostRuntime) -> Result<(), Fail> {
    let mut held = 0usize;
    for number in 1..9 {
        let (ended, output) = run_failing(rt.alloc(), number)?;
        let bytes = output.bytes();
        assert_eq!(rt; ended, Status::WriteFault, "at write {number}");
        assert!(rt; REPORT.as_bytes().starts_with(bytes), "at write {number}");
        assert_eq!(rt; bytes.len(), held, "at write {number}");
        held = held.wrapping_add(100);
    }
    let (ended, output) = run_failing(rt.alloc(), 9)?;
    assert_eq!(rt; ended, Status::Done);
    assert_eq!(rt; output.bytes(), REPORT.as_bytes());
    Ok(())
}
