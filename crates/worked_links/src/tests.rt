//! What answers from memory, each with ample memory and with its failures, through its trait.

ghost use Rattle.std.specs.Prelude.{◌≡◌, ◌<◌, length, true, false};
ghost use Rattle.link_trait.specs.Links.{has_link, IsUndialed};

use auth_text::{Bytes, Identity, Items};
use link_trait::{
    Answers, Asked, Calls, Dialed, Dialer, FailingPrompter, Got, LinkName, Links, MemSink,
    MemSource, NoTokens, Prompter, RecordedDialer, ScriptTokens, Sink, Source, Step, Steps, Tokens,
    Took, Wrote,
};
use spaces::{Origin, Partition, Scheme, Site, Space, Target};
use std::alloc::Global;
use std::test::Fail;

fn bytes(alloc: Global, text: &[u8]) -> Result<Bytes, Fail> {
    Ok(Bytes::from_slice(alloc, text)?)
}

fn calls(alloc: Global, numbers: &[u32]) -> Result<Calls, Fail> {
    Ok(Calls::from_slice(alloc, numbers)?)
}

/// What a read gives, the front of what was read, and how many have failed.
fn read_next<S: Source>(source: &mut S) -> (Got, [u8; 9], u64) {
    let mut buf = [0; 9];
    let got = source.read(&mut buf);
    (got, buf, source.faults())
}

/// What a write takes, and how many have failed.
fn write_next<K: Sink>(sink: &mut K, text: &[u8]) -> (Took, u64)
    requires { 0 < length text.now }
{
    (sink.write(text), sink.faults())
}

fn can_be_sent<T: Send>(_it: &T) {}

#[test]
fn a_source_fails_at_its_second_read(rt: HostRuntime) -> Result<(), Fail> {
    let alloc = rt.alloc();
    let mut source = MemSource::new(bytes(alloc, b"authfetch 1")?, calls(alloc, &[2])?);
    let zeros = [0; 9];
    assert!(rt; read_next(&mut source) == (Got::Bytes(9), *b"authfetch", 0));
    assert!(rt; read_next(&mut source) == (Got::Failed, zeros, 1));
    assert!(rt; read_next(&mut source) == (Got::Bytes(2), *b" 1\0\0\0\0\0\0\0", 1));
    assert!(rt; read_next(&mut source) == (Got::End, zeros, 1));
    can_be_sent(&source);
    Ok(())
}

#[test]
fn a_sink_takes_ten_bytes_and_fails_at_its_third_write(rt: HostRuntime) -> Result<(), Fail> {
    let alloc = rt.alloc();
    let mut sink = MemSink::new(alloc, 10, calls(alloc, &[3])?);
    assert!(rt; write_next(&mut sink, b"authreport 1\nseed 000000000") == (Took::Bytes(10), 0));
    assert!(rt; write_next(&mut sink, b" 1\nseed 000000000") == (Took::Bytes(10), 0));
    assert!(rt; write_next(&mut sink, b"0000000") == (Took::Failed, 1));
    assert_eq!(rt; sink.bytes(), b"authreport 1\nseed 00".as_slice());
    assert!(rt; write_next(&mut sink, b"0000000") == (Took::Bytes(7), 1));
    can_be_sent(&sink);
    Ok(())
}

/// One recorded link, whose peer sends a status line.
fn recorded(alloc: Global) -> Result<Links, Fail> {
    let mut streams = Items::new(alloc);
    streams.push(bytes(alloc, b"HTTP/1.1 200 OK")?)?;
    let mut links = Links::new(alloc);
    links.push(streams)?;
    Ok(links)
}

const NAME: LinkName = LinkName { request: 1, nth: 1 };

/// What a read on the link gives, and the front of what was read.
fn heard_next<D: Dialer>(dialer: &mut D) -> (Got, [u8; 8])
    requires { has_link (record { request = 1; nth = 1 }) (D.opened dialer.old) ≡ true }
    ensures { D.opened dialer.new ≡ D.opened dialer.old }
{
    let mut buf = [0; 8];
    let got = dialer.read(NAME, &mut buf);
    (got, buf)
}

/// Dials a link and writes to it, and reads four times; nothing where it isn't dialed or written
/// to.
fn heard<D: Dialer>(dialer: &mut D, to: &Origin) -> Option<[(Got, [u8; 8]); 4]>
    requires closed { has_link (record { request = 1; nth = 1 }) (D.opened dialer.old) ≡ false }
    requires fresh { IsUndialed (record { request = 1; nth = 1 }) (D.dials dialer.old) }
{
    let Dialed::Link = dialer.dial(NAME, to) else {
        return None;
    };
    let wrote = dialer.write(NAME, b"GET / HTTP/1.1");
    let first = heard_next(dialer);
    let second = heard_next(dialer);
    let third = heard_next(dialer);
    let fourth = heard_next(dialer);
    dialer.close(NAME);
    match wrote {
        Wrote::All => Some([first, second, third, fourth]),
        Wrote::Failed | Wrote::NoMemory => None,
    }
}

#[test]
fn a_dialer_gives_the_recorded_stream_and_fails_at_its_fourth_call(
    rt: HostRuntime,
) -> Result<(), Fail> {
    let alloc = rt.alloc();
    let mut dialer = RecordedDialer::new(alloc, recorded(alloc)?, calls(alloc, &[4])?);
    let host = bytes(alloc, b"intra.example")?;
    let Some(heard) = heard(&mut dialer, &Origin { host, port: 80 }) else {
        return Err("no link".into());
    };
    let zeros = [0; 8];
    assert!(rt; heard[0] == (Got::Bytes(8), *b"HTTP/1.1"));
    assert!(rt; heard[1] == (Got::Failed, zeros));
    assert!(rt; heard[2] == (Got::Bytes(7), *b" 200 OK\0"));
    assert!(rt; heard[3] == (Got::End, zeros));
    assert_eq!(rt; dialer.faults(), 1);
    Ok(())
}

/// A Basic space of a server, with this realm.
fn space(alloc: Global, realm: &[u8]) -> Result<Space, Fail> {
    let partition = Partition::new(alloc, b"main")?;
    let host = bytes(alloc, b"intra.example")?;
    let site = Site {
        partition,
        target: Target::Server,
        origin: Origin { host, port: 80 },
    };
    Ok(Space::new(site, Scheme::Basic, bytes(alloc, realm)?))
}

fn identity(alloc: Global, user: &[u8]) -> Result<Identity, Fail> {
    Ok(Identity::new(alloc, user, b"open sesame")?)
}

/// What a prompter answers: the user, `cancel` or `failed`.
fn asked<P: Prompter>(
    alloc: Global,
    prompter: &mut P,
    realm: &[u8],
    ordinal: u32,
) -> Result<Bytes, Fail> {
    match prompter.ask(&space(alloc, realm)?, ordinal) {
        Asked::Given(identity) => bytes(alloc, identity.user()),
        Asked::Cancel => bytes(alloc, b"cancel"),
        Asked::Failed => bytes(alloc, b"failed"),
        Asked::NoMemory => Err("memory".into()),
    }
}

/// Two answers for the realm `x`, one for `y`, and 2,048 equal ones for `z`.
fn answers(alloc: Global) -> Result<Answers, Fail> {
    let mut answers = Answers::new(alloc);
    for (realm, user) in [(b"x", b"Aladdin"), (b"y", b"Mufasa "), (b"x", b"Morgana")] {
        let given = Some(identity(alloc, user)?);
        answers.push((space(alloc, realm)?, given))?;
    }
    let given = Some(identity(alloc, b"Sindbad")?);
    answers.push_times((space(alloc, b"z")?, given), 2048)?;
    Ok(answers)
}

/// What is asked, and what is answered.
fn asked_row(n: u32) -> (&'static [u8], u32, &'static [u8]) {
    match n {
        0 => (b"x", 2, b"Morgana"),
        1 => (b"y", 1, b"Mufasa "),
        2 => (b"x", 1, b"failed"),
        3 => (b"x", 1, b"Aladdin"),
        4 => (b"y", 2, b"cancel"),
        5 => (b"z", 1, b"Sindbad"),
        6 => (b"z", 2048, b"Sindbad"),
        _ => (b"z", 2049, b"cancel"),
    }
}

/// The first row that is answered otherwise.
fn wrong_answer<P: Prompter>(alloc: Global, prompter: &mut P) -> Result<Option<u32>, Fail> {
    for n in 0..8 {
        let (realm, ordinal, wanted) = asked_row(n);
        let found = asked(alloc, prompter, realm, ordinal)?;
        if found.as_slice() != wanted {
            return Ok(Some(n));
        }
    }
    Ok(None)
}

#[test]
fn a_prompter_answers_by_space_and_ordinal(rt: HostRuntime) -> Result<(), Fail> {
    let alloc = rt.alloc();
    let answers = answers(alloc)?;
    assert_eq!(rt; answers.len(), 2051);
    let mut prompter = FailingPrompter::new(alloc, &answers, calls(alloc, &[3])?)?;
    assert_eq!(rt; wrong_answer(alloc, &mut prompter)?, None);
    assert_eq!(rt; prompter.faults(), 1);
    Ok(())
}

/// A provider of one request's steps: a token, a failure and the end of the context.
fn provider(alloc: Global) -> Result<ScriptTokens, Fail> {
    let mut listed = Items::new(alloc);
    listed.push(Step::Token(bytes(alloc, b"YII=")?))?;
    listed.push(Step::Failed)?;
    listed.push(Step::Done)?;
    let mut steps = Steps::new(alloc);
    steps.push(listed)?;
    Ok(ScriptTokens::new(alloc, steps))
}

/// Whether a context is started with that step.
fn starts<T: Tokens>(tokens: &mut T, request: u32, step: &Step) -> bool {
    tokens.start(request, b"HTTP@intra.example", None) == *step
}

/// Whether the first request's context goes on with that step at the peer's token.
fn goes_on<T: Tokens>(tokens: &mut T, token: &[u8], step: &Step) -> bool {
    tokens.go_on(1, token) == *step
}

#[test]
fn a_provider_takes_its_steps(rt: HostRuntime) -> Result<(), Fail> {
    let alloc = rt.alloc();
    let mut tokens = provider(alloc)?;
    let token = Step::Token(bytes(alloc, b"YII=")?);
    assert!(rt; starts(&mut tokens, 1, &token));
    assert!(rt; goes_on(&mut tokens, b"YIJ=", &Step::Failed));
    assert_eq!(rt; tokens.faults(), 1);
    assert!(rt; goes_on(&mut tokens, b"YIJ=", &Step::Done));
    assert!(rt; goes_on(&mut tokens, b"", &Step::NoMechanism));
    assert!(rt; starts(&mut tokens, 2, &Step::NoMechanism));
    assert!(rt; starts(&mut NoTokens, 1, &Step::NoMechanism));
    Ok(())
}
