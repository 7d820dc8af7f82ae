//! Three requests of one book: the first is given an identity, the second finds it, and the third,
//! of another partition, doesn't.

ghost use Rattle.std.specs.Prelude.{◌≡◌, ◌<◌, ◌*◌, IfOk, IsTrue, length};

use crate::recalled;
use auth_book::AuthBook;
use auth_events::{BookReply, Call, Controller, Gift};
use auth_text::{Bytes, Identity, NoMemory};
use spaces::{
    Method, Origins, Partition, Request, Requests, Roster, Scheme, Site, Space, Target, place_of,
};
use std::alloc::Global;
use std::process::Abort;
use std::test::Fail;
use worked_books::try_call;

fn request(alloc: Global, partition: &[u8], url: &[u8]) -> Result<Request, NoMemory> {
    let Ok(partition) = Partition::new(alloc, partition) else {
        return Err(NoMemory);
    };
    let Ok(place) = place_of(alloc, url) else {
        return Err(NoMemory);
    };
    Ok(Request {
        method: Method::Get,
        partition,
        place,
        proxy: None,
    })
}

fn roster(alloc: Global) -> Result<Roster, NoMemory>
    ensures { IfOk result (λ roster. length roster.requests ≡ 3) }
{
    let mut requests = Requests::new(alloc);
    requests.push(request(alloc, b"main", b"http://a.example/docs/a")?)?;
    requests.push(request(alloc, b"main", b"http://a.example/docs/b/c")?)?;
    requests.push(request(alloc, b"other", b"http://a.example/docs/a")?)?;
    Ok(Roster {
        requests,
        allowed: Origins::new(alloc),
    })
}

/// The space that the first request's server asks for.
fn space(alloc: Global) -> Result<Space, NoMemory> {
    let asked = request(alloc, b"main", b"http://a.example/docs/a")?;
    let site = Site {
        partition: asked.partition.clone()?,
        target: Target::Server,
        origin: asked.place.origin.clone()?,
    };
    let realm = Bytes::from_slice(alloc, b"x")?;
    Ok(Space::new(site, Scheme::Basic, realm))
}

/// Whether the book may name one more space and one more text.
fn has_room<B: Controller>(book: &B, roster: &Roster) -> bool
    requires { B.roster book.now ≡ roster.now }
    ensures spaces { IsTrue result
        → length (B.names book.now).spaces < 64 * length (B.roster book.now).requests }
    ensures texts { IsTrue result
        → length (B.names book.now).texts < 64 * length (B.roster book.now).requests }
{
    let names = book.names();
    let spaces = names.spaces_len();
    let texts = names.texts_len();
    let requests = roster.requests.len();
    requests <= 2048 && (spaces as usize) < 64 * requests && (texts as usize) < 64 * requests
}

/// Names the space and the text that its prompt is answered with; each has number 1.
fn name_both<B: Controller>(
    rt: &impl Abort,
    alloc: Global,
    book: &mut B,
    roster: &Roster,
) -> Result<(), NoMemory>
    requires { B.roster book.old ≡ roster.now }
    ensures { B.roster book.new ≡ roster.now }
{
    let space = space(alloc)?;
    let Ok(text) = Identity::new(alloc, b"Aladdin", b"open sesame") else {
        return Err(NoMemory);
    };
    assert!(rt; has_room(book, roster));
    book.space_no(1, &space)?;
    assert!(rt; has_room(book, roster));
    book.text_no(1, &text)?;
    Ok(())
}

/// Sees that the first request may make the call, and has the reply.
fn replies<B: Controller>(
    rt: &impl Abort,
    book: &mut B,
    roster: &Roster,
    call: Call,
    reply: BookReply,
)
    requires { B.roster book.old ≡ roster.now }
    ensures { B.roster book.new ≡ roster.now }
{
    let did = try_call(book, roster, 1, call);
    assert!(rt; matches!(did, Some(did) if did.reply == reply));
}

/// The first request asks for an identity, and notes that it was right.
fn asks<B: Controller>(rt: &impl Abort, book: &mut B, roster: &Roster)
    requires { B.roster book.old ≡ roster.now }
    ensures { B.roster book.new ≡ roster.now }
{
    let gift = Gift {
        space: 1,
        ordinal: 1,
    };
    let (space, prompt, ordinal, text, terms, evicted) = (1, 1, 1, 1, 0, 0);
    let select = Call::Select { space, terms };
    replies(
        rt,
        book,
        roster,
        select,
        BookReply::Lead { prompt, ordinal },
    );
    let answer = Call::Answer {
        prompt,
        text,
        terms,
    };
    replies(rt, book, roster, answer, BookReply::Given { gift, evicted });
    replies(rt, book, roster, Call::Note { gift }, BookReply::Noted);
}

/// Sees whether the request finds the identity.
fn finds<B: Controller>(
    rt: &impl Abort,
    book: &mut B,
    roster: &Roster,
    request: u32,
    is_there: bool,
) -> Result<(), NoMemory>
    requires { B.roster book.old ≡ roster.now }
    ensures { B.roster book.new ≡ roster.now }
{
    let found = recalled(book, roster, request)?;
    assert!(rt; found.is_some() == is_there);
    if let Some(found) = found {
        assert!(rt; found.user() == b"Aladdin".as_slice());
    }
    Ok(())
}

fn played(rt: &impl Abort, alloc: Global) -> Result<(), NoMemory> {
    let roster = roster(alloc)?;
    let mut book = AuthBook::new(alloc, &roster)?;
    finds(rt, &mut book, &roster, 1, false)?;
    name_both(rt, alloc, &mut book, &roster)?;
    asks(rt, &mut book, &roster);
    finds(rt, &mut book, &roster, 2, true)?;
    finds(rt, &mut book, &roster, 3, false)?;
    Ok(())
}

#[test]
fn what_was_given_is_found_in_its_partition(rt: HostRuntime) -> Result<(), Fail> {
    played(&rt, rt.alloc())?;
    Ok(())
}
