//! A nonce that a server sends again and again: what is drawn on it, beside the calls on the book.

ghost use Rattle.std.specs.Prelude.{◌≡◌, ◌<◌, ◌*◌, ◌+◌, ◌∷◌, [], length, IsTrue, IfOk, OnOk};
ghost use Rattle.auth_events.specs.Tables.{is_home};

use crate::tests::book::{
    name_space, name_text, opened, opened_with_index, play_one, request, server,
};
use crate::tests::rows::{NO, Row};
use auth_events::{Controller, Drawn, Names, TermsRef};
use auth_text::{Bytes, NoMemory};
use plain_book::PlainWords;
use spaces::{Algorithm, Origins, Qop, Requests, Roster, Scheme, Space, Terms};
use std::alloc::Global;
use std::process::Abort;

/// A request of a Digest server.
fn roster(alloc: Global) -> Result<Roster, NoMemory> {
    let mut requests = Requests::new(alloc);
    requests.push(request(alloc, b"main", b"http://a.example/")?)?;
    Ok(Roster {
        requests,
        allowed: Origins::new(alloc),
    })
}

/// The Digest space of that realm.
fn digest(alloc: Global, realm: &[u8]) -> Result<Space, NoMemory> {
    let request = request(alloc, b"main", b"http://a.example/")?;
    let site = server(&request)?;
    let realm = Bytes::from_slice(alloc, realm)?;
    Ok(Space::new(site, Scheme::Digest, realm))
}

/// Terms of that realm and nonce.
fn terms(alloc: Global, realm: &[u8], nonce: &[u8]) -> Result<Terms, NoMemory> {
    let realm = Bytes::from_slice(alloc, realm)?;
    let nonce = Bytes::from_slice(alloc, nonce)?;
    Ok(Terms {
        algorithm: Algorithm::Md5,
        said: false,
        realm,
        nonce,
        opaque: None,
        qop: Qop::Auth,
        userhash: false,
    })
}

/// Whether the space is a Digest space with the terms' realm.
fn is_home(names: &Names, space: u32, terms: &Terms) -> bool
    ensures { result ≡ is_home names.now space terms.now }
{
    match names.space(space) {
        Some(named) => named.scheme() == Scheme::Digest && named.realm() == terms.realm.as_slice(),
        None => false,
    }
}

/// Whether the book may name terms and a nonce more.
fn has_room_for_terms<B: Controller>(book: &B, roster: &Roster) -> bool
    requires { B.roster book.now ≡ roster.now }
    ensures { IsTrue result
        → (length (B.names book.now).terms < 64 * length (B.roster book.now).requests)
        × (length (B.names book.now).nonces < 16 * length (B.roster book.now).requests) }
{
    let names = book.names();
    let terms = names.terms_len() as usize;
    let nonces = names.nonces_len() as usize;
    let requests = roster.requests.len();
    requests <= 2048 && terms < 64 * requests && nonces < 16 * requests
}

/// The numbers of the terms of that realm and nonce.
pub(crate) fn name_realm<B: Controller>(
    rt: &impl Abort,
    alloc: Global,
    book: &mut B,
    roster: &Roster,
    realm: &[u8],
    nonce: &[u8],
) -> Result<TermsRef, NoMemory>
    requires { B.roster book.old ≡ roster.now }
    ensures { B.roster book.new ≡ roster.now }
{
    let space = digest(alloc, realm)?;
    let number = name_space(rt, book, roster, &space)?;
    let terms = terms(alloc, realm, nonce)?;
    assert!(rt; is_home(book.names(), number, &terms));
    assert!(rt; has_room_for_terms(book, roster));
    let numbers = book.terms_no(1, number, &terms)?;
    Ok(numbers)
}

/// The prompt of that number is led in the first realm, and answered.
fn play_answer<B: Controller>(rt: &impl Abort, book: &mut B, roster: &Roster, prompt: u32)
    requires { B.roster book.old ≡ roster.now }
    ensures { B.roster book.new ≡ roster.now }
{
    let select = Row(1, "select", [1, 1, 0], "lead", [prompt, prompt, 0]);
    play_one(rt, book, roster, select);
    let answer = Row(1, "answer", [prompt, prompt, 1], "given", [1, prompt, 0]);
    play_one(rt, book, roster, answer);
}

/// A prompt gives credentials, which go out with this draw and are refused: that retires the nonce.
fn is_refused<B: Controller>(
    rt: &impl Abort,
    alloc: Global,
    book: &mut B,
    roster: &Roster,
    words: &mut PlainWords,
    prompt: u32,
    wanted: Drawn,
) -> Result<(), NoMemory>
    requires roster { B.roster book.old ≡ roster.now }
    requires words { words.old ≡ record { count = wanted.epoch; epoch = wanted.epoch } ∷ [] }
    requires few { wanted.epoch < 1000 }
    ensures roster { B.roster book.new ≡ roster.now }
    ensures words { OnOk result (words.new
        ≡ record { count = wanted.epoch + 1; epoch = wanted.epoch + 1 } ∷ []) }
{
    name_text(rt, alloc, book, roster, b"u")?;
    play_answer(rt, book, roster, prompt);
    assert!(rt; words.draw(1) == wanted);
    let reject = Row(1, "reject", [1, prompt, 0], "removed", NO);
    assert!(rt; play_one(rt, book, roster, reject) == 1);
    words.retire(1);
    Ok(())
}

/// Three answers are refused, after each of which the server sends the same nonce.
fn refused_thrice<B: Controller>(
    rt: &impl Abort,
    alloc: Global,
    book: &mut B,
    roster: &Roster,
    words: &mut PlainWords,
) -> Result<(), NoMemory>
    requires roster { B.roster book.old ≡ roster.now }
    requires words { words.old ≡ record { count = 0; epoch = 0 } ∷ [] }
    ensures roster { B.roster book.new ≡ roster.now }
    ensures words { OnOk result (words.new ≡ record { count = 3; epoch = 3 } ∷ []) }
{
    let drawn = Drawn { count: 1, epoch: 0 };
    is_refused(rt, alloc, book, roster, words, 1, drawn)?;
    let drawn = Drawn { count: 2, epoch: 1 };
    is_refused(rt, alloc, book, roster, words, 2, drawn)?;
    let drawn = Drawn { count: 3, epoch: 2 };
    is_refused(rt, alloc, book, roster, words, 3, drawn)?;
    Ok(())
}

/// Three answers are refused in one realm.
fn first_realm<B: Controller>(
    rt: &impl Abort,
    alloc: Global,
    book: &mut B,
    roster: &Roster,
) -> Result<PlainWords, NoMemory>
    requires { B.roster book.old ≡ roster.now }
    ensures roster { B.roster book.new ≡ roster.now }
    ensures words { IfOk result (λ words. words ≡ record { count = 3; epoch = 3 } ∷ []) }
{
    let mut words = PlainWords::new(alloc, 1)?;
    let numbers = name_realm(rt, alloc, book, roster, b"d", b"n")?;
    assert!(rt; numbers == TermsRef { terms: 1, nonce: 1 });
    play_one(rt, book, roster, Row(1, "begin", NO, "begun", NO));
    play_one(rt, book, roster, Row(1, "preempt", NO, "nothing", NO));
    refused_thrice(rt, alloc, book, roster, &mut words)?;
    Ok(words)
}

/// Another realm of the site goes on with the nonce.
fn other_realm<B: Controller>(
    rt: &impl Abort,
    alloc: Global,
    book: &mut B,
    roster: &Roster,
    words: &mut PlainWords,
) -> Result<(), NoMemory>
    requires roster { B.roster book.old ≡ roster.now }
    requires words { words.old ≡ record { count = 3; epoch = 3 } ∷ [] }
{
    let numbers = name_realm(rt, alloc, book, roster, b"e", b"n")?;
    assert!(rt; numbers == TermsRef { terms: 2, nonce: 1 });
    name_text(rt, alloc, book, roster, b"u")?;
    let select = Row(1, "select", [2, 2, 0], "lead", [4, 1, 0]);
    play_one(rt, book, roster, select);
    let answer = Row(1, "answer", [4, 4, 2], "given", [2, 1, 0]);
    play_one(rt, book, roster, answer);
    assert!(rt; words.draw(1) == Drawn { count: 4, epoch: 3 });
    Ok(())
}

/// The counts of one nonce go on over three refusals, and into another realm of its site.
fn counts_on<B: Controller>(
    rt: &impl Abort,
    alloc: Global,
    book: &mut B,
    roster: &Roster,
) -> Result<(), NoMemory>
    requires { B.roster book.old ≡ roster.now }
{
    let mut words = first_realm(rt, alloc, book, roster)?;
    other_realm(rt, alloc, book, roster, &mut words)
}

fn counts_by_index(rt: &impl Abort, alloc: Global, roster: &Roster) -> Result<(), NoMemory> {
    let mut book = opened_with_index(rt, alloc, roster)?;
    counts_on(rt, alloc, &mut book, roster)
}

/// A Digest server always sends one nonce, to a book that scans its journal and to one that decides
/// by its index.
pub(crate) fn counts_go_on(rt: &impl Abort, alloc: Global) -> Result<(), NoMemory> {
    let roster = roster(alloc)?;
    counts_by_index(rt, alloc, &roster)?;
    let mut book = opened(rt, alloc, &roster)?;
    counts_on(rt, alloc, &mut book, &roster)
}
