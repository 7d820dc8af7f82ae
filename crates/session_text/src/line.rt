//! The forms of a line: each line is read by itself, to a value that says what it means. Whether it
//! may stand where it stands is for the reading of the session to judge.

ghost use Rattle.std.specs.Prelude.{◌≡◌, Ok, IfOk, IsTrue, drop};
ghost use Rattle.auth_text.specs.Gives.{GivesBy};
ghost use Rattle.auth_text.specs.Login.{login};
ghost use Rattle.spaces.specs.Places.{place};
ghost use Rattle.spaces.specs.Partitions.{partition};
ghost use Rattle.spaces.specs.ProtectionSpaces.{has_realm};
ghost use Rattle.session_text.specs.Forms as spec;
ghost use Rattle.session_text.specs.Forms.{or_bad};
ghost use Rattle.session_text.specs.Played.{IsRight};

use crate::values::{number_of, values_of};
use auth_text::{Bytes, Identity, IdentityFault, Items};
use link_trait::Step;
use spaces::{
    Method, Origin, Partition, PartitionFault, Place, PlaceFault, Request, Scheme, Site, Space,
    Target, place_of,
};
use std::alloc::Global;
use thiserror::Error;

/// What a line means.
#[derive(Debug, Drop)]
pub enum Line {
    /// Empty or a comment.
    Passed,
    /// `authfetch 1`.
    Header,
    /// How many workers are asked for.
    Workers(u32),
    /// The default identity is allowed for this origin.
    Default(Origin),
    /// The next request.
    Request(Request),
    /// The next recorded stream of the last request.
    Link(Bytes),
    /// The next provider's step of the last request.
    Token(Step),
    /// The next answer of the space; none is Cancel.
    Answer(Space, Option<Identity>),
}

/// Why a line has no meaning.
#[derive(Clone, Copy, Debug, PartialEq, Eq, Error)]
pub enum LineFault {
    /// It has none of the forms.
    #[error("none of the forms of a line")]
    Bad,
    #[error("no memory")]
    NoMemory,
}

fn copy(alloc: Global, bytes: &[u8]) -> Result<Bytes, LineFault>
    ensures { GivesBy LineFault.NoMemory (λ b. b) result (Ok bytes.now) }
{
    match Bytes::from_slice(alloc, bytes) {
        Ok(bytes) => Ok(bytes),
        Err(_) => Err(LineFault::NoMemory),
    }
}

fn place_in(alloc: Global, url: &[u8]) -> Result<Place, LineFault>
    ensures value { GivesBy LineFault.NoMemory (λ p. p) result (or_bad (place url.now)) }
    ensures again { IfOk result (λ p. place p.text ≡ Ok p) }
{
    match place_of(alloc, url) {
        Ok(place) => Ok(place),
        Err(PlaceFault::NoMemory) => Err(LineFault::NoMemory),
        Err(_) => Err(LineFault::Bad),
    }
}

fn partition_in(alloc: Global, name: &[u8]) -> Result<Partition, LineFault>
    ensures { GivesBy LineFault.NoMemory (λ p. p) result (or_bad (partition name.now)) }
{
    match Partition::new(alloc, name) {
        Ok(partition) => Ok(partition),
        Err(PartitionFault::NoMemory) => Err(LineFault::NoMemory),
        Err(PartitionFault::BadName) => Err(LineFault::Bad),
    }
}

fn identity_in(alloc: Global, user: &[u8], password: &[u8]) -> Result<Identity, LineFault>
    ensures { GivesBy LineFault.NoMemory (λ i. i) result (or_bad (login user.now password.now)) }
{
    match Identity::new(alloc, user, password) {
        Ok(identity) => Ok(identity),
        Err(IdentityFault::NoMemory) => Err(LineFault::NoMemory),
        Err(_) => Err(LineFault::Bad),
    }
}

fn origin_in(alloc: Global, url: &[u8]) -> Result<Origin, LineFault>
    ensures { GivesBy LineFault.NoMemory (λ o. o) result (spec.origin_of url.now) }
{
    let place = place_in(alloc, url)?;
    Ok(place.origin)
}

fn method_of(word: &[u8]) -> Result<Method, LineFault>
    ensures { result ≡ spec.method_of word.now }
{
    if word == b"GET".as_slice() {
        return Ok(Method::Get);
    }
    if word == b"HEAD".as_slice() {
        return Ok(Method::Head);
    }
    Err(LineFault::Bad)
}

fn target_of(word: &[u8]) -> Result<Target, LineFault>
    ensures { result ≡ spec.target_of word.now }
{
    if word == b"server".as_slice() {
        return Ok(Target::Server);
    }
    if word == b"proxy".as_slice() {
        return Ok(Target::Proxy);
    }
    Err(LineFault::Bad)
}

fn scheme_of(word: &[u8], realm: &[u8]) -> Result<Scheme, LineFault>
    ensures value { result ≡ spec.scheme_of word.now realm.now }
    ensures fit { IfOk result (λ scheme. IsTrue (has_realm scheme realm.now)) }
{
    if word == b"basic".as_slice() {
        return Ok(Scheme::Basic);
    }
    if word == b"digest".as_slice() {
        return Ok(Scheme::Digest);
    }
    if word == b"negotiate".as_slice() && realm.is_empty() {
        return Ok(Scheme::Negotiate);
    }
    Err(LineFault::Bad)
}

fn header(more: &[Bytes]) -> Result<Line, LineFault>
    ensures value { result ≡ spec.header more.now }
    ensures right { IfOk result IsRight }
{
    match more {
        [version] if version.as_slice() == b"1".as_slice() => Ok(Line::Header),
        _ => Err(LineFault::Bad),
    }
}

fn workers(more: &[Bytes]) -> Result<Line, LineFault>
    ensures value { result ≡ spec.workers more.now }
    ensures right { IfOk result IsRight }
{
    match more {
        [n] => Ok(Line::Workers(number_of(n.as_slice())?)),
        _ => Err(LineFault::Bad),
    }
}

fn default(alloc: Global, more: &[Bytes]) -> Result<Line, LineFault>
    ensures value { GivesBy LineFault.NoMemory (λ l. l) result (spec.default more.now) }
    ensures right { IfOk result IsRight }
{
    match more {
        [url] => Ok(Line::Default(origin_in(alloc, url.as_slice())?)),
        _ => Err(LineFault::Bad),
    }
}

#[tactic(auto, unfolding(crate::specs::Forms::requested))]
fn requested(
    alloc: Global,
    method: &[u8],
    name: &[u8],
    url: &[u8],
    proxy: Option<Origin>,
) -> Result<Line, LineFault>
    ensures value { GivesBy LineFault.NoMemory
        (λ l. l) result (spec.requested method.now name.now url.now proxy) }
    ensures right { IfOk result IsRight }
{
    let method = method_of(method)?;
    let partition = partition_in(alloc, name)?;
    let place = place_in(alloc, url)?;
    Ok(Line::Request(Request {
        method,
        partition,
        place,
        proxy,
    }))
}

fn request(alloc: Global, more: &[Bytes]) -> Result<Line, LineFault>
    ensures value { GivesBy LineFault.NoMemory (λ l. l) result (spec.request more.now) }
    ensures right { IfOk result IsRight }
{
    match more {
        [method, name, url] => {
            requested(
                alloc,
                method.as_slice(),
                name.as_slice(),
                url.as_slice(),
                None,
            )
        }
        [method, name, url, via, proxy] => {
            if via.as_slice() != b"via".as_slice() {
                return Err(LineFault::Bad);
            }
            let origin = origin_in(alloc, proxy.as_slice())?;
            requested(
                alloc,
                method.as_slice(),
                name.as_slice(),
                url.as_slice(),
                Some(origin),
            )
        }
        _ => Err(LineFault::Bad),
    }
}

fn step_of(word: &[u8]) -> Result<Line, LineFault>
    ensures value { result ≡ spec.step_of word.now }
    ensures right { IfOk result IsRight }
{
    if word == b"done".as_slice() {
        return Ok(Line::Token(Step::Done));
    }
    if word == b"refused".as_slice() {
        return Ok(Line::Token(Step::Refused));
    }
    if word == b"nomech".as_slice() {
        return Ok(Line::Token(Step::NoMechanism));
    }
    Err(LineFault::Bad)
}

/// The stream is taken and not copied, since it may be most of the text.
#[tactic(auto, using(crate::proofs::LineLemmas::link_of_two, crate::proofs::LineLemmas::no_link))]
fn link(values: Items<Bytes>) -> Result<Line, LineFault>
    ensures value { result ≡ spec.link (drop 1 values) }
    ensures right { IfOk result IsRight }
{
    let mut values = values;
    let Some(bytes) = values.pop() else {
        return Err(LineFault::Bad);
    };
    if values.len() == 1 {
        return Ok(Line::Link(bytes));
    }
    Err(LineFault::Bad)
}

/// A token that is given by its bytes, which are taken too.
fn token(values: Items<Bytes>) -> Result<Line, LineFault>
    ensures value { result ≡ spec.token (drop 1 values) }
    ensures right { IfOk result IsRight }
{
    let mut values = values;
    let Some(last) = values.pop() else {
        return Err(LineFault::Bad);
    };
    match values.as_slice() {
        [_] => step_of(last.as_slice()),
        [_, word] => {
            if word.as_slice() != b"bytes".as_slice() {
                return Err(LineFault::Bad);
            }
            Ok(Line::Token(Step::Token(last)))
        }
        _ => Err(LineFault::Bad),
    }
}

#[tactic(auto, unfolding(crate::specs::Forms::space))]
fn space(
    alloc: Global,
    name: &[u8],
    target: &[u8],
    url: &[u8],
    scheme: &[u8],
    realm: &[u8],
) -> Result<Space, LineFault>
    ensures { GivesBy LineFault.NoMemory
        (λ s. s) result (spec.space name.now target.now url.now scheme.now realm.now) }
{
    let partition = partition_in(alloc, name)?;
    let target = target_of(target)?;
    let origin = origin_in(alloc, url)?;
    let scheme = scheme_of(scheme, realm)?;
    let realm = copy(alloc, realm)?;
    let site = Site {
        partition,
        target,
        origin,
    };
    Ok(Space::new(site, scheme, realm))
}

fn gift(alloc: Global, more: &[Bytes]) -> Result<Option<Identity>, LineFault>
    ensures { GivesBy LineFault.NoMemory (λ g. g) result (spec.gift more.now) }
{
    match more {
        [word] => {
            if word.as_slice() != b"cancel".as_slice() {
                return Err(LineFault::Bad);
            }
            Ok(None)
        }
        [word, user, password] => {
            if word.as_slice() != b"give".as_slice() {
                return Err(LineFault::Bad);
            }
            Ok(Some(identity_in(alloc, user.as_slice(), password.as_slice())?))
        }
        _ => Err(LineFault::Bad),
    }
}

fn answer(alloc: Global, more: &[Bytes]) -> Result<Line, LineFault>
    ensures value { GivesBy LineFault.NoMemory (λ l. l) result (spec.answer more.now) }
    ensures right { IfOk result IsRight }
{
    match more {
        [name, target, url, scheme, realm, more @ ..] => {
            let space = space(
                alloc,
                name.as_slice(),
                target.as_slice(),
                url.as_slice(),
                scheme.as_slice(),
                realm.as_slice(),
            )?;
            let gift = gift(alloc, more)?;
            Ok(Line::Answer(space, gift))
        }
        _ => Err(LineFault::Bad),
    }
}

fn is_keyed(values: &[Bytes], word: &[u8]) -> bool
    ensures { result ≡ spec.is_keyed values.now word.now }
{
    match values {
        [] => false,
        [key, ..] => key.as_slice() == word,
    }
}

#[tactic(auto, unfolding(crate::specs::Forms::form))]
fn form(alloc: Global, values: Items<Bytes>) -> Result<Line, LineFault>
    ensures value { GivesBy LineFault.NoMemory (λ l. l) result (spec.form values) }
    ensures right { IfOk result IsRight }
{
    if is_keyed(values.as_slice(), b"link") {
        return link(values);
    }
    if is_keyed(values.as_slice(), b"token") {
        return token(values);
    }
    match values.as_slice() {
        [] => Err(LineFault::Bad),
        [key, more @ ..] => keyed(alloc, key.as_slice(), more),
    }
}

#[tactic(auto, unfolding(crate::specs::Forms::keyed))]
fn keyed(alloc: Global, key: &[u8], more: &[Bytes]) -> Result<Line, LineFault>
    ensures value { GivesBy LineFault.NoMemory (λ l. l) result (spec.keyed key.now more.now) }
    ensures right { IfOk result IsRight }
{
    if key == b"authfetch".as_slice() {
        return header(more);
    }
    if key == b"workers".as_slice() {
        return workers(more);
    }
    if key == b"default".as_slice() {
        return default(alloc, more);
    }
    if key == b"request".as_slice() {
        return request(alloc, more);
    }
    if key == b"answer".as_slice() {
        return answer(alloc, more);
    }
    Err(LineFault::Bad)
}

fn is_passed(text: &[u8]) -> bool
    ensures { result ≡ spec.is_passed text.now }
{
    match text {
        [] => true,
        [first, ..] => *first == b'#',
    }
}

/// Reads a line. The place of a request is the one that its text reads as, and a provider's step is
/// an answer.
pub fn read_line(alloc: Global, text: &[u8]) -> Result<Line, LineFault>
    ensures value { GivesBy LineFault.NoMemory (λ l. l) result (spec.line text.now) }
    ensures right { IfOk result IsRight }
{
    if is_passed(text) {
        return Ok(Line::Passed);
    }
    let values = values_of(alloc, text)?;
    form(alloc, values)
}
