//! A large session that is made, not read, with the world that it runs against.

ghost use Rattle.std.specs.Prelude.{◌≡◌, [], ◌∷◌, ◌++◌, ◌<◌, IfOk, OnOk, IsTrue};
ghost use Rattle.auth_text.specs.Login.{is_login};
ghost use Rattle.spaces.specs.ProtectionSpaces.{has_realm};
ghost use Rattle.origin_sim.specs.Generated as spec;

use crate::rules::{Kind, Rule, Rules};
use crate::texts::push_number;
use crate::world::World;
use auth_text::{Bytes, Identity, NoMemory};
use link_trait::{Answers, Links, Steps};
use session_text::Session;
use spaces::{
    Algorithm, Method, Origin, Origins, Partition, Place, Request, Requests, Roster, Scheme, Site,
    Space, Target,
};
use std::alloc::Global;

/// How many answers each space has: as many as there may be requests.
const ANSWERS: usize = 2_048;

fn push_host_name(out: &mut Bytes, j: u32) -> Result<(), NoMemory>
    ensures { OnOk result (out.new ≡ out.old ++ spec.host_name j) }
{
    out.extend_from_slice(b"h")?;
    push_number(out, j as usize)?;
    out.extend_from_slice(b".example")
}

fn host(alloc: Global, j: u32) -> Result<Origin, NoMemory>
    ensures { IfOk result (λ it. it ≡ spec.host j) }
{
    let mut host = Bytes::new(alloc);
    push_host_name(&mut host, j)?;
    Ok(Origin { host, port: 80 })
}

fn proxy(alloc: Global) -> Result<Origin, NoMemory>
    ensures { IfOk result (λ it. it ≡ spec.proxy) }
{
    Ok(Origin {
        host: Bytes::from_slice(alloc, b"proxy.example")?,
        port: 3128,
    })
}

fn basic(alloc: Global, realm: &[u8], user: &[u8], password: &[u8]) -> Result<Kind, NoMemory>
    ensures { IfOk result (λ it. it ≡ Kind.Basic realm.now user.now password.now) }
{
    Ok(Kind::Basic {
        realm: Bytes::from_slice(alloc, realm)?,
        user: Bytes::from_slice(alloc, user)?,
        password: Bytes::from_slice(alloc, password)?,
    })
}

fn digest(
    alloc: Global,
    realm: &[u8],
    user: &[u8],
    password: &[u8],
    algorithm: Algorithm,
    uses: u32,
) -> Result<Kind, NoMemory>
    ensures { IfOk result (λ it. it ≡ Kind.Digest realm.now user.now password.now algorithm
        uses) }
{
    Ok(Kind::Digest {
        realm: Bytes::from_slice(alloc, realm)?,
        user: Bytes::from_slice(alloc, user)?,
        password: Bytes::from_slice(alloc, password)?,
        algorithm,
        uses,
    })
}

fn negotiate(alloc: Global) -> Result<Kind, NoMemory>
    ensures { IfOk result (λ it. it ≡ spec.negotiate_kind) }
{
    Ok(Kind::Negotiate {
        first: Bytes::from_slice(alloc, b"a")?,
        reply: Bytes::from_slice(alloc, b"b")?,
        second: Bytes::from_slice(alloc, b"c")?,
    })
}

fn push_server(alloc: Global, rules: &mut Rules, j: u32, kind: Kind) -> Result<(), NoMemory>
    ensures { OnOk result (rules.new ≡ rules.old ++ spec.server_rule j kind ∷ []) }
{
    let origin = host(alloc, j)?;
    rules.push(Rule {
        origin,
        target: Target::Server,
        kind,
    })?;
    Ok(())
}

fn push_proxy(alloc: Global, rules: &mut Rules) -> Result<(), NoMemory>
    ensures { OnOk result (rules.new ≡ rules.old ++ spec.proxy_rule ∷ []) }
{
    let origin = proxy(alloc)?;
    let kind = basic(alloc, b"proxy", b"pu", b"pp")?;
    rules.push(Rule {
        origin,
        target: Target::Proxy,
        kind,
    })?;
    Ok(())
}

#[tactic(auto, unfolding(crate::specs::Generated::rules))]
fn rules(alloc: Global) -> Result<Rules, NoMemory>
    ensures { IfOk result (λ it. it ≡ spec.rules) }
{
    let mut rules = Rules::new(alloc);
    push_proxy(alloc, &mut rules)?;
    push_server(alloc, &mut rules, 0, Kind::Open)?;
    let kind = basic(alloc, b"r1", b"u1", b"p1")?;
    push_server(alloc, &mut rules, 1, kind)?;
    let kind = digest(alloc, b"r2", b"u2", b"p2", Algorithm::Md5, 20)?;
    push_server(alloc, &mut rules, 2, kind)?;
    let kind = digest(alloc, b"r3", b"u3", b"p3", Algorithm::Sha256, 0)?;
    push_server(alloc, &mut rules, 3, kind)?;
    let kind = negotiate(alloc)?;
    push_server(alloc, &mut rules, 4, kind)?;
    push_server(alloc, &mut rules, 5, Kind::Open)?;
    Ok(rules)
}

fn partition_name(p: u32) -> &'static [u8]
    requires { p < 3 }
    ensures { result.now ≡ spec.partition p }
{
    match p {
        0 => b"p0",
        1 => b"p1",
        _ => b"p2",
    }
}

fn partition(alloc: Global, p: u32) -> Result<Partition, NoMemory>
    requires { p < 3 }
    ensures { IfOk result (λ it. it ≡ spec.partition p) }
{
    match Partition::new(alloc, partition_name(p)) {
        Ok(it) => Ok(it),
        Err(_) => Err(NoMemory),
    }
}

fn push_path(out: &mut Bytes, i: u32) -> Result<(), NoMemory>
    ensures { OnOk result (out.new ≡ out.old ++ spec.path i) }
{
    out.extend_from_slice(b"/d")?;
    push_number(out, (i % 7) as usize)?;
    out.extend_from_slice(b"/f")?;
    push_number(out, i as usize)
}

fn url(alloc: Global, i: u32) -> Result<Bytes, NoMemory>
    ensures { IfOk result (λ text. text ≡ spec.url i) }
{
    let mut text = Bytes::new(alloc);
    text.extend_from_slice(b"http://")?;
    push_host_name(&mut text, i % 5)?;
    push_path(&mut text, i)?;
    Ok(text)
}

fn place(alloc: Global, i: u32) -> Result<Place, NoMemory>
    ensures { IfOk result (λ it. it ≡ spec.place i) }
{
    let mut path = Bytes::new(alloc);
    push_path(&mut path, i)?;
    Ok(Place {
        text: url(alloc, i)?,
        origin: host(alloc, i % 5)?,
        path,
        query: None,
        identity: None,
    })
}

fn route(alloc: Global, i: u32) -> Result<Option<Origin>, NoMemory>
    ensures { IfOk result (λ it. it ≡ spec.route i) }
{
    if i % 2 == 0 && !(i % 5 == 4) {
        Ok(Some(proxy(alloc)?))
    } else {
        Ok(None)
    }
}

fn request(alloc: Global, i: u32) -> Result<Request, NoMemory>
    ensures { IfOk result (λ it. it ≡ spec.request i) }
{
    Ok(Request {
        method: Method::Get,
        partition: partition(alloc, i % 3)?,
        place: place(alloc, i)?,
        proxy: route(alloc, i)?,
    })
}

fn requests(alloc: Global, n: u32) -> Result<Requests, NoMemory>
    ensures { IfOk result (λ it. it ≡ spec.requests n) }
{
    let mut requests = Requests::new(alloc);
    for i in 0..n {
        requests.push(request(alloc, i + 1)?)?;
    }
    Ok(requests)
}

fn roster(alloc: Global, n: u32) -> Result<Roster, NoMemory>
    ensures { IfOk result (λ it. it ≡ spec.roster n) }
{
    let mut allowed = Origins::new(alloc);
    allowed.push(host(alloc, 4)?)?;
    Ok(Roster {
        requests: requests(alloc, n)?,
        allowed,
    })
}

fn login(alloc: Global, user: &[u8], password: &[u8]) -> Result<Identity, NoMemory>
    requires { IsTrue (is_login user.now password.now) }
    ensures { IfOk result (λ it. it ≡ record { user = user.now; password = password.now }) }
{
    match Identity::new(alloc, user, password) {
        Ok(it) => Ok(it),
        Err(_) => Err(NoMemory),
    }
}

fn space(
    alloc: Global,
    p: u32,
    target: Target,
    origin: Origin,
    scheme: Scheme,
    realm: &[u8],
) -> Result<Space, NoMemory>
    requires partition { p < 3 }
    requires realm { IsTrue (has_realm scheme realm.now) }
    ensures { IfOk result (λ it. it ≡ spec.space p target origin scheme realm.now) }
{
    let site = Site {
        partition: partition(alloc, p)?,
        target,
        origin,
    };
    let realm = Bytes::from_slice(alloc, realm)?;
    Ok(Space::new(site, scheme, realm))
}

#[tactic(auto, unfolding(crate::specs::Generated::proxy_answer))]
fn proxy_answer(alloc: Global, p: u32) -> Result<(Space, Option<Identity>), NoMemory>
    requires { p < 3 }
    ensures { IfOk result (λ it. it ≡ spec.proxy_answer p) }
{
    let origin = proxy(alloc)?;
    let space = space(alloc, p, Target::Proxy, origin, Scheme::Basic, b"proxy")?;
    Ok((space, Some(login(alloc, b"pu", b"pp")?)))
}

/// The answer of a server's space.
fn server_answer(
    alloc: Global,
    p: u32,
    j: u32,
    scheme: Scheme,
    realm: &[u8],
    user: &[u8],
    password: &[u8],
) -> Result<(Space, Option<Identity>), NoMemory>
    requires partition { p < 3 }
    requires realm { IsTrue (has_realm scheme realm.now) }
    requires login { IsTrue (is_login user.now password.now) }
    ensures { IfOk result (λ it. it ≡ spec.server_answer p j scheme realm.now user.now
        password.now) }
{
    let origin = host(alloc, j)?;
    let space = space(alloc, p, Target::Server, origin, scheme, realm)?;
    Ok((space, Some(login(alloc, user, password)?)))
}

#[tactic(auto, unfolding(crate::specs::Generated::first_answer))]
fn first_answer(alloc: Global, p: u32) -> Result<(Space, Option<Identity>), NoMemory>
    requires { p < 3 }
    ensures { IfOk result (λ it. it ≡ spec.first_answer p) }
{
    server_answer(alloc, p, 1, Scheme::Basic, b"r1", b"u1", b"p1")
}

#[tactic(auto, unfolding(crate::specs::Generated::second_answer))]
fn second_answer(alloc: Global, p: u32) -> Result<(Space, Option<Identity>), NoMemory>
    requires { p < 3 }
    ensures { IfOk result (λ it. it ≡ spec.second_answer p) }
{
    server_answer(alloc, p, 2, Scheme::Digest, b"r2", b"u2", b"p2")
}

#[tactic(auto, unfolding(crate::specs::Generated::third_answer))]
fn third_answer(alloc: Global, p: u32) -> Result<(Space, Option<Identity>), NoMemory>
    requires { p < 3 }
    ensures { IfOk result (λ it. it ≡ spec.third_answer p) }
{
    server_answer(alloc, p, 3, Scheme::Digest, b"r3", b"u3", b"p3")
}

fn push_answers(alloc: Global, answers: &mut Answers, count: usize, p: u32) -> Result<(), NoMemory>
    requires { p < 3 }
    ensures { OnOk result (answers.new ≡ answers.old ++ spec.answers_in count p) }
{
    answers.push_times(proxy_answer(alloc, p)?, count)?;
    answers.push_times(first_answer(alloc, p)?, count)?;
    answers.push_times(second_answer(alloc, p)?, count)?;
    answers.push_times(third_answer(alloc, p)?, count)?;
    Ok(())
}

#[tactic(auto, unfolding(crate::specs::Generated::answers))]
fn answers(alloc: Global, count: usize) -> Result<Answers, NoMemory>
    ensures { IfOk result (λ it. it ≡ spec.answers count) }
{
    let mut answers = Answers::new(alloc);
    push_answers(alloc, &mut answers, count, 0)?;
    push_answers(alloc, &mut answers, count, 1)?;
    push_answers(alloc, &mut answers, count, 2)?;
    Ok(answers)
}

/// The session of `n` requests over seven servers and a proxy, and the world of number 1 that it
/// runs against. Its requests are spread over three partitions, five servers and two routes, so
/// that each scheme is met, by the proxy and by servers.
pub fn generated(alloc: Global, n: u32) -> Result<(Session, World), NoMemory>
    ensures session { IfOk result (λ made. made.0 ≡ spec.session n) }
    ensures world { IfOk result (λ made. made.1 ≡ spec.world) }
{
    let session = Session {
        workers: 1,
        roster: roster(alloc, n)?,
        answers: answers(alloc, ANSWERS)?,
        links: Links::new(alloc),
        steps: Steps::new(alloc),
    };
    let world = World::new(alloc, 1, rules(alloc)?)?;
    Ok((session, world))
}
