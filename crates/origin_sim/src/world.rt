//! A simulated world: what it answers to a head, after the heads before.

ghost use Rattle.std.specs.Prelude.{◌≡◌, ◌<◌, [], length, slice_get, Some, IfOk, IfSome, OnErr};
ghost use Rattle.origin_sim.specs.Worlds as spec;

use crate::judged::{Judged, Said};
use crate::judging::{challenge, judgement};
use crate::rules::{Rule, Rules};
use crate::texts::{accepted, not_found, refused_by_proxy, refused_by_server};
use auth_text::{Bytes, Items, NoMemory};
use link_trait::LinkName;
use spaces::{Origin, Target, same_origin, same_target};
use std::alloc::Global;
use std::marker::Model;
use wire_head::{HeadFault, ReadHead, read_head};

/// Simulated servers and proxies, with what they said so far.
#[derive(Drop)]
pub struct World {
    alloc: Global,
    number: u32,
    rules: Rules,
    past: Items<Judged>,
}

impl Model for World {
    ghost use Rattle.origin_sim.specs.Worlds.{WorldState};

    ghost Value = { WorldState };

    ghost view = { λ it. record { number = it.number; rules = it.rules; past = it.past } };
}

/// The first rule of the origin and the target, by its place.
fn rule_of(target: Target, origin: &Origin, rules: &[Rule]) -> Option<usize>
    ensures value { result ≡ spec.rule_of target origin.now rules.now }
    ensures within { IfSome result (λ place. place < length rules.now) }
{
    rules.iter().position(|rule| same_target(rule.target, target)
        && same_origin(&rule.origin, origin))
}

impl World {
    /// A world of that number and these rules, which answered nothing yet.
    pub fn new(alloc: Global, number: u32, rules: Rules) -> Result<World, NoMemory>
        ensures { IfOk result (λ world. world
            ≡ record { number = number; rules = rules; past = [] }) }
    {
        Ok(World {
            alloc,
            number,
            rules,
            past: Items::new(alloc),
        })
    }

    // The rule at the place judges the head by these credentials.
    fn judge(
        &mut self,
        place: usize,
        link: LinkName,
        head: &ReadHead,
        credentials: &Option<Bytes>,
    ) -> Result<Option<Bytes>, NoMemory>
        requires { place < length self.old.rules }
        ensures ok { let rule = slice_get self.old.rules place in
            IfOk result (λ answer. spec.IsJudged self.old rule place link head.now credentials.now
            answer self.new) }
        ensures err { OnErr result (self.new ≡ self.old) }
    {
        let count = self.rules.len();
        prove!(place < count);
        let number = place + 1;
        let Some(rule) = self.rules.get(place) else {
            unreachable!()
        };
        let said = judgement(
            self.alloc,
            self.number,
            number,
            &rule.kind,
            self.past.as_slice(),
            link,
            head,
            credentials,
        )?;
        let answer = challenge(self.alloc, &rule.kind, &said)?;
        self.past.push(Judged {
            rule: number,
            link,
            said,
        })?;
        Ok(answer)
    }
    // The server that the head names judges it.
    fn serve(&mut self, link: LinkName, head: &ReadHead) -> Result<Bytes, NoMemory>
        ensures ok { IfOk result (λ reply. spec.IsServed self.old link head.now reply self.new) }
        ensures behind { spec.IsBehind self.old self.new }
    {
        let Some(place) = rule_of(Target::Server, &head.origin, self.rules.as_slice()) else {
            return not_found(self.alloc);
        };
        match self.judge(place, link, head, &head.server)? {
            Some(challenge) => refused_by_server(self.alloc, challenge.as_slice()),
            None => accepted(self.alloc, head.method),
        }
    }

    // The proxy at the origin judges the head, where there is one, and then the server.
    fn reply(&mut self, link: LinkName, to: &Origin, head: &ReadHead) -> Result<Bytes, NoMemory>
        ensures ok { IfOk result (λ reply. spec.IsReplyTo self.old link to.now (Some head.now)
            reply self.new) }
        ensures behind { spec.IsBehind self.old self.new }
    {
        let Some(place) = rule_of(Target::Proxy, to, self.rules.as_slice()) else {
            return self.serve(link, head);
        };
        match self.judge(place, link, head, &head.proxy)? {
            Some(challenge) => refused_by_proxy(self.alloc, challenge.as_slice()),
            None => self.serve(link, head),
        }
    }

    // The same, where after want of memory nothing was said.
    fn reply_or_none(
        &mut self,
        link: LinkName,
        to: &Origin,
        head: &ReadHead,
    ) -> Result<Bytes, NoMemory>
        ensures ok { IfOk result (λ reply. spec.IsReplyTo self.old link to.now (Some head.now)
            reply self.new) }
        ensures err { OnErr result (self.new ≡ self.old) }
        ensures behind { spec.IsBehind self.old self.new }
    {
        let len = self.past.len();
        match self.reply(link, to, head) {
            Ok(reply) => Ok(reply),
            Err(NoMemory) => {
                self.past.truncate(len);
                Err(NoMemory)
            }
        }
    }

    /// How much its rules have said.
    pub(crate) fn said(&self) -> usize
        ensures { result ≡ length self.now.past }
    {
        self.past.len()
    }

    /// Takes back what its rules said since.
    pub(crate) fn take_back(&mut self, said: usize)
        ensures { self.new ≡ spec.since said self.old }
    {
        self.past.truncate(said);
    }

    /// The reply to a request's head that goes over a link to an origin, after the heads before. A
    /// proxy at that origin judges it first, by its `Proxy-Authorization`; a refusal is a 407. Then
    /// the server that it names judges it, by its `Authorization`; a refusal is a 401. Where there
    /// is no such server, or the bytes are no head, it is a 404. After want of memory it is as if
    /// the head hadn't come.
    pub fn answer(&mut self, name: LinkName, to: &Origin, head: &[u8]) -> Result<Bytes, NoMemory>
        ensures ok { IfOk result (λ reply. spec.IsAnswer self.old name to.now head.now reply
            self.new) }
        ensures err { OnErr result (self.new ≡ self.old) }
        ensures behind { spec.IsBehind self.old self.new }
    {
        match read_head(self.alloc, head) {
            Ok(head) => self.reply_or_none(name, to, &head),
            Err(HeadFault::NoMemory) => Err(NoMemory),
            Err(_) => not_found(self.alloc),
        }
    }
}
