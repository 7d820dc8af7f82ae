//! A challenge, by what it decides on what is held for its target: another challenge is chosen,
//! what is held is renewed or rejected, or, in the seventeenth round, the request is refused.

ghost use Rattle.std.specs.Prelude.{◌≡◌, IsTrue, false};
ghost use Rattle.request_machine.specs.Contexts.{stage_continued};
ghost use Rattle.request_machine.specs.Linked.{way, is_away};
ghost use Rattle.request_machine.specs.Work.{is_waiting};

use crate::choose::unless_it;
use crate::decide::Decision;
use crate::machine::Machine;
use crate::stage::{Closing, Stage};
use auth_events::Gift;
use auth_runs::{Event, Outcome, Reply, Why};
use auth_text::Bytes;
use spaces::{Target, Terms};

/// Where the request stands behind a token of the peer.
fn stage_continued(stays: bool, link: u32, target: Target) -> Stage
    ensures stage { result ≡ stage_continued stays link target }
    ensures away { IsTrue (is_away (way result)) }
    ensures free { is_waiting result ≡ false }
{
    if stays {
        Stage::Continue(target)
    } else {
        Stage::LoseLink(link)
    }
}

impl Machine {
    ghost use Rattle.request_machine.specs.Work.{is_waiting};
    ghost use Rattle.std.specs.Prelude.{false, ◌≡◌, ◌<◌, ◌≤◌, ◌∷◌, IsTrue, IfSome, Some, None};
    ghost use Rattle.std.specs.Prelude.{length, is_some, option_map};
    ghost use Rattle.trace_rule.specs.Settings.{Setting};
    ghost use Rattle.trace_rule.specs.Challenges.{challenged};
    ghost use Rattle.trace_rule.specs.Traces.{can_be};
    ghost use Rattle.request_machine.specs.Changed.{holding};
    ghost use Rattle.request_machine.specs.Chosen.{decision_at};
    ghost use Rattle.request_machine.specs.Kept.{Ties};
    ghost use Rattle.request_machine.specs.Linked.{line, way, is_away};
    ghost use Rattle.request_machine.specs.Told.{IsReady, held_last};

    /// The reply challenges the target, and decides nothing on what is held for it: that is
    /// dropped, and a challenge is chosen.
    fn undecided(&mut self, link: u32, reply: Reply, target: Target)
        requires room { length self.old.past < 256 }
        requires stage { self.old.stage ≡ Stage.Read link }
        requires reply { IsTrue (can_be reply) }
        requires few { self.old.rounds < 16 }
        requires ready { IfSome (holding self.old target) IsReady }
        ensures past { self.new.past ≡ Event.Replied link reply ∷ self.old.past }
        ensures kept { line self.new ≡ line self.old }
        ensures away { IsTrue (is_away (way self.new.stage)) }
        ensures free { is_waiting self.new.stage ≡ false }
        ensures ties { (s : Setting) → decision_at self.old s.request reply target ≡ None
            → challenged s reply ≡ Some target → Ties s self.old → Ties s self.new }
    {
        let code = reply.code;
        let stays = reply.stays;
        self.push(Event::Replied { link, reply });
        self.drop_held(target);
        self.code = code;
        self.stays = stays;
        self.rounds += 1;
        self.stage = Stage::Choose(target);
    }

    /// The reply challenges the target, and rejects what is held for it.
    fn rejects(&mut self, link: u32, reply: Reply, target: Target, gift: Gift)
        requires room { length self.old.past < 256 }
        requires stage { self.old.stage ≡ Stage.Read link }
        requires reply { IsTrue (can_be reply) }
        requires few { self.old.rounds < 16 }
        requires ready { IfSome (holding self.old target) IsReady }
        ensures past { self.new.past ≡ Event.Replied link reply ∷ self.old.past }
        ensures kept { line self.new ≡ line self.old }
        ensures away { IsTrue (is_away (way self.new.stage)) }
        ensures free { is_waiting self.new.stage ≡ false }
        ensures ties { (s : Setting) → decision_at self.old s.request reply target
            ≡ Some (Decision.Rejects gift)
            → challenged s reply ≡ Some target → Ties s self.old → Ties s self.new }
    {
        let code = reply.code;
        let stays = reply.stays;
        self.push(Event::Replied { link, reply });
        self.code = code;
        self.stays = stays;
        self.rounds += 1;
        self.stage = Stage::Reject(target, gift);
    }

    /// The reply challenges the target, and is stale: its terms are to be named for what is held.
    fn stale(&mut self, link: u32, reply: Reply, target: Target, gift: Gift, terms: Terms)
        requires room { length self.old.past < 256 }
        requires stage { self.old.stage ≡ Stage.Read link }
        requires reply { IsTrue (can_be reply) }
        requires few { self.old.rounds < 16 }
        requires ready { IfSome (holding self.old target) IsReady }
        ensures past { self.new.past ≡ Event.Replied link reply ∷ self.old.past }
        ensures kept { line self.new ≡ line self.old }
        ensures away { IsTrue (is_away (way self.new.stage)) }
        ensures free { is_waiting self.new.stage ≡ false }
        ensures ties { (s : Setting) → decision_at self.old s.request reply target
            ≡ Some (Decision.Renews gift terms)
            → challenged s reply ≡ Some target → Ties s self.old → Ties s self.new }
    {
        let code = reply.code;
        let stays = reply.stays;
        self.put_terms(Some(terms));
        self.push(Event::Replied { link, reply });
        self.code = code;
        self.stays = stays;
        self.rounds += 1;
        self.stage = Stage::NameRenewal(target, gift);
    }

    /// The reply challenges the target, and brings the token that the context waits for.
    fn continues(&mut self, link: u32, reply: Reply, target: Target, peer: Bytes)
        requires room { length self.old.past < 256 }
        requires stage { self.old.stage ≡ Stage.Read link }
        requires reply { IsTrue (can_be reply) }
        requires undialed { self.old.is_dialed ≡ false }
        requires few { self.old.rounds < 16 }
        requires ready { IfSome (holding self.old target) IsReady }
        ensures past { self.new.past ≡ Event.Replied link reply ∷ self.old.past }
        ensures kept { line self.new ≡ line self.old }
        ensures away { IsTrue (is_away (way self.new.stage)) }
        ensures free { is_waiting self.new.stage ≡ false }
        ensures ties { (s : Setting) → decision_at self.old s.request reply target
            ≡ Some (Decision.Continues peer)
            → challenged s reply ≡ Some target → Ties s self.old → Ties s self.new }
    {
        let code = reply.code;
        let stays = reply.stays;
        self.put_peer(peer);
        self.push(Event::Replied { link, reply });
        self.code = code;
        self.stays = stays;
        self.rounds += 1;
        self.stage = stage_continued(stays, link, target);
    }

    fn hold_last(&mut self, target: Target, decides: bool)
        ensures { self.new
            ≡ record self.old {
              proxy = held_last decides target Target.Proxy self.old.proxy;
              server = held_last decides target Target.Server self.old.server;
            } }
    {
        if !decides {
            self.drop_held(target);
        }
    }

    /// The reply challenges the target, and is the seventeenth round. Whether it decides on what is
    /// held for the target says whether that stays; the gift of the other target is noted.
    fn last_round(&mut self, link: u32, reply: Reply, target: Target, decides: bool)
        requires room { length self.old.past < 256 }
        requires stage { self.old.stage ≡ Stage.Read link }
        requires reply { IsTrue (can_be reply) }
        requires last { 16 ≤ self.old.rounds }
        requires few { self.old.rounds < 256 }
        requires ready { IfSome (holding self.old target) IsReady }
        ensures past { self.new.past ≡ Event.Replied link reply ∷ self.old.past }
        ensures kept { line self.new ≡ line self.old }
        ensures away { IsTrue (is_away (way self.new.stage)) }
        ensures free { is_waiting self.new.stage ≡ false }
        ensures ties { (s : Setting) → is_some (decision_at self.old s.request reply target)
            ≡ decides → challenged s reply ≡ Some target → Ties s self.old → Ties s self.new }
    {
        let code = reply.code;
        let stays = reply.stays;
        self.push(Event::Replied { link, reply });
        self.hold_last(target, decides);
        self.code = code;
        self.stays = stays;
        self.rounds += 1;
        self.stage = Stage::Close(Closing {
            outcome: Outcome::Refused(code, Why::Rounds),
            proxy: unless_it(target, Target::Proxy, self.noted_proxy),
            server: unless_it(target, Target::Server, self.noted_server),
        });
    }

    /// The reply challenges the target, and decides so on what is held for it.
    pub(crate) fn challenged(
        &mut self,
        link: u32,
        reply: Reply,
        target: Target,
        decision: Option<Decision>,
    )
        requires room { length self.old.past < 256 }
        requires stage { self.old.stage ≡ Stage.Read link }
        requires reply { IsTrue (can_be reply) }
        requires undialed { self.old.is_dialed ≡ false }
        requires few { self.old.rounds < 256 }
        requires ready { IfSome (holding self.old target) IsReady }
        ensures past { self.new.past ≡ Event.Replied link reply ∷ self.old.past }
        ensures kept { line self.new ≡ line self.old }
        ensures away { IsTrue (is_away (way self.new.stage)) }
        ensures free { is_waiting self.new.stage ≡ false }
        ensures ties { (s : Setting) → decision_at self.old s.request reply target ≡ decision
            → challenged s reply ≡ Some target → Ties s self.old → Ties s self.new }
    {
        if self.rounds >= 16 {
            self.last_round(link, reply, target, decision.is_some());
            return;
        }
        match decision {
            None => self.undecided(link, reply, target),
            Some(Decision::Rejects(gift)) => self.rejects(link, reply, target, gift),
            Some(Decision::Renews(gift, terms)) => self.stale(link, reply, target, gift, terms),
            Some(Decision::Continues(peer)) => self.continues(link, reply, target, peer),
        }
    }
}
