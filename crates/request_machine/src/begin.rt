//! The first calls of the book: the request begins, and the book tells what is ready for each
//! target before any challenge.

ghost use Rattle.std.specs.Prelude.{◌≡◌};
ghost use Rattle.request_machine.specs.Told.{target_of, held_first};

use crate::holding::Holding;
use crate::machine::Machine;
use crate::stage::Stage;
use auth_events::{BookReply, Call};
use auth_runs::Event;
use spaces::Target;

impl Machine {
    ghost use Rattle.request_machine.specs.Work.{is_waiting};
    ghost use Rattle.std.specs.Prelude.{false, ◌≡◌, ◌∷◌, ◌<◌, IsTrue, length};
    ghost use Rattle.trace_rule.specs.Settings.{Setting};
    ghost use Rattle.trace_rule.specs.Traces.{suits};
    ghost use Rattle.request_machine.specs.Linked.{line, way, goes_on};
    ghost use Rattle.request_machine.specs.Kept.{Ties};

    /// The request was begun.
    #[tactic(auto, using(crate::proofs::Starting::begun_ties))]
    pub(crate) fn begun(&mut self, reply: BookReply)
        requires room { length self.old.past < 256 }
        requires stage { self.old.stage ≡ Stage.Call Call.Begin }
        ensures past { self.new.past ≡ Event.Called Call.Begin reply ∷ self.old.past }
        ensures kept { line self.new ≡ line self.old }
        ensures goes { IsTrue (goes_on (way self.old.stage) (way self.new.stage)) }
        ensures free { is_waiting self.new.stage ≡ false }
        ensures ties { (s : Setting) → IsTrue (suits s self.old.past Call.Begin reply)
            → Ties s self.old → Ties s self.new }
    {
        self.push(Event::Called {
            call: Call::Begin,
            reply,
        });
        let target = first_target(self.is_proxied);
        self.stage = Stage::Call(Call::Preempt { target });
    }

    /// The book told what is ready for the proxy.
    #[tactic(auto, using(crate::proofs::Starting::preempted_proxy_ties))]
    pub(crate) fn preempted_proxy(&mut self, reply: BookReply)
        requires room { length self.old.past < 256 }
        requires stage { self.old.stage ≡ Stage.Call (Call.Preempt Target.Proxy) }
        ensures past { self.new.past
            ≡ Event.Called (Call.Preempt Target.Proxy) reply ∷ self.old.past }
        ensures kept { line self.new ≡ line self.old }
        ensures goes { IsTrue (goes_on (way self.old.stage) (way self.new.stage)) }
        ensures free { is_waiting self.new.stage ≡ false }
        ensures ties { (s : Setting)
            → IsTrue (suits s self.old.past (Call.Preempt Target.Proxy) reply) → Ties s self.old
            → Ties s self.new }
    {
        self.push(Event::Called {
            call: Call::Preempt {
                target: Target::Proxy,
            },
            reply,
        });
        let before = self.take_proxy();
        self.hold_proxy(held_first(reply, before));
        self.stage = Stage::Call(Call::Preempt {
            target: Target::Server,
        });
    }

    /// The book told what is ready for the server.
    #[tactic(auto, using(crate::proofs::Starting::preempted_server_ties))]
    pub(crate) fn preempted_server(&mut self, reply: BookReply)
        requires room { length self.old.past < 256 }
        requires stage { self.old.stage ≡ Stage.Call (Call.Preempt Target.Server) }
        ensures past { self.new.past
            ≡ Event.Called (Call.Preempt Target.Server) reply ∷ self.old.past }
        ensures kept { line self.new ≡ line self.old }
        ensures goes { IsTrue (goes_on (way self.old.stage) (way self.new.stage)) }
        ensures free { is_waiting self.new.stage ≡ false }
        ensures ties { (s : Setting)
            → IsTrue (suits s self.old.past (Call.Preempt Target.Server) reply) → Ties s self.old
            → Ties s self.new }
    {
        self.push(Event::Called {
            call: Call::Preempt {
                target: Target::Server,
            },
            reply,
        });
        let before = self.take_server();
        self.hold_server(held_first(reply, before));
        self.stage = Stage::Go;
    }
}

pub(crate) fn first_target(is_proxied: bool) -> Target
    ensures { result ≡ target_of is_proxied }
{
    if is_proxied {
        Target::Proxy
    } else {
        Target::Server
    }
}

/// What is held by a reply to a preemption.
pub(crate) fn held_first(reply: BookReply, before: Option<Holding>) -> Option<Holding>
    ensures { result ≡ held_first reply before }
{
    match reply {
        BookReply::Ready { gift, terms, epoch } => Some(Holding {
            gift,
            terms,
            preemptive: Some(epoch),
            context: None,
            space: None,
            identity: None,
            named: None,
        }),
        _ => before,
    }
}
