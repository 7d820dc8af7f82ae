//! The choice of an identity for a challenge, and the rejection of one that was held.

ghost use Rattle.std.specs.Prelude.{◌≡◌, None};
ghost use Rattle.request_machine.specs.Told.{unless_it};

use crate::known::bare;
use crate::machine::Machine;
use crate::read::challenged_told;
use crate::stage::{Closing, Stage};
use auth_events::{BookReply, Call, Gift};
use auth_runs::{Event, Outcome, Why};
use spaces::{Target, same_target};

impl Machine {
    ghost use Rattle.request_machine.specs.Work.{is_waiting, work_left};
    ghost use Rattle.std.specs.Prelude.{false, ◌≤◌, ◌≡◌, ◌∷◌, ◌<◌, IsTrue, Some, None, length};
    ghost use Rattle.std.specs.Prelude.{true};
    ghost use Rattle.trace_rule.specs.Settings.{Setting};
    ghost use Rattle.trace_rule.specs.Traces.{suits};
    ghost use Rattle.request_machine.specs.Chosen.{IsBest};
    ghost use Rattle.request_machine.specs.Turns.{is_asking};
    ghost use Rattle.request_machine.specs.Linked.{line, way, goes_on, is_away};
    ghost use Rattle.request_machine.specs.Replies.{challenged_told, stage_again};
    ghost use Rattle.request_machine.specs.Kept.{Ties};
    ghost use Rattle.request_machine.specs.Told.{held_chosen, held_rejected};

    /// No challenge can be answered.
    pub(crate) fn refuse(&mut self, target: Target)
        requires stage { self.old.stage ≡ Stage.Choose target }
        requires none { IsBest self.old.past None }
        ensures past { self.new.past ≡ self.old.past }
        ensures asks { is_asking self.new ≡ true }
        ensures kept { line self.new ≡ line self.old }
        ensures goes { IsTrue (goes_on (way self.old.stage) (way self.new.stage)) }
        ensures free { is_waiting self.new.stage ≡ false }
        ensures less { work_left self.new ≤ work_left self.old }
        ensures ties { (s : Setting) → Ties s self.old → Ties s self.new }
    {
        let closing = Closing {
            outcome: Outcome::Refused(self.code, Why::NoChallenge),
            proxy: unless_it(target, Target::Proxy, self.noted_proxy),
            server: unless_it(target, Target::Server, self.noted_server),
        };
        self.stage = Stage::Close(closing);
    }

    /// The gift is held for the target.
    pub(crate) fn hold(&mut self, target: Target, gift: Gift, terms: u32)
        ensures { self.new
            ≡ record self.old {
              proxy = held_chosen target gift terms Target.Proxy self.old.proxy;
              server = held_chosen target gift terms Target.Server self.old.server;
            } }
    {
        match target {
            Target::Proxy => self.hold_proxy(Some(bare(gift, terms))),
            Target::Server => self.hold_server(Some(bare(gift, terms))),
            Target::Socks => (),
        }
    }

    /// The book chose a gift of the space.
    pub(crate) fn cached(&mut self, target: Target, space: u32, terms: u32, gift: Gift)
        requires room { length self.old.past < 256 }
        requires stage { self.old.stage ≡ Stage.Select target space terms }
        ensures past { self.new.past
            ≡ Event.Called (Call.Select space terms) (BookReply.Cached gift) ∷ self.old.past }
        ensures kept { line self.new ≡ line self.old }
        ensures goes { IsTrue (goes_on (way self.old.stage) (way self.new.stage)) }
        ensures free { is_waiting self.new.stage ≡ false }
        ensures ties { (s : Setting)
            → IsTrue (suits s self.old.past (Call.Select space terms) (BookReply.Cached gift))
            → Ties s self.old → Ties s self.new }
    {
        self.push(Event::Called {
            call: Call::Select { space, terms },
            reply: BookReply::Cached { gift },
        });
        self.hold(target, gift, terms);
        self.stage = Stage::Go;
    }

    /// The URL's identity is a gift of the space.
    pub(crate) fn given_by_url(
        &mut self,
        target: Target,
        space: u32,
        terms: u32,
        gift: Gift,
        evicted: u32,
    )
        requires room { length self.old.past < 256 }
        requires stage { self.old.stage ≡ Stage.Select target space terms }
        ensures past { self.new.past
            ≡ Event.Called (Call.Select space terms) (BookReply.Url gift evicted) ∷ self.old.past }
        ensures kept { line self.new ≡ line self.old }
        ensures goes { IsTrue (goes_on (way self.old.stage) (way self.new.stage)) }
        ensures free { is_waiting self.new.stage ≡ false }
        ensures ties { (s : Setting)
            → IsTrue (suits s self.old.past (Call.Select space terms) (BookReply.Url gift evicted))
            → Ties s self.old → Ties s self.new }
    {
        self.push(Event::Called {
            call: Call::Select { space, terms },
            reply: BookReply::Url { gift, evicted },
        });
        self.hold(target, gift, terms);
        self.stage = Stage::Go;
    }

    /// The provider's default identity is chosen.
    pub(crate) fn default_chosen(&mut self, target: Target, space: u32, terms: u32)
        requires room { length self.old.past < 256 }
        requires stage { self.old.stage ≡ Stage.Select target space terms }
        ensures past { self.new.past
            ≡ Event.Called (Call.Select space terms) BookReply.Default ∷ self.old.past }
        ensures kept { line self.new ≡ line self.old }
        ensures goes { IsTrue (goes_on (way self.old.stage) (way self.new.stage)) }
        ensures free { is_waiting self.new.stage ≡ false }
        ensures ties { (s : Setting)
            → IsTrue (suits s self.old.past (Call.Select space terms) BookReply.Default)
            → Ties s self.old → Ties s self.new }
    {
        self.push(Event::Called {
            call: Call::Select { space, terms },
            reply: BookReply::Default,
        });
        self.hold(target, Gift { space, ordinal: 0 }, 0);
        self.stage = Stage::Go;
    }

    /// What was held for the target was rejected.
    pub(crate) fn rejected(&mut self, target: Target, gift: Gift, reply: BookReply)
        requires room { length self.old.past < 256 }
        requires stage { self.old.stage ≡ Stage.Reject target gift }
        ensures past { self.new.past
            ≡ Event.Called (Call.Reject gift.space gift.ordinal) reply ∷ self.old.past }
        ensures kept { line self.new ≡ line self.old }
        ensures goes { IsTrue (goes_on (way self.old.stage) (way self.new.stage)) }
        ensures free { is_waiting self.new.stage ≡ false }
        ensures ties { (s : Setting)
            → IsTrue (suits s self.old.past (Call.Reject gift.space gift.ordinal) reply)
            → Ties s self.old → Ties s self.new }
    {
        self.push(Event::Called {
            call: Call::Reject {
                space: gift.space,
                ordinal: gift.ordinal,
            },
            reply,
        });
        self.drop_held(target);
        self.choose_again();
    }

    /// The best challenge of the last reply is chosen, once more. Where that challenged nobody
    /// nothing can follow, and the request ends as for want of memory.
    pub(crate) fn choose_again(&mut self)
        ensures same { self.new ≡ record self.old {
          stage = stage_again (challenged_told self.old.is_proxied self.old.code);
        } }
        ensures away { IsTrue (is_away (way self.new.stage)) }
        ensures free { is_waiting self.new.stage ≡ false }
    {
        match challenged_told(self.is_proxied, self.code) {
            Some(target) => self.stage = Stage::Choose(target),
            None => self.stage = Stage::Spent,
        }
    }

    pub(crate) fn drop_held(&mut self, target: Target)
        ensures { self.new
            ≡ record self.old {
              proxy = held_rejected target Target.Proxy self.old.proxy;
              server = held_rejected target Target.Server self.old.server;
            } }
    {
        match target {
            Target::Proxy => self.hold_proxy(None),
            Target::Server => self.hold_server(None),
            Target::Socks => (),
        }
    }
}

/// What is noted for a target, unless it is the one that is challenged.
pub(crate) fn unless_it(challenged: Target, target: Target, gift: Option<Gift>) -> Option<Gift>
    ensures { result ≡ unless_it challenged target gift }
{
    if same_target(target, challenged) {
        None
    } else {
        gift
    }
}
