//! A bound link that did not stay (RFC 4559): its contexts are lost, and a new link makes
//! up for the first one of a request.

ghost use Rattle.std.specs.Prelude.{◌≡◌, option_map, IsTrue, false};
ghost use Rattle.request_machine.specs.Contexts.{stage_lost};
ghost use Rattle.request_machine.specs.Linked.{way, is_away};
ghost use Rattle.request_machine.specs.Told.{lost_told};
ghost use Rattle.request_machine.specs.Work.{is_waiting};

use crate::holding::Holding;
use crate::machine::Machine;
use crate::stage::{Closing, Stage};
use auth_runs::{Event, Why};

impl Machine {
    ghost use Rattle.std.specs.Prelude.{◌≡◌, ◌<◌, ◌∷◌, IsTrue, false, length, option_map};
    ghost use Rattle.trace_rule.specs.Settings.{Setting};
    ghost use Rattle.request_machine.specs.Kept.{Ties};
    ghost use Rattle.request_machine.specs.Linked.{line, way, is_away};
    ghost use Rattle.request_machine.specs.Told.{lost_told};
    ghost use Rattle.request_machine.specs.Work.{is_waiting};

    /// No context goes on.
    fn lose_contexts(&mut self)
        ensures { self.new ≡ record self.old {
          proxy = option_map lost_told self.old.proxy;
          server = option_map lost_told self.old.server;
        } }
    {
        let proxy = self.take_proxy();
        self.hold_proxy(lost_told(proxy));
        let server = self.take_server();
        self.hold_server(lost_told(server));
    }

    /// The link is lost, and its contexts with it. The second one ends the request.
    pub(crate) fn lose(&mut self, link: u32)
        requires room { length self.old.past < 256 }
        requires stage { self.old.stage ≡ Stage.LoseLink link }
        ensures past { self.new.past ≡ Event.LinkLost link ∷ self.old.past }
        ensures kept { line self.new ≡ line self.old }
        ensures away { IsTrue (is_away (way self.new.stage)) }
        ensures free { is_waiting self.new.stage ≡ false }
        ensures ties { (s : Setting) → Ties s self.old → Ties s self.new }
    {
        let closing = self.refused_by(Why::BoundLost);
        self.push(Event::LinkLost { link });
        self.lose_contexts();
        self.stage = stage_lost(self.has_lost, closing);
        self.has_lost = true;
    }
}

/// What is held, without a context.
fn lost_told(held: Option<Holding>) -> Option<Holding>
    ensures { result ≡ option_map lost_told held }
{
    match held {
        None => None,
        Some(held) => Some(Holding {
            context: None,
            ..held
        }),
    }
}

/// Where the request stands behind a lost link, by whether one was lost before.
fn stage_lost(lost: bool, closing: Closing) -> Stage
    ensures stage { result ≡ stage_lost lost closing }
    ensures away { IsTrue (is_away (way result)) }
    ensures free { is_waiting result ≡ false }
{
    if lost {
        Stage::Close(closing)
    } else {
        Stage::Go
    }
}
