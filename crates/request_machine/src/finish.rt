//! The trace of a request that is over.

ghost use Rattle.std.specs.Prelude.{◌≡◌, None};

use crate::machine::Machine;
use crate::stage::Stage;
use auth_runs::Trace;
use auth_text::Items;

impl Machine {
    ghost use Rattle.std.specs.Prelude.{◌≡◌, None, reverse};
    ghost use Rattle.trace_rule.specs.Settings.{Setting};
    ghost use Rattle.trace_rule.specs.Traces.{IsTrace};
    ghost use Rattle.request_machine.specs.Kept.{Ties};
    ghost use Rattle.request_machine.specs.Rooms.{HasSetting};

    /// All events of the request, once nothing follows and no link is open. It takes no memory.
    pub fn finish(self) -> Trace
        requires over { self.stage ≡ Stage.Over }
        requires closed { self.link ≡ None }
        requires tied { HasSetting self }
        ensures events { result ≡ reverse self.past }
        ensures trace { (s : Setting) → Ties s self → IsTrace s result }
    {
        let Machine {
            events,
            link,
            number: _,
            seed: _,
            is_proxied: _,
            stage: _,
            drawn_proxy: _,
            drawn_server: _,
            noted_proxy: _,
            noted_server: _,
            links: _,
            heads: _,
            rounds: _,
            code: _,
            is_dialed: _,
            stays: _,
            has_lost: _,
            has_none: _,
            prompt: _,
            proxy: _proxy,
            server: _server,
            given: _given,
            peer: _peer,
            unnamed_space: _unnamed_space,
            unnamed_terms: _unnamed_terms,
            space: _space,
        } = self;
        match link {
            None => Trace::new(Items::of_vec(events)),
            Some(_) => unreachable!(),
        }
    }
}
