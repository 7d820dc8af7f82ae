//! The names of the challenge that is answered: its space's number, and that of its terms.

ghost use Rattle.std.specs.Prelude.{◌≡◌};

use crate::machine::Machine;
use crate::stage::Stage;
use spaces::Target;

impl Machine {
    ghost use Rattle.std.specs.Prelude.{◌≡◌, IsTrue, is_some, if◌then◌else◌};
    ghost use Rattle.trace_rule.specs.Settings.{Setting};
    ghost use Rattle.request_machine.specs.Gives.{IsSpaceNamed, AreTermsNamed};
    ghost use Rattle.request_machine.specs.Linked.{line, way, goes_on};
    ghost use Rattle.request_machine.specs.Kept.{Ties};

    /// The space has a number. Only the terms of a Digest challenge are named.
    #[tactic(auto, using(crate::proofs::Numbers::space_named_ties, crate::proofs::Numbers::space_with_terms_ties))]
    pub(crate) fn space_named(&mut self, target: Target, space: u32)
        requires stage { self.old.stage ≡ Stage.NameSpace target }
        ensures past { self.new.past ≡ self.old.past }
        ensures kept { line self.new ≡ line self.old }
        ensures goes { IsTrue (goes_on (way self.old.stage) (way self.new.stage)) }
        ensures stage { self.new.stage ≡ (if is_some self.old.unnamed_terms
            then Stage.NameTerms target space else Stage.Select target space 0) }
        ensures rest { self.new ≡ record self.old { stage = self.new.stage } }
        ensures ties { (s : Setting) → IsSpaceNamed s self.old space → Ties s self.old
            → Ties s self.new }
    {
        if self.unnamed_terms.is_some() {
            self.stage = Stage::NameTerms(target, space);
        } else {
            self.stage = Stage::Select(target, space, 0);
        }
    }

    /// The terms have a number: the book chooses an identity for the target.
    #[tactic(auto, using(crate::proofs::Numbers::terms_named_ties))]
    pub(crate) fn terms_named(&mut self, target: Target, space: u32, terms: u32)
        requires stage { self.old.stage ≡ Stage.NameTerms target space }
        ensures past { self.new.past ≡ self.old.past }
        ensures kept { line self.new ≡ line self.old }
        ensures goes { IsTrue (goes_on (way self.old.stage) (way self.new.stage)) }
        ensures stage { self.new.stage ≡ Stage.Select target space terms }
        ensures rest { self.new ≡ record self.old { stage = self.new.stage } }
        ensures ties { (s : Setting) → AreTermsNamed s self.old space terms → Ties s self.old
            → Ties s self.new }
    {
        self.stage = Stage::Select(target, space, terms);
    }
}
