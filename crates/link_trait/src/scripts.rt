//! Prompters in memory, which answer as a session's answers say.

ghost use Rattle.std.specs.Prelude.{◌≡◌, [], IfOk};
ghost use Rattle.link_trait.specs.Prompts.{answer_in};

use crate::answers::{Answers, copy_given};
use crate::calls::{Calls, Failures};
use crate::prompts::{Ask, Asked, Prompter};
use crate::table::AnswerTable;
use auth_text::{Items, NoMemory};
use spaces::{Space, copy_space};
use std::alloc::Global;
use std::marker::Model;

/// A prompter that answers from a list, and cancels past a space's last answer. It never fails.
#[derive(Drop)]
pub struct ScriptPrompter {
    answers: AnswerTable,
    asks: Items<Ask>,
}

impl Model for ScriptPrompter {
    ghost use Rattle.link_trait.specs.Prompts.{PrompterState};

    ghost Value = { PrompterState };

    ghost view = { λ it. record { answers = it.answers; asks = it.asks } };
}

impl ScriptPrompter {
    ghost use Rattle.std.specs.Prelude.{Some};

    /// A prompter with a copy of the answers. It has answered nothing yet.
    pub fn new(alloc: Global, answers: &Answers) -> Result<ScriptPrompter, NoMemory>
        ensures answers { IfOk result (λ it. ⟦<ScriptPrompter as Prompter>⟧.answers it
            ≡ Some (answer_in answers.now)) }
        ensures told { IfOk result (λ it. ⟦<ScriptPrompter as Prompter>⟧.told it ≡ Some []) }
        ensures faults { IfOk result (λ it. ⟦<ScriptPrompter as Prompter>⟧.faults it ≡ 0) }
        ensures quiet { IfOk result (λ it. ⟦<ScriptPrompter as Prompter>⟧.quiet it) }
    {
        Ok(ScriptPrompter {
            answers: AnswerTable::new(alloc, answers.as_slice())?,
            asks: Items::new(alloc),
        })
    }
}

impl Prompter for ScriptPrompter {
    ghost use Rattle.std.specs.Prelude.{Some, map};
    ghost use Rattle.link_trait.specs.Prompts.{answered_by};
    ghost use Rattle.link_trait.specs.PrompterLaws.{asks_are, alike};

    ghost told = { λ it. Some it.asks };

    ghost answered = { λ it. Some (map (answered_by it.answers) it.asks) };

    ghost asks = { λ it. asks_are it.answers it.asks };

    ghost alike = { λ it. alike it.answers it.asks };

    ghost answers = { λ it. Some (answer_in it.answers) };

    ghost faults = { λ it. 0 };

    ghost quiet = { λ it. Unit {0} };

    fn ask(&mut self, space: &Space, ordinal: u32) -> Asked {
        let Ok(asked_for) = copy_space(space) else {
            return Asked::NoMemory;
        };
        let Ok(found) = self.answers.answer_to(space, ordinal) else {
            return Asked::NoMemory;
        };
        let Ok(given) = copy_given(found) else {
            return Asked::NoMemory;
        };
        match self.asks.push(Ask {
            space: asked_for,
            ordinal,
        }) {
            Err(_) => Asked::NoMemory,
            Ok(()) => match given {
                Some(identity) => Asked::Given(identity),
                None => Asked::Cancel,
            },
        }
    }

    fn faults(&self) -> u64 {
        0
    }
}

/// A prompter that fails at listed calls, and answers as a script at the others.
#[derive(Drop)]
pub struct FailingPrompter {
    script: ScriptPrompter,
    failures: Failures,
}

impl Model for FailingPrompter {
    ghost use Rattle.link_trait.specs.Prompts.{FailingState};

    ghost Value = { FailingState };

    ghost view = { λ it. record { script = it.script; counts = it.failures } };
}

impl FailingPrompter {
    ghost use Rattle.std.specs.Prelude.{Some};

    /// A prompter with a copy of the answers, whose asks of the listed numbers fail.
    pub fn new(
        alloc: Global,
        answers: &Answers,
        failing: Calls,
    ) -> Result<FailingPrompter, NoMemory>
        ensures answers { IfOk result (λ it. ⟦<FailingPrompter as Prompter>⟧.answers it
            ≡ Some (answer_in answers.now)) }
        ensures told { IfOk result (λ it. ⟦<FailingPrompter as Prompter>⟧.told it ≡ Some []) }
        ensures faults { IfOk result (λ it. ⟦<FailingPrompter as Prompter>⟧.faults it ≡ 0) }
        ensures schedule { IfOk result (λ it. ⟦<FailingPrompter as Prompter>⟧.schedule it
            ≡ Some (record { made = 0; listed = failing })) }
        ensures quiet { failing ≡ []
            → IfOk result (λ it. ⟦<FailingPrompter as Prompter>⟧.quiet it) }
    {
        Ok(FailingPrompter {
            script: ScriptPrompter::new(alloc, answers)?,
            failures: Failures::new(failing),
        })
    }
}

impl Prompter for FailingPrompter {
    ghost use Rattle.std.specs.Prelude.{Some, map};
    ghost use Rattle.link_trait.specs.Prompts.{answered_by};
    ghost use Rattle.link_trait.specs.PrompterLaws.{asks_are, alike};

    ghost told = { λ it. Some it.script.asks };

    ghost answered = { λ it. Some (map (answered_by it.script.answers) it.script.asks) };

    ghost asks = { λ it. asks_are it.script.answers it.script.asks };

    ghost alike = { λ it. alike it.script.answers it.script.asks };

    ghost answers = { λ it. Some (answer_in it.script.answers) };

    ghost faults = { λ it. it.counts.faults };

    ghost schedule = { λ it. Some it.counts.schedule };

    ghost quiet = { λ it. it.counts.schedule.listed ≡ [] };

    fn ask(&mut self, space: &Space, ordinal: u32) -> Asked {
        if self.failures.next_fails() {
            return Asked::Failed;
        }
        self.script.ask(space, ordinal)
    }

    fn faults(&self) -> u64 {
        self.failures.faults()
    }
}
