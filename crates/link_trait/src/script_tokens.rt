//! A provider of tokens in memory, which takes the steps that a session lists.

ghost use Rattle.std.specs.Prelude.{◌≡◌, ◌⊎◌, ◌<◌, ◌≤◌, [], ◌∷◌, ◌++◌, true, false, option_copied};
ghost use Rattle.std.specs.Prelude.{unwrap_or, IfOk, OnOk, OnErr};
ghost use Rattle.link_trait.specs.declared.steps.Step.TheVariants.{NoMechanism, Failed};
ghost use Rattle.link_trait.specs.declared.tokens.TokenCall.TheVariants.{Started, WentOn};
ghost use Rattle.link_trait.specs.Tokens.{is_answered, step_at, taken_by, taking, are_quiet};

use crate::answers::copy_given;
use crate::numbering::numbered;
use crate::steps::{Step, Steps};
use crate::taken::Taken;
use crate::tokens::{TokenCall, Tokens};
use auth_text::{Bytes, Identity, Items, NoMemory};
use std::alloc::Global;
use std::marker::Model;

/// A provider that answers the nth call of a request by the request's nth step, and past the end
/// that there is no mechanism. A listed failure raises the count.
#[derive(Drop)]
pub struct ScriptTokens {
    alloc: Global,
    script: Steps,
    told: Items<TokenCall>,
    taken: Taken,
    faults: u64,
}

impl Model for ScriptTokens {
    ghost use Rattle.std.specs.Prelude.{◌≤◌, length};
    ghost use Rattle.link_trait.specs.Tokens.{TokensState};

    ghost Value = { TokensState };

    ghost view = { λ it.
        record { script = it.script; told = it.told; taken = it.taken; faults = it.faults } };

    ghost invariant = { λ it. it.faults ≤ length it.taken };
}

fn is_answered(step: &Step) -> bool
    ensures { result ≡ is_answered step.now }
{
    !matches!(step, Step::Failed | Step::NoMemory)
}

// A copy of the step; where there is none, there is no mechanism.
fn copy_step(alloc: Global, step: Option<&Step>) -> Result<Step, NoMemory>
    ensures { IfOk result (λ copy. copy ≡ unwrap_or (option_copied step.entry) NoMechanism) }
{
    Ok(match step {
        None | Some(Step::NoMechanism) => Step::NoMechanism,
        Some(Step::Token(token)) => Step::Token(Bytes::from_slice(alloc, token.as_slice())?),
        Some(Step::Done) => Step::Done,
        Some(Step::Refused) => Step::Refused,
        Some(Step::Failed) => Step::Failed,
        Some(Step::NoMemory) => Step::NoMemory,
    })
}

impl ScriptTokens {
    ghost use Rattle.std.specs.Prelude.{Some};

    /// A provider of the steps, listed for each request. It was not called yet.
    pub fn new(alloc: Global, steps: Steps) -> ScriptTokens
        ensures script { ⟦<ScriptTokens as Tokens>⟧.script result ≡ Some steps }
        ensures told { ⟦<ScriptTokens as Tokens>⟧.told result ≡ Some [] }
        ensures taken { ⟦<ScriptTokens as Tokens>⟧.taken result ≡ Some [] }
        ensures faults { ⟦<ScriptTokens as Tokens>⟧.faults result ≡ 0 }
        ensures quiet { are_quiet steps ≡ true → ⟦<ScriptTokens as Tokens>⟧.quiet result }
    {
        ScriptTokens {
            alloc,
            script: steps,
            told: Items::new(alloc),
            taken: Taken::new(alloc),
            faults: 0,
        }
    }

    // The request's next step.
    fn next_step(&self, request: u32) -> Result<Step, NoMemory>
        ensures { IfOk result (λ step. step
            ≡ step_at self.now.script request (taken_by request self.now.taken)) }
    {
        let place = self.taken.by(request);
        let step = match numbered(&self.script, request) {
            None => None,
            Some(steps) => steps.get(place),
        };
        copy_step(self.alloc, step)
    }

    // Takes a step that is a failure, or a want of memory.
    fn unanswered(&mut self, request: u32, step: Step) -> Step
        requires { is_answered step ≡ false }
        ensures step { (result ≡ Step.NoMemory) ⊎ (result ≡ step) }
        ensures script { self.new.script ≡ self.old.script }
        ensures told { self.new.told ≡ self.old.told }
        ensures taken { self.new.taken ≡ self.old.taken ++ taking result request }
        ensures later { self.old.faults ≤ self.new.faults }
        ensures failed { result ≡ Failed → self.old.faults < self.new.faults }
        ensures unanswered { is_answered result ≡ false }
    {
        if matches!(step, Step::NoMemory) || self.taken.push(request).is_err() {
            return Step::NoMemory;
        }
        prove!(self.faults < self.taken.len() as u64);
        self.faults += 1;
        Step::Failed
    }

    // Tells an answered call.
    fn tell(&mut self, request: u32, call: TokenCall) -> Result<(), NoMemory>
        ensures ok { OnOk result (self.new
            ≡ record {
              script = self.old.script;
              told = self.old.told ++ call ∷ [];
              taken = self.old.taken ++ request ∷ [];
              faults = self.old.faults;
            }) }
        ensures err { OnErr result (self.new ≡ self.old) }
    {
        let len = self.told.len();
        self.told.push(call)?;
        match self.taken.push(request) {
            Ok(()) => Ok(()),
            Err(_) => {
                self.told.truncate(len);
                Err(NoMemory)
            }
        }
    }

    fn tell_start(
        &mut self,
        request: u32,
        spn: &[u8],
        identity: Option<&Identity>,
        step: &Step,
    ) -> Result<(), NoMemory>
        ensures ok { OnOk result (self.new
            ≡ record {
              script = self.old.script;
              told = self.old.told
                  ++ Started request spn.now (option_copied identity.entry) step.now ∷ [];
              taken = self.old.taken ++ request ∷ [];
              faults = self.old.faults;
            }) }
        ensures err { OnErr result (self.new ≡ self.old) }
    {
        let call = TokenCall::Started {
            request,
            spn: Bytes::from_slice(self.alloc, spn)?,
            identity: copy_given(identity)?,
            step: copy_step(self.alloc, Some(step))?,
        };
        self.tell(request, call)
    }

    fn tell_onward(&mut self, request: u32, token: &[u8], step: &Step) -> Result<(), NoMemory>
        ensures ok { OnOk result (self.new
            ≡ record {
              script = self.old.script;
              told = self.old.told ++ WentOn request token.now step.now ∷ [];
              taken = self.old.taken ++ request ∷ [];
              faults = self.old.faults;
            }) }
        ensures err { OnErr result (self.new ≡ self.old) }
    {
        let call = TokenCall::WentOn {
            request,
            token: Bytes::from_slice(self.alloc, token)?,
            step: copy_step(self.alloc, Some(step))?,
        };
        self.tell(request, call)
    }
}

impl Tokens for ScriptTokens {
    ghost use Rattle.std.specs.Prelude.{Some};

    ghost told = { λ it. Some it.told };

    ghost script = { λ it. Some it.script };

    ghost taken = { λ it. Some it.taken };

    ghost faults = { λ it. it.faults };

    ghost quiet = { λ it. are_quiet it.script ≡ true };

    fn start(&mut self, request: u32, spn: &[u8], identity: Option<&Identity>) -> Step {
        let Ok(step) = self.next_step(request) else {
            return Step::NoMemory;
        };
        if !is_answered(&step) {
            return self.unanswered(request, step);
        }
        match self.tell_start(request, spn, identity, &step) {
            Ok(()) => step,
            Err(_) => Step::NoMemory,
        }
    }

    fn go_on(&mut self, request: u32, token: &[u8]) -> Step {
        let Ok(step) = self.next_step(request) else {
            return Step::NoMemory;
        };
        if !is_answered(&step) {
            return self.unanswered(request, step);
        }
        match self.tell_onward(request, token, &step) {
            Ok(()) => step,
            Err(_) => Step::NoMemory,
        }
    }

    fn faults(&self) -> u64 {
        self.faults
    }
}
