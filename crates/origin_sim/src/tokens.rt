//! A provider of tokens for simulated servers.

ghost use Rattle.std.specs.Prelude.{◌≡◌, [], ◌∷◌, ◌++◌, Some, true, List, codes, option_copied};
ghost use Rattle.std.specs.Prelude.{IfOk, OnErr};
ghost use Rattle.link_trait.specs.declared.tokens.TokenCall.{TokenCall};
ghost use Rattle.link_trait.specs.declared.tokens.TokenCall.TheVariants.{Started, WentOn};
ghost use Rattle.origin_sim.specs.Steps.{are_simulated, step_at};

use auth_text::{Bytes, Identity, Items, NoMemory};
use link_trait::{Step, TokenCall, Tokens};
use spaces::copy_identity;
use std::alloc::Global;

/// A provider that starts each context with the token `a`, and goes on with `c` where the peer's
/// token is `b`; any other it refuses. It never fails.
#[derive(Drop)]
pub struct SimTokens {
    alloc: Global,
    told: Items<TokenCall>,
    ghost simulated: { are_simulated told ≡ true },
}

fn copy_given(identity: Option<&Identity>) -> Result<Option<Identity>, NoMemory>
    ensures { IfOk result (λ copy. copy ≡ option_copied identity.entry) }
{
    match identity {
        None => Ok(None),
        Some(identity) => Ok(Some(copy_identity(identity)?)),
    }
}

/// The step at a peer's token.
fn step_at(alloc: Global, token: &[u8]) -> Result<Step, NoMemory>
    ensures { IfOk result (λ step. step ≡ step_at token.now) }
{
    if token == b"b".as_slice() {
        Ok(Step::Token(Bytes::from_slice(alloc, b"c")?))
    } else {
        Ok(Step::Refused)
    }
}

impl SimTokens {
    /// A provider that wasn't called yet.
    pub fn new(alloc: Global) -> SimTokens
        ensures told { ⟦<SimTokens as Tokens>⟧.told result ≡ Some [] }
        ensures faults { ⟦<SimTokens as Tokens>⟧.faults result ≡ 0 }
        ensures quiet { ⟦<SimTokens as Tokens>⟧.quiet result }
    {
        SimTokens {
            alloc,
            told: Items::new(alloc),
        }
    }

    /// Each step that it tells is `a` at a start, and `c` or a refusal at a peer's token.
    pub fn steps(&self)
        ensures { (calls : List TokenCall) → ⟦<SimTokens as Tokens>⟧.told self.now ≡ Some calls
            → are_simulated calls ≡ true }
    {}

    fn tell_start(
        &mut self,
        request: u32,
        spn: &[u8],
        identity: Option<&Identity>,
    ) -> Result<Step, NoMemory>
        ensures step { IfOk result (λ step. step ≡ Step.Token (codes "a")) }
        ensures told { IfOk result (λ step. self.new.told
            ≡ self.old.told ++ Started request spn.now (option_copied identity.entry) step ∷ []) }
        ensures err { OnErr result (self.new.told ≡ self.old.told) }
    {
        let step = Step::Token(Bytes::from_slice(self.alloc, b"a")?);
        let call = TokenCall::Started {
            request,
            spn: Bytes::from_slice(self.alloc, spn)?,
            identity: copy_given(identity)?,
            step: Step::Token(Bytes::from_slice(self.alloc, b"a")?),
        };
        self.told.push(call)?;
        Ok(step)
    }

    fn tell_onward(&mut self, request: u32, token: &[u8]) -> Result<Step, NoMemory>
        ensures told { IfOk result (λ step. self.new.told
            ≡ self.old.told ++ WentOn request token.now step ∷ []) }
        ensures step { IfOk result (λ step. step ≡ step_at token.now) }
        ensures err { OnErr result (self.new.told ≡ self.old.told) }
    {
        let step = step_at(self.alloc, token)?;
        let call = TokenCall::WentOn {
            request,
            token: Bytes::from_slice(self.alloc, token)?,
            step: step_at(self.alloc, token)?,
        };
        self.told.push(call)?;
        Ok(step)
    }
}

impl Tokens for SimTokens {
    ghost use Rattle.std.specs.Prelude.{Some, None};

    ghost told = { λ it. Some it.told };

    ghost script = { λ it. None };

    ghost taken = { λ it. None };

    ghost faults = { λ it. 0 };

    ghost quiet = { λ it. Unit {0} };

    fn start(&mut self, request: u32, spn: &[u8], identity: Option<&Identity>) -> Step {
        match self.tell_start(request, spn, identity) {
            Ok(step) => step,
            Err(NoMemory) => Step::NoMemory,
        }
    }

    fn go_on(&mut self, request: u32, token: &[u8]) -> Step {
        match self.tell_onward(request, token) {
            Ok(step) => step,
            Err(NoMemory) => Step::NoMemory,
        }
    }

    fn faults(&self) -> u64 {
        0
    }
}
