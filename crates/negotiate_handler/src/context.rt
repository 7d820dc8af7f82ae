//! A context from its first token to its last: each token is the provider's answer to the call that
//! asked for it, and is sent once. A request has one context at a time.

ghost use Rattle.std.specs.Prelude.{◌≡◌, ◌≤◌, true, false, option_copied, IfOk};
ghost use Rattle.link_trait.specs.declared.steps.Step.{Step as ItsStep};
ghost use Rattle.link_trait.specs.Faults.{Rose};
ghost use Rattle.link_trait.specs.Tokens.{starting, going_on};
ghost use Rattle.negotiate_handler.specs.Contexts.{HasAnswered, begun, gone_on, is_failed};
ghost use Rattle.negotiate_handler.specs.Tokens.{negotiate_credentials};

use auth_text::{Bytes, Identity, NoMemory};
use base64::engine::general_purpose::STANDARD;
use link_trait::{Step, Tokens};
use std::alloc::Global;
use std::marker::Model;

/// A context with a token that is to be sent to the peer. It is seen as that token.
#[derive(Debug, Drop)]
pub struct Context {
    token: Bytes,
}

impl Model for Context {
    ghost use Rattle.std.specs.Prelude.{List, ℕ};

    ghost Value = { List ℕ };

    ghost view = { λ it. it.token };
}

/// How a provider ended a context, in its own words.
#[derive(Clone, Copy, Debug, PartialEq, Eq)]
pub enum Said {
    /// It refused the identity or the peer's token.
    Refused,
    /// The context stands, and has no further token.
    Done,
    /// There is no mechanism for this peer.
    NoMechanism,
}

/// What a step of a context comes to.
#[derive(Debug, Drop)]
pub enum Stepped {
    /// There is a token to be sent.
    Ready(Context),
    /// The peer asks for a token, and the provider has none.
    Refused(Said),
    /// There is no mechanism for this peer, so no context began.
    NoMechanism,
    /// The provider failed; its count of faults then, which rose.
    Failed { count: u64 },
    /// There was no memory.
    NoMemory,
}

impl Context {
    /// Asks the provider for the first token of a context with a service, which is named `HTTP@`
    /// and the host. Without an identity the default one is meant.
    pub fn begin<T: Tokens>(
        tokens: &mut T,
        request: u32,
        spn: &[u8],
        identity: Option<&Identity>,
    ) -> Stepped
        ensures answered { (step : ItsStep)
            × HasAnswered (T.told tokens.old) (T.told tokens.new)
            (starting step request spn.now (option_copied identity.entry))
            (T.script tokens.old) (T.taken tokens.old) (T.taken tokens.new) request step
            × (result ≡ begun step (T.faults tokens.new)) }
        ensures script { T.script tokens.new ≡ T.script tokens.old }
        ensures later { T.faults tokens.old ≤ T.faults tokens.new }
        ensures failed { is_failed result ≡ true
            → Rose T.sticks (T.faults tokens.old) (T.faults tokens.new) }
        ensures quiet { T.quiet tokens.old → T.quiet tokens.new × (is_failed result ≡ false) }
    {
        match tokens.start(request, spn, identity) {
            Step::Token(token) => Stepped::Ready(Context { token }),
            Step::Done => Stepped::Refused(Said::Done),
            Step::Refused => Stepped::Refused(Said::Refused),
            Step::NoMechanism => Stepped::NoMechanism,
            Step::Failed => Stepped::Failed {
                count: tokens.faults(),
            },
            Step::NoMemory => Stepped::NoMemory,
        }
    }

    /// Asks the provider for the token that answers the peer's. A context that has begun is refused
    /// where the provider has no further token, whatever it says.
    pub fn go_on<T: Tokens>(self, tokens: &mut T, request: u32, token: &[u8]) -> Stepped
        ensures answered { (step : ItsStep)
            × HasAnswered (T.told tokens.old) (T.told tokens.new) (going_on step request token.now)
            (T.script tokens.old) (T.taken tokens.old) (T.taken tokens.new) request step
            × (result ≡ gone_on step (T.faults tokens.new)) }
        ensures script { T.script tokens.new ≡ T.script tokens.old }
        ensures later { T.faults tokens.old ≤ T.faults tokens.new }
        ensures failed { is_failed result ≡ true
            → Rose T.sticks (T.faults tokens.old) (T.faults tokens.new) }
        ensures quiet { T.quiet tokens.old → T.quiet tokens.new × (is_failed result ≡ false) }
    {
        match tokens.go_on(request, token) {
            Step::Token(token) => Stepped::Ready(Context { token }),
            Step::Done => Stepped::Refused(Said::Done),
            Step::Refused => Stepped::Refused(Said::Refused),
            Step::NoMechanism => Stepped::Refused(Said::NoMechanism),
            Step::Failed => Stepped::Failed {
                count: tokens.faults(),
            },
            Step::NoMemory => Stepped::NoMemory,
        }
    }

    /// The token that is to be sent.
    pub fn token(&self) -> &[u8]
        ensures { result.now ≡ self.now }
    {
        self.token.as_slice()
    }

    /// The value of a credentials field with the token: `Negotiate `, then its base64
    /// (RFC 4559 section 4.2). A token of no bytes leaves the space at the end.
    pub fn field(&self, alloc: Global) -> Result<Bytes, NoMemory>
        ensures { IfOk result (λ text. text ≡ negotiate_credentials self.now) }
    {
        let token = STANDARD.encode(alloc, self.token.as_slice())?;
        let mut text = Bytes::new(alloc);
        text.extend_from_slice(b"Negotiate ")?;
        text.extend_from_slice(token.as_bytes())?;
        Ok(text)
    }
}

#[cfg(test)]
mod tests {
    use super::*;
    use auth_text::Items;
    use link_trait::{ScriptTokens, Steps};
    use std::test::Fail;

    /// A provider in memory of two tokens.
    fn provider(alloc: Global) -> Result<ScriptTokens, NoMemory> {
        let mut listed = Items::new(alloc);
        listed.push(Step::Token(Bytes::from_slice(alloc, b"one")?))?;
        listed.push(Step::Token(Bytes::from_slice(alloc, b"two")?))?;
        let mut steps = Steps::new(alloc);
        steps.push(listed)?;
        Ok(ScriptTokens::new(alloc, steps))
    }

    /// What the second step comes to, where the first gives that token.
    fn second_step(tokens: &mut ScriptTokens, first: &[u8]) -> Option<Stepped> {
        match Context::begin(tokens, 1, b"HTTP@s.example", None) {
            Stepped::Ready(context) if context.token() == first => {
                Some(context.go_on(tokens, 1, b"r1"))
            }
            _ => None,
        }
    }

    // The base64 of `two` is that of RFC 4648.
    #[test]
    fn sends_the_second_token(rt: HostRuntime) -> Result<(), Fail> {
        let mut tokens = provider(rt.alloc()).map_err(|_| "memory")?;
        let Some(Stepped::Ready(context)) = second_step(&mut tokens, b"one") else {
            return Err("no token".into());
        };
        let field = context.field(rt.alloc()).map_err(|_| "memory")?;
        assert!(rt; field.as_slice() == b"Negotiate dHdv".as_slice());
        Ok(())
    }
}
