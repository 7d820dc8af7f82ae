//! A challenge while its parameters are gathered.

ghost use Rattle.std.specs.Prelude.{◌≡◌, ◌∷◌, [], IsTrue, IfOk};
ghost use Rattle.challenge_tokens.specs.declared.challenge.Body.TheVariants.{Token68};
ghost use Rattle.challenge_tokens.specs.Names.{is_lower};
ghost use Rattle.challenge_tokens.specs.Bodies.{closed};
ghost use Rattle.challenge_tokens.specs.Pieces.{extend, takes_params, begun};

use crate::challenge::{Body, Challenge};
use crate::gathering::Gathering;
use crate::params::Param;
use auth_text::{Bytes, NoMemory};
use std::alloc::Global;
use std::marker::Model;

/// What follows the scheme so far.
#[derive(Drop)]
pub enum Argument {
    Nothing,
    Token(Bytes),
    Gathered(Gathering),
}

/// The challenge begun last.
#[derive(Drop)]
pub struct Begun {
    scheme: Bytes,
    argument: Argument,
}

impl Model for Begun {
    ghost use Rattle.challenge_tokens.specs.declared.challenge.Challenge.{Challenge};
    ghost use Rattle.challenge_tokens.specs.Bodies.{closed};

    ghost Value = { Challenge };

    ghost view = { λ b. record { scheme = b.scheme; body = closed b.argument } };
}

fn closed(argument: Argument) -> Body
    ensures { result ≡ closed argument }
{
    match argument {
        Argument::Nothing => Body::Bare,
        Argument::Token(token) => Body::Token68(token),
        Argument::Gathered(params) => Body::Params(params.into_params()),
    }
}

fn extended(alloc: Global, argument: Argument, param: Param) -> Result<Argument, NoMemory>
    requires { IsTrue (is_lower param.name) }
    ensures { IfOk result (λ next. closed next ≡ extend (closed argument) (param ∷ [])) }
{
    match argument {
        Argument::Nothing => Ok(Argument::Gathered(Gathering::new(alloc).with(alloc, param)?)),
        Argument::Gathered(params) => Ok(Argument::Gathered(params.with(alloc, param)?)),
        Argument::Token(token) => Ok(Argument::Token(token)),
    }
}

impl Begun {
    /// A scheme alone.
    pub fn bare(scheme: Bytes) -> Begun
        ensures { result ≡ begun scheme [] }
    {
        Begun {
            scheme,
            argument: Argument::Nothing,
        }
    }

    /// A scheme and a token68.
    pub fn with_token(scheme: Bytes, token: Bytes) -> Begun
        ensures { result ≡ record { scheme = scheme; body = Token68 token } }
    {
        Begun {
            scheme,
            argument: Argument::Token(token),
        }
    }

    /// Tells whether a parameter may follow.
    pub fn takes_params(&self) -> bool
        ensures { result ≡ takes_params self.now.body }
    {
        !matches!(&self.argument, Argument::Token(_))
    }

    /// With one more parameter, unless its name is there.
    pub fn with(self, alloc: Global, param: Param) -> Result<Begun, NoMemory>
        requires { IsTrue (is_lower param.name) }
        ensures { IfOk result (λ next. next
            ≡ record { scheme = self.scheme; body = extend self.body (param ∷ []) }) }
    {
        let Begun { scheme, argument } = self;
        let argument = extended(alloc, argument, param)?;
        Ok(Begun { scheme, argument })
    }

    /// The challenge, with the parameters gathered so far.
    pub fn into_challenge(self) -> Challenge
        ensures { result ≡ self }
    {
        let Begun { scheme, argument } = self;
        Challenge {
            scheme,
            body: closed(argument),
        }
    }
}
