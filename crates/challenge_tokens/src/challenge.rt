//! What a list of challenges is read as: challenges in order, each a scheme with its body.

ghost use Rattle.std.specs.Prelude.{◌≡◌};
ghost use Rattle.std.specs.Option.{option_copied};
ghost use Rattle.challenge_tokens.specs.Bodies.{value_in};

use crate::params::{Params, value_of};
use auth_text::{Bytes, Items};

/// What follows the scheme of a challenge.
#[derive(Clone, Debug, Drop, PartialEq, Eq)]
pub enum Body {
    /// Nothing.
    Bare,
    /// A token68 (RFC 7235 section 2.1), as Negotiate has it.
    Token68(Bytes),
    /// One or more parameters where it was read from a field.
    Params(Params),
}

/// A challenge: its scheme in lower case, and what follows it.
#[derive(Clone, Debug, Drop, PartialEq, Eq)]
pub struct Challenge {
    pub scheme: Bytes,
    pub body: Body,
}

/// A list of challenges, in order.
pub type Challenges = Items<Challenge>;

/// What a field gives.
#[derive(Clone, Debug, Drop, PartialEq, Eq)]
pub struct FieldRead {
    /// The challenges begun before the first bad piece, with the parameters joined so far.
    pub challenges: Challenges,
    /// The place of the first bad piece's first byte in the value, counted from 0.
    pub bad_at: Option<usize>,
}

impl Challenge {
    /// The value of the parameter of this name, compared without letter case.
    pub fn param(&self, name: &[u8]) -> Option<&[u8]>
        ensures { option_copied result ≡ value_in name.now self.now.body }
    {
        match &self.body {
            Body::Params(params) => value_of(params.as_slice(), name),
            _ => None,
        }
    }
}
