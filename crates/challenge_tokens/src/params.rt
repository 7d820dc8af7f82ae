//! The parameters of one challenge. Distinct names are a fact of the type, so that no reader of a
//! challenge has to say which of two realms counts.

ghost use Rattle.std.specs.Prelude.{◌≡◌, ◌∷◌, ◌++◌, [], ◌<◌, IsTrue, false, length, slice_get};
ghost use Rattle.std.specs.Prelude.{OnSome, OnOk, OnErr, IfErr, MatchOption};
ghost use Rattle.std.specs.Option.{option_copied};
ghost use Rattle.challenge_tokens.specs.Names.{is_lower, has_name, are_params, is_same_name};
ghost use Rattle.challenge_tokens.specs.Names.{value_under};

use auth_text::{Bytes, Items};
use std::alloc::{AllocFailed, Global};
use std::marker::Model;

/// A parameter: its name in lower case, and its value without quotes and escapes.
#[derive(Clone, Debug, Drop, PartialEq, Eq)]
pub struct Param {
    pub name: Bytes,
    pub value: Bytes,
}

/// Parameters in order, with names in lower case of which no two are equal.
#[derive(Clone, Debug, Drop, PartialEq, Eq)]
pub struct Params {
    items: Items<Param>,
}

impl Model for Params {
    ghost use Rattle.std.specs.Prelude.{List, IsTrue};
    ghost use Rattle.challenge_tokens.specs.declared.params.Param.{Param};
    ghost use Rattle.challenge_tokens.specs.Names.{are_params};

    ghost Value = { List Param };

    ghost view = { λ p. p.items };

    ghost invariant = { λ p. IsTrue (are_params p.items) };

    ghost inverse = { λ ps. record { items = ps } };
}

impl Params {
    /// No parameters; it takes no memory yet.
    pub fn new(alloc: Global) -> Params
        ensures { result ≡ [] }
    {
        Params {
            items: Items::new(alloc),
        }
    }

    /// How many parameters there are.
    pub fn len(&self) -> usize
        ensures { result ≡ length self.now }
    {
        self.items.len()
    }

    /// The parameter at a place, counted from 0.
    pub fn get(&self, at: usize) -> Option<&Param>
        ensures value { option_copied result ≡ slice_get self.now at }
        ensures within { OnSome result (at < length self.now) }
    {
        self.items.get(at)
    }

    /// All parameters, in order.
    pub(crate) fn as_slice(&self) -> &[Param]
        ensures value { result.now ≡ self.now }
        ensures fit { IsTrue (are_params self.now) }
    {
        self.items.as_slice()
    }

    /// Tells whether there is a parameter of this lower-case name: the test for `push`.
    pub fn has(&self, name: &[u8]) -> bool
        ensures { result ≡ has_name name.now self.now }
    {
        self.items
            .as_slice()
            .iter()
            .any(|p| p.name.as_slice() == name)
    }

    /// Takes the last parameter out, where there is one.
    pub fn pop(&mut self) -> Option<Param>
        ensures { MatchOption result ((self.old ≡ [])
            × (self.new ≡ [])) (λ last. self.old ≡ self.new ++ last ∷ []) }
    {
        self.items.pop()
    }

    /// Adds a parameter at the end. Its name is in lower case, and no parameter has it yet. After
    /// want of memory the list is as before, and the parameter is handed back.
    pub fn push(&mut self, param: Param) -> Result<(), AllocFailed<Param>>
        requires lower { IsTrue (is_lower param.name) }
        requires fresh { has_name param.name self.old ≡ false }
        ensures ok { OnOk result (self.new ≡ self.old ++ param ∷ []) }
        ensures err { OnErr result (self.new ≡ self.old) }
        ensures back { IfErr result (λ refused. refused.value ≡ param) }
    {
        self.items.push(param)
    }
}

/// The value of the first parameter of this name, compared without letter case.
pub fn value_of<'a>(params: &'a [Param], name: &[u8]) -> Option<&'a [u8]>
    ensures { option_copied result ≡ value_under name.now params.now }
{
    for param in params {
        if has_same_name(param.name.as_slice(), name) {
            return Some(param.value.as_slice());
        }
    }
    None
}

#[tactic(auto, using(crate::proofs::NameLemmas::decided_name))]
fn has_same_name(a: &[u8], b: &[u8]) -> bool
    ensures { result ≡ is_same_name a.now b.now }
{
    a.eq_ignore_ascii_case(b)
}
