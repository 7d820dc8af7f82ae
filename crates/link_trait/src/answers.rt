//! The answers of a session: what prompts are answered with, space by space.

ghost use Rattle.std.specs.Prelude.{◌≡◌, [], ◌∷◌, ◌++◌, ◌<◌, length, slice_get, IfOk, IfErr, OnOk};
ghost use Rattle.std.specs.Prelude.{OnErr, OnSome};
ghost use Rattle.std.specs.Option.{option_copied};
ghost use Rattle.link_trait.specs.Repeated.{flat, times};

use auth_text::{Identity, Items, NoMemory};
use spaces::{Space, copy_identity, copy_space};
use std::alloc::{AllocFailed, Global};
use std::marker::Model;

/// An answer that is given so many times on end.
#[derive(Debug, Drop)]
pub(crate) struct Repeated {
    pub(crate) answer: (Space, Option<Identity>),
    pub(crate) count: usize,
}

/// The list of answers, each a space and the identity given, or none where the prompt is
/// cancelled. The nth answer of a space is for its prompt of ordinal n.
#[derive(Debug, Drop)]
pub struct Answers {
    answers: Items<Repeated>,
    len: usize,
}

impl Model for Answers {
    ghost use Rattle.std.specs.Prelude.{◌≡◌, List, Option, length};
    ghost use Rattle.auth_text.specs.Login.{Login};
    ghost use Rattle.spaces.specs.ProtectionSpaces.{ProtectionSpace};
    ghost use Rattle.link_trait.specs.Repeated.{flat};

    ghost Value = { List (ProtectionSpace × Option Login) };

    ghost view = { λ it. flat it.answers };

    ghost invariant = { λ it. it.len ≡ length (flat it.answers) };
}

/// A copy of the identity, where there is one.
pub(crate) fn copy_given(identity: Option<&Identity>) -> Result<Option<Identity>, NoMemory>
    ensures { IfOk result (λ copy. copy ≡ option_copied identity.entry) }
{
    match identity {
        None => Ok(None),
        Some(identity) => Ok(Some(copy_identity(identity)?)),
    }
}

/// A copy of the answer, with the number of its repeats.
pub(crate) fn copy_repeated(repeated: &Repeated) -> Result<Repeated, NoMemory>
    ensures { IfOk result (λ copy. copy ≡ repeated.now) }
{
    let space = copy_space(&repeated.answer.0)?;
    let given = copy_given(repeated.answer.1.as_ref())?;
    Ok(Repeated {
        answer: (space, given),
        count: repeated.count,
    })
}

// The answer at a place, counted from 0.
fn answer_at(answers: &[Repeated], at: usize) -> Option<&(Space, Option<Identity>)>
    ensures value { option_copied result ≡ slice_get (flat answers.now) at }
{
    let mut left = at;
    for repeated in answers {
        if left < repeated.count {
            return Some(&repeated.answer);
        }
        left -= repeated.count;
    }
    None
}

impl Answers {
    /// No answers.
    pub fn new(alloc: Global) -> Answers
        ensures { result ≡ [] }
    {
        Answers {
            answers: Items::new(alloc),
            len: 0,
        }
    }

    /// The number of answers.
    pub fn len(&self) -> usize
        ensures { result ≡ length self.now }
    {
        self.len
    }

    /// The answer at a place, counted from 0.
    pub fn get(&self, at: usize) -> Option<&(Space, Option<Identity>)>
        ensures value { option_copied result ≡ slice_get self.now at }
        ensures within { OnSome result (at < length self.now) }
    {
        answer_at(self.answers.as_slice(), at)
    }

    /// Adds an answer at the end. An `Err` changes nothing and hands the answer back.
    pub fn push(
        &mut self,
        answer: (Space, Option<Identity>),
    ) -> Result<(), AllocFailed<(Space, Option<Identity>)>>
        ensures ok { OnOk result (self.new ≡ self.old ++ answer ∷ []) }
        ensures err { OnErr result (self.new ≡ self.old) }
        ensures back { IfErr result (λ refused. refused.value ≡ answer) }
    {
        self.push_times(answer, 1)
    }

    /// Adds an answer at the end, so many times; it is kept once. An `Err` changes nothing and
    /// hands the answer back.
    pub fn push_times(
        &mut self,
        answer: (Space, Option<Identity>),
        count: usize,
    ) -> Result<(), AllocFailed<(Space, Option<Identity>)>>
        ensures ok { OnOk result (self.new ≡ self.old ++ times count answer) }
        ensures err { OnErr result (self.new ≡ self.old) }
        ensures back { IfErr result (λ refused. refused.value ≡ answer) }
    {
        let Some(len) = self.len.checked_add(count) else {
            return Err(AllocFailed { value: answer });
        };
        match self.answers.push(Repeated { answer, count }) {
            Ok(()) => {
                self.len = len;
                Ok(())
            }
            Err(refused) => Err(AllocFailed {
                value: refused.value.answer,
            }),
        }
    }

    /// The answers, in order, each with its number of repeats.
    pub(crate) fn as_slice(&self) -> &[Repeated]
        ensures { flat result.now ≡ self.now }
    {
        self.answers.as_slice()
    }
}
