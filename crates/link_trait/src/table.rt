//! A list of answers in which the answer to a space's prompt is found without going over the
//! others: beside the list stands, for each space, where its answers are.

ghost use Rattle.std.specs.Prelude.{◌≡◌, [], ◌∷◌, ◌++◌, ◌+◌, ◌<◌, ◌≤◌, length, take, IfOk, OnOk};
ghost use Rattle.std.specs.Prelude.{option_copied};
ghost use Rattle.std.specs.List.Sorted.{IsNonDecreasingBy, IsPartitionPoint};
ghost use Rattle.link_trait.specs.Prompts.{answer_in};
ghost use Rattle.link_trait.specs.Repeated.{flat};
ghost use Rattle.link_trait.specs.Index.{at_runs, end_of, nth_answer, runs_at, AreEnds, IsAdded};
ghost use Rattle.link_trait.specs.Index.{IsIndexOf};

use crate::answers::{Repeated, copy_repeated};
use crate::space_key::{SpaceKey, key_of};
use auth_text::{Identity, Items, NoMemory};
use spaces::Space;
use std::alloc::Global;
use std::collections::BTreeMap;
use std::marker::Model;

/// Where a space's answer stands among all, and how many answers the space has up to its last
/// repeat.
#[derive(Clone, Copy)]
pub(crate) struct Run {
    place: usize,
    end: usize,
}

type Index = BTreeMap<SpaceKey, Items<Run>>;

/// A list of answers, with the runs of each space's answers.
#[derive(Drop)]
pub(crate) struct AnswerTable {
    alloc: Global,
    answers: Items<Repeated>,
    index: Index,
}

impl Model for AnswerTable {
    ghost use Rattle.std.specs.Prelude.{List, Option};
    ghost use Rattle.auth_text.specs.Login.{Login};
    ghost use Rattle.spaces.specs.ProtectionSpaces.{ProtectionSpace};
    ghost use Rattle.link_trait.specs.Repeated.{flat};
    ghost use Rattle.link_trait.specs.Index.{IsIndexOf};

    ghost Value = { List (ProtectionSpace × Option Login) };

    ghost view = { λ it. flat it.answers };

    ghost invariant = { λ it. IsIndexOf it.index it.answers it.answers };
}

fn copy_answers(alloc: Global, answers: &[Repeated]) -> Result<Items<Repeated>, NoMemory>
    ensures { IfOk result (λ copies. copies ≡ answers.now) }
{
    let mut copies = Items::new(alloc);
    for repeated in answers {
        copies.push(copy_repeated(repeated)?)?;
    }
    Ok(copies)
}

// Where the last run ends.
fn end_of(runs: &[Run]) -> usize
    ensures { result ≡ end_of runs.now }
{
    match runs.last() {
        Some(run) => run.end,
        None => 0,
    }
}

// Adds the run of an answer that is given so many times.
fn add_run(runs: &mut Items<Run>, place: usize, count: usize) -> Result<(), NoMemory>
    ensures { OnOk result (runs.new
        ≡ runs.old ++ record { place = place; end = end_of runs.old + count } ∷ []) }
{
    let Some(end) = end_of(runs.as_slice()).checked_add(count) else {
        return Err(NoMemory);
    };
    runs.push(Run { place, end })?;
    Ok(())
}

// Adds the run to those of the key.
fn add_at(
    alloc: Global,
    index: &mut Index,
    key: SpaceKey,
    place: usize,
    count: usize,
) -> Result<(), NoMemory>
    ensures { OnOk result (IsAdded index.old index.new key place count) }
{
    let runs = index.entry(key)?.or_insert(Items::new(alloc));
    add_run(runs, place, count)
}

// Notes the answer at a place.
fn note(
    alloc: Global,
    index: &mut Index,
    answers: &[Repeated],
    place: usize,
) -> Result<(), NoMemory>
    requires within { place < length answers.now }
    requires index { IsIndexOf index.old answers.now (take place answers.now) }
    ensures { OnOk result (IsIndexOf index.new answers.now (take (place + 1) answers.now)) }
{
    let repeated = &answers[place];
    let key = key_of(alloc, &repeated.answer.0)?;
    add_at(alloc, index, key, place, repeated.count)
}

fn index_of(alloc: Global, answers: &[Repeated]) -> Result<Index, NoMemory>
    ensures { IfOk result (λ index. IsIndexOf index answers.now answers.now) }
{
    let mut index = Index::new(alloc);
    for place in 0..answers.len() {
        note(alloc, &mut index, answers, place)?;
    }
    Ok(index)
}

// The runs of a key's space; none where it has no answer.
fn runs_at<'a>(index: &'a Index, key: &SpaceKey) -> &'a [Run]
    ensures { result.now ≡ runs_at index.now key.now }
{
    match index.get(key) {
        Some(runs) => runs.as_slice(),
        None => &[],
    }
}

// The place of the first run that ends behind a number.
fn first_behind(runs: &[Run], at: usize) -> usize
    requires { IsNonDecreasingBy (λ run. run.end) runs.now }
    ensures bound { result ≤ length runs.now }
    ensures parted { IsPartitionPoint (λ run. run.end ≤ at) (λ run. at < run.end) runs.now result }
{
    runs.partition_point(|run| run.end <= at)
}

// The answer of an ordinal among those of the runs.
fn answer_among<'a>(answers: &'a [Repeated], runs: &[Run], ordinal: u32) -> Option<&'a Identity>
    requires { AreEnds answers.now runs.now }
    ensures { option_copied result ≡ nth_answer (at_runs answers.now runs.now) ordinal }
{
    let at = (ordinal as usize).checked_sub(1)?;
    let run = runs.get(first_behind(runs, at))?;
    answers.get(run.place)?.answer.1.as_ref()
}

impl AnswerTable {
    /// A copy of the answers.
    pub(crate) fn new(alloc: Global, answers: &[Repeated]) -> Result<AnswerTable, NoMemory>
        ensures { IfOk result (λ it. it ≡ flat answers.now) }
    {
        let answers = copy_answers(alloc, answers)?;
        let index = index_of(alloc, answers.as_slice())?;
        Ok(AnswerTable {
            alloc,
            answers,
            index,
        })
    }

    /// The answer to a space's prompt of an ordinal.
    pub(crate) fn answer_to(
        &self,
        space: &Space,
        ordinal: u32,
    ) -> Result<Option<&Identity>, NoMemory>
        ensures { IfOk result (λ answer. option_copied answer
            ≡ answer_in self.now space.now ordinal) }
    {
        let key = key_of(self.alloc, space)?;
        let runs = runs_at(&self.index, &key);
        Ok(answer_among(self.answers.as_slice(), runs, ordinal))
    }
}
