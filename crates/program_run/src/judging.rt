//! Who judges the states of a model: by its source, and by the energy.
//!
//! What a batch of states costs is added up together where the source says no more than products, and
//! so are their energies where the model is a QUBO.
ghost use Rattle.std.specs.Prelude.{◌≡◌, ◌≤◌, ◌<◌, ℕ, [], All, length, IfOk, IfSome};
ghost use Rattle.std.specs.List.{slice_index_or};
ghost use Rattle.batch_costs.specs.Assigned.{assignment};
ghost use Rattle.bits_model.specs.Output.{decoding_of};
ghost use Rattle.source_texts.specs.Sources.{KeepsSoft};
ghost use Rattle.state_scores.specs.Batches.{AreCosts};
ghost use Rattle.state_scores.specs.Scores.{IsSmall};
ghost use Rattle.program_run.specs.Made.{AreEnergiesOf, CanAddStates, CanAddUp, CanJudge, IsWithin, judgement_by};

use base::{Cost, Lists, NoMemory};
use batch_costs::{Assignments, is_plain};
use bits_model::{Kind, OutputModel, energy_of};
use source_texts::{Read, cost_of};
use state_scores::Judge;
use std::alloc::Global;
use std::marker::Model;

/// Room for assignments whose costs can be added up together, where it takes no more than the text
/// of so many bytes that the states come from.
fn room_together(alloc: Global, read: &Read, bytes: usize) -> Result<Option<Assignments>, NoMemory>
    ensures { IfOk result (λ room. IfSome room (CanAddUp read.now)) }
{
    let variables = read.variables as usize;
    if read.soft.is_none() && is_plain(&read.problem) && variables <= bytes / 8 {
        Ok(Some(Assignments::new(alloc, variables)?))
    } else {
        Ok(None)
    }
}

/// Room for states whose energies can be added up together, where it takes no more than the text of so
/// many bytes that they come from.
fn room_for_states(
    alloc: Global,
    model: &OutputModel,
    bytes: usize,
) -> Result<Option<Assignments>, NoMemory>
    ensures { IfOk result (λ room. IfSome room (CanAddStates model.now)) }
{
    let nodes = model.nodes as usize;
    match model.kind {
        Kind::Qubo if nodes <= bytes / 8 => Ok(Some(Assignments::new(alloc, nodes)?)),
        _ => Ok(None),
    }
}

/// What states cost, one after the other.
fn costs_in_turn(
    read: &Read,
    model: &OutputModel,
    states: &Lists<bool>,
    x: &mut [bool],
    costs: &mut [Cost],
)
    requires judged { CanJudge read.now model.now x.old }
    requires room { length costs.old ≡ length states.now }
    requires width { All (λ y. length y ≡ model.now.nodes) states.now }
    ensures { AreCosts (judgement_by read.now model.now) states.now costs.new }
{
    for k in 0..states.len() {
        model.read_off(states.list(k), x);
        costs[k] = cost_of(read, x);
    }
}

/// Puts what states decode to into places of their own.
fn put_all(model: &OutputModel, states: &Lists<bool>, x: &mut [bool], together: &mut Assignments)
    requires assignment { length x.old ≡ model.now.variables }
    requires variables { length together.old ≡ model.now.variables }
    requires few { length states.now ≤ 64 }
    requires width { All (λ y. length y ≡ model.now.nodes) states.now }
    ensures put { (k : ℕ) → k < length states.now → assignment together.new k
        ≡ (decoding_of model.now).decoded (slice_index_or states.now k []) }
    ensures variables { length together.new ≡ length together.old }
{
    for k in 0..states.len() {
        model.read_off(states.list(k), x);
        together.put(k, x);
    }
}

/// What states cost, added up together.
fn costs_together(
    read: &Read,
    model: &OutputModel,
    states: &Lists<bool>,
    x: &mut [bool],
    together: &mut Assignments,
    costs: &mut [Cost],
)
    requires judged { CanJudge read.now model.now x.old }
    requires together { CanAddUp read.now together.old }
    requires few { length states.now ≤ 64 }
    requires room { length costs.old ≡ length states.now }
    requires width { All (λ y. length y ≡ model.now.nodes) states.now }
    ensures costs { AreCosts (judgement_by read.now model.now) states.now costs.new }
    ensures variables { length together.new ≡ length together.old }
{
    put_all(model, states, x, together);
    together.costs(&read.problem, costs);
}

/// The energies of states, one after the other.
fn energies_in_turn(model: &OutputModel, states: &Lists<bool>, energies: &mut [i128])
    requires room { length energies.old ≡ length states.now }
    ensures { AreEnergiesOf model.now states.now energies.new }
{
    for k in 0..states.len() {
        energies[k] = energy_of(model.kind, states.list(k), &model.entries);
    }
}

/// Puts states into places of their own.
fn put_states(states: &Lists<bool>, words: &mut Assignments)
    requires few { length states.now ≤ 64 }
    requires width { All (λ y. length y ≡ length words.old) states.now }
    ensures put { (k : ℕ) → k < length states.now
        → assignment words.new k ≡ slice_index_or states.now k [] }
    ensures width { length words.new ≡ length words.old }
{
    for k in 0..states.len() {
        words.put(k, states.list(k));
    }
}

/// The energies of states, added up together.
fn energies_together(
    model: &OutputModel,
    states: &Lists<bool>,
    words: &mut Assignments,
    energies: &mut [i128],
)
    requires words { CanAddStates model.now words.old }
    requires few { length states.now ≤ 64 }
    requires room { length energies.old ≡ length states.now }
    requires width { All (λ y. length y ≡ model.now.nodes) states.now }
    ensures energies { AreEnergiesOf model.now states.now energies.new }
    ensures words { CanAddStates model.now words.new }
{
    put_states(states, words);
    words.energies(&model.entries, energies);
}

/// Who judges the states of a model: by its source, and with room for what they decode to.
#[derive(Drop)]
pub(crate) struct ModelJudge<'a> {
    read: &'a Read,
    model: &'a OutputModel,
    x: Vec<bool>,
    together: Option<Assignments>,
    words: Option<Assignments>,
}

impl<'a> Model for ModelJudge<'a> {
    ghost use Rattle.std.specs.Prelude.{IfSome};
    ghost use Rattle.program_run.specs.Made.{CanAddStates, CanAddUp, CanJudge, Judged};

    ghost Value = { Judged };

    ghost view = { λ judge. record { read = judge.read.now; model = judge.model.now } };

    ghost invariant = { λ judge. CanJudge judge.read.now judge.model.now judge.x.items
        × IfSome judge.together (CanAddUp judge.read.now)
        × IfSome judge.words (CanAddStates judge.model.now) };
}

impl ModelJudge<'_> {
    /// The judge of a model of this source, for states of a text of so many bytes.
    pub(crate) fn new<'a>(
        alloc: Global,
        read: &'a Read,
        model: &'a OutputModel,
        bytes: usize,
    ) -> Result<ModelJudge<'a>, NoMemory>
        requires within { IsWithin read.now.problem }
        requires kept { KeepsSoft read.now }
        requires variables { model.now.variables ≡ read.now.variables }
        ensures { IfOk result (λ judge. judge ≡ record { read = read.now; model = model.now }) }
    {
        let together = room_together(alloc, read, bytes)?;
        let words = room_for_states(alloc, model, bytes)?;
        let mut x = Vec::new(alloc);
        x.resize(model.variables as usize, false)?;
        Ok(ModelJudge {
            read,
            model,
            x,
            together,
            words,
        })
    }
}

impl Judge for ModelJudge<'_> {
    ghost judgement = { λ judge. judgement_by judge.read judge.model };

    fn costs(&mut self, states: &Lists<bool>, costs: &mut [Cost]) {
        let read = self.read;
        let model = self.model;
        match &mut self.together {
            Some(together) => costs_together(read, model, states, &mut self.x, together, costs),
            None => costs_in_turn(read, model, states, &mut self.x, costs),
        }
    }

    fn energies(&mut self, states: &Lists<bool>, energies: &mut [i128]) {
        let model = self.model;
        match &mut self.words {
            Some(words) => energies_together(model, states, words, energies),
            None => energies_in_turn(model, states, energies),
        }
    }
}
