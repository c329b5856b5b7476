//! What is written for a state of a model: the assignment that it stands for, and whether that is the
//! optimum where the state is proved to be least.
ghost use Rattle.std.specs.Prelude.{◌≡◌, ◌<◌, ◌^◌, length, IfOk};
ghost use Rattle.bits_model.specs.Output.{decoding_of};
ghost use Rattle.source_texts.specs.Sources.{KeepsSoft};
ghost use Rattle.program_run.specs.Made.{bounded_cost, state_text, least_text};
ghost use Rattle.problem_form.specs.Problems.{cut_off};

use answer_text::{written_decoding, written_proof};
use base::{Cost, NoMemory};
use bits_model::{OutputModel, energy_of};
use source_texts::{Read, cost_of};
use std::alloc::Global;

/// The assignment that a state of a model decodes to.
pub fn decoded(alloc: Global, model: &OutputModel, state: &[bool]) -> Result<Vec<bool>, NoMemory>
    requires { length state.now ≡ model.now.nodes }
    ensures exact { IfOk result (λ x. x.items ≡ (decoding_of model.now).decoded state.now) }
    ensures width { IfOk result (λ x. length x.items ≡ model.now.variables) }
    ensures narrow { IfOk result (λ x. length x.items < 2 ^ 32) }
{
    let mut x = Vec::new(alloc);
    x.resize(model.variables as usize, false)?;
    model.read_off(state, &mut x);
    Ok(x)
}

/// What is written for a state of a model of a problem that is read.
pub fn decoded_text(
    alloc: Global,
    read: &Read,
    model: &OutputModel,
    state: &[bool],
) -> Result<Vec<u8>, NoMemory>
    requires state { length state.now ≡ model.now.nodes }
    requires variables { model.now.variables ≡ read.now.variables }
    requires kept { KeepsSoft read.now }
    ensures { IfOk result (λ text. text.items ≡ state_text read.now model.now state.now) }
{
    let x = decoded(alloc, model, state)?;
    let cost = cost_of(read, &x);
    let energy = energy_of(model.kind, state, &model.entries);
    written_decoding(alloc, &x, &read.names, cost, energy)
}

/// A cost that is whole and above the most that is given is infinite.
fn cut_off(most: Option<i128>, cost: Cost) -> Cost
    ensures { result ≡ cut_off most cost }
{
    match (most, cost) {
        (Some(most), Cost::Whole(value)) if most < value => Cost::Infinite,
        _ => cost,
    }
}

/// What an assignment of the source costs, and infinite above the most that it may cost.
pub fn bounded_cost(read: &Read, x: &[bool]) -> Cost
    requires kept { KeepsSoft read.now }
    requires width { length x.now ≡ read.now.variables }
    requires narrow { length x.now < 2 ^ 32 }
    ensures { result ≡ bounded_cost read.now x.now }
{
    cut_off(read.problem.most, cost_of(read, x))
}

/// What is written for a state that is proved to be least.
pub fn proved_text(
    alloc: Global,
    read: &Read,
    model: &OutputModel,
    state: &[bool],
) -> Result<Vec<u8>, NoMemory>
    requires state { length state.now ≡ model.now.nodes }
    requires variables { model.now.variables ≡ read.now.variables }
    requires kept { KeepsSoft read.now }
    ensures { IfOk result (λ text. text.items ≡ least_text read.now model.now state.now) }
{
    let x = decoded(alloc, model, state)?;
    let cost = bounded_cost(read, &x);
    let energy = energy_of(model.kind, state, &model.entries);
    written_proof(alloc, energy, &x, &read.names, cost)
}
