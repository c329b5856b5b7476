//! First least states of small models, against all states.
ghost use Rattle.std.specs.Prelude.{◌≤◌};

use crate::drawn::{Dice, Target, drawn_problem, model_for};
use base::NoMemory;
use basic_solve::{SolveAnswer, solve};
use bits_model::{OutputModel, total_energy};
use command_words::NodeModel;
use std::alloc::Global;

/// A state of up to 16 nodes.
pub type State = [bool; 16];

/// The state with a number, whose lowest digit is the bit of the last of so many nodes.
pub fn state_of(number: u32, nodes: usize) -> State
    requires { nodes ≤ 16 }
{
    let mut y = [false; 16];
    let mut digits = number;
    for k in 0..nodes {
        y[nodes - 1 - k] = digits % 2 == 1;
        digits /= 2;
    }
    y
}

fn energy_of(model: &OutputModel, y: &State) -> i128 {
    total_energy(model.kind, y, &model.entries)
}

/// The first of the least states of a model of up to 16 nodes, and how many there are.
fn tried(model: &OutputModel) -> (State, u32) {
    let nodes = (model.nodes as usize).min(16);
    let mut first = state_of(0, nodes);
    let mut least = energy_of(model, &first);
    let mut count: u32 = 1;
    for number in 1..1_u32 << nodes {
        let y = state_of(number, nodes);
        let energy = energy_of(model, &y);
        if energy < least {
            first = y;
            least = energy;
            count = 1;
        } else if energy == least {
            count = count.saturating_add(1);
        }
    }
    (first, count)
}

/// How many least states a model has, or 0 where the first of them is not found.
fn least_states(alloc: Global, model: &OutputModel) -> Result<u32, SolveAnswer> {
    let found = solve(alloc, model)?;
    let (first, count) = tried(model);
    let is_first = found.as_slice() == &first[..found.len().min(16)];
    Ok(if is_first { count } else { 0 })
}

/// A QUBO or an Ising model of up to eight nodes, or an Ising model of up to four nodes on the eight
/// qubits of a cell.
fn target_of(seed: u32) -> (Target, u32) {
    let size = seed / 3;
    match seed % 3 {
        0 => (Target::Nodes(NodeModel::Qubo), 1 + size % 8),
        1 => (Target::Nodes(NodeModel::Ising), 1 + size % 8),
        _ => (Target::Chimera(1, 1, 4), 1 + size % 4),
    }
}

pub fn drawn_model(alloc: Global, seed: u32) -> Result<Option<OutputModel>, NoMemory> {
    let (target, nodes) = target_of(seed);
    let mut dice = Dice {
        state: u64::from(seed),
    };
    let problem = drawn_problem(alloc, &mut dice, nodes)?;
    Ok(model_for(alloc, &problem, target))
}

/// How many least states a drawn model has, or 0 where the first of them is not found.
fn drawn_states(alloc: Global, seed: u32) -> u32 {
    match drawn_model(alloc, seed) {
        Ok(Some(model)) => least_states(alloc, &model).unwrap_or(0),
        _ => 0,
    }
}

#[test]
fn sixty_drawn_models_against_all_states(rt: HostRuntime) {
    let mut ties: u64 = 0;
    for seed in 0..60 {
        let count = drawn_states(rt.alloc(), seed);
        assert!(rt; count > 0, "model {seed}");
        if count > 1 {
            ties = ties.saturating_add(1);
        }
    }
    assert!(rt; ties > 10, "{ties}");
}
