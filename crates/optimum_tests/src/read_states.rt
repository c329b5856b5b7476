//! What is read off all states of the models of three nodes, of each kind.
ghost use Rattle.std.specs.Prelude.{◌≤◌};

use crate::drawn::{Weights, model_at, node_model, problem_of_three};
use crate::solving::{State, state_of};
use base::NoMemory;
use bits_model::OutputModel;
use chain_map::ChainMap;
use chimera_graph::Chimera;
use command_words::{ChainStrength, NodeModel};
use model_pipeline::{ChainSource, Qubits, Site};
use problem_form::Problem;
use std::alloc::Global;
use std::test::Fail;

fn is_one(y: &State, qubit: u64) -> bool {
    y.get(qubit as usize).copied().unwrap_or(false)
}

/// How many qubits of a chain are 1.
fn ones(y: &State, chain: &[u64]) -> usize {
    let mut ones: usize = 0;
    for qubit in chain {
        if is_one(y, *qubit) {
            ones = ones.saturating_add(1);
        }
    }
    ones
}

/// What more than half of the qubits of a chain have, and else what its first has.
fn majority(y: &State, chain: &[u64]) -> bool {
    let ones = ones(y, chain);
    let zeros = chain.len().saturating_sub(ones);
    let first = chain.first().is_some_and(|qubit| is_one(y, *qubit));
    ones > zeros || ones == zeros && first
}

/// Whether these bits are what the chains are read as.
fn are_majorities(y: &State, chains: &[&[u64]], x: &[bool]) -> bool {
    for (bit, chain) in x.iter().zip(chains) {
        if *bit != majority(y, chain) {
            return false;
        }
    }
    x.len() <= chains.len()
}

/// Whether what the chains of a state are read as is read off it.
fn is_read(model: &OutputModel, chains: &[&[u64]], number: u32) -> bool {
    let (nodes, variables) = (model.nodes as usize, model.variables as usize);
    if nodes > 16 || variables > 3 {
        return false;
    }
    let y = state_of(number, nodes);
    let mut x = [false; 3];
    model.read_off(&y[..nodes], &mut x[..variables]);
    are_majorities(&y, chains, &x[..variables])
}

/// Whether this is so for all states, and so many bits are read.
fn are_read(model: &OutputModel, chains: &[&[u64]], variables: u64) -> bool {
    if model.nodes > 12 || u64::from(model.variables) != variables {
        return false;
    }
    for number in 0..1_u32 << model.nodes {
        if !is_read(model, chains, number) {
            return false;
        }
    }
    true
}

/// Over spins the fields 3, -1 and 0, and the couplings -1 and 4.
const WEIGHTS: Weights = [2, -2, -2, -1, 0, 4];

fn are_read_off(model: Option<OutputModel>, chains: &[&[u64]], variables: u64) -> bool {
    match model {
        Some(model) => are_read(&model, chains, variables),
        None => false,
    }
}

/// A graph, and the chains of three nodes there.
type Row = ((u32, u32, u32), &'static [&'static [u64]]);

fn map_of(alloc: Global, chains: &[&[u64]]) -> Result<ChainMap, NoMemory> {
    let mut map = ChainMap::new(alloc);
    for chain in chains {
        map.push(*chain)?;
    }
    Ok(map)
}

/// Whether all states of a problem on these chains are read by the majority of each.
fn are_read_there(
    alloc: Global,
    problem: &Problem,
    row: Row,
    ties: ChainStrength,
    variables: u64,
) -> Result<bool, NoMemory>
    requires { variables ≤ problem.now.variables }
{
    let ((rows, cols, shore), chains) = row;
    let Some(graph) = Chimera::new(rows, cols, shore) else {
        return Ok(false);
    };
    let site = Site {
        qubits: Qubits::All(graph),
        chain_source: ChainSource::Map(map_of(alloc, chains)?),
        ties,
    };
    Ok(are_read_off(model_at(alloc, problem, variables, site), chains, variables))
}

/// The same of three nodes.
fn are_read_on(
    alloc: Global,
    row: Row,
    ties: ChainStrength,
    variables: u64,
) -> Result<bool, NoMemory>
    requires { variables ≤ 3 }
{
    let problem = problem_of_three(alloc, &WEIGHTS)?;
    are_read_there(alloc, &problem, row, ties, variables)
}

const ROWS: [Row; 4] = [
    ((1, 1, 3), &[&[3, 0], &[1, 4], &[5, 2]]),
    ((1, 1, 4), &[&[1], &[4, 0, 5], &[7, 2, 6, 3]]),
    ((1, 1, 4), &[&[0, 4], &[5, 1], &[2, 6]]),
    ((2, 2, 1), &[&[6], &[7, 5], &[3, 1, 0, 4]]),
];

#[test]
fn broken_and_tied_chains_are_read(rt: HostRuntime) -> Result<(), Fail> {
    for row in ROWS {
        for ties in [ChainStrength::Choi, ChainStrength::Cut] {
            for variables in 0..4 {
                let read = are_read_on(rt.alloc(), row, ties, variables)?;
                assert!(rt; read, "{row:?} {variables}");
            }
        }
    }
    Ok(())
}

/// Whether the first bits of all states are read off a model of three nodes.
fn are_first_bits(alloc: Global, target: NodeModel, variables: u64) -> Result<bool, NoMemory>
    requires { variables ≤ 3 }
{
    let problem = problem_of_three(alloc, &WEIGHTS)?;
    let model = node_model(alloc, &problem, variables, target);
    Ok(are_read_off(model, &[&[0], &[1], &[2]], variables))
}

#[test]
fn first_bits_are_read(rt: HostRuntime) -> Result<(), Fail> {
    for target in [NodeModel::Qubo, NodeModel::Ising] {
        for variables in 0..4 {
            assert!(rt;
                are_first_bits(rt.alloc(), target, variables)?,
                "{variables}"
            );
        }
    }
    Ok(())
}
