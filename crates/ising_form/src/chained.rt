//! The nodes of a model on the qubits of a graph: one has an entry where it is on a chain.
//!
//! The qubits of chains are marked first, so that each qubit and each chain is seen once.
ghost use Rattle.std.specs.Prelude.{◌≡◌, ◌<◌, ◌≤◌, ◌^◌, ◌++◌, ◌∷◌, [], ◌||◌, ℕ, pos, All, IfOk, OnOk, false, length};
ghost use Rattle.std.specs.List.{filter, slice_index_or, slice_set};
ghost use Rattle.bits_model.specs.Output.{is_chained};
ghost use Rattle.bits_model.specs.Walks.{is_in};
ghost use Rattle.quad_form.specs.Quads.{node_entries};
ghost use Rattle.ising_form.specs.Outputs.{AreNodes, is_marked, is_on_chain, written_nodes};

use base::NoMemory;
use bits_model::{ChainList, Kind, NodeWeights};
use quad_form::NumberList;
use std::alloc::Global;

/// Marks the qubits of a chain.
pub fn mark(marks: &mut [bool], chain: &[u32])
    requires { All (λ q. q < length marks.old) chain.now }
    ensures length { length marks.new ≡ length marks.old }
    ensures marked { (q : ℕ) → slice_index_or marks.new q false
        ≡ (slice_index_or marks.old q false || is_in chain.now q) }
{
    for qubit in chain {
        marks[*qubit as usize] = true;
    }
}

/// Which of so many qubits are on chains.
fn marked(alloc: Global, nodes: usize, chains: &ChainList) -> Result<Vec<bool>, NoMemory>
    requires { All (λ chain. All (λ q. q < nodes) chain) chains.now }
    ensures length { IfOk result (λ marks. length marks.items ≡ nodes) }
    ensures marked { IfOk result (λ marks. (q : ℕ)
        → slice_index_or marks.items q false ≡ is_chained chains.now q) }
{
    let mut marks = vec![in alloc; false; nodes]?;
    for node in 0..chains.len() {
        mark(&mut marks, chains.list(node));
    }
    Ok(marks)
}

/// Appends a node's number, and moves its field behind those of the numbers before.
fn keep_node(numbers: &mut Vec<u32>, fields: &mut Vec<i128>, node: u32) -> Result<(), NoMemory>
    requires later { length numbers.old.items ≤ node }
    requires within { node < length fields.old.items }
    ensures numbers { OnOk result (numbers.new.items ≡ numbers.old.items ++ node ∷ []) }
    ensures fields { OnOk result (fields.new.items
        ≡ slice_set fields.old.items (length numbers.old.items)
        (slice_index_or fields.old.items node (pos 0))) }
{
    fields[numbers.len()] = fields[node as usize];
    numbers.push(node)?;
    Ok(())
}

/// The fields of the nodes that are marked, which are moved together.
fn marked_nodes(
    alloc: Global,
    mut fields: Vec<i128>,
    marks: &[bool],
) -> Result<NodeWeights, NoMemory>
    requires narrow { length fields.items < 2 ^ 32 }
    requires marks { length marks.now ≡ length fields.items }
    ensures { IfOk result (λ nodes. nodes
        ≡ filter (is_marked marks.now) (node_entries 0 fields.items)) }
{
    let mut numbers = Vec::new(alloc);
    for i in 0..marks.len() {
        if marks[i] {
            keep_node(&mut numbers, &mut fields, i as u32)?;
        }
    }
    fields.truncate(numbers.len());
    Ok(NodeWeights::listed(numbers, fields))
}

/// The fields of the nodes on chains.
fn chained_nodes(
    alloc: Global,
    fields: Vec<i128>,
    chains: &ChainList,
) -> Result<NodeWeights, NoMemory>
    requires narrow { length fields.items < 2 ^ 32 }
    requires placed { All (λ chain. All (λ q. q < length fields.items) chain) chains.now }
    ensures { IfOk result (λ nodes. nodes
        ≡ filter (is_on_chain chains.now) (node_entries 0 fields.items)) }
{
    let marks = marked(alloc, fields.len(), chains)?;
    marked_nodes(alloc, fields, &marks)
}

/// The fields that a model of this kind has, in their own memory.
pub fn nodes_for(
    alloc: Global,
    fields: NumberList,
    kind: Kind,
    chains: &ChainList,
) -> Result<NodeWeights, NoMemory>
    requires narrow { length fields < 2 ^ 32 }
    requires placed { AreNodes kind chains.now (length fields) }
    ensures { IfOk result (λ nodes. nodes ≡ written_nodes kind chains.now fields) }
{
    match kind {
        Kind::Qubo | Kind::Ising => Ok(NodeWeights::numbered(fields.into_vec())),
        Kind::Qubits(_) => chained_nodes(alloc, fields.into_vec(), chains),
    }
}
