//! The model that is written.
ghost use Rattle.std.specs.Prelude.{◌≡◌, ◌+◌, ◌≤◌, ◌<◌, ◌^◌, ◌↔◌, length, List, ℤ, IsTrue};
ghost use Rattle.std.specs.List.{slice_index_or};

use crate::chains::ChainList;
use crate::entries::EntryList;
use base::{Cost, Costed, Figures};
use std::alloc::Global;
use std::marker::Model;

/// The graph of a model on qubits: a Chimera graph with these numbers of rows, columns and qubits on
/// a shore, or one that is given as a list of couplers, with this number of qubits.
#[derive(Clone, Copy, Debug, PartialEq, Eq)]
pub enum Graph {
    Chimera { rows: u32, cols: u32, shore: u32 },
    Listed { qubits: u32 },
}

/// Which solver the model is for: a QUBO, an Ising model, or an Ising model on the qubits of a
/// graph.
#[derive(Clone, Copy, Debug, PartialEq, Eq)]
pub enum Kind {
    Qubo,
    Ising,
    Qubits(Graph),
}

/// The weight of a node, where both numbers are equal, or of a coupler, where the first is less.
#[derive(Clone, Copy, Debug, PartialEq, Eq)]
pub struct Entry {
    pub first: u32,
    pub second: u32,
    pub weight: i128,
}

/// The model that is written: the figures, the unit that energies count, and the weights of nodes
/// and of couplers.
///
/// It is kept well formed: unit and scale of at least 1; entries in order, nodes before couplers,
/// none twice; every node of a model without chains has an entry and no coupler is 0; and the sizes
/// of the weights sum to at most 2^124.
pub struct OutputModel {
    pub kind: Kind,
    pub variables: u32,
    pub figures: Figures,
    pub unit: i128,
    pub nodes: u32,
    pub entries: EntryList,
    pub chains: ChainList,
}

impl Drop for OutputModel {
    fn drop(self) {
        let OutputModel {
            kind: _kind,
            variables: _variables,
            figures: _figures,
            unit: _unit,
            nodes: _nodes,
            entries: _entries,
            chains: _chains,
        } = self;
    }
}

impl Model for OutputModel {
    ghost use Rattle.std.specs.Prelude.{◌≤◌, ◌^◌};
    ghost use Rattle.bits_model.specs.Output.{Written, IsWellFormed, weight_total};

    ghost Value = { Written };

    ghost view = { λ m. record {
      kind = m.kind;
      variables = m.variables;
      figures = m.figures;
      unit = m.unit;
      nodes = m.nodes;
      entries = m.entries;
      chains = m.chains;
    } };

    ghost invariant = { λ m. IsWellFormed (record {
      kind = m.kind;
      variables = m.variables;
      figures = m.figures;
      unit = m.unit;
      nodes = m.nodes;
      entries = m.entries;
      chains = m.chains;
    })
        × (weight_total m.entries ≤ 2 ^ 124) };
}
