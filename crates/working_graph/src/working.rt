//! What is left of a Chimera graph.
ghost use Rattle.std.specs.Prelude.{◌≡◌, false};
ghost use Rattle.std.specs.List.{list_any, slice_index_or};
ghost use Rattle.part_lists.specs.Pairs.{AreRising};

use crate::index::{marks_of, numbers_of};
use base::NoMemory;
use chimera_graph::Chimera;
use part_lists::{Part, has_number, pair_number};
use radix_sort::sorted_keys;
use std::alloc::Global;
use std::cmp::{max, min};
use std::marker::Model;

/// A Chimera graph of which some qubits and couplers are dead. Contracts see which of them.
///
/// `dead` and `cut` are the index of these parts: `dead` says of each qubit whether it is dead; where
/// it is too short, the qubit is not. `cut` has the numbers of the dead couplers, ascending.
#[derive(Drop)]
pub struct Working {
    graph: Chimera,
    parts: Vec<Part>,
    dead: Vec<bool>,
    cut: Vec<u64>,
}

impl Model for Working {
    ghost use Rattle.working_graph.specs.Working.{WorkingGraph};
    ghost use Rattle.working_graph.specs.Index.{IsIndex};

    ghost Value = { WorkingGraph };

    ghost view = { λ w. record { graph = w.graph; parts = w.parts.items } };

    ghost invariant = { λ w. IsIndex w.parts.items w.dead.items w.cut.items };
}

/// Whether a qubit is marked; where there are too few marks, it is not.
fn is_marked(marks: &[bool], qubit: u32) -> bool
    ensures { result ≡ slice_index_or marks.now qubit false }
{
    match marks.get(qubit as usize) {
        Some(mark) => *mark,
        None => false,
    }
}

impl Working {
    ghost use Rattle.std.specs.Prelude.{◌<◌, ◌^◌, ℕ, All, IfOk};
    ghost use Rattle.working_graph.specs.Index.{has_pair};
    ghost use Rattle.working_graph.specs.DeadLists.{IsPartOf};
    ghost use Rattle.working_graph.specs.Places.{is_cut};
    ghost use Rattle.working_graph.specs.Working.{is_qubit, whole_graph};

    /// The whole graph: nothing of it is dead.
    pub fn whole(alloc: Global, graph: Chimera) -> Working
        ensures { result ≡ whole_graph graph }
    {
        Working {
            graph,
            parts: Vec::new(alloc),
            dead: Vec::new(alloc),
            cut: Vec::new(alloc),
        }
    }

    /// What is left of a graph without these parts of it.
    pub(crate) fn without(
        alloc: Global,
        graph: Chimera,
        parts: Vec<Part>,
    ) -> Result<Working, NoMemory>
        requires { All (IsPartOf graph) parts.items }
        ensures { IfOk result (λ w. w ≡ record { graph = graph; parts = parts.items }) }
    {
        let dead = marks_of(alloc, &graph, &parts)?;
        let numbers = numbers_of(alloc, &parts)?;
        let cut = sorted_keys(alloc, numbers, 0, 0)?;
        Ok(Working {
            graph,
            parts,
            dead,
            cut,
        })
    }

    /// The graph of which it is what is left.
    pub fn graph(&self) -> Chimera
        ensures { result ≡ self.now.graph }
    {
        self.graph
    }

    /// Whether a qubit is dead.
    pub(crate) fn is_dead(&self, qubit: u32) -> bool
        ensures { result ≡ list_any (is_qubit qubit) self.now.parts }
    {
        is_marked(&self.dead, qubit)
    }

    /// Whether the coupler of two qubits is dead.
    pub(crate) fn is_cut(&self, a: u32, b: u32) -> bool
        ensures { result ≡ is_cut self.now a b }
    {
        has_number(&self.cut, pair_number(min(a, b), max(a, b)))
    }

    /// The numbers of the dead couplers.
    pub(crate) fn cuts(&self) -> &[u64]
        ensures numbers { (p q : ℕ) → p < 2 ^ 32 → q < 2 ^ 32
            → has_pair result.now p q ≡ is_cut self.now p q }
        ensures rising { AreRising result.now }
    {
        &self.cut
    }
}
