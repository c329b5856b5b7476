//! The embedding of an Ising form on the chains of a clique, made at once.
//!
//! The chains are paths, and have a join for each two nodes, so that the parents of their qubits and
//! the least joined pair of each coupling are known from their coordinates, and nothing is searched.
ghost use Rattle.std.specs.Prelude.{◌≡◌, ◌<◌, ◌≤◌, length, map, IfOk, IfErr};
ghost use Rattle.chimera_graph.specs.Graph.{qubits_of};
ghost use Rattle.chain_map.specs.Faults.{IfFault};
ghost use Rattle.chain_map.specs.Cliques.{clique_of, clique_places};
ghost use Rattle.ising_form.specs.Isings.{IsIsing};
ghost use Rattle.embedding_check.specs.Checked.{IsChecked};
ghost use Rattle.working_graph.specs.CliquePlaces.{but_last, clique_place, joined_on, IsTooMany};

use crate::clique_chains::{clique_chains, path_parents};
use crate::clique_places::all_places;
use bits_model::ChainList;
use chain_map::{CheckAnswer, EmbedFault, clique_places};
use chimera_graph::Chimera;
use embedding_check::{Embedded, PairList};
use hardware::Hardware;
use ising_form::Ising;
use std::alloc::Global;

/// Chains, the parents of their qubits, and the places of couplings.
#[derive(Drop)]
struct Layout {
    chains: ChainList,
    parents: ChainList,
    places: PairList,
}

/// The chains of a clique for a form, with their parents and the places of its couplings.
fn clique_layout(alloc: Global, graph: &Chimera, ising: &Ising) -> Result<Layout, CheckAnswer>
    ensures chains { IfOk result (λ l.
        l.chains ≡ clique_of graph.now (length ising.now.fields)) }
    ensures parents { IfOk result (λ l. l.parents ≡ map but_last l.chains) }
    ensures places { IfOk result (λ l.
        l.places ≡ map (clique_place graph.now) ising.now.couplings) }
    ensures fits { IfOk result (λ _. length ising.now.fields ≤ clique_places graph.now) }
    ensures refused { IfErr result (λ e. IfFault e
        (IsTooMany (length ising.now.fields) (clique_places graph.now))) }

    // What an embedding rests on.
    ensures kept { IsIsing ising.now }
{
    let room = clique_places(graph);
    let nodes = ising.fields.as_slice().len();
    if nodes > room as usize {
        return Err(CheckAnswer::Fault(EmbedFault::TooManyNodes(nodes, room as usize)));
    }
    let chains = clique_chains(alloc, graph, nodes as u32)?;
    let parents = path_parents(alloc, &chains)?;
    let places = all_places(alloc, graph, &ising.couplings)?;
    Ok(Layout {
        chains,
        parents,
        places,
    })
}

/// An Ising form on the chains of a clique: what a check of these chains gives. It is refused
/// exactly where there are more nodes than places.
pub fn clique_embedded(
    alloc: Global,
    graph: &Chimera,
    ising: Ising,
) -> Result<Embedded, CheckAnswer>
    ensures checked { IfOk result (IsChecked (joined_on graph.now) (qubits_of graph.now) ising
        (clique_of graph.now (length ising.fields))) }
    ensures fits { IfOk result (λ _. length ising.fields ≤ clique_places graph.now) }
    ensures refused { IfErr result (λ e. IfFault e
        (IsTooMany (length ising.fields) (clique_places graph.now))) }
{
    let layout = clique_layout(alloc, graph, &ising)?;
    Ok(Embedded::of(
        ising,
        layout.chains,
        graph.qubits(),
        layout.parents,
        layout.places,
    ))
}
