//! The chains of a clique, and the parents of their qubits.
ghost use Rattle.std.specs.Prelude.{◌≡◌, ◌≤◌, map, IfOk};
ghost use Rattle.chain_map.specs.Cliques.{clique_places, clique_of};
ghost use Rattle.working_graph.specs.CliquePlaces.{but_last};

use base::NoMemory;
use bits_model::ChainList;
use chain_map::fill_chain;
use chimera_graph::Chimera;
use std::alloc::Global;

/// The chains of so many nodes, for which there are places.
pub(crate) fn clique_chains(
    alloc: Global,
    graph: &Chimera,
    nodes: u32,
) -> Result<ChainList, NoMemory>
    requires { nodes ≤ clique_places graph.now }
    ensures { IfOk result (λ chains. chains ≡ clique_of graph.now nodes) }
{
    let mut chains = ChainList::with_room(alloc, nodes as usize, 0)?;
    let mut chain = Vec::new(alloc);
    for node in 0..nodes {
        fill_chain(graph, node, &mut chain)?;
        chains.push(&chain)?;
    }
    Ok(chains)
}

/// All qubits of a chain but the last.
fn but_last(chain: &[u32]) -> &[u32]
    ensures { result.now ≡ but_last chain.now }
{
    &chain[..chain.len().saturating_sub(1)]
}

/// The parents on chains that are paths.
pub(crate) fn path_parents(alloc: Global, chains: &ChainList) -> Result<ChainList, NoMemory>
    ensures { IfOk result (λ parents. parents ≡ map but_last chains.now) }
{
    let mut parents = ChainList::with_room(alloc, chains.len(), 0)?;
    for k in 0..chains.len() {
        parents.push(but_last(chains.list(k)))?;
    }
    Ok(parents)
}
