//! The chains of a clique on a Chimera graph.
//!
//! No run of the program comes here: working_graph makes the embedding of a clique at once.
ghost use Rattle.std.specs.Prelude.{◌≡◌, ◌<◌, ◌≤◌, IfOk, IfErr};
ghost use Rattle.chain_map.specs.Faults.{IfFault};
ghost use Rattle.chain_map.specs.Cliques.{clique_places, clique_of, IsForClique};

use crate::faults::{CheckAnswer, EmbedFault};
use crate::map::ChainMap;
use crate::spot::{clique_places, fill_chain};
use base::NoMemory;
use chimera_graph::Chimera;
use std::alloc::Global;

/// The chains of so many nodes, for which there are places.
fn clique_chains(alloc: Global, graph: &Chimera, nodes: u32) -> Result<ChainMap, NoMemory>
    requires { nodes ≤ clique_places graph.now }
    ensures { IfOk result (λ map. map ≡ clique_of graph.now nodes) }
{
    let mut map = ChainMap::new(alloc);
    let mut chain = Vec::new(alloc);
    let mut wide = Vec::new(alloc);
    for node in 0..nodes {
        fill_chain(graph, node, &mut chain)?;
        map.push_qubits(&chain, &mut wide)?;
    }
    Ok(map)
}

/// Chains for so many nodes, each two of them with a join. It is refused exactly where there are
/// more nodes than places.
pub fn clique_map(alloc: Global, graph: &Chimera, nodes: usize) -> Result<ChainMap, CheckAnswer>
    ensures chains { IfOk result (λ map. map ≡ clique_of graph.now nodes) }
    ensures valid { IfOk result (IsForClique graph.now nodes) }
    ensures fits { IfOk result (λ _. nodes ≤ clique_places graph.now) }
    ensures refused { IfErr result (λ e. IfFault e (λ f.
        (clique_places graph.now < nodes)
        × (f ≡ EmbedFault.TooManyNodes nodes (clique_places graph.now)))) }
{
    let places = clique_places(graph);
    if nodes > places as usize {
        return Err(CheckAnswer::Fault(EmbedFault::TooManyNodes(nodes, places as usize)));
    }
    Ok(clique_chains(alloc, graph, nodes as u32)?)
}
