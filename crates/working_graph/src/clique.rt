//! The chains of a clique on what is left of a graph.
ghost use Rattle.std.specs.Prelude.{◌≡◌, ◌<◌, ◌≤◌, length, IfOk, IfErr};
ghost use Rattle.chain_map.specs.Faults.{IfFault};
ghost use Rattle.working_graph.specs.Places.{taken_places, working_clique, IsForWorkingClique};

use crate::taken::taken_chains;
use crate::working::Working;
use chain_map::{ChainMap, CheckAnswer, EmbedFault};
use std::alloc::Global;

/// Chains for so many nodes on the places that are taken, each two of them with a join. It is
/// refused exactly where there are more nodes than such places.
pub fn clique_working(
    alloc: Global,
    working: &Working,
    nodes: usize,
) -> Result<ChainMap, CheckAnswer>
    ensures chains { IfOk result (λ m. m ≡ working_clique working.now nodes) }
    ensures valid { IfOk result (IsForWorkingClique working.now nodes) }
    ensures fits { IfOk result (λ _. nodes ≤ length (taken_places working.now)) }
    ensures refused { IfErr result (λ e. IfFault e (λ f.
        (length (taken_places working.now) < nodes)
        × (f ≡ EmbedFault.TooManyNodes nodes (length (taken_places working.now))))) }
{
    let taken = taken_chains(alloc, working, nodes)?;
    if taken.len() < nodes {
        return Err(CheckAnswer::Fault(EmbedFault::TooManyNodes(nodes, taken.len())));
    }
    Ok(taken)
}
