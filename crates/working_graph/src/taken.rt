//! The places that are taken for a clique.
ghost use Rattle.std.specs.Prelude.{◌≡◌, ◌<◌, ℕ, true, false, [], length, replicate, IfOk, OnOk};
ghost use Rattle.std.specs.List.{slice_index_or, list_all};
ghost use Rattle.chimera_graph.specs.Graph.{qubits_of};
ghost use Rattle.chain_map.specs.Cliques.{clique_places, clique_chain};
ghost use Rattle.working_graph.specs.Working.{exists_in, joined_in, fabric_of};
ghost use Rattle.working_graph.specs.Places.{
  are_linked,
  is_whole,
  is_marked,
  working_clique,
  TellsFree,
};

use crate::parting::is_parted;
use crate::working::Working;
use base::NoMemory;
use chain_map::{ChainMap, clique_places, diagonal_of, fill_chain, path_qubit, spot_of};
use hardware::Hardware;
use std::alloc::Global;

/// Whether all qubits of a place work. They are looked at on the way, without a list of them.
fn all_exist(working: &Working, place: u32) -> bool
    requires { place < clique_places working.now.graph }
    ensures { result ≡ list_all (exists_in working.now) (clique_chain working.now.graph place) }
{
    let graph = working.graph();
    let spot = spot_of(&graph, place);
    for steps in 0..diagonal_of(&graph) + 1 {
        if !working.exists(path_qubit(&graph, spot, steps)) {
            return false;
        }
    }
    true
}

/// Whether each next two qubits of a chain are joined.
fn are_linked(working: &Working, chain: &[u32]) -> bool
    requires { (j : ℕ) → j < length chain.now
        → slice_index_or chain.now j 0 < qubits_of working.now.graph }
    ensures { result ≡ are_linked (joined_in working.now) chain.now }
{
    for k in 1..chain.len() {
        if !working.joined(chain[k - 1], chain[k]) {
            return false;
        }
    }
    true
}

/// Whether all qubits of a place work, and each next two are joined. Its chain is then in the list,
/// in place of what the list had.
fn is_whole(working: &Working, place: u32, chain: &mut Vec<u32>) -> Result<bool, NoMemory>
    requires { place < clique_places working.now.graph }
    ensures whole { IfOk result (λ whole. whole
        ≡ is_whole (fabric_of working.now) (clique_chain working.now.graph place)) }
    ensures filled { IfOk result (λ whole. whole ≡ true
        → chain.new.items ≡ clique_chain working.now.graph place) }
{
    if !all_exist(working, place) {
        return Ok(false);
    }
    let graph = working.graph();
    fill_chain(&graph, place, chain)?;
    Ok(are_linked(working, chain))
}

/// Whether a place may be taken after the marked ones. Its chain is then in the list, in place of
/// what the list had.
fn is_free(
    working: &Working,
    marks: &[bool],
    place: u32,
    chain: &mut Vec<u32>,
) -> Result<bool, NoMemory>
    requires place { place < clique_places working.now.graph }
    requires len { length marks.now ≡ clique_places working.now.graph }
    requires earlier { (u : ℕ) → is_marked marks.now u ≡ true → u < place }
    ensures free { IfOk result
        (TellsFree (fabric_of working.now) (clique_chain working.now.graph) marks.now place) }
    ensures filled { IfOk result (λ free. free ≡ true
        → chain.new.items ≡ clique_chain working.now.graph place) }
{
    let whole = is_whole(working, place, chain)?;
    if !whole {
        return Ok(false);
    }
    Ok(!is_parted(working, marks, place))
}

/// Appends the chains of the places that are taken to no chains, where none is marked yet. Both
/// lists serve for each place.
fn take_places(
    working: &Working,
    nodes: usize,
    marks: &mut [bool],
    chain: &mut Vec<u32>,
    wide: &mut Vec<u64>,
    taken: &mut ChainMap,
) -> Result<(), NoMemory>
    requires marks { marks.old ≡ replicate (clique_places working.now.graph) false }
    requires none { taken.old ≡ [] }
    ensures { OnOk result (taken.new ≡ working_clique working.now nodes) }
{
    let graph = working.graph();
    let places = clique_places(&graph);
    for place in 0..places {
        if taken.len() == nodes {
            return Ok(());
        }
        let free = is_free(working, marks, place, chain)?;
        if free {
            marks[place as usize] = true;
            taken.push_qubits(chain, wide)?;
        }
    }
    Ok(())
}

/// The chains of the places that are taken, from 0 upwards; no more of them than are asked for.
pub(crate) fn taken_chains(
    alloc: Global,
    working: &Working,
    nodes: usize,
) -> Result<ChainMap, NoMemory>
    ensures { IfOk result (λ m. m ≡ working_clique working.now nodes) }
{
    let places = clique_places(&working.graph());
    let mut marks = vec![in alloc; false; places as usize]?;
    let mut chain = Vec::new(alloc);
    let mut wide = Vec::new(alloc);
    let mut taken = ChainMap::new(alloc);
    take_places(
        working, nodes, &mut marks, &mut chain, &mut wide, &mut taken,
    )?;
    Ok(taken)
}
