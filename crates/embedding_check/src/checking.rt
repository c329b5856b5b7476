//! The check of a map of chains.
ghost use Rattle.std.specs.Prelude.{◌≡◌, IfOk, IfErr};
ghost use Rattle.chain_map.specs.Faults.{IfFault};
ghost use Rattle.chain_map.specs.Valid.{IsValid};
ghost use Rattle.embedding_check.specs.Checked.{IsChecked, IsLaidOut};
ghost use Rattle.embedding_check.specs.Faults.{IsFault, IsApart};
ghost use Rattle.embedding_check.specs.Search.{AreSorted};

use crate::embedded::{Embedded, PairList};
use crate::passes::{all_parents, check_inside, check_once, first_empty, qubits_of};
use crate::places::all_places;
use crate::search::sorted_chains;
use bits_model::ChainList;
use chain_map::{ChainMap, CheckAnswer, EmbedFault};
use hardware::Hardware;
use ising_form::Ising;
use std::alloc::Global;

/// Whether a map has a chain for each node of a form, none empty, of qubits of the graph, and no
/// qubit twice; or its first fault.
fn check_apart<H: Hardware>(
    alloc: Global,
    hardware: &H,
    ising: &Ising,
    map: &ChainMap,
) -> Result<(), CheckAnswer>
    ensures apart { IfOk result (λ _.
        IsApart (H.exists hardware.now) ising.now map.now) }
    ensures fault { IfErr result (λ e. IfFault e
        (IsFault (H.joined hardware.now) (H.exists hardware.now) ising.now map.now)) }
{
    if map.len() != ising.fields.as_slice().len() {
        return Err(CheckAnswer::Fault(EmbedFault::ChainCount(map.len())));
    }
    match first_empty(map) {
        Some(node) => return Err(CheckAnswer::Fault(EmbedFault::EmptyChain(node))),
        None => {}
    }
    check_inside(hardware, map)?;
    check_once(alloc, map, hardware.qubits())
}

/// The parents of chains and the places of the couplings, or the first fault.
fn parents_and_places<H: Hardware>(
    alloc: Global,
    hardware: &H,
    ising: &Ising,
    chains: &ChainList,
    sorted: &ChainList,
) -> Result<(ChainList, PairList), CheckAnswer>
    requires apart { IsApart (H.exists hardware.now) ising.now chains.now }
    requires sorted { AreSorted chains.now sorted.now }
    ensures laid { IfOk result (λ r. IsLaidOut (H.joined hardware.now) (H.exists hardware.now)
        ising.now chains.now r.0 r.1) }
    ensures fault { IfErr result (λ e. IfFault e
        (IsFault (H.joined hardware.now) (H.exists hardware.now) ising.now chains.now)) }
{
    let parents = all_parents(alloc, hardware, chains, sorted)?;
    let places = all_places(alloc, hardware, &ising.couplings, chains, sorted)?;
    Ok((parents, places))
}

/// Chains of qubits, the parents of each, and the places of couplings.
#[derive(Drop)]
struct Layout {
    chains: ChainList,
    parents: ChainList,
    places: PairList,
}

/// The layout of a form on a graph by a map, or the first fault of the map.
fn laid_out<H: Hardware>(
    alloc: Global,
    hardware: &H,
    ising: &Ising,
    map: &ChainMap,
) -> Result<Layout, CheckAnswer>
    ensures same { IfOk result (λ l. l.chains ≡ map.now) }
    ensures laid { IfOk result (λ l. IsLaidOut (H.joined hardware.now) (H.exists hardware.now)
        ising.now l.chains l.parents l.places) }
    ensures fault { IfErr result (λ e. IfFault e
        (IsFault (H.joined hardware.now) (H.exists hardware.now) ising.now map.now)) }
{
    check_apart(alloc, hardware, ising, map)?;
    let chains = qubits_of(alloc, map)?;
    let sorted = sorted_chains(alloc, &chains)?;
    let (parents, places) = parents_and_places(alloc, hardware, ising, &chains, &sorted)?;
    Ok(Layout {
        chains,
        parents,
        places,
    })
}

/// Embeds an Ising form by a map, or names the first fault of the map. It is refused exactly where
/// the map is not valid.
pub fn check<H: Hardware>(
    alloc: Global,
    hardware: &H,
    ising: Ising,
    map: &ChainMap,
) -> Result<Embedded, CheckAnswer>
    ensures valid { IfOk result (λ _.
        IsValid (H.joined hardware.now) (H.exists hardware.now) ising map.now) }
    ensures checked { IfOk result
        (IsChecked (H.joined hardware.now) (H.qubits hardware.now) ising map.now) }
    ensures invalid { IfErr result (λ e. IfFault e (λ _.
        IsValid (H.joined hardware.now) (H.exists hardware.now) ising map.now → ⊥)) }
    ensures fault { IfErr result (λ e. IfFault e
        (IsFault (H.joined hardware.now) (H.exists hardware.now) ising map.now)) }
{
    let layout = laid_out(alloc, hardware, &ising, map)?;
    Ok(Embedded {
        ising,
        chains: layout.chains,
        qubits: hardware.qubits(),
        parents: layout.parents,
        places: layout.places,
    })
}
