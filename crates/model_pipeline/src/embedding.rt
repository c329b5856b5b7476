//! The embedding of an Ising form on the qubits that there are, on chains of a clique or of a map.
//!
//! On all qubits of a Chimera graph the places of a clique are known at once. Where some do not work,
//! the chains of a clique are checked as those of a map are. A graph that is given as a list has no
//! places for a clique.
ghost use Rattle.std.specs.Prelude.{◌≡◌, ◌≤◌, ◌<◌, [], length, IfOk, IfErr};
ghost use Rattle.chain_map.specs.Faults.{IfFault};
ghost use Rattle.embedding_check.specs.Checked.{IsChecked};
ghost use Rattle.embedding_check.specs.Fabrics.{IsValidOn, IsFaultOn};
ghost use Rattle.working_graph.specs.Places.{taken_places, working_clique};
ghost use Rattle.working_graph.specs.Working.{fabric_of};
ghost use Rattle.model_pipeline.specs.Sites.{
  chains_of,
  clique_in,
  fabric_in,
  places_in,
  CanStandAt,
  IsFaultAt,
};

use crate::site::{ChainSource, GivenGraph, Qubits};
use chain_map::{ChainMap, CheckAnswer, EmbedFault};
use embedding_check::{Embedded, check};
use ising_form::Ising;
use std::alloc::Global;
use working_graph::{Working, clique_embedded, clique_working};

/// An Ising form on the chains of a clique, of the qubits of a graph that work.
fn clique_on_working(alloc: Global, working: &Working, form: Ising) -> Result<Embedded, CheckAnswer>
    ensures checked { IfOk result (IsChecked (fabric_of working.now).joined
        (fabric_of working.now).qubits form
        (working_clique working.now (length form.fields))) }
    ensures fits { IfOk result (λ _. length form.fields ≤ length (taken_places working.now)) }
    ensures refused { IfErr result (λ e. IfFault e
        (IsFaultAt (Qubits.Working working.now) ChainSource.Clique form)) }
{
    let map = clique_working(alloc, working, form.fields.as_slice().len())?;
    check(alloc, working, form, &map)
}

/// An Ising form on the chains of a clique, of the qubits of a graph that is given as a list: there
/// is no place for any node.
fn clique_on_given(alloc: Global, given: &GivenGraph, form: Ising) -> Result<Embedded, CheckAnswer>
    ensures checked { IfOk result (IsChecked (fabric_in (Qubits.Listed given.now)).joined
        (fabric_in (Qubits.Listed given.now)).qubits form []) }
    ensures fits { IfOk result (λ _. length form.fields ≤ 0) }
    ensures refused { IfErr result (λ e. IfFault e
        (IsFaultAt (Qubits.Listed given.now) ChainSource.Clique form)) }
{
    let nodes = form.fields.as_slice().len();
    if nodes > 0 {
        return Err(CheckAnswer::Fault(EmbedFault::TooManyNodes(nodes, 0)));
    }
    let no_chains = ChainMap::new(alloc);
    check(alloc, &given.listed, form, &no_chains)
}

/// An Ising form on the chains of a clique. It is refused exactly where there are more nodes than
/// places.
fn on_clique(alloc: Global, qubits: &Qubits, form: Ising) -> Result<Embedded, CheckAnswer>
    ensures checked { IfOk result (IsChecked (fabric_in qubits.now).joined
        (fabric_in qubits.now).qubits form (clique_in qubits.now (length form.fields))) }
    ensures fits { IfOk result (λ _. length form.fields ≤ places_in qubits.now) }
    ensures refused { IfErr result (λ e. IfFault e
        (IsFaultAt qubits.now ChainSource.Clique form)) }
{
    match qubits {
        Qubits::All(graph) => clique_embedded(alloc, graph, form),
        Qubits::Working(working) => clique_on_working(alloc, working, form),
        Qubits::Listed(given) => clique_on_given(alloc, given, form),
    }
}

/// An Ising form on the chains of a map, or the first fault of the map. It is refused exactly where
/// the map is not valid.
fn on_map(
    alloc: Global,
    qubits: &Qubits,
    form: Ising,
    map: &ChainMap,
) -> Result<Embedded, CheckAnswer>
    ensures checked { IfOk result (IsChecked (fabric_in qubits.now).joined
        (fabric_in qubits.now).qubits form map.now) }
    ensures valid { IfOk result (λ _. IsValidOn (fabric_in qubits.now) form map.now) }
    ensures fault { IfErr result (λ e. IfFault e
        (IsFaultOn (fabric_in qubits.now) form map.now)) }
{
    match qubits {
        Qubits::All(graph) => check(alloc, graph, form, map),
        Qubits::Working(working) => check(alloc, working, form, map),
        Qubits::Listed(given) => check(alloc, &given.listed, form, map),
    }
}

/// An Ising form on chains of the qubits that there are, or why it has no place on them.
pub fn embedded_on(
    alloc: Global,
    qubits: &Qubits,
    chain_source: &ChainSource,
    form: Ising,
) -> Result<Embedded, CheckAnswer>
    ensures checked { IfOk result (IsChecked (fabric_in qubits.now).joined
        (fabric_in qubits.now).qubits form
        (chains_of qubits.now chain_source.now (length form.fields))) }
    ensures can_stand { IfOk result (λ _. CanStandAt qubits.now chain_source.now form) }
    ensures fault { IfErr result (λ e. IfFault e (IsFaultAt qubits.now chain_source.now form)) }
    ensures refused { IfErr result (λ e. IfFault e (λ _.
        CanStandAt qubits.now chain_source.now form → ⊥)) }
{
    match chain_source {
        ChainSource::Clique => on_clique(alloc, qubits, form),
        ChainSource::Map(map) => on_map(alloc, qubits, form, map),
    }
}
