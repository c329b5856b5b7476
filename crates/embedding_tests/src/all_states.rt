//! All states of small embedded forms, against what their chains are read as.
ghost use Rattle.std.specs.Prelude.{◌≡◌, length, IfOk, IfSome};
ghost use Rattle.chain_layer.specs.Image.{Fits};
ghost use Rattle.embedding_tests.specs.SmallForms.{IsSmall};

use crate::arithmetic::{IN_TURN, Reading, energy, read, state, ties_cost};
use crate::drawn::{draw_form, grow_map};
use crate::random::Dice;
use base::NoMemory;
use chain_layer::{ChainLink, Chains};
use chain_map::{ChainMap, CheckAnswer, clique_map};
use chimera_graph::Chimera;
use embedding_check::{Embedded, check};
use form_steps::{Layer, Lowered};
use hardware::Hardware;
use ising_form::Ising;
use std::alloc::Global;
use std::test::Fail;
use working_graph::clique_embedded;

/// How many models and couplings there were, and how many states with some broken and some tied
/// chain.
#[derive(Clone, Copy, Debug, PartialEq, Eq)]
pub(crate) struct Seen {
    pub models: u64,
    pub couplings: u64,
    pub broken: u64,
    pub tied: u64,
}

const NOTHING: Seen = Seen {
    models: 0,
    couplings: 0,
    broken: 0,
    tied: 0,
};

impl Seen {
    fn add(&mut self, other: Seen) {
        self.models = self.models.wrapping_add(other.models);
        self.couplings = self.couplings.wrapping_add(other.couplings);
        self.broken = self.broken.wrapping_add(other.broken);
        self.tied = self.tied.wrapping_add(other.tied);
    }
}

/// What is seen of an embedded form.
#[derive(Clone, Copy, Debug, PartialEq, Eq)]
enum Outcome {
    /// The map is not valid, or has too many qubits, or there are few couplings.
    Refused,

    /// Some state or assignment is not as it should be.
    Failed,

    Held(Seen),
}

/// Whether an assignment extends to a state without broken chains, which is read as it and has its
/// energy, moved.
fn is_reached(
    alloc: Global,
    embedded: &Embedded,
    made: &Lowered<Ising, ChainLink>,
    map: &ChainMap,
    x: &[bool],
) -> Result<bool, NoMemory>
    requires fits { Fits made.now.link embedded.now }
    requires width { length x.now ≡ length embedded.now.ising.fields }
{
    let y = Chains.extend(alloc, embedded, &made.link, x)?;
    let again = read(alloc, map, &y)?;
    let moved = energy(embedded.ising(), x).wrapping_add(made.offset);
    Ok(again.broken == 0 && again.bits.as_slice() == x && energy(&made.target, &y) == moved)
}

/// Whether this is so for the assignment of a number.
fn is_reached_at(
    alloc: Global,
    embedded: &Embedded,
    made: &Lowered<Ising, ChainLink>,
    map: &ChainMap,
    number: u64,
) -> Result<bool, NoMemory>
    requires { Fits made.now.link embedded.now }
{
    let width = embedded.ising().fields.as_slice().len();
    let x = state(alloc, width, &IN_TURN, number)?;
    is_reached(alloc, embedded, made, map, &x)
}

/// Whether this is so for all assignments.
fn are_reached(
    alloc: Global,
    embedded: &Embedded,
    made: &Lowered<Ising, ChainLink>,
    map: &ChainMap,
) -> Result<bool, NoMemory>
    requires { Fits made.now.link embedded.now }
{
    let width = embedded.ising().fields.as_slice().len();
    for number in 0..1 << width.min(4) {
        if !is_reached_at(alloc, embedded, made, map, number)? {
            return Ok(false);
        }
    }
    Ok(width <= 4)
}

/// What is seen of a state that is decoded to these bits and is to be read in this way: it does not
/// lie below that, moved, and where no chain is broken it has that energy.
fn seen_of_reading(
    embedded: &Embedded,
    made: &Lowered<Ising, ChainLink>,
    wanted: &Reading,
    decoded: &[bool],
    found: i128,
) -> Option<Seen> {
    let moved = energy(embedded.ising(), &wanted.bits).wrapping_add(made.offset);
    if decoded != wanted.bits.as_slice() || found < moved || wanted.broken == 0 && found != moved {
        return None;
    }
    Some(Seen {
        models: 0,
        couplings: 0,
        broken: if wanted.broken == 0 { 0 } else { 1 },
        tied: if wanted.tied == 0 { 0 } else { 1 },
    })
}

/// What is seen of a state.
fn seen_of_state(
    alloc: Global,
    embedded: &Embedded,
    made: &Lowered<Ising, ChainLink>,
    map: &ChainMap,
    y: &[bool],
) -> Result<Option<Seen>, NoMemory>
    requires fits { Fits made.now.link embedded.now }
    requires width { length y.now ≡ made.now.link.qubits }
{
    let wanted = read(alloc, map, y)?;
    let decoded = Chains.decode(alloc, &made.link, y)?;
    Ok(seen_of_reading(embedded, made, &wanted, &decoded, energy(&made.target, y)))
}

/// What is seen of the state of these places with a number.
fn seen_of_number(
    alloc: Global,
    embedded: &Embedded,
    made: &Lowered<Ising, ChainLink>,
    map: &ChainMap,
    places: &[u64],
    number: u64,
) -> Result<Option<Seen>, NoMemory>
    requires { Fits made.now.link embedded.now }
{
    let y = state(alloc, made.link.qubits as usize, places, number)?;
    seen_of_state(alloc, embedded, made, map, &y)
}

/// The qubits of all chains.
fn chained_qubits(alloc: Global, map: &ChainMap) -> Result<Vec<u64>, NoMemory> {
    let mut qubits = Vec::new(alloc);
    for node in 0..map.len() {
        qubits.extend_from_slice(map.chain(node))?;
    }
    Ok(qubits)
}

/// What is seen of all states of the qubits of chains.
fn seen_of_states(
    alloc: Global,
    embedded: &Embedded,
    made: &Lowered<Ising, ChainLink>,
    map: &ChainMap,
    places: &[u64],
) -> Result<Outcome, NoMemory>
    requires { Fits made.now.link embedded.now }
{
    let mut seen = NOTHING;
    if places.len() > 14 {
        return Ok(Outcome::Refused);
    }
    for number in 0..1 << places.len() {
        match seen_of_number(alloc, embedded, made, map, places, number)? {
            Some(more) => seen.add(more),
            None => return Ok(Outcome::Failed),
        }
    }
    Ok(Outcome::Held(seen))
}

/// What is seen of an embedded form and of its image.
fn seen_of_image(
    alloc: Global,
    embedded: &Embedded,
    form: &Ising,
    made: &Lowered<Ising, ChainLink>,
    map: &ChainMap,
) -> Result<Outcome, NoMemory>
    requires { Fits made.now.link embedded.now }
{
    let cost = ties_cost(form, map);
    if made.scale != 1 || made.offset != cost.wrapping_neg() {
        return Ok(Outcome::Failed);
    }
    if !are_reached(alloc, embedded, made, map)? {
        return Ok(Outcome::Failed);
    }
    let places = chained_qubits(alloc, map)?;
    seen_of_states(alloc, embedded, made, map, &places)
}

/// What is seen of an embedded form.
fn seen_of(alloc: Global, embedded: &Embedded, map: &ChainMap) -> Result<Outcome, NoMemory>
    requires { IsSmall embedded.now.ising }
{
    let form = embedded.ising();
    let made = Chains.lower(alloc, embedded)?;
    seen_of_image(alloc, embedded, form, &made, map)
}

/// What is seen of one model, with its couplings.
fn seen_of_model(alloc: Global, embedded: &Embedded, map: &ChainMap) -> Result<Outcome, NoMemory>
    requires { IsSmall embedded.now.ising }
{
    match seen_of(alloc, embedded, map)? {
        Outcome::Held(seen) => Ok(Outcome::Held(Seen {
            models: 1,
            couplings: embedded.ising().couplings.len() as u64,
            broken: seen.broken,
            tied: seen.tied,
        })),
        other => Ok(other),
    }
}

/// What is seen of a form that was embedded in the chains of a map, if the map is valid.
fn seen_of_answer(
    alloc: Global,
    answer: Result<Embedded, CheckAnswer>,
    map: &ChainMap,
) -> Result<Outcome, NoMemory>
    requires { IfOk answer (λ e. IsSmall e.ising) }
{
    match answer {
        Ok(embedded) => seen_of_model(alloc, &embedded, map),
        Err(CheckAnswer::Fault(_)) => Ok(Outcome::Refused),
        Err(CheckAnswer::NoMemory) => Err(NoMemory),
    }
}

/// What is seen of a drawn form on the chains of a map, if the map is valid.
fn seen_on<H: Hardware>(
    alloc: Global,
    graph: &H,
    form: Option<Ising>,
    map: &ChainMap,
) -> Result<Outcome, NoMemory>
    requires { IfSome form IsSmall }
{
    let Some(form) = form else {
        return Ok(Outcome::Failed);
    };
    let answer = check(alloc, graph, form, map);
    seen_of_answer(alloc, answer, map)
}

/// What is seen of a drawn form on the chains of a map.
fn seen_of_drawn_on<H: Hardware>(
    alloc: Global,
    graph: &H,
    dice: &mut Dice,
    nodes: u32,
    map: &ChainMap,
) -> Result<Outcome, NoMemory> {
    let form = draw_form(alloc, dice, nodes)?;
    seen_on(alloc, graph, form, map)
}

/// What is seen of a drawn form on chains that grow. Forms with too few couplings to join all nodes
/// are refused.
fn seen_of_drawn<H: Hardware>(
    alloc: Global,
    graph: &H,
    dice: &mut Dice,
    nodes: u32,
) -> Result<Outcome, NoMemory> {
    let map = grow_map(alloc, graph, dice, nodes)?;
    Ok(match seen_of_drawn_on(alloc, graph, dice, nodes, &map)? {
        Outcome::Held(seen) if seen.couplings.wrapping_add(1) < u64::from(nodes) =>
            Outcome::Refused,
        other => other,
    })
}

/// What is seen of ten models of one to four nodes on a graph.
pub(crate) fn seen_of_ten<H: Hardware>(
    alloc: Global,
    graph: &H,
    seed: u64,
) -> Result<Option<Seen>, NoMemory> {
    let mut dice = Dice { state: seed };
    let mut seen = NOTHING;
    for _ in 0..20_000 {
        if seen.models < 10 {
            let nodes = 1 + (seen.models % 4) as u32;
            match seen_of_drawn(alloc, graph, &mut dice, nodes)? {
                Outcome::Held(more) => seen.add(more),
                Outcome::Refused => {}
                Outcome::Failed => return Ok(None),
            }
        }
    }
    Ok(Some(seen))
}

#[test]
fn all_states_of_drawn_models(rt: HostRuntime) -> Result<(), Fail> {
    for (seed, shape) in [(1, (1, 1, 4)), (2, (1, 2, 2)), (3, (2, 2, 2))] {
        let graph = Chimera::new(shape.0, shape.1, shape.2).ok_or("no graph")?;
        let seen = seen_of_ten(rt.alloc(), &graph, seed)?.ok_or("not as read")?;
        assert!(rt; seen.models == 10 && seen.couplings > 10, "{seen:?}");
        assert!(rt; seen.broken > 500 && seen.tied > 100, "{seen:?}");
    }
    Ok(())
}

/// What is seen of a drawn form that is embedded in the chains of a clique, without a check, and are
/// those of this map.
fn seen_on_clique(
    alloc: Global,
    graph: &Chimera,
    form: Option<Ising>,
    map: &ChainMap,
) -> Result<Outcome, NoMemory>
    requires { IfSome form IsSmall }
{
    let Some(form) = form else {
        return Ok(Outcome::Failed);
    };
    let answer = clique_embedded(alloc, graph, form);
    seen_of_answer(alloc, answer, map)
}

/// The same of a form that is drawn.
fn seen_of_drawn_clique(
    alloc: Global,
    graph: &Chimera,
    map: &ChainMap,
    nodes: u32,
    seed: u64,
) -> Result<Outcome, NoMemory> {
    let mut dice = Dice { state: seed };
    let form = draw_form(alloc, &mut dice, nodes)?;
    seen_on_clique(alloc, graph, form, map)
}

/// The same on the chains of the clique of so many nodes.
fn seen_of_clique(
    alloc: Global,
    shape: (u32, u32, u32),
    nodes: u32,
    seed: u64,
) -> Result<Outcome, NoMemory> {
    let Some(graph) = Chimera::new(shape.0, shape.1, shape.2) else {
        return Ok(Outcome::Refused);
    };
    match clique_map(alloc, &graph, nodes as usize) {
        Ok(map) => seen_of_drawn_clique(alloc, &graph, &map, nodes, seed),
        Err(_) => Ok(Outcome::Refused),
    }
}

/// Graphs, and how many nodes a clique has there.
const CLIQUES: [((u32, u32, u32), u32); 10] = [
    ((1, 1, 4), 1),
    ((1, 1, 4), 2),
    ((1, 1, 4), 3),
    ((1, 1, 4), 4),
    ((2, 2, 1), 2),
    ((2, 2, 2), 3),
    ((2, 2, 2), 4),
    ((2, 3, 2), 4),
    ((3, 3, 1), 2),
    ((3, 3, 1), 3),
];

#[test]
fn all_states_of_cliques(rt: HostRuntime) -> Result<(), Fail> {
    for (seed, (shape, nodes)) in CLIQUES.iter().enumerate() {
        let outcome = seen_of_clique(rt.alloc(), *shape, *nodes, seed as u64)?;
        assert!(rt;
            matches!(outcome, Outcome::Held(seen) if seen.broken > 0),
            "{seed} {outcome:?}"
        );
    }
    Ok(())
}
