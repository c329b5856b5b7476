//! All states of small forms whose ties are cut-bound: the least ones have no broken chain and are
//! read as least assignments, and others lie below what they are read as.
ghost use Rattle.std.specs.Prelude.{◌≡◌, length, IfOk, IfSome};
ghost use Rattle.cut_chains.specs.CutLinks.{Fits};
ghost use Rattle.embedding_tests.specs.SmallForms.{IsSmall};

use crate::arithmetic::{IN_TURN, Reading, energy, read, state};
use crate::drawn::{draw_form, grow_map};
use crate::random::Dice;
use base::NoMemory;
use chain_map::{ChainMap, CheckAnswer};
use chimera_graph::Chimera;
use cut_chains::{CutChains, CutLink};
use embedding_check::{Embedded, check};
use form_steps::Lowered;
use hardware::Hardware;
use ising_form::Ising;
use std::alloc::Global;
use std::test::Fail;

/// What is seen of an embedded form.
#[derive(Clone, Copy, Debug, PartialEq, Eq)]
enum Outcome {
    /// The map is not valid.
    Refused,

    /// Some state or assignment is not as it should be.
    Failed,

    /// So many states lie below what they are read as, moved by the offset.
    Held(u64),
}

/// How many states a form has. It has at most twelve bits.
fn states(form: &Ising) -> u64 {
    1 << form.fields.as_slice().len().min(12)
}

fn energy_of_number(alloc: Global, form: &Ising, number: u64) -> Result<i128, NoMemory> {
    let y = state(alloc, form.fields.as_slice().len(), &IN_TURN, number)?;
    Ok(energy(form, &y))
}

/// The least energy of a form.
fn least_energy(alloc: Global, form: &Ising) -> Result<i128, NoMemory> {
    let mut least = i128::MAX;
    for number in 0..states(form) {
        least = least.min(energy_of_number(alloc, form, number)?);
    }
    Ok(least)
}

/// Whether an assignment extends to a state without broken chains, which is read as it and has its
/// energy, moved.
fn is_reached(
    alloc: Global,
    embedded: &Embedded,
    made: &Lowered<Ising, CutLink>,
    map: &ChainMap,
    x: &[bool],
) -> Result<bool, NoMemory>
    requires fits { Fits made.now.link embedded.now }
    requires width { length x.now ≡ length embedded.now.ising.fields }
{
    let y = CutChains.extend(alloc, embedded, &made.link, x)?;
    let again = read(alloc, map, &y)?;
    let moved = energy(embedded.ising(), x).wrapping_add(made.offset);
    Ok(again.broken == 0 && again.bits.as_slice() == x && energy(&made.target, &y) == moved)
}

/// Whether this is so for the assignment of a number.
fn is_reached_at(
    alloc: Global,
    embedded: &Embedded,
    made: &Lowered<Ising, CutLink>,
    map: &ChainMap,
    number: u64,
) -> Result<bool, NoMemory>
    requires { Fits made.now.link embedded.now }
{
    let width = embedded.ising().fields.as_slice().len();
    let x = state(alloc, width, &IN_TURN, number)?;
    is_reached(alloc, embedded, made, map, &x)
}

/// Whether this is so for all assignments.
fn are_reached(
    alloc: Global,
    embedded: &Embedded,
    made: &Lowered<Ising, CutLink>,
    map: &ChainMap,
) -> Result<bool, NoMemory>
    requires { Fits made.now.link embedded.now }
{
    for number in 0..states(embedded.ising()) {
        if !is_reached_at(alloc, embedded, made, map, number)? {
            return Ok(false);
        }
    }
    Ok(true)
}

/// Whether a state lies below what it is to be read as, moved. There is no answer where it is decoded
/// to other bits than that, or has this least energy and a broken chain, or another energy than that.
fn is_reading_below(
    embedded: &Embedded,
    made: &Lowered<Ising, CutLink>,
    wanted: &Reading,
    decoded: &[bool],
    least: i128,
    found: i128,
) -> Option<bool> {
    let moved = energy(embedded.ising(), &wanted.bits).wrapping_add(made.offset);
    let is_least = found == least;
    if decoded != wanted.bits.as_slice() || is_least && (wanted.broken != 0 || found != moved) {
        return None;
    }
    Some(found < moved)
}

/// The same of a state.
fn is_below(
    alloc: Global,
    embedded: &Embedded,
    made: &Lowered<Ising, CutLink>,
    map: &ChainMap,
    least: i128,
    y: &[bool],
) -> Result<Option<bool>, NoMemory>
    requires fits { Fits made.now.link embedded.now }
    requires width { length y.now ≡ made.now.link.qubits }
{
    let wanted = read(alloc, map, y)?;
    let decoded = CutChains.decode(alloc, &made.link, y)?;
    let found = energy(&made.target, y);
    Ok(is_reading_below(embedded, made, &wanted, &decoded, least, found))
}

/// The same of the state of a number.
fn is_number_below(
    alloc: Global,
    embedded: &Embedded,
    made: &Lowered<Ising, CutLink>,
    map: &ChainMap,
    least: i128,
    number: u64,
) -> Result<Option<bool>, NoMemory>
    requires { Fits made.now.link embedded.now }
{
    let y = state(alloc, made.link.qubits as usize, &IN_TURN, number)?;
    is_below(alloc, embedded, made, map, least, &y)
}

/// What is seen of all states.
fn seen_of_states(
    alloc: Global,
    embedded: &Embedded,
    made: &Lowered<Ising, CutLink>,
    map: &ChainMap,
    least: i128,
) -> Result<Outcome, NoMemory>
    requires { Fits made.now.link embedded.now }
{
    let mut count: u64 = 0;
    for number in 0..states(&made.target) {
        match is_number_below(alloc, embedded, made, map, least, number)? {
            Some(below) => count = count.wrapping_add(below as u64),
            None => return Ok(Outcome::Failed),
        }
    }
    Ok(Outcome::Held(count))
}

/// What is seen of a form of this least energy and of its image.
fn seen_of_image(
    alloc: Global,
    embedded: &Embedded,
    made: &Lowered<Ising, CutLink>,
    map: &ChainMap,
    least: i128,
) -> Result<Outcome, NoMemory>
    requires { Fits made.now.link embedded.now }
{
    let moved = least.wrapping_add(made.offset);
    if made.scale != 1 || least_energy(alloc, &made.target)? != moved {
        return Ok(Outcome::Failed);
    }
    if !are_reached(alloc, embedded, made, map)? {
        return Ok(Outcome::Failed);
    }
    seen_of_states(alloc, embedded, made, map, moved)
}

/// What is seen of an embedded form.
fn seen_of(alloc: Global, embedded: &Embedded, map: &ChainMap) -> Result<Outcome, NoMemory>
    requires { IsSmall embedded.now.ising }
{
    let least = least_energy(alloc, embedded.ising())?;
    let made = CutChains.lower(alloc, embedded)?;
    seen_of_image(alloc, embedded, &made, map, least)
}

/// What is seen of a form on the chains of a map.
fn seen_on<H: Hardware>(
    alloc: Global,
    graph: &H,
    form: Ising,
    map: &ChainMap,
) -> Result<Outcome, NoMemory>
    requires { IsSmall form }
{
    match check(alloc, graph, form, map) {
        Ok(embedded) => seen_of(alloc, &embedded, map),
        Err(CheckAnswer::Fault(_)) => Ok(Outcome::Refused),
        Err(CheckAnswer::NoMemory) => Err(NoMemory),
    }
}

/// What is seen of a drawn form on the chains of a map.
fn seen_of_form<H: Hardware>(
    alloc: Global,
    graph: &H,
    form: Option<Ising>,
    map: &ChainMap,
) -> Result<Outcome, NoMemory>
    requires { IfSome form IsSmall }
{
    match form {
        Some(form) => seen_on(alloc, graph, form, map),
        None => Ok(Outcome::Failed),
    }
}

/// The same of a form that is drawn.
fn seen_of_drawn_on<H: Hardware>(
    alloc: Global,
    graph: &H,
    dice: &mut Dice,
    nodes: u32,
    map: &ChainMap,
) -> Result<Outcome, NoMemory> {
    let form = draw_form(alloc, dice, nodes)?;
    seen_of_form(alloc, graph, form, map)
}

/// What is seen of a drawn form on chains that grow.
fn seen_of_drawn<H: Hardware>(
    alloc: Global,
    graph: &H,
    dice: &mut Dice,
    nodes: u32,
) -> Result<Outcome, NoMemory> {
    let map = grow_map(alloc, graph, dice, nodes)?;
    seen_of_drawn_on(alloc, graph, dice, nodes, &map)
}

/// How many states of ten forms of one to three nodes lie below what they are read as.
pub(crate) fn below_in_ten<H: Hardware>(
    alloc: Global,
    graph: &H,
    seed: u64,
) -> Result<Option<u64>, NoMemory> {
    let mut dice = Dice { state: seed };
    let (mut forms, mut count): (u32, u64) = (0, 0);
    for _ in 0..20_000 {
        if forms < 10 {
            match seen_of_drawn(alloc, graph, &mut dice, 1 + forms % 3)? {
                Outcome::Held(below) => {
                    forms += 1;
                    count = count.wrapping_add(below);
                }
                Outcome::Refused => {}
                Outcome::Failed => return Ok(None),
            }
        }
    }
    Ok(if forms == 10 { Some(count) } else { None })
}

#[test]
fn least_states_have_no_broken_chain(rt: HostRuntime) -> Result<(), Fail> {
    let rows = [
        (1, (1, 1, 4)),
        (2, (1, 2, 2)),
        (3, (2, 1, 2)),
        (4, (2, 2, 1)),
    ];
    for (seed, shape) in rows {
        let graph = Chimera::new(shape.0, shape.1, shape.2).ok_or("no graph")?;
        let below = below_in_ten(rt.alloc(), &graph, seed)?.ok_or("not as read")?;
        assert!(rt; below > 0, "{shape:?}");
    }
    Ok(())
}
