//! Dead parts of graphs, cliques and maps on what is left, all of which look random, against a plain
//! search.
use crate::forms::{Row, coupled_form};
use crate::plain::{first_empty, first_fault, parent, place};
use crate::random::{Dice, random_map};
use base::NoMemory;
use chain_map::{ChainMap, CheckAnswer, EmbedFault};
use chimera_graph::Chimera;
use embedding_check::{Embedded, check};
use hardware::Hardware;
use std::alloc::Global;
use std::test::Fail;
use working_graph::{Working, clique_working, read_dead};

// ---- dead lists

/// Parts of a graph of fewer than 64 qubits: a bit for each qubit, and the couplers.
#[derive(Drop)]
pub(crate) struct Parts {
    pub qubits: u64,
    pub couplers: Vec<(u32, u32)>,
}

impl Parts {
    pub(crate) fn names(&self, qubit: u32) -> bool {
        qubit < 64 && (self.qubits >> qubit) % 2 == 1
    }

    pub(crate) fn cuts(&self, a: u32, b: u32) -> bool {
        for coupler in self.couplers.iter() {
            if *coupler == (a, b) || *coupler == (b, a) {
                return true;
            }
        }
        false
    }
}

/// Some of the couplers of a qubit to greater ones, each in either order.
fn draw_couplers(
    graph: &Chimera,
    dice: &mut Dice,
    a: u32,
    couplers: &mut Vec<(u32, u32)>,
) -> Result<(), NoMemory> {
    for b in a..graph.qubits() {
        if a < b && graph.joined(a, b) && dice.roll(5) == 0 {
            couplers.push(if dice.roll(2) == 0 { (a, b) } else { (b, a) })?;
        }
    }
    Ok(())
}

fn draw_parts(alloc: Global, graph: &Chimera, dice: &mut Dice) -> Result<Parts, NoMemory> {
    let mut qubits: u64 = 0;
    let mut couplers = Vec::new(alloc);
    for a in 0..graph.qubits() {
        if a < 64 && dice.roll(12) == 0 {
            qubits |= 1 << a;
        }
        draw_couplers(graph, dice, a, &mut couplers)?;
    }
    Ok(Parts { qubits, couplers })
}

/// Adds a number below 1,000 and a byte.
fn put(text: &mut Vec<u8>, number: u32, end: u8) -> Result<(), NoMemory> {
    for digit in [number / 100 % 10, number / 10 % 10, number % 10] {
        text.push(b'0' + digit as u8)?;
    }
    text.push(end)?;
    Ok(())
}

/// Adds a line for each coupler.
fn put_couplers(text: &mut Vec<u8>, parts: &Parts) -> Result<(), NoMemory> {
    for coupler in parts.couplers.iter() {
        put(text, coupler.0, b' ')?;
        put(text, coupler.1, b'\n')?;
    }
    Ok(())
}

/// Adds a line for each coupler and each qubit.
fn put_parts(text: &mut Vec<u8>, parts: &Parts) -> Result<(), NoMemory> {
    put_couplers(text, parts)?;
    for qubit in 0..64 {
        if parts.names(qubit) {
            put(text, qubit, b'\n')?;
        }
    }
    Ok(())
}

/// The list that names these parts, the couplers first.
pub(crate) fn text_of(alloc: Global, parts: &Parts) -> Result<Vec<u8>, NoMemory> {
    let mut text = Vec::new(alloc);
    put_parts(&mut text, parts)?;
    Ok(text)
}

/// Whether two qubits are joined, and neither is dead, nor is their coupler.
fn are_left_joined(graph: &Chimera, parts: &Parts, a: u64, b: u64) -> bool {
    let qubits = u64::from(graph.qubits());
    if a >= qubits || b >= qubits {
        return false;
    }
    let (a, b) = (a as u32, b as u32);
    graph.joined(a, b) && !parts.names(a) && !parts.names(b) && !parts.cuts(a, b)
}

/// Whether a qubit has the joins that are left.
fn has_joins(graph: &Chimera, parts: &Parts, working: &Working, a: u32) -> bool {
    for b in 0..working.qubits() {
        let joined = a < working.qubits() && working.joined(a, b);
        if joined != are_left_joined(graph, parts, u64::from(a), u64::from(b)) {
            return false;
        }
    }
    true
}

fn all_have_joins(graph: &Chimera, parts: &Parts, working: &Working) -> bool {
    for a in 0..working.qubits() {
        if !has_joins(graph, parts, working, a) {
            return false;
        }
    }
    true
}

// ---- places

/// The number of a qubit of a small graph.
fn number_of(graph: &Chimera, row: u32, col: u32, side: u32, at: u32) -> u64 {
    let cell = row.wrapping_mul(graph.cols).wrapping_add(col);
    let side = cell.wrapping_mul(2).wrapping_add(side);
    u64::from(side.wrapping_mul(graph.shore).wrapping_add(at))
}

/// Adds the qubits of a place down its column, up to the diagonal.
fn push_column(chain: &mut Vec<u64>, graph: &Chimera, cell: u32, at: u32) -> Result<(), NoMemory> {
    for row in 0..graph.rows.min(graph.cols) {
        if row <= cell {
            chain.push(number_of(graph, row, cell, 0, at))?;
        }
    }
    Ok(())
}

/// The chain of a place: down its column to the diagonal, and on along its row.
fn chain_of(alloc: Global, graph: &Chimera, cell: u32, at: u32) -> Result<Vec<u64>, NoMemory> {
    let mut chain = Vec::new(alloc);
    push_column(&mut chain, graph, cell, at)?;
    for col in cell..graph.rows.min(graph.cols) {
        chain.push(number_of(graph, cell, col, 1, at))?;
    }
    Ok(chain)
}

/// Whether a chain is a path of what is left.
fn is_path(graph: &Chimera, parts: &Parts, chain: &[u64]) -> bool {
    for k in 1..chain.len() {
        if !are_left_joined(graph, parts, chain[k - 1], chain[k]) {
            return false;
        }
    }
    true
}

/// Whether a qubit is joined to one of a chain.
fn reaches(graph: &Chimera, parts: &Parts, qubit: u64, chain: &[u64]) -> bool {
    for other in chain {
        if are_left_joined(graph, parts, qubit, *other) {
            return true;
        }
    }
    false
}

fn meets(graph: &Chimera, parts: &Parts, first: &[u64], second: &[u64]) -> bool {
    for qubit in first {
        if reaches(graph, parts, *qubit, second) {
            return true;
        }
    }
    false
}

fn meets_all(graph: &Chimera, parts: &Parts, chain: &[u64], map: &ChainMap) -> bool {
    for node in 0..map.len() {
        if !meets(graph, parts, chain, map.chain(node)) {
            return false;
        }
    }
    true
}

/// Adds the chains of the places of a cell that are taken, by trying each with all before it.
fn push_places(
    alloc: Global,
    map: &mut ChainMap,
    graph: &Chimera,
    parts: &Parts,
    cell: u32,
) -> Result<(), NoMemory> {
    for at in 0..graph.shore {
        let chain = chain_of(alloc, graph, cell, at)?;
        if is_path(graph, parts, &chain) && meets_all(graph, parts, &chain, map) {
            map.push(&chain)?;
        }
    }
    Ok(())
}

/// The chains of the places that are taken, cell after cell.
fn plain_clique(alloc: Global, graph: &Chimera, parts: &Parts) -> Result<ChainMap, NoMemory> {
    let mut map = ChainMap::new(alloc);
    for cell in 0..graph.rows.min(graph.cols) {
        push_places(alloc, &mut map, graph, parts, cell)?;
    }
    Ok(map)
}

fn are_same(map: &ChainMap, other: &ChainMap) -> bool {
    if map.len() != other.len() {
        return false;
    }
    for node in 0..map.len() {
        if map.chain(node) != other.chain(node) {
            return false;
        }
    }
    true
}

fn is_same(answer: &Result<ChainMap, CheckAnswer>, wanted: &ChainMap) -> bool {
    match answer {
        Ok(map) => are_same(map, wanted),
        Err(_) => false,
    }
}

fn is_refused(answer: &Result<ChainMap, CheckAnswer>, wanted: EmbedFault) -> bool {
    match answer {
        Err(CheckAnswer::Fault(fault)) => *fault == wanted,
        _ => false,
    }
}

/// Whether a clique of so many nodes has just these chains.
fn has_chains(alloc: Global, working: &Working, wanted: &ChainMap) -> bool {
    let answer = clique_working(alloc, working, wanted.len());
    is_same(&answer, wanted)
}

/// Whether a clique of one node more than places are taken is refused.
fn is_too_large(alloc: Global, working: &Working, taken: usize) -> bool {
    let more = taken.saturating_add(1);
    let answer = clique_working(alloc, working, more);
    is_refused(&answer, EmbedFault::TooManyNodes(more, taken))
}

/// Whether just these chains are those of taken places.
fn is_clique(alloc: Global, working: &Working, wanted: &ChainMap) -> bool {
    has_chains(alloc, working, wanted) && is_too_large(alloc, working, wanted.len())
}

/// The same of the chains that a plain search takes.
fn has_clique(
    alloc: Global,
    graph: &Chimera,
    parts: &Parts,
    working: &Working,
) -> Result<bool, NoMemory> {
    let wanted = plain_clique(alloc, graph, parts)?;
    Ok(is_clique(alloc, working, &wanted))
}

// ---- maps

/// Whether these are the parents of a chain, from its second qubit on.
fn are_parents<H: Hardware>(hardware: &H, chain: &[u64], parents: &[u32]) -> bool {
    for (at, qubit) in chain.iter().enumerate() {
        let found = if at == 0 {
            None
        } else {
            parents.get(at - 1).map(|p| *p as u64)
        };
        if at > 0 && parent(hardware, chain, at, *qubit) != found {
            return false;
        }
    }
    parents.len() < chain.len()
}

fn has_parents<H: Hardware>(hardware: &H, map: &ChainMap, embedded: &Embedded) -> bool {
    for node in 0..map.len() {
        if embedded.parents().len() <= node {
            return false;
        }
        if !are_parents(hardware, map.chain(node), embedded.parents().list(node)) {
            return false;
        }
    }
    true
}

/// Whether the coupling of a number has its place between two chains.
fn has_place<H: Hardware>(
    hardware: &H,
    first: &[u64],
    second: &[u64],
    found: Option<&(u32, u32)>,
) -> bool {
    let found = found.map(|p| (p.0 as u64, p.1 as u64));
    found.is_some() && place(hardware, first, second) == found
}

fn has_places<H: Hardware>(
    hardware: &H,
    map: &ChainMap,
    couplings: &[Row],
    embedded: &Embedded,
) -> bool {
    for (k, (first, second, _)) in couplings.iter().enumerate() {
        let (u, v) = (*first as usize, *second as usize);
        if u >= map.len() || v >= map.len() {
            return false;
        }
        let found = embedded.places().as_slice().get(k);
        if !has_place(hardware, map.chain(u), map.chain(v), found) {
            return false;
        }
    }
    true
}

/// The first number of a chain that is none of a qubit that is left.
fn dead_in(parts: &Parts, qubits: u32, chain: &[u64]) -> Option<u64> {
    for number in chain {
        if *number >= u64::from(qubits) || parts.names(*number as u32) {
            return Some(*number);
        }
    }
    None
}

/// The first number that is none of a qubit that is left.
fn first_dead(parts: &Parts, qubits: u32, map: &ChainMap) -> Option<EmbedFault> {
    for node in 0..map.len() {
        if let Some(number) = dead_in(parts, qubits, map.chain(node)) {
            return Some(EmbedFault::NoSuchQubit(node, number));
        }
    }
    None
}

/// Whether a map was taken, where this is the fault that a plain search finds; none where the answer
/// is another.
pub(crate) fn taken<H: Hardware>(
    hardware: &H,
    couplings: &[Row],
    map: &ChainMap,
    wanted: Option<EmbedFault>,
    answer: &Result<Embedded, CheckAnswer>,
) -> Option<bool> {
    let (alike, is_taken) = match answer {
        Ok(embedded) => (
            wanted.is_none()
                && has_parents(hardware, map, embedded)
                && has_places(hardware, map, couplings, embedded),
            true,
        ),
        Err(CheckAnswer::Fault(fault)) => (wanted == Some(*fault), false),
        Err(CheckAnswer::NoMemory) => (false, false),
    };
    if alike { Some(is_taken) } else { None }
}

/// The couplings of up to three nodes, in a row.
pub(crate) const IN_A_ROW: [Row; 2] = [(0, 1, 1), (1, 2, 1)];

/// The same of a map of up to three nodes, one after another of which are coupled.
fn map_taken(
    alloc: Global,
    parts: &Parts,
    working: &Working,
    nodes: usize,
    map: &ChainMap,
) -> Result<Option<bool>, NoMemory> {
    let couplings = &IN_A_ROW[..nodes.saturating_sub(1).min(2)];
    let wanted = first_empty(map)
        .or(first_dead(parts, working.qubits(), map))
        .or(first_fault(working, nodes, couplings, map));
    let Some(form) = coupled_form(alloc, nodes, couplings)? else {
        return Ok(None);
    };
    let answer = check(alloc, working, form, map);
    Ok(taken(working, couplings, map, wanted, &answer))
}

/// The same of a map that is drawn.
fn drawn_taken(
    alloc: Global,
    dice: &mut Dice,
    parts: &Parts,
    working: &Working,
    nodes: usize,
) -> Result<Option<bool>, NoMemory> {
    let map = random_map(alloc, dice, nodes, u64::from(working.qubits()))?;
    map_taken(alloc, parts, working, nodes, &map)
}

/// How many maps are taken; none where one is answered otherwise.
fn count_taken(
    alloc: Global,
    dice: &mut Dice,
    parts: &Parts,
    working: &Working,
) -> Result<Option<u64>, NoMemory> {
    let mut count: u64 = 0;
    for k in 0..300_usize {
        match drawn_taken(alloc, dice, parts, working, 1 + k % 3)? {
            Some(true) => count = count.saturating_add(1),
            Some(false) => {}
            None => return Ok(None),
        }
    }
    Ok(Some(count))
}

// ---- all of it

/// How many maps are taken on the graph without these parts; none where it has not the joins, places
/// and faults of a plain search.
fn agreed(
    alloc: Global,
    graph: &Chimera,
    dice: &mut Dice,
    parts: &Parts,
    working: &Working,
) -> Result<Option<u64>, NoMemory> {
    if !all_have_joins(graph, parts, working) || !has_clique(alloc, graph, parts, working)? {
        return Ok(None);
    }
    count_taken(alloc, dice, parts, working)
}

/// The same of the graph that is read from a dead list.
fn agreed_text(
    alloc: Global,
    graph: &Chimera,
    dice: &mut Dice,
    parts: &Parts,
    text: &[u8],
) -> Result<Option<u64>, NoMemory> {
    match read_dead(alloc, text, *graph) {
        Ok(working) => agreed(alloc, graph, dice, parts, &working),
        Err(_) => Ok(None),
    }
}

/// The same of the list that names these parts.
fn agreed_parts(
    alloc: Global,
    graph: &Chimera,
    dice: &mut Dice,
    parts: &Parts,
) -> Result<Option<u64>, NoMemory> {
    let text = text_of(alloc, parts)?;
    agreed_text(alloc, graph, dice, parts, &text)
}

/// The same of parts that are drawn.
fn agreed_on(alloc: Global, shape: (u32, u32, u32), seed: u64) -> Result<Option<u64>, NoMemory> {
    let Some(graph) = Chimera::new(shape.0, shape.1, shape.2) else {
        return Ok(None);
    };
    let mut dice = Dice { state: seed };
    let parts = draw_parts(alloc, &graph, &mut dice)?;
    agreed_parts(alloc, &graph, &mut dice, &parts)
}

/// How many maps are taken on eight graphs of a shape, with parts of their own.
fn agreed_on_eight(alloc: Global, shape: (u32, u32, u32)) -> Result<Option<u64>, NoMemory> {
    let mut count: u64 = 0;
    for seed in 0..8 {
        match agreed_on(alloc, shape, seed)? {
            Some(more) => count = count.saturating_add(more),
            None => return Ok(None),
        }
    }
    Ok(Some(count))
}

#[test]
fn forty_graphs_agree_with_a_plain_search(rt: HostRuntime) -> Result<(), Fail> {
    for shape in [(1, 1, 5), (2, 2, 2), (3, 3, 1), (2, 3, 3), (4, 3, 2)] {
        let count = agreed_on_eight(rt.alloc(), shape)?.ok_or("not as a plain search")?;
        // some of the maps are taken, and some are not
        assert!(rt; 0 < count && count < 2400, "{shape:?} {count}");
    }
    Ok(())
}
