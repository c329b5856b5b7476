//! Graphs that are given as lists: what is read of some texts, and the joins, maps and states of graphs
//! that look random, with gaps in their numbers.
use crate::all_states::seen_of_ten;
use crate::cut_bounds::below_in_ten;
use crate::dead_parts::{IN_A_ROW, Parts, taken, text_of};
use crate::forms::coupled_form;
use crate::plain::{are_joined, exists, first_fault};
use crate::random::{Dice, random_map};
use base::NoMemory;
use chain_map::ChainMap;
use embedding_check::check;
use hardware::Hardware;
use listed_graph::{Listed, read_graph};
use std::alloc::Global;
use std::test::Fail;
use whole_text::{TextAnswer, TextFault, TextKind};

// ---- texts

/// A graph: how many numbers it has, its qubits, and its couplers.
type Graph = (u32, &'static [u64], &'static [(u64, u64)]);

/// Good texts, and what they say.
const GOOD: [(&[u8], Graph); 8] = [
    (b"", (0, &[], &[])),
    (b"c 1 2\n\n", (0, &[], &[])),
    (b"0 4\n", (5, &[0, 4], &[(0, 4)])),
    (b"0 4\n6\n", (7, &[0, 4, 6], &[(0, 4)])),
    (b"4 0\n0\n0 4\n", (5, &[0, 4], &[(0, 4)])),
    (b"2 1\n1 0\n0 2", (3, &[0, 1, 2], &[(0, 1), (0, 2), (1, 2)])),
    (b"1048575\n", (1048576, &[1048575], &[])),
    (b"0 1048575\n", (1048576, &[0, 1048575], &[(0, 1048575)])),
];

/// Bad texts, and their first faults.
const BAD: [(&[u8], TextKind, u64); 8] = [
    (b"q\n", TextKind::Number, 1),
    (b"-1\n", TextKind::Range, 1),
    (b"1048576\n", TextKind::Range, 1),
    (b"0 1048576\n", TextKind::Range, 1),
    (b"0\n3 3\n", TextKind::Range, 2),
    (b"0 4 5\n", TextKind::Extra, 1),
    (b"0 0 q\n", TextKind::Range, 1),
    (b"0 1\n\n1 x\n", TextKind::Number, 3),
];

/// Whether each of some numbers is a qubit just where it is listed, and each two are joined just
/// where they are.
fn is_as_listed(graph: &Listed, wanted: &Graph) -> bool {
    for a in [0, 1, 2, 3, 4, 5, 6, 7, 1048574, 1048575, 1048576] {
        if exists(graph, a) != wanted.1.contains(&a) {
            return false;
        }
        for b in [0, 1, 2, 3, 4, 5, 6, 7, 1048574, 1048575] {
            let joined = wanted.2.contains(&(a, b)) || wanted.2.contains(&(b, a));
            if are_joined(graph, a, b) != joined {
                return false;
            }
        }
    }
    graph.qubits() == wanted.0
}

fn is_read_as(answer: Result<Listed, TextAnswer>, wanted: &Graph) -> bool {
    match answer {
        Ok(graph) => is_as_listed(&graph, wanted),
        Err(_) => false,
    }
}

#[test]
fn texts_are_read_as_graphs(rt: HostRuntime) -> Result<(), Fail> {
    for (k, (text, wanted)) in GOOD.iter().enumerate() {
        assert!(rt; is_read_as(read_graph(rt.alloc(), text), wanted), "{k}");
    }
    Ok(())
}

fn has_fault(answer: Result<Listed, TextAnswer>, kind: TextKind, line: u64) -> bool {
    match answer {
        Ok(_) => false,
        Err(answer) => answer == TextAnswer::Bad(TextFault { kind, line }),
    }
}

#[test]
fn the_first_fault_of_a_graph_is_told(rt: HostRuntime) -> Result<(), Fail> {
    for (k, (text, kind, line)) in BAD.iter().enumerate() {
        assert!(rt;
            has_fault(read_graph(rt.alloc(), text), *kind, *line),
            "{k}"
        );
    }
    Ok(())
}

// ---- drawn graphs

/// Some couplers of a number to greater ones that are no multiples of 3, each in either order.
fn draw_couplers(dice: &mut Dice, a: u32, couplers: &mut Vec<(u32, u32)>) -> Result<(), NoMemory> {
    for b in a..9 {
        if a < b && b % 3 != 0 && dice.roll(3) != 0 {
            couplers.push(if dice.roll(2) == 0 { (a, b) } else { (b, a) })?;
        }
    }
    Ok(())
}

/// A graph whose numbers are no multiples of 3: some of them have a line of their own.
fn draw_graph(alloc: Global, dice: &mut Dice) -> Result<Parts, NoMemory> {
    let mut qubits: u64 = 0;
    let mut couplers = Vec::new(alloc);
    for a in 0..9 {
        if a % 3 != 0 {
            qubits |= dice.roll(2) << a;
            draw_couplers(dice, a, &mut couplers)?;
        }
    }
    Ok(Parts { qubits, couplers })
}

/// Whether some part names a number.
fn is_named(parts: &Parts, number: u32) -> bool {
    for coupler in parts.couplers.iter() {
        if coupler.0 == number || coupler.1 == number {
            return true;
        }
    }
    parts.names(number)
}

/// One more than the greatest number that is named.
fn count_of(parts: &Parts) -> u32 {
    let mut count = 0;
    for number in 0..64 {
        if is_named(parts, number) {
            count = number + 1;
        }
    }
    count
}

/// Whether a number is a qubit just where it is named, with the joins that are named.
fn has_joins(parts: &Parts, graph: &Listed, a: u32) -> bool {
    for b in 0..64 {
        if are_joined(graph, u64::from(a), u64::from(b)) != parts.cuts(a, b) {
            return false;
        }
    }
    exists(graph, u64::from(a)) == is_named(parts, a)
}

fn is_as_drawn(parts: &Parts, graph: &Listed) -> bool {
    for a in 0..64 {
        if !has_joins(parts, graph, a) {
            return false;
        }
    }
    graph.qubits() == count_of(parts)
}

/// Whether a map is taken, if the check answers as a plain search does.
fn taken_of(
    alloc: Global,
    graph: &Listed,
    nodes: usize,
    map: &ChainMap,
) -> Result<Option<bool>, NoMemory> {
    let couplings = &IN_A_ROW[..nodes.saturating_sub(1).min(2)];
    let wanted = first_fault(graph, nodes, couplings, map);
    let Some(form) = coupled_form(alloc, nodes, couplings)? else {
        return Ok(None);
    };
    let answer = check(alloc, graph, form, map);
    Ok(taken(graph, couplings, map, wanted, &answer))
}

/// How many of five hundred drawn maps are taken.
fn count_taken(alloc: Global, dice: &mut Dice, graph: &Listed) -> Result<Option<u64>, NoMemory> {
    let mut count: u64 = 0;
    for _ in 0..500 {
        let nodes = dice.roll(4) as usize;
        let map = random_map(alloc, dice, nodes, u64::from(graph.qubits()))?;
        match taken_of(alloc, graph, nodes, &map)? {
            Some(more) => count = count.saturating_add(more as u64),
            None => return Ok(None),
        }
    }
    Ok(Some(count))
}

/// How many maps are taken on a drawn graph, if it is as drawn, its checks are as in a plain search,
/// and all states of models on it are as they should be.
fn agreed_on(
    alloc: Global,
    dice: &mut Dice,
    parts: &Parts,
    graph: &Listed,
    seed: u64,
) -> Result<Option<u64>, NoMemory> {
    let tied = seen_of_ten(alloc, graph, seed)?.is_some_and(|seen| seen.models == 10);
    let cut = below_in_ten(alloc, graph, seed)?.is_some();
    if !is_as_drawn(parts, graph) || !tied || !cut {
        return Ok(None);
    }
    count_taken(alloc, dice, graph)
}

/// The same of the graph that a text lists.
fn agreed_text(
    alloc: Global,
    dice: &mut Dice,
    parts: &Parts,
    text: &[u8],
    seed: u64,
) -> Result<Option<u64>, NoMemory> {
    match read_graph(alloc, text) {
        Ok(graph) => agreed_on(alloc, dice, parts, &graph, seed),
        Err(_) => Ok(None),
    }
}

/// The same of a graph that is drawn.
fn agreed_drawn(alloc: Global, seed: u64) -> Result<Option<u64>, NoMemory> {
    let mut dice = Dice { state: seed };
    let parts = draw_graph(alloc, &mut dice)?;
    let text = text_of(alloc, &parts)?;
    agreed_text(alloc, &mut dice, &parts, &text, seed)
}

#[test]
fn drawn_graphs_agree_with_a_plain_search(rt: HostRuntime) -> Result<(), Fail> {
    for seed in 0..3 {
        let count = agreed_drawn(rt.alloc(), seed)?.ok_or("not as a plain search")?;
        // some of the maps are taken, and some are not
        assert!(rt; 0 < count && count < 500, "{seed} {count}");
    }
    Ok(())
}
