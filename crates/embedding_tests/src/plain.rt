//! What a map is on a graph, by a plain search over walks and pairs.
use crate::forms::Row;
use chain_map::{ChainMap, EmbedFault};
use hardware::Hardware;

/// Whether a number is one of a qubit.
pub(crate) fn exists<H: Hardware>(hardware: &H, number: u64) -> bool {
    number < hardware.qubits() as u64 && hardware.exists(number as u32)
}

/// Whether two numbers are joined qubits.
pub(crate) fn are_joined<H: Hardware>(hardware: &H, a: u64, b: u64) -> bool {
    let qubits = hardware.qubits() as u64;
    a < qubits && b < qubits && hardware.joined(a as u32, b as u32)
}

fn is_marked(marks: u64, at: usize) -> bool {
    at < 64 && (marks >> at) % 2 == 1
}

/// Whether a qubit is joined to one of the marked places of a chain.
pub(crate) fn meets<H: Hardware>(hardware: &H, chain: &[u64], marks: u64, qubit: u64) -> bool {
    for (at, other) in chain.iter().enumerate() {
        if is_marked(marks, at) && are_joined(hardware, *other, qubit) {
            return true;
        }
    }
    false
}

/// The places to which walks lead that are one join longer.
fn next_marks<H: Hardware>(hardware: &H, chain: &[u64], marks: u64) -> u64 {
    let mut next = 0;
    for (at, qubit) in chain.iter().enumerate() {
        if at < 64 && meets(hardware, chain, marks, *qubit) {
            next |= 1 << at;
        }
    }
    next
}

/// The length of the shortest walk inside a chain from its first place to another.
pub(crate) fn distance<H: Hardware>(hardware: &H, chain: &[u64], at: usize) -> Option<u64> {
    let mut marks = 1;
    for joins in 0..9 {
        if is_marked(marks, at) {
            return Some(joins);
        }
        marks = next_marks(hardware, chain, marks);
    }
    None
}

/// The least of the qubits that are joined to the one at a place and one nearer to the first.
pub(crate) fn parent<H: Hardware>(
    hardware: &H,
    chain: &[u64],
    at: usize,
    qubit: u64,
) -> Option<u64> {
    let far = distance(hardware, chain, at)?;
    let mut least = None;
    for (k, other) in chain.iter().enumerate() {
        let near = distance(hardware, chain, k)?;
        let is_less = least.is_none_or(|found| *other < found);
        if near < far && far - near == 1 && are_joined(hardware, *other, qubit) && is_less {
            least = Some(*other);
        }
    }
    least
}

fn lesser(found: Option<(u64, u64)>, pair: (u64, u64)) -> (u64, u64) {
    match found {
        Some(least) => if pair < least { pair } else { least },
        None => pair,
    }
}

/// The least of what was found and of the joined pairs of a qubit and a chain.
fn place_from<H: Hardware>(
    hardware: &H,
    qubit: u64,
    chain: &[u64],
    found: Option<(u64, u64)>,
) -> Option<(u64, u64)> {
    let mut least = found;
    for other in chain {
        if are_joined(hardware, qubit, *other) {
            let pair = if qubit < *other {
                (qubit, *other)
            } else {
                (*other, qubit)
            };
            least = Some(lesser(least, pair));
        }
    }
    least
}

/// The least joined pair between two chains.
pub(crate) fn place<H: Hardware>(
    hardware: &H,
    first: &[u64],
    second: &[u64],
) -> Option<(u64, u64)> {
    let mut least = None;
    for qubit in first {
        least = place_from(hardware, *qubit, second, least);
    }
    least
}

pub(crate) fn first_empty(map: &ChainMap) -> Option<EmbedFault> {
    for node in 0..map.len() {
        if map.chain(node).is_empty() {
            return Some(EmbedFault::EmptyChain(node));
        }
    }
    None
}

/// The first number of a chain that is none of a qubit.
fn unknown_in<H: Hardware>(hardware: &H, chain: &[u64]) -> Option<u64> {
    for number in chain {
        if !exists(hardware, *number) {
            return Some(*number);
        }
    }
    None
}

fn first_unknown<H: Hardware>(hardware: &H, map: &ChainMap) -> Option<EmbedFault> {
    for node in 0..map.len() {
        if let Some(number) = unknown_in(hardware, map.chain(node)) {
            return Some(EmbedFault::NoSuchQubit(node, number));
        }
    }
    None
}

/// The first number of a chain below 64 that was seen before. Those before it are seen from then on.
fn repeated_in(chain: &[u64], seen: &mut u64) -> Option<u64> {
    for number in chain {
        if *number < 64 {
            if (*seen >> *number) % 2 == 1 {
                return Some(*number);
            }
            *seen |= 1 << *number;
        }
    }
    None
}

fn first_repeated(map: &ChainMap) -> Option<EmbedFault> {
    let mut seen: u64 = 0;
    for node in 0..map.len() {
        if let Some(number) = repeated_in(map.chain(node), &mut seen) {
            return Some(EmbedFault::Repeated(number));
        }
    }
    None
}

/// The first number of a chain to which no walk inside it leads.
fn unreached_in<H: Hardware>(hardware: &H, chain: &[u64]) -> Option<u64> {
    for (at, number) in chain.iter().enumerate() {
        if distance(hardware, chain, at).is_none() {
            return Some(*number);
        }
    }
    None
}

fn first_unreached<H: Hardware>(hardware: &H, map: &ChainMap) -> Option<EmbedFault> {
    for node in 0..map.len() {
        if let Some(number) = unreached_in(hardware, map.chain(node)) {
            return Some(EmbedFault::Disconnected(node, number));
        }
    }
    None
}

fn first_uncoupled<H: Hardware>(
    hardware: &H,
    map: &ChainMap,
    couplings: &[Row],
) -> Option<EmbedFault> {
    for (first, second, _) in couplings {
        let (u, v) = (*first as usize, *second as usize);
        if u < map.len() && v < map.len() && place(hardware, map.chain(u), map.chain(v)).is_none() {
            return Some(EmbedFault::NoCoupler(u, v));
        }
    }
    None
}

/// The first fault of a map, for so many nodes with these couplings.
pub(crate) fn first_fault<H: Hardware>(
    hardware: &H,
    nodes: usize,
    couplings: &[Row],
    map: &ChainMap,
) -> Option<EmbedFault> {
    if map.len() != nodes {
        return Some(EmbedFault::ChainCount(map.len()));
    }
    first_empty(map)
        .or(first_unknown(hardware, map))
        .or(first_repeated(map))
        .or(first_unreached(hardware, map))
        .or(first_uncoupled(hardware, map, couplings))
}
