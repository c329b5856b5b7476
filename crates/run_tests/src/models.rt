//! The text of a model as these tests read it, by a small parser of their own: the energies of its
//! states, and what they decode to.
use crate::runs::{Ran, SOUND, run_words};
use program_run::Status;
use std::alloc::{AllocError, Global};
use std::test::Fail;

/// What an assignment costs that breaks what has to hold: more than any other here.
pub(crate) const INFINITE: i64 = 999;

/// What an assignment costs where one that costs more than a bound is infeasible. No cost is above
/// `INFINITE`, so this is no bound.
pub(crate) fn bounded(cost: i64, most: i64) -> i64 {
    if cost > most { INFINITE } else { cost }
}

/// The text of a source, and behind a `|` what each assignment costs, by its number, whose lowest bit
/// is the first variable. Sources are parted by `@`.
pub(crate) fn parted(source: &[u8]) -> Option<(&str, &[u8])> {
    let mut parts = source.split(|byte| *byte == b'|');
    let text = std::str::from_utf8(parts.next()?).ok()?;
    Some((text, parts.next()?))
}

/// What a model is for: bits, spins, or the qubits of one cell, where each chain has two.
#[derive(Clone, Copy, PartialEq, Eq)]
pub(crate) enum Target {
    Qubo,
    Ising,
    Cell,
}

impl Target {
    pub(crate) fn word(self) -> &'static str {
        match self {
            Target::Qubo => "qubo",
            Target::Ising => "ising",
            Target::Cell => "chimera",
        }
    }
}

fn number(word: &[u8]) -> Option<i64> {
    std::str::from_utf8(word).ok()?.parse().ok()
}

fn push_numbers(numbers: &mut Vec<i64>, text: &[u8]) -> Result<(), AllocError> {
    for word in text.split(|byte| matches!(*byte, b' ' | b'\n')) {
        if let Some(number) = number(word) {
            numbers.push(number)?;
        }
    }
    Ok(())
}

/// The numbers among the words of a text.
pub(crate) fn numbers(alloc: Global, text: &[u8]) -> Result<Vec<i64>, AllocError> {
    let mut numbers = Vec::new(alloc);
    push_numbers(&mut numbers, text)?;
    Ok(numbers)
}

/// The numbers of what a run writes; none where it ends otherwise.
pub(crate) fn numbers_of(alloc: Global, ran: &Ran) -> Result<Vec<i64>, AllocError> {
    match ran.status {
        Status::Done => numbers(alloc, ran.out.bytes()),
        _ => Ok(Vec::new(alloc)),
    }
}

/// The numbers of what a run with these words writes for this text.
pub(crate) fn compiled(alloc: Global, words: &[&str], text: &str) -> Result<Vec<i64>, Fail> {
    let ran = run_words(alloc, words, text, SOUND)?;
    Ok(numbers_of(alloc, &ran)?)
}

/// Whether the bit at a place is 1.
pub(crate) fn bit(state: u64, place: i64) -> bool {
    match u32::try_from(place) {
        Ok(place) => state.checked_shr(place).is_some_and(|rest| rest % 2 == 1),
        Err(_) => false,
    }
}

/// The numbers of a model: its figures; of each chain its node and two qubits; and of each entry
/// two nodes and a weight.
#[derive(Clone, Copy)]
pub(crate) struct Model<'a> {
    target: Target,
    scale: i64,
    offset: i64,
    threshold: i64,
    unit: i64,
    pub(crate) variables: u32,
    pub(crate) nodes: u32,
    chains: &'a [i64],
    entries: &'a [i64],
}

/// The numbers of chains, and those of the line `p` and below it.
fn parts(target: Target, numbers: &[i64]) -> Option<(&[i64], &[i64])> {
    match (target, numbers) {
        (Target::Qubo, [0, rows @ ..]) => Some(rows.split_at(0)),
        (Target::Ising, rows) => Some(rows.split_at(0)),
        (Target::Cell, [1, 1, shore, rows @ ..]) => {
            let count = usize::try_from(*shore).ok()?.checked_mul(3)?;
            Some((rows.get(..count)?, rows.get(count..)?))
        }
        _ => None,
    }
}

/// The model of the numbers of a text.
pub(crate) fn model_in(target: Target, numbers: &[i64]) -> Option<Model> {
    let (figures, rest) = (numbers.get(..5)?, numbers.get(5..)?);
    let (chains, rows) = parts(target, rest)?;
    match (figures, rows) {
        ([scale, offset, threshold, unit, variables], [nodes, _, _, entries @ ..]) => Some(Model {
            target,
            scale: *scale,
            offset: *offset,
            threshold: *threshold,
            unit: *unit,
            variables: u32::try_from(*variables).ok()?,
            nodes: u32::try_from(*nodes).ok()?,
            chains,
            entries,
        }),
        _ => None,
    }
}

impl Model<'_> {
    /// What an entry adds to the energy of a state. A spin is 1 where its bit is 1, and else -1.
    fn added(&self, state: u64, one: i64, other: i64, weight: i64) -> i64 {
        let first = bit(state, one);
        let second = bit(state, other);
        if self.target == Target::Qubo {
            return if first && second { weight } else { 0 };
        }
        let plus = if one == other { first } else { first == second };
        if plus {
            weight
        } else {
            weight.saturating_neg()
        }
    }

    pub(crate) fn energy(&self, state: u64) -> i64 {
        let mut energy: i64 = 0;
        for entry in self.entries.chunks_exact(3) {
            if let [one, other, weight] = entry {
                energy = energy.saturating_add(self.added(state, *one, *other, *weight));
            }
        }
        energy
    }

    /// The bit of a variable on a graph: that of the first qubit of its chain, which both have, or
    /// which goes first on a tie.
    fn decoded_bit(&self, state: u64, variable: u32) -> bool {
        let place = (variable as usize).saturating_mul(3).saturating_add(1);
        self.chains
            .get(place)
            .is_some_and(|qubit| bit(state, *qubit))
    }

    /// The number of the assignment that a state decodes to.
    pub(crate) fn decoded(&self, state: u64) -> u64 {
        if self.chains.is_empty() {
            return state & 1_u64.wrapping_shl(self.variables).wrapping_sub(1);
        }
        let mut assignment: u64 = 0;
        for variable in 0..self.variables {
            if self.decoded_bit(state, variable) {
                assignment |= 1_u64.wrapping_shl(variable);
            }
        }
        assignment
    }

    /// The least energy of the states that decode to an assignment.
    pub(crate) fn least(&self, assignment: u64) -> i64 {
        let mut least = i64::MAX;
        for state in 0..1_u64.wrapping_shl(self.nodes) {
            if self.decoded(state) == assignment {
                least = least.min(self.energy(state));
            }
        }
        least
    }

    /// The least energy of all states.
    pub(crate) fn least_of_all(&self) -> i64 {
        let mut least = i64::MAX;
        for state in 0..1_u64.wrapping_shl(self.nodes) {
            least = least.min(self.energy(state));
        }
        least
    }

    /// Whether an energy stands for a cost: it is the cost, scaled and moved, and lies above the
    /// threshold exactly where the cost is infinite.
    pub(crate) fn stands_for(&self, energy: i64, cost: i64) -> bool {
        let counted = self.unit.saturating_mul(energy);
        if cost == INFINITE {
            return counted > self.threshold;
        }
        let moved = self.scale.saturating_mul(cost).saturating_add(self.offset);
        counted == moved && counted <= self.threshold
    }

    /// Whether the least energy of each assignment stands for its cost under a bound.
    pub(crate) fn keeps(&self, costs: &[i64], most: i64) -> bool {
        for (assignment, cost) in costs.iter().enumerate() {
            if !self.stands_for(self.least(assignment as u64), bounded(*cost, most)) {
                return false;
            }
        }
        costs.len() as u64 == 1_u64.wrapping_shl(self.variables)
    }
    /// Whether the assignments of this cost are those that states of this energy decode to.
    fn least_are(&self, costs: &[i64], least: i64, energy: i64) -> bool {
        for (assignment, cost) in costs.iter().enumerate() {
            if (*cost == least) != (self.least(assignment as u64) == energy) {
                return false;
            }
        }
        true
    }

    /// Whether the least energy stands for the least cost, and least states decode to exactly the
    /// assignments of least cost.
    pub(crate) fn keeps_least(&self, costs: &[i64]) -> bool {
        let energy = self.least_of_all();
        let mut least = INFINITE;
        for cost in costs {
            least = least.min(*cost);
        }
        self.stands_for(energy, least)
            && (least == INFINITE || self.least_are(costs, least, energy))
    }
}
