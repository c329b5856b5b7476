//! States, their energies and what their chains are read as, by plain arithmetic.
ghost use Rattle.std.specs.Prelude.{◌≡◌, length, IfOk};

use base::NoMemory;
use chain_map::ChainMap;
use ising_form::Ising;
use std::alloc::Global;

/// Nodes or qubits one after another.
pub(crate) const IN_TURN: [u64; 12] = [0, 1, 2, 3, 4, 5, 6, 7, 8, 9, 10, 11];

/// Sets the bits at these places to the lowest ones of a number.
fn set(y: &mut [bool], places: &[u64], number: u64)
    ensures { length y.new ≡ length y.old }
{
    let mut rest = number;
    for place in places {
        match y.get_mut(*place as usize) {
            Some(bit) => *bit = rest % 2 == 1,
            None => {}
        }
        rest /= 2;
    }
}

/// The state in which these places have the lowest bits of a number, and all others 0.
pub(crate) fn state(
    alloc: Global,
    width: usize,
    places: &[u64],
    number: u64,
) -> Result<Vec<bool>, NoMemory>
    ensures { IfOk result (λ y. length y.items ≡ width) }
{
    let mut y = vec![in alloc; false; width]?;
    set(&mut y, places, number);
    Ok(y)
}

fn is_one(y: &[bool], at: usize) -> bool {
    match y.get(at) {
        Some(bit) => *bit,
        None => false,
    }
}

/// A weight times a spin.
fn turned(y: &[bool], at: usize, weight: i128) -> i128 {
    if is_one(y, at) {
        weight
    } else {
        weight.wrapping_neg()
    }
}

fn fields_energy(form: &Ising, y: &[bool]) -> i128 {
    let mut energy: i128 = 0;
    for (node, field) in form.fields.as_slice().iter().enumerate() {
        energy = energy.wrapping_add(turned(y, node, *field));
    }
    energy
}

/// The constant, each field times its spin, and each coupling times both spins.
pub(crate) fn energy(form: &Ising, y: &[bool]) -> i128 {
    let mut energy = form.constant.wrapping_add(fields_energy(form, y));
    for coupling in form.couplings.iter() {
        let once = turned(y, coupling.first as usize, coupling.weight);
        energy = energy.wrapping_add(turned(y, coupling.second as usize, once));
    }
    energy
}

/// One more than the sizes of a node's field and couplings.
fn strength(form: &Ising, node: usize, field: i128) -> i128 {
    let mut strength = field.wrapping_abs().wrapping_add(1);
    for coupling in form.couplings.iter() {
        if coupling.first as usize == node || coupling.second as usize == node {
            strength = strength.wrapping_add(coupling.weight.wrapping_abs());
        }
    }
    strength
}

/// The strength of each node times the number of its ties, which is one less than that of its
/// qubits.
pub(crate) fn ties_cost(form: &Ising, map: &ChainMap) -> i128 {
    let mut cost: i128 = 0;
    for (node, field) in form.fields.as_slice().iter().enumerate() {
        if node < map.len() {
            let ties = (map.chain(node).len() as i128).wrapping_sub(1);
            cost = cost.wrapping_add(strength(form, node, *field).wrapping_mul(ties));
        }
    }
    cost
}

/// What the chains of a state are read as, and how many of them are broken, and how many tied.
#[derive(Drop)]
pub(crate) struct Reading {
    pub bits: Vec<bool>,
    pub broken: u64,
    pub tied: u64,
}

fn ones(y: &[bool], chain: &[u64]) -> u64 {
    let mut ones: u64 = 0;
    for qubit in chain {
        if is_one(y, *qubit as usize) {
            ones = ones.wrapping_add(1);
        }
    }
    ones
}

impl Reading {
    /// Reads the next chain: what more than half of its qubits have, and else what its first has.
    fn add(&mut self, y: &[bool], chain: &[u64]) -> Result<(), NoMemory> {
        let ones = ones(y, chain);
        let zeros = (chain.len() as u64).wrapping_sub(ones);
        if ones != 0 && zeros != 0 {
            self.broken = self.broken.wrapping_add(1);
        }
        if ones == zeros {
            self.tied = self.tied.wrapping_add(1);
        }
        let first = match chain.first() {
            Some(qubit) => is_one(y, *qubit as usize),
            None => false,
        };
        self.bits.push(ones > zeros || ones == zeros && first)?;
        Ok(())
    }

    fn add_all(&mut self, y: &[bool], map: &ChainMap) -> Result<(), NoMemory> {
        for node in 0..map.len() {
            self.add(y, map.chain(node))?;
        }
        Ok(())
    }
}

/// Reads all chains.
pub(crate) fn read(alloc: Global, map: &ChainMap, y: &[bool]) -> Result<Reading, NoMemory> {
    let mut reading = Reading {
        bits: Vec::new(alloc),
        broken: 0,
        tied: 0,
    };
    reading.add_all(y, map)?;
    Ok(reading)
}
