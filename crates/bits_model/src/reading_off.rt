//! How a state of a written model is read.
ghost use Rattle.std.specs.Prelude.{◌≡◌, ◌≤◌, length, map, take};
ghost use Rattle.std.specs.List.{slice_index_or};
ghost use Rattle.bits_model.specs.Output.{ones_in, majority, decoding_of};

use crate::chains::ChainList;
use crate::energy::bit_at;
use crate::output::{Kind, OutputModel};

/// How many qubits of the chain are 1.
fn ones_in(y: &[bool], chain: &[u32]) -> usize
    ensures { result ≡ ones_in y.now chain.now }
{
    let mut ones: usize = 0;
    for qubit in chain {
        if bit_at(y, *qubit as usize) {
            ones += 1;
        }
    }
    ones
}

/// The chain's first qubit. It is 0 for a list without qubits, which is no chain of a model.
fn first_qubit(chain: &[u32]) -> u32
    ensures { result ≡ slice_index_or chain.now 0 0 }
{
    match chain.first() {
        Some(qubit) => *qubit,
        None => 0,
    }
}

/// The bit that most qubits of the chain have, and on a tie that of its first qubit.
#[inline]
pub fn majority(y: &[bool], chain: &[u32]) -> bool
    ensures { result ≡ majority y.now chain.now }
{
    let ones = ones_in(y, chain);
    let zeros = chain.len() - ones;
    if ones == zeros {
        bit_at(y, first_qubit(chain) as usize)
    } else {
        zeros < ones
    }
}

/// Writes the first bits of a state.
fn read_bits(y: &[bool], x: &mut [bool])
    requires { length x.old ≤ length y.now }
    ensures { x.new ≡ take (length x.old) y.now }
{
    let count = x.len();
    x.copy_from_slice(&y[..count]);
}

/// Writes the bits of the first chains.
fn read_chains(chains: &ChainList, y: &[bool], x: &mut [bool])
    requires { length x.old ≤ length chains.now }
    ensures { x.new ≡ map (majority y.now) (take (length x.old) chains.now) }
{
    for node in 0..x.len() {
        x[node] = majority(y, chains.list(node));
    }
}

impl OutputModel {
    /// Writes the assignment that a state decodes to, read off the model alone. Takes no memory.
    pub fn read_off(&self, y: &[bool], x: &mut [bool])
        requires state { length y.now ≡ self.now.nodes }
        requires assignment { length x.old ≡ self.now.variables }
        ensures { x.new ≡ (decoding_of self.now).decoded y.now }
    {
        match self.kind {
            Kind::Qubo | Kind::Ising => read_bits(y, x),
            Kind::Qubits(_) => read_chains(&self.chains, y, x),
        }
    }
}
