//! Maps of chains: a list of numbers for each node.
ghost use Rattle.std.specs.Prelude.{◌≡◌, ◌<◌, ◌++◌, ◌∷◌, [], length, OnOk, OnErr};
ghost use Rattle.chain_map.specs.Chains.{chain_of};

use base::{Lists, NoMemory};
use std::alloc::Global;
use std::marker::Model;

/// A list of numbers for each node, which contracts see as a list of lists. The numbers of a map are
/// any below 2^64, and a chain takes no memory of its own.
#[derive(Drop)]
pub struct ChainMap {
    chains: Lists<u64>,
}

impl Model for ChainMap {
    ghost use Rattle.std.specs.Prelude.{List, ℕ};

    ghost Value = { List (List ℕ) };

    ghost view = { λ m. m.chains };
}

impl ChainMap {
    /// The map without chains.
    pub fn new(alloc: Global) -> ChainMap
        ensures { result ≡ [] }
    {
        ChainMap {
            chains: Lists::empty(alloc),
        }
    }

    /// How many chains there are.
    pub fn len(&self) -> usize
        ensures { result ≡ length self.now }
    {
        self.chains.len()
    }

    /// The numbers of a node's chain, in the chain's order.
    pub fn chain(&self, node: usize) -> &[u64]
        requires { node < length self.now }
        ensures { result.now ≡ chain_of self.now node }
    {
        self.chains.list(node)
    }

    /// Adds the chain of the next node.
    pub fn push(&mut self, chain: &[u64]) -> Result<(), NoMemory>
        ensures pushed { OnOk result (self.new ≡ self.old ++ chain.now ∷ []) }
        ensures unchanged { OnErr result (self.new ≡ self.old) }
    {
        self.chains.push(chain)
    }

    /// Adds the chain of the next node, which is in 32 bits. It is widened in a list that is used
    /// again for the next one.
    pub fn push_qubits(&mut self, chain: &[u32], wide: &mut Vec<u64>) -> Result<(), NoMemory>
        ensures pushed { OnOk result (self.new ≡ self.old ++ chain.now ∷ []) }
        ensures unchanged { OnErr result (self.new ≡ self.old) }
    {
        widen(wide, chain)?;
        self.chains.push(wide)
    }
}

/// Makes a list these numbers.
fn widen(wide: &mut Vec<u64>, numbers: &[u32]) -> Result<(), NoMemory>
    ensures { OnOk result (wide.new.items ≡ numbers.now) }
{
    wide.clear();
    for number in numbers {
        wide.push(u64::from(*number))?;
    }
    Ok(())
}
