//! How states of the qubits are read.
//!
//! No run of the program comes here: it reads states off the written model.
ghost use Rattle.std.specs.Prelude.{◌≡◌, IfOk, map};
ghost use Rattle.bits_model.specs.Output.{majority};

use base::NoMemory;
use bits_model::{ChainList, majority};
use std::alloc::Global;

/// The bit of each chain.
pub fn decoded(alloc: Global, chains: &ChainList, y: &[bool]) -> Result<Vec<bool>, NoMemory>
    ensures { IfOk result (λ x. x.items ≡ map (majority y.now) chains.now) }
{
    let mut x = Vec::with_capacity(alloc, chains.len())?;
    for i in 0..chains.len() {
        x.push(majority(y, chains.list(i)))?;
    }
    Ok(x)
}
