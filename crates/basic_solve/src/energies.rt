//! What the entries of a node add to the energy, for each of its bits.
ghost use Rattle.std.specs.Prelude.{◌≡◌, ◌<◌, ◌≤◌, ◌^◌, true, unsigned_abs};
ghost use Rattle.base.specs.Sums.{total_by};
ghost use Rattle.bits_model.specs.Output.{weight_total};
ghost use Rattle.basic_solve.specs.Tables.{base_of, step_of};

use crate::columns::Columns;
use bits_model::{Entry, Kind, times_spin};

/// What an entry of a node adds where the node has this bit, and the other node has 0.
fn base_of(kind: Kind, bit: bool, entry: &Entry) -> i128
    requires { unsigned_abs entry.now.weight ≤ 2 ^ 124 }
    ensures { result ≡ base_of kind bit entry.now }
{
    let own = entry.first == entry.second;
    match kind {
        Kind::Qubo => if bit && own { entry.weight } else { 0 },
        Kind::Ising | Kind::Qubits(_) => {
            times_spin(bit, if own { entry.weight } else { -entry.weight })
        }
    }
}

/// What it adds besides where the other node has 1.
pub(crate) fn step_of(kind: Kind, bit: bool, entry: &Entry) -> i128
    requires { unsigned_abs entry.now.weight ≤ 2 ^ 124 }
    ensures { result ≡ step_of kind bit entry.now }
{
    match kind {
        Kind::Qubo => if bit { entry.weight } else { 0 },
        Kind::Ising | Kind::Qubits(_) => {
            if bit {
                2 * entry.weight
            } else {
                -(2 * entry.weight)
            }
        }
    }
}

/// What the entries of a node add where it has this bit, and all other nodes have 0.
pub(crate) fn base(kind: Kind, bit: bool, entries: &[Entry]) -> i128
    requires { weight_total entries.now ≤ 2 ^ 124 }
    ensures { result ≡ total_by (base_of kind bit) entries.now }
{
    let mut sum: i128 = 0;
    for entry in entries {
        sum += base_of(kind, bit, entry);
    }
    sum
}

/// Whether the sizes of all weights are below 2^60 together. They are at most 2^124.
pub(crate) fn is_small(model: &Columns) -> bool
    ensures small { result ≡ true → weight_total model.now.entries < 2 ^ 60 }
    ensures light { weight_total model.now.entries ≤ 2 ^ 124 }
{
    let mut sum: u128 = 0;
    for i in 0..model.pairs.len() {
        sum += model.pairs.at(i).weight.unsigned_abs();
    }
    sum < 1 << 60
}
