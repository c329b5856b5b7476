//! The energy of a written model, row by row.
//!
//! A row of couplers whose first node has bit 0 adds nothing, so it is passed over. In the other
//! rows the second node alone decides.
ghost use Rattle.std.specs.Prelude.{◌≡◌, ◌≤◌, ◌^◌};
ghost use Rattle.base.specs.Sums.{total_by, if_so};
ghost use Rattle.bits_model.specs.Output.{bit_at, bits_energy, entry_energy, weight_total};

use crate::couplers::CouplerList;
use crate::energy::{bit_at, bits_energy, total_energy};
use crate::entries::EntryList;
use crate::nodes::NodeWeights;
use crate::output::Kind;
use crate::row::Row;

/// The sum of a row's weights whose second node has bit 1.
fn ones_weight(y: &[bool], row: &Row<'_>) -> i128
    requires { weight_total row.now ≤ 2 ^ 124 }
    ensures { result ≡ total_by (λ e. if_so (bit_at y.now e.second) e.weight) row.now }
{
    let mut sum: i128 = 0;
    for i in 0..row.len() {
        if bit_at(y, row.second(i) as usize) {
            sum += row.weight(i);
        }
    }
    sum
}

/// What the couplers of a row add to the energy of a state of bits.
fn row_energy(y: &[bool], row: &Row<'_>) -> i128
    requires { weight_total row.now ≤ 2 ^ 124 }
    ensures { result ≡ total_by (bits_energy y.now) row.now }
{
    if bit_at(y, row.first() as usize) {
        ones_weight(y, row)
    } else {
        0
    }
}

/// What couplers add to the energy of a state of bits.
fn rows_energy(y: &[bool], couplers: &CouplerList) -> i128
    requires { weight_total couplers.now ≤ 2 ^ 124 }
    ensures { result ≡ total_by (bits_energy y.now) couplers.now }
{
    let mut energy: i128 = 0;
    for index in 0..couplers.row_count() {
        let row = couplers.row(index);
        energy += row_energy(y, &row);
    }
    energy
}

/// What the weights of nodes add to the energy of a state of bits.
fn nodes_energy(y: &[bool], nodes: &NodeWeights) -> i128
    requires { weight_total nodes.now ≤ 2 ^ 124 }
    ensures { result ≡ total_by (bits_energy y.now) nodes.now }
{
    let mut energy: i128 = 0;
    for entry in nodes.iter() {
        energy += bits_energy(y, &entry);
    }
    energy
}

/// The sum of what the entries of a model of this kind add to the energy of a state. Couplers of
/// bits are summed row by row, and a row whose first node has bit 0 is passed over.
pub fn energy_of(kind: Kind, y: &[bool], entries: &EntryList) -> i128
    requires { weight_total entries.now ≤ 2 ^ 124 }
    ensures { result ≡ total_by (entry_energy kind y.now) entries.now }
{
    match kind {
        Kind::Qubo => nodes_energy(y, &entries.nodes) + rows_energy(y, &entries.couplers),
        Kind::Ising | Kind::Qubits(_) => total_energy(kind, y, entries),
    }
}
