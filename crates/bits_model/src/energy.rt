//! The energy of a written model.
ghost use Rattle.std.specs.Prelude.{◌≡◌, ◌≤◌, ◌^◌, neg_ℤ, unsigned_abs};
ghost use Rattle.base.specs.Sums.{total_by};
ghost use Rattle.bits_model.specs.Output.{bit_at, times_spin, bits_energy, spins_energy, entry_energy, weight_total};

use crate::couplers::CouplerList;
use crate::entries::EntryList;
use crate::output::{Entry, Kind, OutputModel};
use base::{Cost, Costed};

/// The bit of a node, which is 0 past the state's end.
#[inline]
pub fn bit_at(y: &[bool], node: usize) -> bool
    ensures { result ≡ bit_at y.now node }
{
    match y.get(node) {
        Some(bit) => *bit,
        None => false,
    }
}

/// A number times a spin.
#[inline]
pub fn times_spin(bit: bool, number: i128) -> i128
    requires { unsigned_abs number ≤ 2 ^ 124 }
    ensures { result ≡ times_spin bit number }
{
    if bit { number } else { -number }
}

/// What an entry adds to the energy of a state of bits.
#[inline]
pub fn bits_energy(y: &[bool], entry: &Entry) -> i128
    ensures { result ≡ bits_energy y.now entry.now }
{
    if bit_at(y, entry.first as usize) && bit_at(y, entry.second as usize) {
        entry.weight
    } else {
        0
    }
}

#[inline]
fn spins_energy(y: &[bool], entry: &Entry) -> i128
    requires { unsigned_abs entry.now.weight ≤ 2 ^ 124 }
    ensures { result ≡ spins_energy y.now entry.now }
{
    let first = bit_at(y, entry.first as usize);
    if entry.first == entry.second {
        times_spin(first, entry.weight)
    } else {
        times_spin(
            first,
            times_spin(bit_at(y, entry.second as usize), entry.weight),
        )
    }
}

/// What an entry of a model of this kind adds to the energy of a state.
fn entry_energy(kind: Kind, y: &[bool], entry: &Entry) -> i128
    requires { unsigned_abs entry.now.weight ≤ 2 ^ 124 }
    ensures { result ≡ entry_energy kind y.now entry.now }
{
    match kind {
        Kind::Qubo => bits_energy(y, entry),
        Kind::Ising | Kind::Qubits(_) => spins_energy(y, entry),
    }
}

/// The sum of what couplers add to the energy of a state of a model of this kind.
pub fn couplers_energy(kind: Kind, y: &[bool], couplers: &CouplerList) -> i128
    requires { weight_total couplers.now ≤ 2 ^ 124 }
    ensures { result ≡ total_by (entry_energy kind y.now) couplers.now }
{
    let mut energy: i128 = 0;
    for entry in couplers.iter() {
        energy += entry_energy(kind, y, &entry);
    }
    energy
}

/// The sum of what the entries of a model of this kind add to the energy of a state.
pub fn total_energy(kind: Kind, y: &[bool], entries: &EntryList) -> i128
    requires { weight_total entries.now ≤ 2 ^ 124 }
    ensures { result ≡ total_by (entry_energy kind y.now) entries.now }
{
    let mut energy: i128 = 0;
    for entry in entries.iter() {
        energy += entry_energy(kind, y, &entry);
    }
    energy
}

impl Costed for OutputModel {
    ghost use Rattle.std.specs.Prelude.{◌+◌};
    ghost use Rattle.std.specs.List.{sum_by};
    ghost use Rattle.bits_model.specs.Output.{form_of, weight_total, entry_size};

    ghost form = { form_of };

    ghost total = { λ m. weight_total m.entries };

    ghost size = { λ m. m.nodes + sum_by entry_size m.entries };

    fn width(&self) -> usize {
        self.nodes as usize
    }

    /// The energy of a state. It is never infinite.
    fn cost(&self, y: &[bool]) -> Cost {
        Cost::Whole(total_energy(self.kind, y, &self.entries))
    }
}
