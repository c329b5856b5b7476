//! The cost of a quadratic form.
//!
//! No run of the program comes here: it asks for energies of the written model.
ghost use Rattle.std.specs.Prelude.{◌≡◌, ◌≤◌, ◌^◌};
ghost use Rattle.base.specs.Sums.{if_so, total_by};
ghost use Rattle.bits_model.specs.Output.{bits_energy, weight_total};
ghost use Rattle.quad_form.specs.Quads.{node_entries};

use crate::quad::Quad;
use base::{Cost, Costed};
use bits_model::{Kind, bit_at, couplers_energy};

/// The weight of a node that is 1, and 0 for one that is not.
fn node_energy(bit: bool, weight: &i128) -> i128
    ensures { result ≡ if_so bit weight.now }
{
    if bit { *weight } else { 0 }
}

/// The weights of the nodes that are 1.
fn diagonal_energy(y: &[bool], diagonal: &[i128]) -> i128
    requires { weight_total (node_entries 0 diagonal.now) ≤ 2 ^ 124 }
    ensures { result ≡ total_by (bits_energy y.now) (node_entries 0 diagonal.now) }
{
    let mut energy: i128 = 0;
    for (i, weight) in diagonal.iter().enumerate() {
        energy += node_energy(bit_at(y, i), weight);
    }
    energy
}

impl Costed for Quad {
    ghost use Rattle.quad_form.specs.Quads.{form_of, quad_total, quad_size};

    ghost form = { form_of };

    ghost total = { quad_total };

    ghost size = { quad_size };

    fn width(&self) -> usize {
        self.diagonal.as_slice().len()
    }

    /// It is never infinite.
    fn cost(&self, y: &[bool]) -> Cost {
        let nodes = diagonal_energy(y, self.diagonal.as_slice());
        let couplers = couplers_energy(Kind::Qubo, y, &self.couplers);
        Cost::Whole(self.constant + (nodes + couplers))
    }
}
