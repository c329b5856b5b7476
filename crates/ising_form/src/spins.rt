//! The constant and the fields of a quadratic form's image, which are summed in one pass over its
//! nodes and one over its couplers.
ghost use Rattle.std.specs.Prelude.{◌≡◌, ◌+◌, ◌*◌, ◌<◌, ◌≤◌, ◌^◌, ◌+ℤ◌, [], length, unsigned_abs};
ghost use Rattle.std.specs.List.{slice_index_or};
ghost use Rattle.bits_model.specs.Output.{weight_total};
ghost use Rattle.quad_form.specs.Quads.{IsQuad, node_entries, quad_total};
ghost use Rattle.ising_form.specs.Spins.{spins_constant, spins_fields, raised};

use bits_model::{CouplerList, Entry};

/// A constant, and a field for each node.
#[derive(Drop)]
pub struct Spins {
    pub constant: i128,
    pub fields: Vec<i128>,
}

/// Doubles the weights of nodes, which makes them the fields of nodes without couplers, and says the
/// constant of these.
fn double_all(weights: &mut [i128], constant: i128) -> i128
    requires { unsigned_abs constant + weight_total (node_entries 0 weights.old) ≤ 2 ^ 122 }
    ensures constant { result ≡ spins_constant constant weights.old [] }
    ensures fields { weights.new ≡ spins_fields weights.old [] }
{
    let mut sum = 4 * constant;
    for at in 0..weights.len() {
        let doubled = 2 * weights[at];
        sum += doubled;
        weights[at] = doubled;
    }
    sum
}

/// The constant and the fields of nodes without couplers. The fields take the place of the weights.
fn spins_of_nodes(constant: i128, nodes: Vec<i128>) -> Spins
    requires { unsigned_abs constant + weight_total (node_entries 0 nodes.items) ≤ 2 ^ 122 }
    ensures constant { result.constant ≡ spins_constant constant nodes.items [] }
    ensures fields { result.fields.items ≡ spins_fields nodes.items [] }
{
    let mut fields = nodes;
    let constant = double_all(&mut fields, constant);
    Spins { constant, fields }
}

/// Adds to the field of a node.
fn raise(fields: &mut [i128], node: u32, weight: i128)
    requires within { node < length fields.old }
    requires small { weight_total (node_entries 0 fields.old) + unsigned_abs weight ≤ 2 ^ 126 }
    ensures { fields.new ≡ raised fields.old node weight }
{
    fields[node as usize] += weight;
}

/// Adds a coupler to the field of each of its ends.
fn raise_ends(fields: &mut [i128], coupler: &Entry)
    requires first { coupler.now.first < length fields.old }
    requires second { coupler.now.second < length fields.old }
    requires small { weight_total (node_entries 0 fields.old) + 2 * unsigned_abs coupler.now.weight
        ≤ 2 ^ 126 }
    ensures { fields.new ≡ raised (raised fields.old coupler.now.first coupler.now.weight)
        coupler.now.second coupler.now.weight }
{
    raise(fields, coupler.first, coupler.weight);
    raise(fields, coupler.second, coupler.weight);
}

impl Spins {
    /// Adds a coupler: to the constant, and to the field of each of its ends.
    fn add(&mut self, coupler: &Entry)
        requires first { coupler.now.first < length self.old.fields.items }
        requires second { coupler.now.second < length self.old.fields.items }
        requires constant { unsigned_abs self.old.constant + unsigned_abs coupler.now.weight
            ≤ 2 ^ 126 }
        requires fields { weight_total (node_entries 0 self.old.fields.items)
            + 2 * unsigned_abs coupler.now.weight ≤ 2 ^ 126 }
        ensures constant { self.new.constant ≡ self.old.constant +ℤ coupler.now.weight }
        ensures fields { self.new.fields.items
            ≡ raised (raised self.old.fields.items coupler.now.first coupler.now.weight)
            coupler.now.second coupler.now.weight }
    {
        self.constant += coupler.weight;
        raise_ends(&mut self.fields, coupler);
    }
}

/// The constant and the fields of the image of a form of these. The fields take the place of the
/// weights.
pub fn spins_of(constant: i128, nodes: Vec<i128>, couplers: &CouplerList) -> Spins
    requires quad { IsQuad (record {
      constant = constant;
      diagonal = nodes.items;
      couplers = couplers.now;
    }) }
    requires small { (quad_total (record {
      constant = constant;
      diagonal = nodes.items;
      couplers = couplers.now;
    }) + 1) * 2 ^ 2 ≤ 2 ^ 124 }
    ensures constant { result.constant ≡ spins_constant constant nodes.items couplers.now }
    ensures fields { result.fields.items ≡ spins_fields nodes.items couplers.now }
{
    let mut spins = spins_of_nodes(constant, nodes);
    for coupler in couplers.iter() {
        spins.add(&coupler);
    }
    spins
}
