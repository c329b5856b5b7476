//! The greatest unit that weights can be counted in.
//!
//! The greatest common divisor of two numbers is found by Euclid's method (Elements, book VII,
//! proposition 2), with remainders in the place of repeated differences. A weight that the divisor
//! so far divides costs one remainder, of 64 bits where both fit. A pass over all weights ends as
//! soon as the divisor is 1, and in the unit 1 all weights stay as they are.
ghost use Rattle.std.specs.Prelude.{◌≡◌, ◌+◌, ◌%◌, ◌≤◌, ◌^◌, IsTrue, map};
ghost use Rattle.std.specs.Int.{IsGcd};
ghost use Rattle.bits_model.specs.Output.{weight_total};
ghost use Rattle.quad_form.specs.Quads.{node_entries};
ghost use Rattle.quad_form.specs.Units.{IsCommonDivisor, weight_of, unit_of, weights_of, counted_in, entry_in};

use crate::quad::NumberList;
use bits_model::{CouplerList, divide_weights};

/// The greatest common divisor.
fn common_divisor(a: u128, b: u128) -> u128
    ensures { IsGcd a b result }
{
    let mut greater = a;
    let mut less = b;
    while less != 0 {
        let rest = greater % less;
        greater = less;
        less = rest;
    }
    greater
}

/// Whether a number is a multiple of a divisor, where both fit in 64 bits. `false` says nothing.
fn is_narrow_multiple(number: u128, divisor: u128) -> bool
    ensures { IsTrue result → number % divisor ≡ 0 }
{
    match (u64::try_from(number), u64::try_from(divisor)) {
        (Ok(number), Ok(divisor)) => divisor != 0 && number % divisor == 0,
        _ => false,
    }
}

/// The greatest common divisor of one that was found and of a number more, which it mostly divides.
fn divisor_after(divisor: u128, number: u128) -> u128
    ensures { IsGcd divisor number result }
{
    if is_narrow_multiple(number, divisor) {
        divisor
    } else {
        common_divisor(divisor, number)
    }
}

/// The greatest common divisor of the sizes of weights, which is 0 where all are 0.
fn divisor_of_nodes(weights: &[i128]) -> u128
    ensures { IsCommonDivisor 0 weights.now result }
{
    let mut divisor: u128 = 0;
    for weight in weights {
        if divisor == 1 {
            return 1;
        }
        divisor = divisor_after(divisor, weight.unsigned_abs());
    }
    divisor
}

/// The greatest common divisor of a number and the sizes of the couplers' weights.
fn divisor_with(start: u128, couplers: &CouplerList) -> u128
    ensures { IsCommonDivisor start (map weight_of couplers.now) result }
{
    let mut divisor = start;
    for coupler in couplers.iter() {
        if divisor == 1 {
            return 1;
        }
        divisor = divisor_after(divisor, coupler.weight.unsigned_abs());
    }
    divisor
}

/// The greatest whole number that divides all weights, and 1 where all are 0.
fn greatest_unit(nodes: &[i128], couplers: &CouplerList) -> i128
    requires { weight_total (node_entries 0 nodes.now) + weight_total couplers.now ≤ 2 ^ 124 }
    ensures { result ≡ unit_of (weights_of nodes.now couplers.now) }
{
    let divisor = divisor_with(divisor_of_nodes(nodes), couplers);
    if divisor == 0 { 1 } else { divisor as i128 }
}

/// The weights of nodes and of couplers, counted in a unit.
#[derive(Drop)]
pub struct CountedWeights {
    pub nodes: NumberList,
    pub couplers: CouplerList,
    pub unit: i128,
}

/// Weights, counted in their greatest unit. They are divided in place, or stay as they are in the
/// unit 1.
pub fn counted_weights(nodes: NumberList, couplers: CouplerList) -> CountedWeights
    requires { weight_total (node_entries 0 nodes) + weight_total couplers ≤ 2 ^ 124 }
    ensures unit { result.unit ≡ unit_of (weights_of nodes couplers) }
    ensures nodes { result.nodes ≡ map (counted_in (unit_of (weights_of nodes couplers))) nodes }
    ensures couplers { result.couplers
        ≡ map (entry_in (unit_of (weights_of nodes couplers))) couplers }
{
    let unit = greatest_unit(nodes.as_slice(), &couplers);
    if unit == 1 {
        return CountedWeights {
            nodes,
            couplers,
            unit,
        };
    }
    CountedWeights {
        nodes: NumberList::new(divide_weights(nodes.into_vec(), unit)),
        couplers: couplers.divide(unit),
        unit,
    }
}
