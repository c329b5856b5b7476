//! Codes of 64 bits: the two nodes of a coupler, the first one highest, and a number below them.
ghost use Rattle.std.specs.Prelude.{◌≡◌, ◌+◌, ◌/◌, ◌<◌, ◌≤◌, ◌^◌, ◌+ℤ◌, ℕ, ℤ, pos, None, IfOk, IfSome};
ghost use Rattle.std.specs.List.Sorted.{IsPermutation, IsNonDecreasingBy};
ghost use Rattle.pair_sums.specs.Codes.{coupler_of, low_of, numbers_of, shape_for, unpacked, Fits, FitsPacked};

use base::NoMemory;
use bits_model::Entry;
use radix_sort::{sorted_above, sorted_keys};
use std::alloc::Global;

/// How the bits of a code are shared out: 18 to each node and 28 to the number where there are few
/// nodes, 20 and 24 where there are many, and else 21 and 22.
#[derive(Clone, Copy)]
pub enum Shape {
    Few,
    Many,
    Most,
}

/// Few nodes are below it.
const FEW_NODES: u64 = 1 << 18;

/// Numbers beside few nodes are below it.
const FEW_NUMBERS: u64 = 1 << 28;

/// Many nodes are below it.
const MANY_NODES: u64 = 1 << 20;

/// Numbers beside many nodes are below it.
const MANY_NUMBERS: u64 = 1 << 24;

/// Most nodes are below it.
const MOST_NODES: u64 = 1 << 21;

/// Numbers beside most nodes are below it.
const MOST_NUMBERS: u64 = 1 << 22;

/// The packing of couplers of so many nodes.
pub fn shape_for(nodes: usize) -> Shape
    ensures { result ≡ shape_for nodes }
{
    if nodes as u64 <= FEW_NODES {
        Shape::Few
    } else if nodes as u64 <= MANY_NODES {
        Shape::Many
    } else {
        Shape::Most
    }
}

/// The code of two nodes and a number, unless one of them needs more bits.
#[inline(always)]
pub fn coded(shape: Shape, first: u32, second: u32, number: u64) -> Option<u64>
    ensures pair { (weight : ℤ) → IfSome result (λ code. coupler_of shape code weight
        ≡ record { first = first; second = second; weight = weight }) }
    ensures number { IfSome result (λ code. low_of shape code ≡ number) }
    ensures none { result ≡ None → ¬ (Fits shape first second number) }
{
    let first = u64::from(first);
    let second = u64::from(second);
    let (nodes, numbers) = match shape {
        Shape::Few => (FEW_NODES, FEW_NUMBERS),
        Shape::Many => (MANY_NODES, MANY_NUMBERS),
        Shape::Most => (MOST_NODES, MOST_NUMBERS),
    };
    if first < nodes && second < nodes && number < numbers {
        Some((first * nodes + second) * numbers + number)
    } else {
        None
    }
}

/// The number of a code.
#[inline(always)]
pub fn low_of(shape: Shape, code: u64) -> u64
    ensures { result ≡ low_of shape code }
{
    match shape {
        Shape::Few => code % FEW_NUMBERS,
        Shape::Many => code % MANY_NUMBERS,
        Shape::Most => code % MOST_NUMBERS,
    }
}

/// The coupler of a code, with this weight.
#[inline(always)]
pub fn coupler_of(shape: Shape, code: u64, weight: i128) -> Entry
    ensures { result ≡ coupler_of shape code weight }
{
    match shape {
        Shape::Few => Entry {
            first: (code / FEW_NUMBERS / FEW_NODES) as u32,
            second: (code / FEW_NUMBERS % FEW_NODES) as u32,
            weight,
        },
        Shape::Many => Entry {
            first: (code / MANY_NUMBERS / MANY_NODES) as u32,
            second: (code / MANY_NUMBERS % MANY_NODES) as u32,
            weight,
        },
        Shape::Most => Entry {
            first: (code / MOST_NUMBERS / MOST_NODES) as u32,
            second: (code / MOST_NUMBERS % MOST_NODES) as u32,
            weight,
        },
    }
}

/// So many numbers have codes.
#[inline(always)]
fn numbers_of(shape: Shape) -> u64
    ensures value { result ≡ numbers_of shape }
    ensures few { result ≤ 2 ^ 28 }
{
    match shape {
        Shape::Few => FEW_NUMBERS,
        Shape::Many => MANY_NUMBERS,
        Shape::Most => MOST_NUMBERS,
    }
}

/// A weight counted from the least one on that so many values allow, unless these are too few.
#[inline(always)]
fn raised(weight: i128, values: u64) -> Option<u64>
    requires { values ≤ 2 ^ 28 }
    ensures some { IfSome result (λ number. pos number ≡ weight +ℤ pos (values / 2)) }
    ensures none { result ≡ None → (number : ℕ) → number < values
        → ¬ (pos number ≡ weight +ℤ pos (values / 2)) }
{
    let weight = i64::try_from(weight).ok()?;
    u64::try_from(weight.checked_add((values / 2) as i64)?).ok()
}

/// The code of a coupler whose number is its weight, unless a node or the weight needs more bits.
#[inline(always)]
pub fn packed(shape: Shape, first: u32, second: u32, weight: i128) -> Option<u64>
    ensures some { IfSome result (λ code.
        unpacked shape code ≡ record { first = first; second = second; weight = weight }) }
    ensures none { result ≡ None → ¬ (FitsPacked shape first second weight) }
{
    let number = raised(weight, numbers_of(shape))?;
    coded(shape, first, second, number)
}

/// The coupler of a code whose number is its weight.
#[inline(always)]
pub fn unpacked(shape: Shape, code: u64) -> Entry
    ensures { result ≡ unpacked shape code }
{
    let least = i128::from(numbers_of(shape) / 2);
    coupler_of(shape, code, i128::from(low_of(shape, code)) - least)
}

/// How couplers came.
#[derive(Clone, Copy)]
pub enum Arrival {
    /// In any order.
    Mixed,
    /// So that, among those of one first node, the second ones nearly ascend.
    Nearly,
}

/// How many bits of a code its number has.
fn number_bits(shape: Shape) -> u32
    ensures numbers { 2 ^ result ≡ numbers_of shape }
    ensures few { result < 64 }
{
    match shape {
        Shape::Few => 28,
        Shape::Many => 24,
        Shape::Most => 22,
    }
}

/// How many bits of a code each node has.
fn node_bits(shape: Shape) -> u32 {
    match shape {
        Shape::Few => 18,
        Shape::Many => 20,
        Shape::Most => 21,
    }
}

/// Codes in the order of their pairs. Those that nearly ascend are sorted by their first nodes and
/// then moved; others are sorted by the bits of both nodes.
pub fn ascending(
    alloc: Global,
    shape: Shape,
    codes: Vec<u64>,
    arrival: Arrival,
) -> Result<Vec<u64>, NoMemory>
    ensures same { IfOk result (λ sorted. IsPermutation codes.items sorted.items) }
    ensures ordered { IfOk result (λ sorted.
        IsNonDecreasingBy (λ code. code / numbers_of shape) sorted.items) }
{
    let bits = number_bits(shape);
    match arrival {
        Arrival::Mixed => sorted_above(alloc, codes, bits),
        Arrival::Nearly => sorted_keys(alloc, codes, bits, node_bits(shape)),
    }
}
