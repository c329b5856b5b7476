//! The couplings of qubits: those that are placed, and ties.
ghost use Rattle.std.specs.Prelude.{◌≡◌, ◌+◌, ◌<◌, ◌≤◌, ◌^◌, ◌++◌, [], IfOk, OnOk, drop, length, map};
ghost use Rattle.std.specs.List.Sorted.{IsPermutation, IsNonDecreasingBy};
ghost use Rattle.bits_model.specs.PairNumbers.{pair_number};
ghost use Rattle.embedding_check.specs.Embeddings.{IsEmbedding};
ghost use Rattle.chain_layer.specs.Image.{
  all_ties,
  coupling_entry,
  nodes_of,
  placed,
  strength,
  ties,
  ties_cost,
};

use crate::merging::{ascend, merged};
use crate::placing::PlacedEntries;
use base::NoMemory;
use bits_model::{CouplerList, Entry};
use embedding_check::Embedded;
use pair_sums::{Pairs, in_order};
use std::alloc::Global;

/// A coupling of two qubits, the lesser one first.
pub fn coupling(p: u32, q: u32, weight: i128) -> Entry
    ensures { result ≡ coupling_entry p q weight }
{
    if p < q {
        Entry {
            first: p,
            second: q,
            weight,
        }
    } else {
        Entry {
            first: q,
            second: p,
            weight,
        }
    }
}

/// Appends each coupling on its pair of qubits.
fn add_placed(
    made: &mut Pairs,
    couplings: &CouplerList,
    places: &[(u32, u32)],
) -> Result<(), NoMemory>
    requires { length places.now ≡ length couplings.now }
    ensures { OnOk result (made.new ≡ made.old ++ placed couplings.now places.now) }
{
    let mut left = PlacedEntries::new(couplings, places);
    while let Some(entry) = left.take_up_to(u64::MAX) {
        made.push(entry)?;
    }
    Ok(())
}

/// No couplings yet, with room for so many and a tie of each of so many qubits.
fn with_room(alloc: Global, couplings: usize, qubits: u32) -> Result<Pairs, NoMemory>
    ensures { IfOk result (λ v. v ≡ []) }
{
    let qubits = qubits as usize;
    Pairs::with_room(alloc, qubits, couplings.saturating_add(qubits))
}

/// Each coupling on its pair of qubits, of so many qubits, with room for a tie of each.
pub fn placed(
    alloc: Global,
    couplings: &CouplerList,
    places: &[(u32, u32)],
    qubits: u32,
) -> Result<Pairs, NoMemory>
    requires { length places.now ≡ length couplings.now }
    ensures { IfOk result (λ v. v ≡ placed couplings.now places.now) }
{
    let mut made = with_room(alloc, places.len(), qubits)?;
    add_placed(&mut made, couplings, places)?;
    Ok(made)
}

/// Appends the ties of a chain.
fn push_ties(
    couplings: &mut Pairs,
    chain: &[u32],
    parents: &[u32],
    strength: u128,
) -> Result<(), NoMemory>
    requires matched { length chain.now ≡ length parents.now + 1 }
    requires small { strength < 2 ^ 127 }
    ensures { OnOk result (couplings.new
        ≡ couplings.old ++ ties (λ _. strength) (drop 1 chain.now) parents.now) }
{
    for i in 0..parents.len() {
        couplings.push(coupling(chain[i + 1], parents[i], -(strength as i128)))?;
    }
    Ok(())
}

/// Appends the ties of all chains.
fn add_ties(made: &mut Pairs, source: &Embedded, strengths: &[u128]) -> Result<(), NoMemory>
    requires kept { IsEmbedding source.now }
    requires strengths { strengths.now ≡ map (strength source.now) (nodes_of source.now) }
    ensures { OnOk result (made.new ≡ made.old ++ all_ties source.now) }
{
    for i in 0..strengths.len() {
        push_ties(
            made,
            source.chains().list(i),
            source.parents().list(i),
            strengths[i],
        )?;
    }
    Ok(())
}

/// The ties of all chains in order.
fn ties_of(alloc: Global, source: &Embedded, strengths: &[u128]) -> Result<CouplerList, NoMemory>
    requires kept { IsEmbedding source.now }
    requires strengths { strengths.now ≡ map (strength source.now) (nodes_of source.now) }
    ensures same { IfOk result (IsPermutation (all_ties source.now)) }
    ensures ordered { IfOk result (IsNonDecreasingBy pair_number) }
{
    let mut made = with_room(alloc, 0, source.qubits())?;
    add_ties(&mut made, source, strengths)?;
    in_order(alloc, made)
}

/// The ties of all chains, and the placed couplings. Ties come first, since their weights are the
/// greatest: how weights are held is known before most of them come.
fn gathered(alloc: Global, source: &Embedded, strengths: &[u128]) -> Result<Pairs, NoMemory>
    requires kept { IsEmbedding source.now }
    requires strengths { strengths.now ≡ map (strength source.now) (nodes_of source.now) }
    ensures { IfOk result (λ v. v
        ≡ all_ties source.now ++ placed source.now.ising.couplings source.now.places) }
{
    let couplings = &source.ising().couplings;
    let mut made = with_room(alloc, couplings.len(), source.qubits())?;
    add_ties(&mut made, source, strengths)?;
    add_placed(&mut made, couplings, source.places().as_slice())?;
    Ok(made)
}

/// The ties of all chains and the placed couplings in the order of their pairs. Only ties are sorted
/// where the places ascend.
pub fn couplings_of(
    alloc: Global,
    source: &Embedded,
    strengths: &[u128],
) -> Result<CouplerList, NoMemory>
    requires kept { IsEmbedding source.now }
    requires strengths { strengths.now ≡ map (strength source.now) (nodes_of source.now) }
    ensures same { IfOk result (IsPermutation
        (all_ties source.now ++ placed source.now.ising.couplings source.now.places)) }
    ensures ordered { IfOk result (IsNonDecreasingBy pair_number) }
{
    let places = source.places().as_slice();
    if ascend(places) {
        let ties = ties_of(alloc, source, strengths)?;
        return merged(alloc, &ties, &source.ising().couplings, places);
    }
    in_order(alloc, gathered(alloc, source, strengths)?)
}

/// What the ties cost where none is broken.
pub fn ties_cost(source: &Embedded, strengths: &[u128]) -> u128
    requires kept { IsEmbedding source.now }
    requires strengths { strengths.now ≡ map (strength source.now) (nodes_of source.now) }
    requires small { ties_cost source.now ≤ 2 ^ 125 }
    ensures { result ≡ ties_cost source.now }
{
    let mut cost = 0;
    for i in 0..strengths.len() {
        cost += strengths[i] * (source.chains().list(i).len() - 1) as u128;
    }
    cost
}
