//! Sums of subtrees: what each qubit of a chain holds, together with those below it.
//!
//! In an order in which each qubit stands after its parent, each gives its sum to its parent, from
//! the last one on.
ghost use Rattle.std.specs.Prelude.{◌≡◌, ◌∷◌, ◌+◌, ◌<◌, ◌^◌, ℕ, [], true, false, All, OnOk, drop, length, sum_by};
ghost use Rattle.std.specs.List.{slice_index_or, slice_set};
ghost use Rattle.bits_model.specs.Walks.{is_in, first_of};
ghost use Rattle.cut_chains.specs.Steps.{Sinkable, held_below, sum_below};
ghost use Rattle.cut_chains.specs.laws.Mended.{IsOnceTree};

use crate::orders::{note_parents, reach};
use base::NoMemory;

/// Adds what one qubit holds to another.
fn give(sums: &mut [u128], from: u32, to: u32)
    requires from { from < length sums.old }
    requires to { to < length sums.old }
    requires small { slice_index_or sums.old to 0 + slice_index_or sums.old from 0 < 2 ^ 127 }
    ensures { sums.new ≡ slice_set sums.old to
        (slice_index_or sums.old to 0 + slice_index_or sums.old from 0) }
{
    sums[to as usize] += sums[from as usize];
}

/// Adds what each qubit of an order holds to its parent, from the last one on.
pub fn sink(sums: &mut [u128], up: &[u32], order: &[u32])
    requires able { Sinkable up.now sums.old order.now }
    ensures sized { length sums.new ≡ length sums.old }
    ensures below { (t : Sinkable up.now sums.old order.now) (q : ℕ) → is_in t.cs q ≡ true
        → slice_index_or sums.new q 0 ≡ held_below t q }
    ensures all { (t : Sinkable up.now sums.old order.now)
        → slice_index_or sums.new t.first 0 ≡ held_below t t.first }
    ensures others { (t : Sinkable up.now sums.old order.now) (q : ℕ)
        → is_in (t.first ∷ t.cs) q ≡ false
        → slice_index_or sums.new q 0 ≡ slice_index_or sums.old q 0 }
{
    for i in (0..order.len()).rev() {
        let qubit = order[i];
        give(sums, qubit, up[qubit as usize]);
    }
}

/// Sums for each qubit of a chain what it and those below it hold.
pub fn weigh_chain(
    sums: &mut [u128],
    up: &mut [u32],
    seen: &mut [bool],
    order: &mut Vec<u32>,
    path: &mut Vec<u32>,
    chain: &[u32],
    parents: &[u32],
) -> Result<(), NoMemory>
    requires empty { path.old.items ≡ [] }
    requires tree { IsOnceTree chain.now parents.now }
    requires inside { All (λ q. q < length sums.old) chain.now }
    requires ups { length up.old ≡ length sums.old }
    requires seens { length seen.old ≡ length sums.old }
    requires known { All (λ q. q < length sums.old) up.old }
    requires unseen { All (λ q. slice_index_or seen.old q true ≡ false) chain.now }
    requires small { sum_by (λ q. slice_index_or sums.old q 0) chain.now < 2 ^ 127 }
    ensures below { OnOk result ((q : ℕ) → is_in (drop 1 chain.now) q ≡ true
        → slice_index_or sums.new q 0 ≡ sum_below sums.old chain.now parents.now q) }
    ensures all { OnOk result (slice_index_or sums.new (first_of chain.now) 0
        ≡ sum_by (λ r. slice_index_or sums.old r 0) chain.now) }
    ensures sized { OnOk result (length sums.new ≡ length sums.old) }
    ensures ups { OnOk result (length up.new ≡ length up.old) }
    ensures known { OnOk result (All (λ q. q < length sums.old) up.new) }
    ensures seens { OnOk result (length seen.new ≡ length seen.old) }
    ensures listed { OnOk result ((q : ℕ) → q < length seen.old → is_in chain.now q ≡ false
        → slice_index_or seen.new q true ≡ slice_index_or seen.old q true) }
    ensures empty { OnOk result (path.new.items ≡ []) }
    ensures others { OnOk result ((q : ℕ) → is_in chain.now q ≡ false
        → slice_index_or sums.new q 0 ≡ slice_index_or sums.old q 0) }
{
    note_parents(up, chain, parents);
    reach(order, path, seen, up, chain)?;
    sink(sums, up, order);
    Ok(())
}
