//! The ties of all chains, each as strong as the lighter of its sides asks.
ghost use Rattle.std.specs.Prelude.{◌≡◌, ◌+◌, ◌-◌, ◌<◌, ◌≤◌, ◌^◌, ◌++◌, ℕ, [], true, false, All, OnOk, drop, length, min};
ghost use Rattle.std.specs.List.{slice_index_or};
ghost use Rattle.bits_model.specs.Output.{weight_total};
ghost use Rattle.bits_model.specs.Walks.{is_in, first_of};
ghost use Rattle.chain_map.specs.Chains.{chain_of};
ghost use Rattle.embedding_check.specs.Embeddings.{IsEmbedding};
ghost use Rattle.chain_layer.specs.Image.{ties};
ghost use Rattle.cut_chains.specs.CutImage.{cut_ties};
ghost use Rattle.cut_chains.specs.Sides.{weight_of};
ghost use Rattle.cut_chains.specs.Steps.{strength_in};

use crate::sums::weigh_chain;
use base::NoMemory;
use chain_layer::coupling;
use embedding_check::Embedded;
use pair_sums::Pairs;

/// One more than the lesser of the weights of the two sides of a tie.
fn strength(sums: &[u128], all: u128, qubit: u32) -> u128
    requires within { qubit < length sums.now }
    requires part { slice_index_or sums.now qubit 0 ≤ all }
    requires small { all < 2 ^ 127 }
    ensures { result ≡ min (slice_index_or sums.now qubit 0)
        (all - slice_index_or sums.now qubit 0) + 1 }
{
    let below = sums[qubit as usize];
    below.min(all - below) + 1
}

/// Appends the ties of a chain.
pub fn push_ties(
    couplings: &mut Pairs,
    sums: &[u128],
    chain: &[u32],
    parents: &[u32],
) -> Result<(), NoMemory>
    requires matched { length chain.now ≡ length parents.now + 1 }
    requires inside { All (λ q. q < length sums.now) chain.now }
    requires parts { All (λ q. slice_index_or sums.now q 0
        ≤ slice_index_or sums.now (first_of chain.now) 0) chain.now }
    requires small { slice_index_or sums.now (first_of chain.now) 0 < 2 ^ 127 }
    ensures { OnOk result (couplings.new ≡ couplings.old
        ++ ties (strength_in sums.now (first_of chain.now)) (drop 1 chain.now) parents.now) }
{
    let all = sums[chain[0] as usize];
    for i in 0..parents.len() {
        let strength = strength(sums, all, chain[i + 1]);
        couplings.push(coupling(chain[i + 1], parents[i], -(strength as i128)))?;
    }
    Ok(())
}

/// Appends the ties of all chains, where the sums begin as the weights of the qubits.
pub fn tie_chains(
    made: &mut Pairs,
    source: &Embedded,
    sums: &mut [u128],
    up: &mut [u32],
    seen: &mut [bool],
    order: &mut Vec<u32>,
    path: &mut Vec<u32>,
) -> Result<(), NoMemory>
    requires kept { IsEmbedding source.now }
    requires sized { length sums.old ≡ source.now.qubits }
    requires held { (j : ℕ) → j < length source.now.ising.fields → (q : ℕ)
        → is_in (chain_of source.now.chains j) q ≡ true
        → slice_index_or sums.old q 0 ≡ weight_of source.now q }
    requires ups { length up.old ≡ source.now.qubits }
    requires known { All (λ q. q < source.now.qubits) up.old }
    requires seens { length seen.old ≡ source.now.qubits }
    requires unseen { (j : ℕ) → j < length source.now.ising.fields → (q : ℕ)
        → is_in (chain_of source.now.chains j) q ≡ true → slice_index_or seen.old q true ≡ false }
    requires empty { path.old.items ≡ [] }
    ensures { OnOk result (made.new ≡ made.old ++ cut_ties source.now) }
{
    for i in 0..source.chains().len() {
        let qubits = source.chains().list(i);
        let parents = source.parents().list(i);
        weigh_chain(sums, up, seen, order, path, qubits, parents)?;
        push_ties(made, sums, qubits, parents)?;
    }
    Ok(())
}

/// What the couplings from one on weigh.
pub fn cost_from(couplings: &Pairs, start: usize) -> u128
    requires start { start ≤ length couplings.now }
    requires small { weight_total (drop start couplings.now) < 2 ^ 127 }
    ensures { result ≡ weight_total (drop start couplings.now) }
{
    let mut cost = 0;
    for k in start..couplings.len() {
        cost += couplings.at(k).weight.unsigned_abs();
    }
    cost
}
