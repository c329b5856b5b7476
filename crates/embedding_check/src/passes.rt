//! The passes over a map, one for each fault.
ghost use Rattle.std.specs.Prelude.{◌≡◌, ◌≢◌, ◌==◌, ◌+◌, ◌≤◌, ◌<◌, ◌^◌, ℕ, true, [], length, count_by, All, Option, Some, None, IfOk, OnOk, IfErr, IfSome};
ghost use Rattle.std.specs.List.{slice_index_or, AllZip};
ghost use Rattle.chain_map.specs.Chains.{chain_of, occurrences};
ghost use Rattle.chain_map.specs.Faults.{IfFault};
ghost use Rattle.embedding_check.specs.Distances.{AreParents};
ghost use Rattle.embedding_check.specs.Marks.{marked, times_met};
ghost use Rattle.embedding_check.specs.Search.{AreSorted};
ghost use Rattle.embedding_check.specs.Faults.{
  IsFound,
  IsFirstAt,
  Exists,
  IsNew,
  IsReachedAt,
  AreSearchable,
  NamesUnknown,
  NamesUnreached,
  number_at,
};

use crate::search::{Parents, parents_of};
use base::NoMemory;
use bits_model::ChainList;
use chain_map::{ChainMap, CheckAnswer, EmbedFault};
use hardware::{Hardware, is_qubit};
use std::alloc::Global;

/// The least node with an empty chain.
pub fn first_empty(map: &ChainMap) -> Option<usize>
    ensures { IsFound (length map.now) (λ u. chain_of map.now u ≢ []) result }
{
    for node in 0..map.len() {
        if map.chain(node).is_empty() {
            return Some(node);
        }
    }
    None
}

/// The first number of a chain that is none of a qubit.
fn first_unknown<H: Hardware>(hardware: &H, chain: &[u64]) -> Option<usize>
    ensures { IsFound (length chain.now)
        (λ j. H.exists hardware.now (slice_index_or chain.now j 0) ≡ true) result }
{
    for k in 0..chain.len() {
        if !is_qubit(hardware, chain[k]) {
            return Some(k);
        }
    }
    None
}

/// Whether each number of a map is one of a qubit, or the first one that is not.
pub(crate) fn check_inside<H: Hardware>(hardware: &H, map: &ChainMap) -> Result<(), CheckAnswer>
    ensures within { IfOk result (λ _. (u : ℕ) → u < length map.now
        → (j : ℕ) → j < length (chain_of map.now u)
        → Exists (H.exists hardware.now) map.now u j) }
    ensures fault { IfErr result (λ e.
        IfFault e (NamesUnknown (H.exists hardware.now) map.now)) }
{
    for node in 0..map.len() {
        let chain = map.chain(node);
        match first_unknown(hardware, chain) {
            Some(k) => return Err(CheckAnswer::Fault(EmbedFault::NoSuchQubit(node, chain[k]))),
            None => {}
        }
    }
    Ok(())
}

/// Marks the qubits of a chain, up to the first one that is marked already.
fn mark(seen: &mut [bool], chain: &[u64]) -> Option<usize>
    requires { (j : ℕ) → j < length chain.now → slice_index_or chain.now j 0 < length seen.old }
    ensures first { IsFound (length chain.now) (λ j. times_met seen.old chain.now j ≡ 0) result }
    ensures all { result ≡ None → (q : ℕ) →
        marked seen.new q ≡ marked seen.old q + count_by (λ p. p == q) chain.now }
{
    for k in 0..chain.len() {
        let qubit = chain[k] as usize;
        if seen[qubit] {
            return Some(k);
        }
        seen[qubit] = true;
    }
    None
}

/// The first place whose qubit was listed before.
fn first_repeated(seen: &mut [bool], map: &ChainMap) -> Option<(usize, usize)>
    requires within { (u : ℕ) → u < length map.now → (j : ℕ) → j < length (chain_of map.now u)
        → number_at map.now u j < length seen.old }
    requires none { (q : ℕ) → marked seen.old q ≡ 0 }
    ensures once { result ≡ None → (q : ℕ) → occurrences q map.now ≤ 1 }
    ensures first { IfSome result (λ p. IsFirstAt map.now (IsNew map.now) p.0 p.1) }
{
    for node in 0..map.len() {
        match mark(seen, map.chain(node)) {
            Some(k) => return Some((node, k)),
            None => {}
        }
    }
    None
}

/// Whether each qubit occurs once, or the first one that was listed before.
pub(crate) fn check_once(alloc: Global, map: &ChainMap, qubits: u32) -> Result<(), CheckAnswer>
    requires { (u : ℕ) → u < length map.now → (j : ℕ) → j < length (chain_of map.now u)
        → number_at map.now u j < qubits }
    ensures once { IfOk result (λ _. (q : ℕ) → occurrences q map.now ≤ 1) }
    ensures fault { IfErr result (λ e. IfFault e (λ f. (v : ℕ) × (k : ℕ)
        × IsFirstAt map.now (IsNew map.now) v k
        × (f ≡ EmbedFault.Repeated (number_at map.now v k)))) }
{
    let mut seen = vec![in alloc; false; qubits as usize]?;
    match first_repeated(&mut seen, map) {
        Some((node, k)) => Err(CheckAnswer::Fault(EmbedFault::Repeated(map.chain(node)[k]))),
        None => Ok(()),
    }
}

/// Numbers of qubits, as qubits.
fn narrow(narrowed: &mut Vec<u32>, chain: &[u64]) -> Result<(), NoMemory>
    requires { (j : ℕ) → j < length chain.now → slice_index_or chain.now j 0 < 2 ^ 32 }
    ensures { OnOk result (narrowed.new.items ≡ chain.now) }
{
    narrowed.clear();
    for k in 0..chain.len() {
        narrowed.push(chain[k] as u32)?;
    }
    Ok(())
}

/// The chains of a map whose numbers are all qubits.
pub(crate) fn qubits_of(alloc: Global, map: &ChainMap) -> Result<ChainList, CheckAnswer>
    requires { (u : ℕ) → u < length map.now → (j : ℕ) → j < length (chain_of map.now u)
        → number_at map.now u j < 2 ^ 32 }
    ensures same { IfOk result (λ v. v ≡ map.now) }
    ensures memory { IfErr result (λ e. e ≡ CheckAnswer.NoMemory) }
{
    let mut chains = ChainList::with_room(alloc, map.len(), map.len())?;
    let mut narrowed = Vec::new(alloc);
    for node in 0..map.len() {
        narrow(&mut narrowed, map.chain(node))?;
        chains.push(&narrowed)?;
    }
    Ok(chains)
}

/// The parents of all chains, or the first qubit that is not reached.
pub(crate) fn all_parents<H: Hardware>(
    alloc: Global,
    hardware: &H,
    chains: &ChainList,
    sorted: &ChainList,
) -> Result<ChainList, CheckAnswer>
    requires chains { AreSearchable (H.qubits hardware.now) chains.now }
    requires sorted { AreSorted chains.now sorted.now }
    ensures parents { IfOk result (AllZip (AreParents (H.joined hardware.now)) chains.now) }
    ensures connected { IfOk result (λ _. (u : ℕ) → u < length chains.now
        → (j : ℕ) → j < length (chain_of chains.now u)
        → IsReachedAt (H.joined hardware.now) chains.now u j) }
    ensures fault { IfErr result (λ e. IfFault e
        (NamesUnreached (H.joined hardware.now) chains.now)) }
{
    let mut parents = ChainList::with_room(alloc, chains.len(), 0)?;
    for node in 0..chains.len() {
        let listed = chains.list(node);
        match parents_of(alloc, hardware, listed, sorted.list(node))? {
            Parents::All(found) => {
                parents.push(&found)?;
            }
            Parents::Unreached(k) => {
                return Err(CheckAnswer::Fault(EmbedFault::Disconnected(node, listed[k] as u64)));
            }
        }
    }
    Ok(parents)
}
