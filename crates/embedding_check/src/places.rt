//! The places of all couplings.
//!
//! The couplings of a node stand next to each other, in one row. Either the joins of its chain are
//! noted once for the whole row, or the two chains of each coupling are walked along up to the
//! first join: what costs less.
ghost use Rattle.std.specs.Prelude.{◌≡◌, ◌≤◌, ◌<◌, ◌^◌, ℕ, true, [], length, All, Option, IfOk, IfErr, OnOk};
ghost use Rattle.quad_form.specs.Quads.{IsCoupler};
ghost use Rattle.chain_map.specs.Chains.{chain_of, occurrences};
ghost use Rattle.chain_map.specs.Faults.{IfFault};
ghost use Rattle.embedding_check.specs.Checked.{ArePlaces, AddsPlaces};
ghost use Rattle.embedding_check.specs.Faults.{NamesUncoupled, AreSearchable, number_at};
ghost use Rattle.embedding_check.specs.Search.{AreSorted, IsSortedChain};
ghost use Rattle.embedding_check.specs.Least.{IsPlaceIn};
ghost use Rattle.embedding_check.specs.Owners.{AreOwners};
ghost use Rattle.embedding_check.specs.Noted.{AreNoted};

use crate::embedded::PairList;
use crate::least::place_between;
use crate::noted::Noted;
use crate::owners::{Owned, owners_of};
use base::Items;
use bits_model::{ChainList, CouplerList, Row};
use chain_map::{CheckAnswer, EmbedFault};
use hardware::{Hardware, Span};
use std::alloc::Global;

/// How many qubits the chains of a row's couplings have, each with the first node's own chain: what
/// it costs to walk along them.
fn walk_cost(chains: &ChainList, own: &[u32], row: &Row<'_>) -> u64
    requires { All (IsCoupler (length chains.now)) row.now }
{
    let mut cost = (own.len() as u64).saturating_mul(row.len() as u64);
    for k in 0..row.len() {
        cost = cost.saturating_add(chains.list(row.second(k) as usize).len() as u64);
    }
    cost
}

/// How many runs of qubits with one owner a span has, as far as they are fewer than `most`.
fn runs_in(owners: &Owned, span: Span, most: u64) -> u64
    requires { length owners.now < 2 ^ 32 }
    ensures { result ≤ most }
{
    let mut runs = 0;
    let mut qubit = span.start;
    'runs: while runs < most && qubit < span.end && (qubit as usize) < owners.len() {
        qubit = owners.run_end(qubit);
        runs += 1;
    }
    runs
}

/// Whether it costs at most so much to go over all joins of a chain. A span that several of its
/// qubits face one after another is gone over once, and so is a run of qubits with one owner. The
/// others of a qubit count where it faces no span, as those of a line are few.
fn is_noting_cheap<H: Hardware>(hardware: &H, owners: &Owned, chain: &[u32], cost: u64) -> bool
    requires within { All (λ q. q < H.qubits hardware.now) chain.now }
    requires few { length owners.now < 2 ^ 32 }
{
    let mut left = cost;
    let mut last = Span { start: 0, end: 0 };
    for qubit in chain {
        let span = hardware.facing(*qubit);
        let steps = if span.start == span.end {
            let others = hardware.others(*qubit);
            (others.end.saturating_sub(others.start) as u64).saturating_add(1)
        } else if span == last {
            1
        } else {
            runs_in(owners, span, left)
        };
        if steps >= left {
            return false;
        }
        left -= steps;
        last = span;
    }
    true
}

/// Notes the joins of a row's first node, where this costs less than to walk for each coupling, and
/// says whether.
fn note_row<H: Hardware>(
    hardware: &H,
    owners: &Owned,
    chains: &ChainList,
    row: &Row<'_>,
    noted: &mut Noted,
) -> bool
    requires nodes { All (IsCoupler (length chains.now)) row.now }
    requires some { 0 < length row.now }
    requires within { (u : ℕ) → u < length chains.now → (j : ℕ) → j < length (chain_of chains.now u)
        → number_at chains.now u j < H.qubits hardware.now }
    requires owners { AreOwners chains.now owners.now }
    requires all { length owners.now ≡ H.qubits hardware.now }
    requires len { length noted.old ≡ length chains.now }
    ensures len { length noted.new ≡ length chains.now }
    ensures noted { result ≡ true →
        All (λ c. AreNoted (H.joined hardware.now) chains.now c.first noted.new) row.now }
{
    let node = row.first();
    let own = chains.list(node as usize);
    if !is_noting_cheap(hardware, owners, own, walk_cost(chains, own, row)) {
        return false;
    }
    noted.note_chain(hardware, owners, node, own);
    true
}

/// Where a coupling of two nodes is placed, if there is a place: among the noted pairs of the first
/// one, where there are some, and else at the first join of a walk.
fn place_of<H: Hardware>(
    hardware: &H,
    sorted: &ChainList,
    chains: &ChainList,
    noting: bool,
    noted: &Noted,
    first: u32,
    second: u32,
) -> Option<(u32, u32)>
    requires upward { first < second }
    requires node { second < length chains.now }
    requires within { (u : ℕ) → u < length chains.now → (j : ℕ) → j < length (chain_of chains.now u)
        → number_at chains.now u j < H.qubits hardware.now }
    requires len { length sorted.now ≡ length chains.now }
    requires sorted { (u : ℕ) → u < length chains.now
        → IsSortedChain (chain_of chains.now u) (chain_of sorted.now u) }
    requires all { length noted.now ≡ length chains.now }
    requires noted { noting ≡ true →
        AreNoted (H.joined hardware.now) chains.now first noted.now }
    ensures { IsPlaceIn (H.joined hardware.now) (chain_of chains.now first)
        (chain_of chains.now second) result }
{
    if noting {
        return noted.at(second as usize);
    }
    place_between(
        hardware,
        sorted.list(first as usize),
        sorted.list(second as usize),
    )
}

/// Appends the place of each coupling of a row, or gives the first one without joined qubits.
fn push_places<H: Hardware>(
    places: &mut Vec<(u32, u32)>,
    hardware: &H,
    sorted: &ChainList,
    chains: &ChainList,
    noting: bool,
    noted: &Noted,
    row: &Row<'_>,
) -> Result<(), CheckAnswer>
    requires nodes { All (IsCoupler (length chains.now)) row.now }
    requires within { (u : ℕ) → u < length chains.now → (j : ℕ) → j < length (chain_of chains.now u)
        → number_at chains.now u j < H.qubits hardware.now }
    requires len { length sorted.now ≡ length chains.now }
    requires sorted { (u : ℕ) → u < length chains.now
        → IsSortedChain (chain_of chains.now u) (chain_of sorted.now u) }
    requires all { length noted.now ≡ length chains.now }
    requires noted { noting ≡ true →
        All (λ c. AreNoted (H.joined hardware.now) chains.now c.first noted.now) row.now }
    ensures places { OnOk result (AddsPlaces (H.joined hardware.now) chains.now row.now
        places.old.items places.new.items) }
    ensures fault { IfErr result (λ e. IfFault e
        (NamesUncoupled (H.joined hardware.now) row.now chains.now)) }
{
    let first = row.first();
    for k in 0..row.len() {
        let second = row.second(k);
        match place_of(hardware, sorted, chains, noting, noted, first, second) {
            Some(place) => {
                places.push(place)?;
            }
            None => {
                let fault = EmbedFault::NoCoupler(first as usize, second as usize);
                return Err(CheckAnswer::Fault(fault));
            }
        }
    }
    Ok(())
}

/// Appends the places of the couplings row after row, or gives the first coupling without joined
/// qubits.
fn push_rows<H: Hardware>(
    places: &mut Vec<(u32, u32)>,
    noted: &mut Noted,
    hardware: &H,
    owners: &Owned,
    couplings: &CouplerList,
    chains: &ChainList,
    sorted: &ChainList,
) -> Result<(), CheckAnswer>
    requires none { places.old.items ≡ [] }
    requires len { length noted.old ≡ length chains.now }
    requires owners { AreOwners chains.now owners.now }
    requires all { length owners.now ≡ H.qubits hardware.now }
    requires nodes { All (IsCoupler (length chains.now)) couplings.now }
    requires chains { AreSearchable (H.qubits hardware.now) chains.now }
    requires sorted { AreSorted chains.now sorted.now }
    ensures places { OnOk result
        (ArePlaces (H.joined hardware.now) chains.now couplings.now places.new.items) }
    ensures fault { IfErr result (λ e. IfFault e
        (NamesUncoupled (H.joined hardware.now) couplings.now chains.now)) }
{
    for k in 0..couplings.row_count() {
        let row = couplings.row(k);
        let noting = note_row(hardware, owners, chains, &row, noted);
        push_places(places, hardware, sorted, chains, noting, noted, &row)?;
    }
    Ok(())
}

/// The place of each coupling, or the first coupling without joined qubits.
pub(crate) fn all_places<H: Hardware>(
    alloc: Global,
    hardware: &H,
    couplings: &CouplerList,
    chains: &ChainList,
    sorted: &ChainList,
) -> Result<PairList, CheckAnswer>
    requires nodes { All (IsCoupler (length chains.now)) couplings.now }
    requires few { length chains.now < 2 ^ 32 }
    requires chains { AreSearchable (H.qubits hardware.now) chains.now }
    requires sorted { AreSorted chains.now sorted.now }
    ensures places { IfOk result (ArePlaces (H.joined hardware.now) chains.now couplings.now) }
    ensures fault { IfErr result (λ e. IfFault e
        (NamesUncoupled (H.joined hardware.now) couplings.now chains.now)) }
{
    let mut places = Vec::with_capacity(alloc, couplings.len())?;
    let owners = owners_of(alloc, chains, hardware.qubits())?;
    let mut noted = Noted::new(alloc, chains.len())?;
    push_rows(
        &mut places,
        &mut noted,
        hardware,
        &owners,
        couplings,
        chains,
        sorted,
    )?;
    Ok(Items::new(places))
}
