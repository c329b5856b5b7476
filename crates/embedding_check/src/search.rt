//! The search for the qubits of one chain, level by level from its first qubit.
//!
//! Levels are in ascending order, so the first qubit that reaches another is its parent. What a
//! qubit faces is a span of numbers, so the waiting qubits of the chain there are next to each
//! other in its ascending list, and each of them is met once more only where it is not joined.
ghost use Rattle.std.specs.Prelude.{◌≡◌, ◌==◌, count_by, ◌+◌, ◌≤◌, ◌<◌, ℕ, length, All, Some, IfOk, OnOk};
ghost use Rattle.std.specs.List.Sorted.{IsNonDecreasing, IsPermutation};
ghost use Rattle.bits_model.specs.Walks.{first_of};
ghost use Rattle.chain_map.specs.Chains.{Joins, chain_of, occurrences};
ghost use Rattle.hardware.specs.Others.{IsOneOf};
ghost use Rattle.embedding_check.specs.Reached.{AreFound};
ghost use Rattle.embedding_check.specs.Search.{
  Found,
  qubit_at,
  AreDone,
  IsDone,
  IsRising,
  taken,
  Takes,
  Spreads,
  LevelTakes,
  AreSorted,
  IsSortedChain,
  IsSearched,
  IsBegun,
  emptied,
};

use crate::waiting::Waiting;
use base::NoMemory;
use bits_model::ChainList;
use hardware::Hardware;
use std::alloc::Global;
use std::marker::Model;
use std::mem;

/// The positions that wait, the parents of those that don't, and the positions that were reached
/// last.
#[derive(Drop)]
pub(crate) struct Search {
    waiting: Waiting,
    parents: Vec<u32>,
    next: Vec<usize>,
}

impl Model for Search {
    ghost use Rattle.embedding_check.specs.Search.{Found};
    ghost use Rattle.std.specs.Prelude.{◌≡◌, length};

    ghost Value = { Found };

    ghost view = { λ s. record {
      waits = s.waiting;
      parents = s.parents.items;
      next = s.next.items;
    } };

    ghost invariant = { λ s. length s.parents.items ≡ length s.waiting };
}

impl Search {
    /// All positions wait but the first qubit's.
    fn new(alloc: Global, count: usize, first: usize) -> Result<Search, NoMemory>
        requires { first < count }
        ensures { IfOk result (IsBegun count first) }
    {
        let mut waiting = Waiting::new(alloc, count)?;
        waiting.remove(first);
        Ok(Search {
            waiting,
            parents: vec![in alloc; 0; count]?,
            next: Vec::new(alloc),
        })
    }

    /// Puts the positions that were reached last, in ascending order, in place of those of a level.
    /// None are listed after that.
    fn next_level(&mut self, level: &mut Vec<usize>)
        ensures rest { self.new ≡ emptied self.old }
        ensures permutation { IsPermutation self.old.next level.new.items }
        ensures sorted { IsNonDecreasing level.new.items }
    {
        level.clear();
        mem::swap(level, &mut self.next);
        level.sort_unstable();
    }

    /// IsReached a position from a qubit.
    fn take(&mut self, at: usize, qubit: u32) -> Result<(), NoMemory>
        requires { at < length self.old.waits }
        ensures { OnOk result (self.new ≡ taken self.old at qubit) }
    {
        self.waiting.remove(at);
        self.parents[at] = qubit;
        self.next.push(at)?;
        Ok(())
    }

    /// IsReached a position from a qubit if it waits and the two are joined.
    fn try_take<H: Hardware>(
        &mut self,
        hardware: &H,
        sorted: &[u32],
        qubit: u32,
        at: usize,
    ) -> Result<(), NoMemory>
        requires at { at < length sorted.now }
        requires same { length self.old.waits ≡ length sorted.now }
        requires qubit { qubit < H.qubits hardware.now }
        requires within { All (λ q. q < H.qubits hardware.now) sorted.now }
        ensures takes { OnOk result
            (Takes (H.joined hardware.now) sorted.now qubit self.old self.new) }
        ensures done { OnOk result
            (IsDone (H.joined hardware.now) sorted.now qubit self.new at) }
    {
        if self.waiting.has(at) && hardware.joined(qubit, sorted[at]) {
            return self.take(at, qubit);
        }
        Ok(())
    }

    /// Reaches the waiting positions of the numbers from `start` on and below `end` that are
    /// joined to a qubit.
    fn take_span<H: Hardware>(
        &mut self,
        hardware: &H,
        sorted: &[u32],
        qubit: u32,
        from: usize,
        end: u32,
    ) -> Result<(), NoMemory>
        requires from { from ≤ length sorted.now }
        requires same { length self.old.waits ≡ length sorted.now }
        requires qubit { qubit < H.qubits hardware.now }
        requires within { All (λ q. q < H.qubits hardware.now) sorted.now }
        requires rising { IsRising sorted.now }
        ensures takes { OnOk result
            (Takes (H.joined hardware.now) sorted.now qubit self.old self.new) }
        ensures done { OnOk result ((i : ℕ) → from ≤ i → i < length sorted.now
            → qubit_at sorted.now i < end
            → IsDone (H.joined hardware.now) sorted.now qubit self.new i) }
    {
        let mut at = self.waiting.next_from(from);
        while at < sorted.len() && sorted[at] < end {
            self.try_take(hardware, sorted, qubit, at)?;
            at = self.waiting.next_from(at + 1);
        }
        Ok(())
    }

    /// IsReached the position of one number, if the chain has it, it waits and the two are joined.
    fn take_number<H: Hardware>(
        &mut self,
        hardware: &H,
        sorted: &[u32],
        qubit: u32,
        number: Option<u32>,
    ) -> Result<(), NoMemory>
        requires same { length self.old.waits ≡ length sorted.now }
        requires qubit { qubit < H.qubits hardware.now }
        requires within { All (λ q. q < H.qubits hardware.now) sorted.now }
        requires rising { IsRising sorted.now }
        ensures takes { OnOk result
            (Takes (H.joined hardware.now) sorted.now qubit self.old self.new) }
        ensures done { OnOk result ((i : ℕ) → i < length sorted.now
            → number ≡ Some (qubit_at sorted.now i)
            → IsDone (H.joined hardware.now) sorted.now qubit self.new i) }
    {
        match number {
            Some(other) => match sorted.binary_search(&other) {
                Ok(at) => self.try_take(hardware, sorted, qubit, at),
                Err(_) => Ok(()),
            },
            None => Ok(()),
        }
    }

    /// Reaches the waiting positions of the others of a qubit that are joined to it.
    fn take_others<H: Hardware>(
        &mut self,
        hardware: &H,
        sorted: &[u32],
        qubit: u32,
    ) -> Result<(), NoMemory>
        requires same { length self.old.waits ≡ length sorted.now }
        requires qubit { qubit < H.qubits hardware.now }
        requires within { All (λ q. q < H.qubits hardware.now) sorted.now }
        requires rising { IsRising sorted.now }
        ensures takes { OnOk result
            (Takes (H.joined hardware.now) sorted.now qubit self.old self.new) }
        ensures done { OnOk result (AreDone (H.joined hardware.now) sorted.now qubit
            (IsOneOf (H.others hardware.now qubit) (H.other hardware.now qubit)) self.new) }
    {
        let others = hardware.others(qubit);
        for k in others.start..others.end {
            self.take_number(hardware, sorted, qubit, Some(hardware.other(qubit, k)))?;
        }
        Ok(())
    }

    /// IsReached all waiting positions that are joined to a qubit.
    fn spread<H: Hardware>(
        &mut self,
        hardware: &H,
        sorted: &[u32],
        qubit: u32,
    ) -> Result<(), NoMemory>
        requires same { length self.old.waits ≡ length sorted.now }
        requires qubit { qubit < H.qubits hardware.now }
        requires within { All (λ q. q < H.qubits hardware.now) sorted.now }
        requires rising { IsRising sorted.now }
        ensures { OnOk result (Spreads (H.joined hardware.now) sorted.now qubit self.old self.new) }
    {
        let faced = hardware.facing(qubit);
        let from = position_of(sorted, faced.start);
        self.take_span(hardware, sorted, qubit, from, faced.end)?;
        self.take_others(hardware, sorted, qubit)?;
        Ok(())
    }

    /// IsReached all waiting positions that are joined to a qubit of a level.
    fn spread_level<H: Hardware>(
        &mut self,
        hardware: &H,
        sorted: &[u32],
        level: &[usize],
    ) -> Result<(), NoMemory>
        requires same { length self.old.waits ≡ length sorted.now }
        requires within { All (λ q. q < H.qubits hardware.now) sorted.now }
        requires level { All (λ i. i < length sorted.now) level.now }
        requires rising { IsRising sorted.now }
        ensures { OnOk result (LevelTakes (H.joined hardware.now) sorted.now level.now
            (length level.now) self.old self.new) }
    {
        for at in level {
            self.spread(hardware, sorted, sorted[*at])?;
        }
        Ok(())
    }
}

/// Searches a chain, given its qubits in ascending order and the position of its first one.
fn search_chain<H: Hardware>(
    alloc: Global,
    hardware: &H,
    chain: &[u32],
    sorted: &[u32],
    first: usize,
) -> Result<Search, NoMemory>
    requires below { first < length sorted.now }
    requires first { qubit_at sorted.now first ≡ first_of chain.now }
    requires within { All (λ q. q < H.qubits hardware.now) sorted.now }
    requires sorted { IsSortedChain chain.now sorted.now }
    ensures { IfOk result (IsSearched (H.joined hardware.now) chain.now sorted.now) }
{
    let mut search = Search::new(alloc, sorted.len(), first)?;
    let mut level = vec![in alloc; first]?;
    'levels: while !level.is_empty() {
        search.spread_level(hardware, sorted, &level)?;
        search.next_level(&mut level);
    }
    Ok(search)
}

/// Where the numbers from `start` on begin.
pub(crate) fn position_of(sorted: &[u32], start: u32) -> usize
    requires { IsRising sorted.now }
    ensures within { result ≤ length sorted.now }
    ensures before { (i : ℕ) → i < result → qubit_at sorted.now i < start }
    ensures after { (i : ℕ) → result ≤ i → i < length sorted.now → start ≤ qubit_at sorted.now i }
    ensures exact { (i : ℕ) → i < length sorted.now → qubit_at sorted.now i ≡ start → result ≡ i }
{
    match sorted.binary_search(&start) {
        Ok(at) => at,
        Err(at) => at,
    }
}

/// Where the chain's qubit at `k` is in ascending order: often at `k` itself.
fn position_in(chain: &[u32], sorted: &[u32], k: usize) -> usize
    requires below { k < length chain.now }
    requires sorted { IsSortedChain chain.now sorted.now }
    ensures within { result < length sorted.now }
    ensures same { qubit_at sorted.now result ≡ qubit_at chain.now k }
{
    if k < sorted.len() && sorted[k] == chain[k] {
        return k;
    }
    position_of(sorted, chain[k])
}

/// The qubits of a chain in ascending order.
fn sort_chain(sorted: &mut Vec<u32>, chain: &[u32]) -> Result<(), NoMemory>
    requires { (q : ℕ) → count_by (λ p. p == q) chain.now ≤ 1 }
    ensures { OnOk result (IsSortedChain chain.now sorted.new.items) }
{
    sorted.clear();
    sorted.extend_from_slice(chain)?;
    sorted.sort_unstable();
    Ok(())
}

/// The chains, each in ascending order.
pub(crate) fn sorted_chains(alloc: Global, chains: &ChainList) -> Result<ChainList, NoMemory>
    requires { (q : ℕ) → occurrences q chains.now ≤ 1 }
    ensures { IfOk result (AreSorted chains.now) }
{
    let mut sorted = ChainList::with_room(alloc, chains.len(), chains.len())?;
    let mut ascending = Vec::new(alloc);
    for node in 0..chains.len() {
        sort_chain(&mut ascending, chains.list(node))?;
        sorted.push(&ascending)?;
    }
    Ok(sorted)
}

/// The parents that a search found for a chain's qubits from its second on, or the position of the
/// first listed one that it did not reach.
fn found_parents(
    alloc: Global,
    chain: &[u32],
    sorted: &[u32],
    search: &Search,
) -> Result<Parents, NoMemory>
    requires filled { 0 < length chain.now }
    requires once { (q : ℕ) → count_by (λ p. p == q) chain.now ≤ 1 }
    requires sorted { IsSortedChain chain.now sorted.now }
    requires waits { length search.now.waits ≡ length sorted.now }
    requires parents { length search.now.parents ≡ length sorted.now }
    ensures { (joined : Joins) → IsSearched joined chain.now sorted.now search.now
        → IfOk result (AreFound joined chain.now) }
{
    let mut parents = Vec::with_capacity(alloc, chain.len() - 1)?;
    for i in 1..chain.len() {
        let at = position_in(chain, sorted, i);
        if search.waiting.has(at) {
            return Ok(Parents::Unreached(i));
        }
        parents.push(search.parents[at])?;
    }
    Ok(Parents::All(parents))
}

/// The parents of a chain's qubits from its second on, or the position of the first listed one
/// that no walk reaches.
pub(crate) fn parents_of<H: Hardware>(
    alloc: Global,
    hardware: &H,
    chain: &[u32],
    sorted: &[u32],
) -> Result<Parents, NoMemory>
    requires filled { 0 < length chain.now }
    requires within { All (λ q. q < H.qubits hardware.now) chain.now }
    requires once { (q : ℕ) → count_by (λ p. p == q) chain.now ≤ 1 }
    requires sorted { IsSortedChain chain.now sorted.now }
    ensures { IfOk result (AreFound (H.joined hardware.now) chain.now) }
{
    if chain.len() == 1 {
        return Ok(Parents::All(Vec::new(alloc)));
    }
    let first = position_in(chain, sorted, 0);
    let search = search_chain(alloc, hardware, chain, sorted, first)?;
    found_parents(alloc, chain, sorted, &search)
}

/// The parents of a chain, or the position of a qubit that was not reached.
#[derive(Drop)]
pub(crate) enum Parents {
    All(Vec<u32>),
    Unreached(usize),
}
