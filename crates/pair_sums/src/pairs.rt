//! Couplers that are gathered one by one, more than one for some pairs.
ghost use Rattle.std.specs.Prelude.{◌≡◌, ◌+◌, ◌++◌, ◌∷◌, [], ◌<◌, ◌≤◌, ◌^◌, All, IfOk, IfSome, List, OnOk, OnErr, length, map, slice_get, Some, unsigned_abs, if◌then◌else◌};
ghost use Rattle.std.specs.List.Sorted.{IsPermutation, IsNonDecreasingBy};
ghost use Rattle.bits_model.specs.declared.output.Entry.{Entry};
ghost use Rattle.bits_model.specs.Output.{weight_total};
ghost use Rattle.bits_model.specs.PairNumbers.{pair_number};
ghost use Rattle.pair_sums.specs.Pairs.{entry_at, sums_from, sums_of, IsPair, AreSummed, AppendsSums};
ghost use Rattle.pair_sums.specs.Codes.{unpacked};
ghost use Rattle.pair_sums.specs.PairLists.{held_pairs};

use crate::appending::push_some;
use crate::listed::ListedPairs;
use crate::shape::{Arrival, Shape, ascending, packed, shape_for, unpacked};
use base::NoMemory;
use bits_model::{CouplerList, Entry, pair_number};
use std::alloc::Global;
use std::marker::Model;

/// How couplers are held: as codes with their weights, as codes beside a list of weights, or each in
/// 32 bytes.
#[derive(Drop)]
pub enum HeldPairs {
    Packed(Shape, Vec<u64>),
    Listed(ListedPairs),
    Wide(Vec<Entry>),
}

/// Couplers, which contracts see as a list of entries: 8 bytes each as long as all can be packed, 8
/// and the weights that differ as long as their indices can be, and else 32.
///
/// The sorts are fastest for elements of at most 8 bytes.
pub struct Pairs {
    alloc: Global,
    held: HeldPairs,
}

impl Drop for Pairs {
    fn drop(self) {
        let Pairs {
            alloc: _alloc,
            held: _held,
        } = self;
    }
}

impl Model for Pairs {
    ghost use Rattle.std.specs.Prelude.{List};
    ghost use Rattle.bits_model.specs.declared.output.Entry.{Entry};
    ghost use Rattle.pair_sums.specs.PairLists.{held_pairs};

    ghost Value = { List Entry };

    ghost view = { λ a. held_pairs a.held };
}

/// Packed couplers beside a list of their weights, unless one of them needs more bits there.
fn listed_of(alloc: Global, shape: Shape, codes: &[u64]) -> Result<Option<ListedPairs>, NoMemory>
    ensures { IfOk result (λ all. IfSome all (λ pairs.
        pairs ≡ map (unpacked shape) codes.now)) }
{
    let mut listed = ListedPairs::empty(alloc, shape)?;
    for code in codes {
        if !listed.push(unpacked(shape, *code))? {
            return Ok(None);
        }
    }
    Ok(Some(listed))
}

/// Packed couplers as entries.
fn widened(alloc: Global, shape: Shape, codes: &[u64]) -> Result<Vec<Entry>, NoMemory>
    ensures { IfOk result (λ wide. wide.items ≡ map (unpacked shape) codes.now) }
{
    let wide = codes
        .iter()
        .map(|code| unpacked(shape, *code))
        .collect(alloc)?;
    Ok(wide)
}

/// Listed couplers as entries, and one more.
fn with_wide(alloc: Global, pairs: &ListedPairs, entry: Entry) -> Result<Vec<Entry>, NoMemory>
    ensures { IfOk result (λ wide. wide.items ≡ pairs.now ++ entry ∷ []) }
{
    let mut wide = Vec::with_capacity(alloc, pairs.len().saturating_add(1))?;
    for i in 0..pairs.len() {
        wide.push(pairs.at(i))?;
    }
    wide.push(entry)?;
    Ok(wide)
}

/// The same couplers, and one more that cannot be packed.
fn with_longer(
    alloc: Global,
    shape: Shape,
    codes: &[u64],
    entry: Entry,
) -> Result<HeldPairs, NoMemory>
    ensures { IfOk result (λ held.
        held_pairs held ≡ map (unpacked shape) codes.now ++ entry ∷ []) }
{
    if let Some(mut listed) = listed_of(alloc, shape, codes)? {
        if listed.push(entry)? {
            return Ok(HeldPairs::Listed(listed));
        }
    }
    let mut wide = widened(alloc, shape, codes)?;
    wide.push(entry)?;
    Ok(HeldPairs::Wide(wide))
}

/// Appends a coupler, unless a node or its weight needs more bits, and says whether it did.
#[inline(always)]
fn push_packed(shape: Shape, codes: &mut Vec<u64>, entry: Entry) -> Result<bool, NoMemory>
    ensures pushed { IfOk result (λ taken. map (unpacked shape) codes.new.items
        ≡ (if taken then map (unpacked shape) codes.old.items ++ entry ∷ []
        else map (unpacked shape) codes.old.items)) }
    ensures unchanged { OnErr result (codes.new.items ≡ codes.old.items) }
{
    match packed(shape, entry.first, entry.second, entry.weight) {
        Some(code) => {
            codes.push(code)?;
            Ok(true)
        }
        None => Ok(false),
    }
}

/// Appends a coupler, however many bits it needs. An entry goes through memory, so its parts are
/// handed over.
#[inline(never)]
fn push_held(
    alloc: Global,
    held: &mut HeldPairs,
    first: u32,
    second: u32,
    weight: i128,
) -> Result<(), NoMemory>
    ensures pushed { OnOk result (held_pairs held.new ≡ held_pairs held.old
        ++ record { first = first; second = second; weight = weight } ∷ []) }
    ensures unchanged { OnErr result (held_pairs held.new ≡ held_pairs held.old) }
{
    let entry = Entry {
        first,
        second,
        weight,
    };
    let longer = match held {
        HeldPairs::Packed(shape, codes) => with_longer(alloc, *shape, codes, entry)?,
        HeldPairs::Listed(pairs) => {
            if pairs.push(entry)? {
                return Ok(());
            }
            HeldPairs::Wide(with_wide(alloc, pairs, entry)?)
        }
        HeldPairs::Wide(pairs) => {
            pairs.push(entry)?;
            return Ok(());
        }
    };
    *held = longer;
    Ok(())
}

/// Entries in the order of their pairs.
fn sorted_wide(mut pairs: Vec<Entry>) -> Vec<Entry>
    ensures same { IsPermutation pairs.items result.items }
    ensures ordered { IsNonDecreasingBy pair_number result.items }
{
    pairs.sort_unstable_by_key(|pair| pair_number(pair));
    pairs
}

/// The same couplers in the order of their pairs. That of codes is theirs.
fn sorted_pairs(alloc: Global, held: HeldPairs, arrival: Arrival) -> Result<HeldPairs, NoMemory>
    ensures same { IfOk result (λ sorted. IsPermutation (held_pairs held) (held_pairs sorted)) }
    ensures ordered { IfOk result (λ sorted. IsNonDecreasingBy pair_number (held_pairs sorted)) }
{
    match held {
        HeldPairs::Packed(shape, codes) => {
            let codes = ascending(alloc, shape, codes, arrival)?;
            Ok(HeldPairs::Packed(shape, codes))
        }
        HeldPairs::Listed(pairs) => Ok(HeldPairs::Listed(pairs.sorted(alloc, arrival)?)),
        HeldPairs::Wide(pairs) => Ok(HeldPairs::Wide(sorted_wide(pairs))),
    }
}

/// Leaves no couplers, in the same memory.
fn clear(alloc: Global, held: &mut HeldPairs)
    ensures { held_pairs held.new ≡ [] }
{
    match held {
        HeldPairs::Packed(_, codes) => codes.clear(),
        HeldPairs::Listed(pairs) => pairs.clear(alloc),
        HeldPairs::Wide(pairs) => pairs.clear(),
    }
}

/// The coupler at an index.
#[inline(always)]
fn coupler_at(held: &HeldPairs, index: usize) -> Entry
    requires { index < length (held_pairs held.now) }
    ensures { slice_get (held_pairs held.now) index ≡ Some result }
{
    match held {
        HeldPairs::Packed(shape, codes) => unpacked(*shape, codes[index]),
        HeldPairs::Listed(pairs) => pairs.at(index),
        HeldPairs::Wide(pairs) => pairs[index],
    }
}

/// Adds an entry to a pending one of its pair. Where that is of another pair it is appended, and the
/// entry is pending in its place.
fn add_pending(
    couplers: &mut CouplerList,
    pending: &mut Entry,
    entry: Entry,
) -> Result<(), NoMemory>
    requires small { unsigned_abs pending.old.weight + unsigned_abs entry.weight ≤ 2 ^ 126 }
    ensures sums { (later : List Entry) → OnOk result (couplers.new ++ sums_from pending.new later
        ≡ couplers.old ++ sums_from pending.old (entry ∷ later)) }
    ensures small { OnOk result (unsigned_abs pending.new.weight
        ≤ unsigned_abs pending.old.weight + unsigned_abs entry.weight) }
{
    if pair_number(pending) == pair_number(&entry) {
        pending.weight += entry.weight;
        return Ok(());
    }
    push_some(couplers, pending.first, pending.second, pending.weight)?;
    *pending = entry;
    Ok(())
}

/// Appends couplers in order, neighbours of one pair as one, and none of weight 0.
fn append_sums(couplers: &mut CouplerList, pairs: &Pairs) -> Result<(), NoMemory>
    requires { weight_total pairs.now ≤ 2 ^ 126 }
    ensures { OnOk result (couplers.new ≡ couplers.old ++ sums_of pairs.now) }
{
    if pairs.len() == 0 {
        return Ok(());
    }
    let mut pending = pairs.at(0);
    for i in 1..pairs.len() {
        add_pending(couplers, &mut pending, pairs.at(i))?;
    }
    push_some(couplers, pending.first, pending.second, pending.weight)
}

impl Pairs {
    /// No couplers yet. They begin packed. Takes no memory.
    pub fn empty(alloc: Global, nodes: usize) -> Pairs
        ensures { result ≡ [] }
    {
        Pairs {
            alloc,
            held: HeldPairs::Packed(shape_for(nodes), Vec::new(alloc)),
        }
    }

    /// No couplers yet, with room for so many.
    pub fn with_room(alloc: Global, nodes: usize, count: usize) -> Result<Pairs, NoMemory>
        ensures { IfOk result (λ pairs. pairs ≡ []) }
    {
        Ok(Pairs {
            alloc,
            held: HeldPairs::Packed(shape_for(nodes), Vec::with_capacity(alloc, count)?),
        })
    }

    /// How many there are.
    pub fn len(&self) -> usize
        ensures { result ≡ length self.now }
    {
        match &self.held {
            HeldPairs::Packed(_, codes) => codes.len(),
            HeldPairs::Listed(pairs) => pairs.len(),
            HeldPairs::Wide(pairs) => pairs.len(),
        }
    }

    /// The coupler at an index.
    #[inline(always)]
    pub fn at(&self, index: usize) -> Entry
        requires { index < length self.now }
        ensures there { slice_get self.now index ≡ Some result }
        ensures value { result ≡ entry_at self.now index }
    {
        coupler_at(&self.held, index)
    }

    /// The same couplers in the order of their pairs.
    pub(crate) fn sorted(self, arrival: Arrival) -> Result<Pairs, NoMemory>
        ensures same { IfOk result (IsPermutation self) }
        ensures ordered { IfOk result (IsNonDecreasingBy pair_number) }
    {
        let Pairs { alloc, held } = self;
        let held = sorted_pairs(alloc, held, arrival)?;
        Ok(Pairs { alloc, held })
    }

    /// The same couplers in the order of their pairs, each by itself. It is fast where, among those
    /// of one first node, the second ones nearly ascend.
    pub fn in_order(self) -> Result<Pairs, NoMemory>
        ensures same { IfOk result (IsPermutation self) }
        ensures ordered { IfOk result (IsNonDecreasingBy pair_number) }
    {
        self.sorted(Arrival::Nearly)
    }

    /// The couplers in order, one for each pair whose sum is not 0.
    pub fn summed(self) -> Result<CouplerList, NoMemory>
        requires pairs { All (IsPair (2 ^ 32)) self }
        requires small { weight_total self ≤ 2 ^ 126 }
        ensures { IfOk result (AreSummed self) }
    {
        let mut couplers = CouplerList::with_room(self.alloc, self.len())?;
        self.put_into(&mut couplers)?;
        Ok(couplers)
    }

    /// Appends the couplers in order to others, one for each pair whose sum is not 0, and gives back
    /// the list without couplers.
    pub fn put_into(self, couplers: &mut CouplerList) -> Result<Pairs, NoMemory>
        requires pairs { All (IsPair (2 ^ 32)) self }
        requires small { weight_total self ≤ 2 ^ 126 }
        ensures put { OnOk result (AppendsSums self couplers.old couplers.new) }
        ensures none { IfOk result (λ left. left ≡ []) }
    {
        let mut sorted = self.sorted(Arrival::Mixed)?;
        append_sums(couplers, &sorted)?;
        clear(sorted.alloc, &mut sorted.held);
        Ok(sorted)
    }

    /// Appends a coupler. Where memory is refused the list stays as it was.
    #[inline(always)]
    pub fn push(&mut self, entry: Entry) -> Result<(), NoMemory>
        ensures pushed { OnOk result (self.new ≡ self.old ++ entry ∷ []) }
        ensures unchanged { OnErr result (self.new ≡ self.old) }
    {
        if let HeldPairs::Packed(shape, codes) = &mut self.held {
            if push_packed(*shape, codes, entry)? {
                return Ok(());
            }
        }
        push_held(
            self.alloc,
            &mut self.held,
            entry.first,
            entry.second,
            entry.weight,
        )
    }
}
