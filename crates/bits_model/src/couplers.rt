//! Couplers, row by row: a row has its first node once, and its entries a second node and a weight.
//!
//! An entry takes 12 bytes, or 20 where some weight needs more than 64 bits. A row takes 16 bytes
//! beside its entries.
ghost use Rattle.std.specs.Prelude.{◌≡◌, ◌++◌, ◌∷◌, [], ◌<◌, ◌≤ℤ◌, IfOk, OnOk, OnErr, length, map, pos, drop, ◌+◌};
ghost use Rattle.std.specs.List.{slice_index_or};
ghost use Rattle.bits_model.specs.Entries.{rows_of, divided, end_before, last_is};

use crate::coupler_entries::CouplerEntries;
use crate::output::Entry;
use crate::row::Row;
use crate::weights::WeightList;
use base::NoMemory;
use std::alloc::Global;
use std::marker::Model;

/// The first node of a row, and the index of its first entry.
#[derive(Clone, Copy)]
pub struct RowStart {
    pub first: u32,
    pub start: usize,
}

/// Couplers, which contracts see as the list of their entries. Neighbours with the same first node
/// are one row.
pub struct CouplerList {
    starts: Vec<RowStart>,
    seconds: Vec<u32>,
    weights: WeightList,
}

impl Drop for CouplerList {
    fn drop(self) {
        let CouplerList {
            starts: _starts,
            seconds: _seconds,
            weights: _weights,
        } = self;
    }
}

impl Model for CouplerList {
    ghost use Rattle.std.specs.Prelude.{List};
    ghost use Rattle.bits_model.specs.declared.output.Entry.{Entry};

    ghost Value = { List Entry };

    ghost use Rattle.bits_model.specs.Entries.{packed_entries, IsPacked};

    ghost view = { λ a. packed_entries a.starts.items a.seconds.items a.weights };

    ghost invariant = { λ a. IsPacked a.starts.items a.seconds.items a.weights };
}

/// Where the entries before these rows end, of so many entries.
pub fn end_before(count: usize, rows: &[RowStart]) -> usize
    ensures { result ≡ end_before count rows.now }
{
    match rows {
        [] => count,
        [row, ..] => row.start,
    }
}

/// Where the entries of a row end, of so many entries.
fn end_of(count: usize, rows: &[RowStart], index: usize) -> usize
    requires { index < length rows.now }
    ensures { result ≡ end_before count (drop (index + 1) rows.now) }
{
    match rows.get(index + 1) {
        Some(row) => row.start,
        None => count,
    }
}

/// Whether the last row is that of this node.
#[inline(always)]
fn last_is(first: u32, rows: &[RowStart]) -> bool
    ensures { result ≡ last_is first rows.now }
{
    match rows.last() {
        Some(row) => row.first == first,
        None => false,
    }
}

/// Appends a second node and a weight.
#[inline(always)]
fn push_pair(
    seconds: &mut Vec<u32>,
    weights: &mut WeightList,
    second: u32,
    weight: i128,
) -> Result<(), NoMemory>
    ensures seconds { OnOk result (seconds.new.items ≡ seconds.old.items ++ second ∷ []) }
    ensures weights { OnOk result (weights.new ≡ weights.old ++ weight ∷ []) }
    ensures same_seconds { OnErr result (seconds.new.items ≡ seconds.old.items) }
    ensures same_weights { OnErr result (weights.new ≡ weights.old) }
{
    seconds.push(second)?;
    match weights.push(weight) {
        Ok(()) => Ok(()),
        Err(refused) => {
            seconds.pop();
            Err(refused)
        }
    }
}

impl CouplerList {
    /// The list without couplers. Takes no memory.
    pub fn empty(alloc: Global) -> CouplerList
        ensures { result ≡ [] }
    {
        CouplerList {
            starts: Vec::new(alloc),
            seconds: Vec::new(alloc),
            weights: WeightList::empty(alloc),
        }
    }

    /// The list without couplers, with room for so many.
    pub fn with_room(alloc: Global, count: usize) -> Result<CouplerList, NoMemory>
        ensures { IfOk result (λ list. list ≡ []) }
    {
        Ok(CouplerList {
            starts: Vec::new(alloc),
            seconds: Vec::with_capacity(alloc, count)?,
            weights: WeightList::with_room(alloc, count)?,
        })
    }

    /// The list of these entries.
    pub fn of(alloc: Global, entries: &[Entry]) -> Result<CouplerList, NoMemory>
        ensures { IfOk result (λ list. list ≡ entries.now) }
    {
        let mut list = CouplerList::with_room(alloc, entries.len())?;
        for entry in entries {
            list.push(entry.first, entry.second, entry.weight)?;
        }
        Ok(list)
    }

    pub fn len(&self) -> usize
        ensures { result ≡ length self.now }
    {
        self.seconds.len()
    }

    /// Appends an entry: to the last row, where that has the same first node.
    #[inline(always)]
    pub fn push(&mut self, first: u32, second: u32, weight: i128) -> Result<(), NoMemory>
        ensures pushed { OnOk result (self.new
            ≡ self.old ++ record { first = first; second = second; weight = weight } ∷ []) }
        ensures unchanged { OnErr result (self.new ≡ self.old) }
    {
        if last_is(first, &self.starts) {
            push_pair(&mut self.seconds, &mut self.weights, second, weight)?;
            return Ok(());
        }
        let start = self.seconds.len();
        self.starts.push(RowStart { first, start })?;
        match push_pair(&mut self.seconds, &mut self.weights, second, weight) {
            Ok(()) => Ok(()),
            Err(refused) => {
                self.starts.pop();
                Err(refused)
            }
        }
    }

    /// How many rows there are.
    pub fn row_count(&self) -> usize
        ensures { result ≡ length (rows_of self.now) }
    {
        self.starts.len()
    }

    /// A row.
    pub fn row(&self, index: usize) -> Row<'_>
        requires { index < length (rows_of self.now) }
        ensures { result ≡ slice_index_or (rows_of self.now) index [] }
    {
        let RowStart { first, start } = self.starts[index];
        Row {
            first,
            start,
            end: end_of(self.seconds.len(), &self.starts, index),
            seconds: &self.seconds,
            weights: &self.weights,
        }
    }

    /// Each entry in turn.
    pub fn iter(&self) -> CouplerEntries<'_>
        ensures { result ≡ self.now }
    {
        CouplerEntries {
            rows: &self.starts,
            seconds: &self.seconds,
            weights: &self.weights,
            at: 0,
        }
    }

    /// The same couplers in memory of their own.
    pub fn copied(&self, alloc: Global) -> Result<CouplerList, NoMemory>
        ensures { IfOk result (λ list. list ≡ self.now) }
    {
        Ok(CouplerList {
            starts: self.starts.to_vec(alloc)?,
            seconds: self.seconds.to_vec(alloc)?,
            weights: self.weights.copied(alloc)?,
        })
    }

    /// The couplers with their weights divided by a unit, and rounded towards 0. Takes no memory.
    pub fn divide(self, unit: i128) -> CouplerList
        requires { pos 1 ≤ℤ unit }
        ensures { result ≡ map (divided unit) self }
    {
        let CouplerList {
            starts,
            seconds,
            weights,
        } = self;
        CouplerList {
            starts,
            seconds,
            weights: weights.divide(unit),
        }
    }
}
