//! Couplers whose weights stand in a list beside them, each weight mostly once.
//!
//! Many couplers have few weights that differ: products of a penalty with small numbers. A coupler is
//! a code of 8 bytes with its nodes and the index of its weight. A weight that came lately is found
//! by a table of their indices, and another is appended, even where it stands in the list already.
ghost use Rattle.std.specs.Prelude.{◌≡◌, ◌++◌, ◌∷◌, [], ◌<◌, ◌≤◌, ℕ, pos, IfOk, IfSome, OnErr, length, slice_get, Some, if◌then◌else◌};
ghost use Rattle.std.specs.List.{slice_index_or};
ghost use Rattle.std.specs.List.Sorted.{IsPermutation, IsNonDecreasingBy};
ghost use Rattle.bits_model.specs.PairNumbers.{pair_number};
ghost use Rattle.pair_sums.specs.Codes.{IsFound, KeepsWeights};

use crate::shape::{Arrival, Shape, ascending, coded, coupler_of, low_of};
use base::NoMemory;
use bits_model::{Entry, WeightList};
use std::alloc::Global;
use std::marker::Model;

/// Couplers, which contracts see as a list of entries.
pub struct ListedPairs {
    shape: Shape,
    codes: Vec<u64>,
    weights: WeightList,
    recent: Vec<u32>,
}

impl Drop for ListedPairs {
    fn drop(self) {
        let ListedPairs {
            shape: _shape,
            codes: _codes,
            weights: _weights,
            recent: _recent,
        } = self;
    }
}

impl Model for ListedPairs {
    ghost use Rattle.std.specs.Prelude.{List, map};
    ghost use Rattle.bits_model.specs.declared.output.Entry.{Entry};
    ghost use Rattle.pair_sums.specs.Codes.{listed, AreListed};

    ghost Value = { List Entry };

    ghost view = { λ a. map (listed a.shape a.weights) a.codes.items };

    ghost invariant = { λ a. AreListed a.shape a.weights a.codes.items };
}

/// The table has so many places for weights of either sign.
const PLACES: u64 = 1 << 11;

/// How far the product that mixes the bits of a weight is moved to be a place.
const SHIFT: u32 = 53;

/// An odd number near 2^64 divided by the golden ratio (Knuth, The Art of Computer Programming 3,
/// 6.4).
const MIXER: u64 = 0x9E37_79B9_7F4A_7C15;

/// The place of a weight in the table. None has one that needs more than 64 bits.
#[inline(always)]
fn place_of(weight: i128) -> Option<usize> {
    let weight = i64::try_from(weight).ok()?;
    let mixed = weight.unsigned_abs().wrapping_mul(MIXER) >> SHIFT;
    if weight < 0 {
        Some(mixed as usize)
    } else {
        Some((mixed | PLACES) as usize)
    }
}

/// The index of a weight, where a place of the table has it.
#[inline(always)]
fn found(weights: &WeightList, recent: &[u32], place: usize, weight: i128) -> Option<usize>
    ensures { IfSome result (IsFound weights.now weight) }
{
    let index = *recent.get(place)? as usize;
    if index < weights.len() && weights.get(index) == weight {
        Some(index)
    } else {
        None
    }
}

/// Puts an index into a place of the table, where there is one and both fit.
fn note(recent: &mut [u32], place: Option<usize>, index: usize) {
    let Some(place) = place else {
        return;
    };
    if let Some(entry) = recent.get_mut(place) {
        if let Ok(index) = u32::try_from(index) {
            *entry = index;
        }
    }
}

/// Appends a weight, and puts its index into its place of the table.
fn appended(
    weights: &mut WeightList,
    recent: &mut [u32],
    place: Option<usize>,
    weight: i128,
) -> Result<usize, NoMemory>
    ensures found { IfOk result (IsFound weights.new weight) }
    ensures kept { KeepsWeights weights.old weights.new }
{
    let index = weights.len();
    weights.push(weight)?;
    note(recent, place, index);
    Ok(index)
}

/// The index of a weight, which is appended where no place of the table has it.
#[inline(always)]
fn index_of(weights: &mut WeightList, recent: &mut [u32], weight: i128) -> Result<usize, NoMemory>
    ensures found { IfOk result (IsFound weights.new weight) }
    ensures kept { KeepsWeights weights.old weights.new }
{
    let place = place_of(weight);
    if let Some(place) = place {
        if let Some(index) = found(weights, recent, place, weight) {
            return Ok(index);
        }
    }
    appended(weights, recent, place, weight)
}

impl ListedPairs {
    /// No couplers yet.
    pub fn empty(alloc: Global, shape: Shape) -> Result<ListedPairs, NoMemory>
        ensures { IfOk result (λ pairs. pairs ≡ []) }
    {
        Ok(ListedPairs {
            shape,
            codes: Vec::new(alloc),
            weights: WeightList::empty(alloc),
            recent: vec![in alloc; 0; 2 * PLACES as usize]?,
        })
    }

    /// How many there are.
    pub fn len(&self) -> usize
        ensures { result ≡ length self.now }
    {
        self.codes.len()
    }

    /// The coupler at an index.
    #[inline(always)]
    pub fn at(&self, index: usize) -> Entry
        requires { index < length self.now }
        ensures { slice_get self.now index ≡ Some result }
    {
        let code = self.codes[index];
        let weight = self.weights.get(low_of(self.shape, code) as usize);
        coupler_of(self.shape, code, weight)
    }

    /// Appends a coupler, unless a node or the index of its weight needs more bits, and says whether
    /// it did. Where memory is refused the list stays as it was.
    #[inline(always)]
    pub fn push(&mut self, entry: Entry) -> Result<bool, NoMemory>
        ensures pushed { IfOk result (λ taken.
            self.new ≡ (if taken then self.old ++ entry ∷ [] else self.old)) }
        ensures unchanged { OnErr result (self.new ≡ self.old) }
    {
        let index = index_of(&mut self.weights, &mut self.recent, entry.weight)?;
        match coded(self.shape, entry.first, entry.second, index as u64) {
            Some(code) => {
                self.codes.push(code)?;
                Ok(true)
            }
            None => Ok(false),
        }
    }

    /// Leaves no couplers.
    pub fn clear(&mut self, alloc: Global)
        ensures { self.new ≡ [] }
    {
        self.codes.clear();
        self.weights = WeightList::empty(alloc);
    }

    /// The same couplers in the order of their pairs.
    pub fn sorted(self, alloc: Global, arrival: Arrival) -> Result<ListedPairs, NoMemory>
        ensures same { IfOk result (IsPermutation self) }
        ensures ordered { IfOk result (IsNonDecreasingBy pair_number) }
    {
        let ListedPairs {
            shape,
            codes,
            weights,
            recent,
        } = self;
        let codes = ascending(alloc, shape, codes, arrival)?;
        Ok(ListedPairs {
            shape,
            codes,
            weights,
            recent,
        })
    }
}
