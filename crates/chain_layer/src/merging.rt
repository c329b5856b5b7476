//! Ties and placed couplings, where these are in order as they come.
//!
//! Two lists in order become one by steps to the lesser of their next entries (merging: Knuth, The
//! Art of Computer Programming 3, 5.2.4, algorithm M), and the longer one need not be sorted.
ghost use Rattle.std.specs.Prelude.{◌≡◌, ◌++◌, List, true, length, IfOk, OnOk};
ghost use Rattle.std.specs.List.Sorted.{IsPermutation, IsNonDecreasingBy};
ghost use Rattle.bits_model.specs.declared.output.Entry.{Entry};
ghost use Rattle.bits_model.specs.PairNumbers.{pair_number};
ghost use Rattle.chain_layer.specs.Image.{placed};
ghost use Rattle.chain_layer.specs.Steps.{place_number, AreAbove, AreFrom, AreOrdered};

use crate::placing::{PlacedEntries, place_number};
use base::NoMemory;
use bits_model::{CouplerList, pair_number};
use std::alloc::Global;

/// Whether the numbers of pairs of qubits ascend.
pub fn ascend(places: &[(u32, u32)]) -> bool
    ensures { result ≡ true → IsNonDecreasingBy place_number places.now }
{
    for k in 1..places.len() {
        if place_number(places[k]) < place_number(places[k - 1]) {
            return false;
        }
    }
    true
}

/// Appends the placed couplings that come before all with a greater number than this one.
#[inline(always)]
fn push_up_to(
    list: &mut CouplerList,
    left: &mut PlacedEntries<'_>,
    limit: u64,
) -> Result<(), NoMemory>
    ensures moved { OnOk result (list.new ++ left.new ≡ list.old ++ left.old) }
    ensures above { OnOk result (AreAbove limit left.new) }
    ensures ordered { OnOk result ((later : List Entry) → AreFrom limit later
        → AreOrdered (list.old ++ left.old) → AreOrdered (list.old ++ later)
        → AreOrdered (list.new ++ later)) }
{
    while let Some(entry) = left.take_up_to(limit) {
        list.push(entry.first, entry.second, entry.weight)?;
    }
    Ok(())
}

/// Ties in order and placed couplings in order as one list in order.
pub fn merged(
    alloc: Global,
    ties: &CouplerList,
    couplings: &CouplerList,
    places: &[(u32, u32)],
) -> Result<CouplerList, NoMemory>
    requires len { length places.now ≡ length couplings.now }
    requires ties { IsNonDecreasingBy pair_number ties.now }
    requires places { IsNonDecreasingBy place_number places.now }
    ensures same { IfOk result (IsPermutation (ties.now ++ placed couplings.now places.now)) }
    ensures ordered { IfOk result (IsNonDecreasingBy pair_number) }
{
    let mut list = CouplerList::with_room(alloc, ties.len().saturating_add(places.len()))?;
    let mut left = PlacedEntries::new(couplings, places);
    for tie in ties.iter() {
        push_up_to(&mut list, &mut left, pair_number(&tie))?;
        list.push(tie.first, tie.second, tie.weight)?;
    }
    push_up_to(&mut list, &mut left, u64::MAX)?;
    Ok(list)
}
