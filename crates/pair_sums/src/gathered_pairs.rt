//! Couplers as they are gathered, in order as long as they come in order.
//!
//! Those of one long constraint, or of a list of products in order, are the rows of the form as they
//! come. All from the first one on that does not come in order are sorted in the end.
ghost use Rattle.std.specs.Prelude.{◌≡◌, ◌+◌, ◌++◌, ◌∷◌, [], ◌<◌, ◌≤◌, ◌^◌, All, IfOk, OnOk, OnErr, length};
ghost use Rattle.std.specs.List.Sorted.{IsPermutation, IsNonDecreasingBy};
ghost use Rattle.bits_model.specs.Output.{weight_total};
ghost use Rattle.bits_model.specs.PairNumbers.{pair_number};
ghost use Rattle.pair_sums.specs.Pairs.{IsPair, AreSummed};

use crate::pairs::Pairs;
use crate::shape::Arrival;
use base::NoMemory;
use bits_model::{CouplerList, Entry, pair_number};
use std::alloc::Global;
use std::marker::Model;

/// Couplers, which contracts see as a list of entries: first those that came in order, the last one
/// with this number of its pair, and then all others.
pub struct GatheredPairs {
    ordered: CouplerList,
    last: u64,
    others: Pairs,
}

impl Drop for GatheredPairs {
    fn drop(self) {
        let GatheredPairs {
            ordered: _ordered,
            last: _last,
            others: _others,
        } = self;
    }
}

impl Model for GatheredPairs {
    ghost use Rattle.std.specs.Prelude.{◌++◌, List};
    ghost use Rattle.bits_model.specs.declared.output.Entry.{Entry};
    ghost use Rattle.pair_sums.specs.PairLists.{AreGathered};

    ghost Value = { List Entry };

    ghost view = { λ a. a.ordered ++ a.others };

    ghost invariant = { λ a. AreGathered a.ordered a.last };
}

/// The couplers of both lists.
fn joined(mut pairs: Pairs, couplers: CouplerList) -> Result<Pairs, NoMemory>
    ensures { IfOk result (λ all. all ≡ pairs ++ couplers) }
{
    for entry in couplers.iter() {
        pairs.push(entry)?;
    }
    Ok(pairs)
}

impl GatheredPairs {
    /// No couplers yet. They begin packed where there are few enough nodes. Takes no memory.
    pub fn empty(alloc: Global, nodes: usize) -> GatheredPairs
        ensures { result ≡ [] }
    {
        GatheredPairs {
            ordered: CouplerList::empty(alloc),
            last: 0,
            others: Pairs::empty(alloc, nodes),
        }
    }

    /// Appends a coupler. Where memory is refused the list stays as it was.
    #[inline(always)]
    pub fn push(&mut self, first: u32, second: u32, weight: i128) -> Result<(), NoMemory>
        ensures pushed { OnOk result (self.new
            ≡ self.old ++ record { first = first; second = second; weight = weight } ∷ []) }
        ensures unchanged { OnErr result (self.new ≡ self.old) }
    {
        let entry = Entry {
            first,
            second,
            weight,
        };
        let number = pair_number(&entry);
        if self.others.len() == 0 && self.last < number && weight != 0 {
            self.ordered.push(first, second, weight)?;
            self.last = number;
            return Ok(());
        }
        self.others.push(entry)
    }

    /// The same couplers, of more nodes. Where all came in order, later ones begin packed anew.
    pub fn widened(self, alloc: Global, nodes: usize) -> GatheredPairs
        ensures { result ≡ self }
    {
        if self.others.len() > 0 {
            return self;
        }
        let GatheredPairs {
            ordered,
            last,
            others: _others,
        } = self;
        GatheredPairs {
            ordered,
            last,
            others: Pairs::empty(alloc, nodes),
        }
    }

    /// The same couplers in the order of their pairs.
    pub fn sorted(self) -> Result<Pairs, NoMemory>
        ensures same { IfOk result (IsPermutation self) }
        ensures ordered { IfOk result (IsNonDecreasingBy pair_number) }
    {
        let GatheredPairs {
            ordered,
            last: _last,
            others,
        } = self;
        joined(others, ordered)?.sorted(Arrival::Mixed)
    }

    /// The couplers in order, one for each pair whose sum is not 0.
    pub fn summed(self) -> Result<CouplerList, NoMemory>
        requires pairs { All (IsPair (2 ^ 32)) self }
        requires small { weight_total self ≤ 2 ^ 126 }
        ensures { IfOk result (AreSummed self) }
    {
        let GatheredPairs {
            ordered,
            last: _last,
            others,
        } = self;
        if others.len() == 0 {
            return Ok(ordered);
        }
        joined(others, ordered)?.summed()
    }
}
