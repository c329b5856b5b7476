//! The entries of couplers, one after another.
use crate::couplers::{RowStart, end_before};
use crate::output::Entry;
use crate::weights::WeightList;
use std::marker::Model;

/// The entries of couplers in turn, which contracts see as the list of those that are left.
#[derive(Drop)]
pub struct CouplerEntries<'a> {
    pub(crate) rows: &'a [RowStart],
    pub(crate) seconds: &'a [u32],
    pub(crate) weights: &'a WeightList,
    pub(crate) at: usize,
}

impl<'a> Model for CouplerEntries<'a> {
    ghost use Rattle.std.specs.Prelude.{◌≡◌, List, length};
    ghost use Rattle.bits_model.specs.declared.output.Entry.{Entry};
    ghost use Rattle.bits_model.specs.Entries.{entries_left, IsInFirst};

    ghost Value = { List Entry };

    ghost view = { λ a. entries_left a.rows.now a.at a.seconds.now a.weights.now };

    ghost invariant = { λ a. IsInFirst (length a.seconds.now) a.at a.rows.now
        × (length a.weights.now ≡ length a.seconds.now) };
}

impl<'a> Iterator for CouplerEntries<'a> {
    type Item = Entry;

    ghost use Rattle.std.specs.Prelude.{length};
    ghost use Rattle.std.specs.Iterator.{at_most};
    ghost use Rattle.std.specs.Map.Iter.{TakesFirst};

    ghost next_gives = { λ s r t. TakesFirst (λ e. e) s r t };

    ghost remaining = { λ s. at_most (length s) };

    fn next(&mut self) -> Option<Entry> {
        let at = self.at;
        match self.rows {
            [] => None,
            [row, later @ ..] => {
                let entry = Entry {
                    first: row.first,
                    second: self.seconds[at],
                    weight: self.weights.get(at),
                };
                self.at = at + 1;
                if at + 1 == end_before(self.seconds.len(), later) {
                    self.rows = later;
                }
                Some(entry)
            }
        }
    }
}
