//! One row of couplers.
ghost use Rattle.std.specs.Prelude.{◌≡◌, ◌<◌, All, length, List};
ghost use Rattle.std.specs.List.{slice_index_or};
ghost use Rattle.bits_model.specs.declared.output.Entry.{Entry};

use crate::weights::WeightList;
use std::marker::Model;

/// The couplers with one first node that stand side by side, which contracts see as the list of
/// their entries.
#[derive(Drop)]
pub struct Row<'a> {
    pub(crate) first: u32,
    pub(crate) start: usize,
    pub(crate) end: usize,
    pub(crate) seconds: &'a [u32],
    pub(crate) weights: &'a WeightList,
}

impl<'a> Model for Row<'a> {
    ghost use Rattle.std.specs.Prelude.{List};
    ghost use Rattle.bits_model.specs.declared.output.Entry.{Entry};
    ghost use Rattle.bits_model.specs.Entries.{row_entries, IsWithin};

    ghost Value = { List Entry };

    ghost view = { λ a. row_entries a.first a.start a.end a.seconds.now a.weights.now };

    ghost invariant = { λ a. IsWithin a.start a.end a.seconds.now a.weights.now };
}

impl<'a> Row<'a> {
    /// The first node of each entry.
    pub fn first(&self) -> u32
        ensures { All (λ e. e.first ≡ result) self.now }
    {
        self.first
    }

    pub fn len(&self) -> usize
        ensures { result ≡ length self.now }
    {
        self.end - self.start
    }

    /// The second node of an entry.
    #[inline]
    pub fn second(&self, index: usize) -> u32
        requires { index < length self.now }
        ensures { (d : Entry) → (slice_index_or self.now index d).second ≡ result }
    {
        self.seconds[self.start + index]
    }

    /// The weight of an entry.
    #[inline]
    pub fn weight(&self, index: usize) -> i128
        requires { index < length self.now }
        ensures { (d : Entry) → (slice_index_or self.now index d).weight ≡ result }
    {
        self.weights.get(self.start + index)
    }
}
