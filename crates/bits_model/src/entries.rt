//! The entries of a model.
ghost use Rattle.std.specs.Prelude.{◌≡◌, count_by};
ghost use Rattle.bits_model.specs.Output.{is_node, is_coupler};

use crate::coupler_entries::CouplerEntries;
use crate::couplers::CouplerList;
use crate::nodes::{NodeEntries, NodeWeights};
use crate::output::Entry;
use std::marker::Model;

/// The entries of a model, which contracts see as the list of those of nodes, and then of couplers.
///
/// Each coupler has the lesser node first.
#[derive(Drop)]
pub struct EntryList {
    pub nodes: NodeWeights,
    pub couplers: CouplerList,
}

/// How many entries of a list are those of nodes, and how many are those of couplers.
#[derive(Clone, Copy)]
pub struct Counts {
    pub nodes: usize,
    pub couplers: usize,
}

impl Model for EntryList {
    ghost use Rattle.std.specs.Prelude.{List, ◌<◌, ◌++◌, All};
    ghost use Rattle.bits_model.specs.declared.output.Entry.{Entry};

    ghost Value = { List Entry };

    ghost view = { λ a. a.nodes ++ a.couplers };

    ghost invariant = { λ a. All (λ e. e.first < e.second) a.couplers };
}

impl EntryList {
    /// How many there are of nodes and of couplers.
    pub fn counts(&self) -> Counts
        ensures nodes { result.nodes ≡ count_by is_node self.now }
        ensures couplers { result.couplers ≡ count_by is_coupler self.now }
    {
        Counts {
            nodes: self.nodes.len(),
            couplers: self.couplers.len(),
        }
    }

    /// Each entry in turn.
    pub fn iter(&self) -> Entries<'_>
        ensures { result ≡ self.now }
    {
        Entries {
            nodes: self.nodes.iter(),
            couplers: self.couplers.iter(),
        }
    }
}

/// The entries of a model in turn, which contracts see as the list of those that are left.
#[derive(Drop)]
pub struct Entries<'a> {
    nodes: NodeEntries<'a>,
    couplers: CouplerEntries<'a>,
}

impl<'a> Model for Entries<'a> {
    ghost use Rattle.std.specs.Prelude.{List, ◌++◌};
    ghost use Rattle.bits_model.specs.declared.output.Entry.{Entry};

    ghost Value = { List Entry };

    ghost view = { λ a. a.nodes ++ a.couplers };
}

impl<'a> Iterator for Entries<'a> {
    type Item = Entry;

    ghost use Rattle.std.specs.Prelude.{length};
    ghost use Rattle.std.specs.Iterator.{at_most};
    ghost use Rattle.std.specs.Map.Iter.{TakesFirst};

    ghost next_gives = { λ s r t. TakesFirst (λ e. e) s r t };

    ghost remaining = { λ s. at_most (length s) };

    fn next(&mut self) -> Option<Entry> {
        match self.nodes.next() {
            Some(entry) => Some(entry),
            None => self.couplers.next(),
        }
    }
}
