//! The weights of nodes.
ghost use Rattle.std.specs.Prelude.{◌≡◌, ◌<◌, ◌^◌, All, length};
ghost use Rattle.bits_model.specs.Entries.{node_entries, listed_entries, weighed_nodes};

use crate::output::Entry;
use std::marker::Model;

/// Which nodes have a weight: all from 0 on, or those that are listed.
#[derive(Drop)]
pub enum Numbers {
    All,
    Listed(Vec<u32>),
}

/// The weights of nodes, which contracts see as the list of their entries.
#[derive(Drop)]
pub struct NodeWeights {
    numbers: Numbers,
    weights: Vec<i128>,
}

impl Model for NodeWeights {
    ghost use Rattle.std.specs.Prelude.{List};
    ghost use Rattle.bits_model.specs.declared.output.Entry.{Entry};
    ghost use Rattle.bits_model.specs.Entries.{weighed_nodes, AreNumbers};

    ghost Value = { List Entry };

    ghost view = { λ a. weighed_nodes a.numbers a.weights.items };

    ghost invariant = { λ a. AreNumbers a.numbers a.weights.items };
}

impl NodeWeights {
    /// The weights of the nodes 0, 1 and so on. Takes no memory.
    pub fn numbered(weights: Vec<i128>) -> NodeWeights
        requires { length weights.items < 2 ^ 32 }
        ensures { result ≡ node_entries 0 weights.items }
    {
        NodeWeights {
            numbers: Numbers::All,
            weights,
        }
    }

    /// The weights of these nodes. Takes no memory.
    pub fn listed(nodes: Vec<u32>, weights: Vec<i128>) -> NodeWeights
        requires { length nodes.items ≡ length weights.items }
        ensures { result ≡ listed_entries nodes.items weights.items }
    {
        NodeWeights {
            numbers: Numbers::Listed(nodes),
            weights,
        }
    }

    /// How many entries there are, each of them that of a node.
    pub fn len(&self) -> usize
        ensures length { result ≡ length self.now }
        ensures nodes { All (λ e. e.first ≡ e.second) self.now }
    {
        self.weights.len()
    }

    /// Each entry in turn.
    pub fn iter(&self) -> NodeEntries<'_>
        ensures { result ≡ self.now }
    {
        NodeEntries {
            numbers: &self.numbers,
            weights: &self.weights,
            at: 0,
        }
    }
}

/// The entries of nodes in turn, which contracts see as the list of those that are left.
#[derive(Drop)]
pub struct NodeEntries<'a> {
    numbers: &'a Numbers,
    weights: &'a [i128],
    at: usize,
}

impl<'a> Model for NodeEntries<'a> {
    ghost use Rattle.std.specs.Prelude.{◌≤◌, List, drop, length};
    ghost use Rattle.bits_model.specs.declared.output.Entry.{Entry};
    ghost use Rattle.bits_model.specs.Entries.{weighed_nodes, AreNumbers};

    ghost Value = { List Entry };

    ghost view = { λ a. drop a.at (weighed_nodes a.numbers.now a.weights.now) };

    ghost invariant = { λ a.
        AreNumbers a.numbers.now a.weights.now × (a.at ≤ length a.weights.now) };
}

impl<'a> Iterator for NodeEntries<'a> {
    type Item = Entry;

    ghost use Rattle.std.specs.Prelude.{length};
    ghost use Rattle.std.specs.Iterator.{at_most};
    ghost use Rattle.std.specs.Map.Iter.{TakesFirst};

    ghost next_gives = { λ s r t. TakesFirst (λ e. e) s r t };

    ghost remaining = { λ s. at_most (length s) };

    fn next(&mut self) -> Option<Entry> {
        let at = self.at;
        if at == self.weights.len() {
            return None;
        }
        let node = match self.numbers {
            Numbers::All => at as u32,
            Numbers::Listed(nodes) => nodes[at],
        };
        self.at = at + 1;
        Some(Entry {
            first: node,
            second: node,
            weight: self.weights[at],
        })
    }
}
