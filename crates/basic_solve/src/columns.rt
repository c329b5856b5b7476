//! The entries of a model, column by column: side by side those with the same second node.
//!
//! The node that is eliminated next is the last one that is left, and so the second node of all its
//! entries. They are the last ones, and the next node's stand before them.
ghost use Rattle.std.specs.Prelude.{◌≡◌, ◌+◌, ◌++◌, ◌∷◌, [], ◌<◌, ◌≤◌, ◌^◌, ℕ, All, IfOk, OnOk, length, map, take};
ghost use Rattle.bits_model.specs.Output.{IsPlaced, weight_total};
ghost use Rattle.basic_solve.specs.Columns.{column, columns, turned, AreLeft, IsMadeOf};

use bits_model::{Entry, EntryList, Kind, NoMemory, OutputModel};
use pair_sums::Pairs;
use std::alloc::Global;
use std::marker::Model;

/// The entry with its nodes the other way round.
#[inline(always)]
pub fn turned(entry: Entry) -> Entry
    ensures { result ≡ turned entry }
{
    Entry {
        first: entry.second,
        second: entry.first,
        weight: entry.weight,
    }
}

/// A model that is to be solved: its kind, how many nodes it has, and its entries turned, in the
/// order of their pairs. Contracts see it as a model from which no assignment is read.
pub struct Columns {
    pub(crate) kind: Kind,
    pub(crate) nodes: u32,
    pub(crate) pairs: Pairs,
}

impl Drop for Columns {
    fn drop(self) {
        let Columns {
            kind: _kind,
            nodes: _nodes,
            pairs: _pairs,
        } = self;
    }
}

impl Model for Columns {
    ghost use Rattle.std.specs.Prelude.{map};
    ghost use Rattle.bits_model.specs.Output.{Written};
    ghost use Rattle.basic_solve.specs.Columns.{model_of, turned, AreColumns};

    ghost Value = { Written };

    ghost view = { λ c. model_of c.kind c.nodes (map turned c.pairs) };

    ghost invariant = { λ c. AreColumns c.nodes (map turned c.pairs) };
}

impl Columns {
    /// The columns of entries that are turned, and in any order.
    pub fn new(kind: Kind, nodes: u32, pairs: Pairs) -> Result<Columns, NoMemory>
        requires placed { All (IsPlaced nodes) (map turned pairs) }
        requires light { weight_total (map turned pairs) ≤ 2 ^ 124 }
        ensures { IfOk result (IsMadeOf kind nodes (map turned pairs)) }
    {
        let pairs = pairs.in_order()?;
        Ok(Columns { kind, nodes, pairs })
    }

    /// All columns.
    pub(crate) fn left(&self) -> ColumnsLeft<'_>
        ensures { result ≡ columns self.now.nodes self.now.entries }
    {
        ColumnsLeft {
            pairs: &self.pairs,
            nodes: self.nodes as usize,
            end: self.pairs.len(),
        }
    }
}

/// Entries, turned.
fn pairs_of(alloc: Global, nodes: usize, entries: &EntryList) -> Result<Pairs, NoMemory>
    ensures { IfOk result (λ pairs. pairs ≡ map turned entries.now) }
{
    let counts = entries.counts();
    let room = counts.nodes.saturating_add(counts.couplers);
    let mut pairs = Pairs::with_room(alloc, nodes, room)?;
    for entry in entries.iter() {
        pairs.push(turned(entry))?;
    }
    Ok(pairs)
}

/// The columns of a model.
pub(crate) fn columns_of(alloc: Global, model: &OutputModel) -> Result<Columns, NoMemory>
    ensures { IfOk result (IsMadeOf model.now.kind model.now.nodes model.now.entries) }
{
    let pairs = pairs_of(alloc, model.nodes as usize, &model.entries)?;
    Columns::new(model.kind, model.nodes, pairs)
}

/// The columns of so many nodes, which are the entries before an end. Contracts see a list of
/// entries for each node.
#[derive(Drop)]
pub(crate) struct ColumnsLeft<'a> {
    pairs: &'a Pairs,
    nodes: usize,
    end: usize,
}

impl<'a> Model for ColumnsLeft<'a> {
    ghost use Rattle.std.specs.Prelude.{List, map, take};
    ghost use Rattle.bits_model.specs.declared.output.Entry.{Entry};
    ghost use Rattle.basic_solve.specs.Columns.{columns, turned, AreLeft};

    ghost Value = { List (List Entry) };

    ghost view = { λ a. columns a.nodes (take a.end (map turned a.pairs.now)) };

    ghost invariant = { λ a. AreLeft a.nodes a.end (map turned a.pairs.now) };
}

/// Writes the column of the last node that is left, whose entries stand before an end, and says
/// where they start.
fn write_column(
    into: &mut Vec<Entry>,
    pairs: &Pairs,
    node: usize,
    end: usize,
) -> Result<usize, NoMemory>
    requires { AreLeft (node + 1) end (map turned pairs.now) }
    ensures column { IfOk result (λ _.
        into.new.items ≡ column node (take end (map turned pairs.now))) }
    ensures left { IfOk result (λ start. AreLeft node start (map turned pairs.now)) }
    ensures others { IfOk result (λ start. (v : ℕ) → v < node
        → column v (take start (map turned pairs.now))
        ≡ column v (take end (map turned pairs.now))) }
{
    into.clear();
    let mut start = end;
    while start > 0 {
        let pair = pairs.at(start - 1);
        if pair.first as usize != node {
            return Ok(start);
        }
        into.push(turned(pair))?;
        start -= 1;
    }
    Ok(start)
}

impl<'a> ColumnsLeft<'a> {
    /// Takes the column of the last node out.
    pub(crate) fn take_last(&mut self, into: &mut Vec<Entry>) -> Result<(), NoMemory>
        requires { 0 < length self.old }
        ensures { OnOk result (self.old ≡ self.new ++ into.new.items ∷ []) }
    {
        let node = self.nodes - 1;
        self.end = write_column(into, self.pairs, node, self.end)?;
        self.nodes = node;
        Ok(())
    }
}
