//! The entries of a model by new numbers of its nodes, in columns.
ghost use Rattle.std.specs.Prelude.{◌≡◌, IfOk, map};
ghost use Rattle.basic_solve.specs.Columns.{turned};
ghost use Rattle.elimination_order.specs.Renumbered.{AreNumbers, IsRenumbered, at_place, renumbered};

use crate::numbering::Numbering;
use base::NoMemory;
use basic_solve::{Columns, turned};
use bits_model::{Entry, EntryList, OutputModel};
use pair_sums::Pairs;
use std::alloc::Global;

/// The number of a node, and 0 past the end.
#[inline(always)]
fn number_of(numbers: &[u32], node: u32) -> u32
    ensures { result ≡ at_place numbers.now node }
{
    match numbers.get(node as usize) {
        Some(number) => *number,
        None => 0,
    }
}

/// The entry of the same nodes by their new numbers.
#[inline(always)]
fn renumbered(numbers: &[u32], entry: Entry) -> Entry
    ensures { result ≡ renumbered numbers.now entry }
{
    let first = number_of(numbers, entry.first);
    let second = number_of(numbers, entry.second);
    Entry {
        first: first.min(second),
        second: first.max(second),
        weight: entry.weight,
    }
}

/// Entries by new numbers, turned.
fn pairs_by(alloc: Global, entries: &EntryList, numbers: &[u32]) -> Result<Pairs, NoMemory>
    ensures { IfOk result (λ pairs.
        pairs ≡ map (λ e. turned (renumbered numbers.now e)) entries.now) }
{
    let counts = entries.counts();
    let room = counts.nodes.saturating_add(counts.couplers);
    let mut pairs = Pairs::with_room(alloc, numbers.len(), room)?;
    for entry in entries.iter() {
        pairs.push(turned(renumbered(numbers, entry)))?;
    }
    Ok(pairs)
}

/// The columns of a model by new numbers of its nodes.
pub(crate) fn columns_by(
    alloc: Global,
    model: &OutputModel,
    numbering: &Numbering,
) -> Result<Columns, NoMemory>
    requires { AreNumbers model.now.nodes
        numbering.now.names.items numbering.now.numbers.items }
    ensures { IfOk result (IsRenumbered numbering.now.numbers.items model.now) }
{
    let pairs = pairs_by(alloc, &model.entries, &numbering.numbers)?;
    Columns::new(model.kind, model.nodes, pairs)
}
