//! Graphs that are given by lists of their parts.
ghost use Rattle.std.specs.Prelude.{◌≡◌, All, IfOk, IfErr};
ghost use Rattle.whole_text.specs.Steps.{Fails, Gives};
ghost use Rattle.part_lists.specs.Pairs.{AreRising};
ghost use Rattle.listed_graph.specs.Complete.{listed_parts, IsPart};
ghost use Rattle.listed_graph.specs.Rows.{place_from, IsIndexed};

use crate::complete::Complete;
use crate::index::{joins_of, named_of};
use base::NoMemory;
use part_lists::{Part, read_parts};
use radix_sort::sorted_keys;
use std::alloc::Global;
use whole_text::TextAnswer;

/// The graph of a list: each qubit that a part of it names, joined to each with which it has a
/// coupler there.
///
/// `named` says which numbers are named, and ends with the greatest. `joins` has the numbers of
/// all joins, from both ends, ascending.
#[derive(Drop)]
pub struct Listed {
    pub(crate) parts: Vec<Part>,
    pub(crate) named: Vec<bool>,
    pub(crate) joins: Vec<u64>,
    ghost indexed: { IsIndexed parts.items named.items joins.items },
}

/// Where the numbers from `from` on begin.
pub(crate) fn first_from(numbers: &[u64], from: u64) -> usize
    requires { AreRising numbers.now }
    ensures { result ≡ place_from numbers.now from }
{
    numbers.partition_point(|number| *number < from)
}

impl Listed {
    /// The graph of these parts.
    pub(crate) fn of(alloc: Global, parts: Vec<Part>) -> Result<Listed, NoMemory>
        requires { All IsPart parts.items }
        ensures { IfOk result (λ graph. graph.parts.items ≡ parts.items) }
    {
        let named = named_of(alloc, &parts)?;
        let numbers = joins_of(alloc, &parts)?;
        let joins = sorted_keys(alloc, numbers, 0, 0)?;
        Ok(Listed {
            parts,
            named,
            joins,
        })
    }
}

/// The graph that a text lists, or the first fault of the text.
pub fn read_graph(alloc: Global, text: &[u8]) -> Result<Listed, TextAnswer>
    ensures fault { IfErr result (λ e. Fails e (listed_parts text.now)) }
    ensures exact { Gives (λ graph. graph.parts.items) result (listed_parts text.now) }
{
    let parts = read_parts(alloc, text, &Complete)?;
    Ok(Listed::of(alloc, parts)?)
}
