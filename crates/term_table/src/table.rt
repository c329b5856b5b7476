//! A table: literal sets in order, with coefficients that are not 0.
//!
//! What is added lies in runs, each of them in order and at least twice as long as the next. A set
//! may stand in several runs, and its coefficient is the sum over them. A table that was made at
//! once has one run.
ghost use Rattle.std.specs.Prelude.{◌≡◌, ◌+◌, ◌<◌, ◌≤◌, ◌^◌, [], get_or, length, unsigned_abs, OnOk, OnErr};
ghost use Rattle.term_table.specs.Terms.{terms_total, IsTermSet};
ghost use Rattle.term_table.specs.Runs.{with_entry, AreRuns};
ghost use Rattle.term_table.specs.Tables.{with_added, kept_in, IsTable};

use crate::rests::Rests;
use crate::run::Run;
use crate::run_term::RunTerm;
use crate::settling::add_to;
use crate::terms::{Left, Terms};
use base::NoMemory;
use literal_lists::Literal;
use smallvec::SmallVec;
use std::alloc::Global;
use std::marker::Model;

/// Terms over the variables or nodes below `width`.
pub struct Table {
    pub(crate) width: usize,
    pub(crate) alloc: Global,
    pub(crate) runs: SmallVec<Run, 1>,
}

impl Drop for Table {
    fn drop(self) {
        let Table {
            width: _width,
            alloc: _alloc,
            runs: _runs,
        } = self;
    }
}

impl Model for Table {
    ghost use Rattle.term_table.specs.Tables.{KeptTable, kept_in, IsKept};

    ghost Value = { KeptTable };

    ghost view = { λ t. kept_in t.width t.runs.items };

    ghost invariant = { λ t. IsKept t.width t.runs.items };
}

/// How many entries the oldest run has.
fn longest(runs: &[Run]) -> usize
    ensures { result ≡ length (get_or runs.now 0 []) }
{
    match runs {
        [oldest, ..] => oldest.len(),
        [] => 0,
    }
}

impl Table {
    /// Takes no memory.
    pub fn new(alloc: Global, width: usize) -> Table
        ensures { result ≡ kept_in width [] }
    {
        Table {
            width,
            alloc,
            runs: SmallVec::new(alloc),
        }
    }

    /// Adds to the coefficient of a set. A sum of 0 takes the set out. A run of the one entry is
    /// appended, and the runs are settled.
    pub fn add(&mut self, literals: &[Literal], coefficient: i128) -> Result<(), NoMemory>
        requires set { IsTermSet self.old.content.width literals.now }
        requires small { terms_total self.old.content.terms + unsigned_abs coefficient ≤ 2 ^ 124 }
        ensures added { OnOk result
            (self.new.content ≡ with_added self.old.content literals.now coefficient) }
        ensures settled { OnOk result
            (self.new.runs ≡ with_entry self.old.runs literals.now coefficient) }
        ensures unchanged { OnErr result (self.new ≡ self.old) }
    {
        add_to(self.alloc, &mut self.runs, literals, coefficient)
    }

    /// The terms in order. Takes no memory.
    pub fn terms(&self) -> Terms<'_>
        ensures terms { result ≡ self.now.content.terms }
        ensures kept { IsTable self.now.content }
    {
        let runs = self.runs.as_slice();
        let _entries = longest(runs);
        let left = match runs {
            [only] => Left::Listed(only.as_slice().iter()),
            _ => Left::Merged(Rests::of(runs)),
        };
        Terms { left }
    }

    /// The number of runs. Takes no memory.
    pub fn run_count(&self) -> usize
        ensures count { result ≡ length self.now.runs }
        ensures kept { AreRuns self.now.content.width self.now.runs }
    {
        self.runs.len()
    }

    /// A run, of which the oldest has the number 0. Takes no memory.
    pub fn run(&self, at: usize) -> &[RunTerm]
        requires { at < length self.now.runs }
        ensures { result.now ≡ get_or self.now.runs at [] }
    {
        self.runs.as_slice()[at].as_slice()
    }
}
