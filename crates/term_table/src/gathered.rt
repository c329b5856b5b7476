//! Additions that are gathered first, and become a table at once.
//!
//! An addition is appended, and all are sorted and summed in the end, in place of one look-up for
//! each.
ghost use Rattle.std.specs.Prelude.{◌≡◌, ◌+◌, ◌≤◌, ◌^◌, ◌∷◌, ◌++◌, [], unsigned_abs, OnOk, OnErr};
ghost use Rattle.term_table.specs.Terms.{with_additions, terms_total, IsTermSet};
ghost use Rattle.term_table.specs.Runs.{one_run, settled};
ghost use Rattle.term_table.specs.Tables.{with_all, with_appended, kept_at_once};

use crate::run::Run;
use crate::run_term::RunTerm;
use crate::settling::append_run;
use crate::sums::sorted_sums;
use crate::table::Table;
use base::NoMemory;
use literal_lists::Literal;
use smallvec::SmallVec;
use std::alloc::Global;
use std::marker::Model;

/// Appends a term.
fn append(terms: &mut Vec<RunTerm>, term: RunTerm) -> Result<(), NoMemory>
    ensures appended { OnOk result (terms.new.items ≡ terms.old.items ++ term ∷ []) }
    ensures unchanged { OnErr result (terms.new.items ≡ terms.old.items) }
{
    match terms.push(term) {
        Ok(_) => Ok(()),
        Err(_) => Err(NoMemory),
    }
}

/// The runs of terms that are kept at once. Takes no memory.
fn runs_of(alloc: Global, terms: Vec<RunTerm>) -> SmallVec<Run, 1>
    ensures { result.items ≡ one_run terms.items }
{
    if terms.is_empty() {
        return SmallVec::new(alloc);
    }
    SmallVec::from_buf(alloc, [Run { terms }])
}

/// Terms that are to be summed, in the order in which they came.
#[derive(Drop)]
pub struct GatheredTerms {
    width: usize,
    alloc: Global,
    terms: Vec<RunTerm>,
}

impl Model for GatheredTerms {
    ghost use Rattle.term_table.specs.Tables.{TableContent, AreAdditions};

    ghost Value = { TableContent };

    ghost view = { λ a. record { width = a.width; terms = a.terms.items } };

    ghost invariant = { λ a.
        AreAdditions (record { width = a.width; terms = a.terms.items }) };
}

impl GatheredTerms {
    /// Takes no memory.
    pub fn new(alloc: Global, width: usize) -> GatheredTerms
        ensures { result ≡ record { width = width; terms = [] } }
    {
        GatheredTerms {
            width,
            alloc,
            terms: Vec::new(alloc),
        }
    }

    /// Over the variables of a table. Takes no memory.
    pub fn as_wide_as(alloc: Global, table: &Table) -> GatheredTerms
        ensures { result ≡ record { width = table.now.content.width; terms = [] } }
    {
        GatheredTerms::new(alloc, table.width)
    }

    /// Appends an addition to the coefficient of a set.
    pub fn add(&mut self, literals: &[Literal], coefficient: i128) -> Result<(), NoMemory>
        requires set { IsTermSet self.old.width literals.now }
        requires small { terms_total self.old.terms + unsigned_abs coefficient ≤ 2 ^ 124 }
        ensures added { OnOk result (self.new ≡ with_appended self.old literals.now coefficient) }
        ensures unchanged { OnErr result (self.new ≡ self.old) }
    {
        let term = RunTerm::of(self.alloc, literals, coefficient)?;
        append(&mut self.terms, term)
    }

    /// The table of the sums. Takes no memory.
    pub fn into_table(self) -> Table
        ensures { result
            ≡ kept_at_once (record { width = self.width; terms = with_additions [] self.terms }) }
    {
        let GatheredTerms {
            width,
            alloc,
            terms,
        } = self;
        Table {
            width,
            alloc,
            runs: runs_of(alloc, sorted_sums(terms)),
        }
    }
}

impl Table {
    /// Adds all gathered terms: their sums are put after the runs as one more, and all are settled.
    pub(crate) fn add_gathered(&mut self, gathered: GatheredTerms) -> Result<(), NoMemory>
        requires width { gathered.width ≡ self.old.content.width }
        requires small { terms_total self.old.content.terms + terms_total gathered.terms
            ≤ 2 ^ 124 }
        ensures added { OnOk result (self.new.content ≡ with_all self.old.content gathered.terms) }
        ensures settled { OnOk result
            (self.new.runs ≡ settled (self.old.runs ++ with_additions [] gathered.terms ∷ [])) }
        ensures unchanged { OnErr result (self.new ≡ self.old) }
    {
        let GatheredTerms { terms, .. } = gathered;
        let sums = Run {
            terms: sorted_sums(terms),
        };
        append_run(self.alloc, &mut self.runs, sums)
    }
}
