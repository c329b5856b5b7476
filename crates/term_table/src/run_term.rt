//! The terms of which runs are made.
ghost use Rattle.std.specs.Prelude.{◌≡◌, ◌+◌, ◌≤◌, ◌^◌, ◌+ℤ◌, unsigned_abs, IfOk};
ghost use Rattle.term_table.specs.Terms.{set_cmp};

use crate::term_literals::TermLiterals;
use base::NoMemory;
use literal_lists::Literal;
use std::alloc::Global;
use std::cmp::Ordering;
use std::marker::Model;

/// A literal set and its coefficient.
#[derive(Drop)]
pub struct RunTerm {
    pub literals: TermLiterals,
    pub coefficient: i128,
}

impl Model for RunTerm {
    ghost use Rattle.term_table.specs.Terms.{Term};

    ghost Value = { Term };

    ghost view = { λ t. (t.literals, t.coefficient) };
}

impl RunTerm {
    /// Takes memory only for more than two literals.
    pub(crate) fn of(
        alloc: Global,
        literals: &[Literal],
        coefficient: i128,
    ) -> Result<RunTerm, NoMemory>
        ensures { IfOk result (λ t. t ≡ (literals.now, coefficient)) }
    {
        let literals = TermLiterals::from_slice(alloc, literals)?;
        Ok(RunTerm {
            literals,
            coefficient,
        })
    }

    /// The same set with a coefficient.
    pub(crate) fn with_weight(&self, alloc: Global, coefficient: i128) -> Result<RunTerm, NoMemory>
        ensures { IfOk result (λ t. t ≡ (self.now.0, coefficient)) }
    {
        RunTerm::of(alloc, self.as_slice(), coefficient)
    }

    /// The coefficient.
    pub(crate) fn weight(&self) -> i128
        ensures { result ≡ self.now.1 }
    {
        self.coefficient
    }

    /// The literals of the set.
    pub(crate) fn as_slice(&self) -> &[Literal]
        ensures { result.now ≡ self.now.0 }
    {
        self.literals.as_slice()
    }

    /// The order of the two sets.
    pub(crate) fn cmp_sets(&self, other: &RunTerm) -> Ordering
        ensures { result ≡ set_cmp self.now.0 other.now.0 }
    {
        self.literals.cmp(&other.literals)
    }

    /// Adds to the coefficient.
    pub(crate) fn raise(&mut self, by: i128)
        requires { unsigned_abs self.old.1 + unsigned_abs by ≤ 2 ^ 126 }
        ensures { self.new ≡ (self.old.0, self.old.1 +ℤ by) }
    {
        self.coefficient += by;
    }
}
