//! What is squared for a constraint: its products, its bound and its slack bits.
ghost use Rattle.std.specs.Prelude.{◌≡◌, ◌+◌, ◌<◌, ◌^◌, ◌++◌, ◌∷◌, [], map, length, neg_ℤ, pos, slice_get, Some, OnOk};
ghost use Rattle.problem_form.specs.Problems.{constraint_total};
ghost use Rattle.penalty_layer.specs.Slack.{doubled, slack_weights};
ghost use Rattle.penalty_layer.specs.Squares.{node, product_term, slack_form, slack_terms};

use crate::slack::{last_weight, slack_bits_of};
use base::NoMemory;
use literal_lists::{Literal, WideLists};
use problem_form::{ConstraintRef, ProductRef, Products, binary_digits_of, slack_range_of};
use std::alloc::Global;
use std::marker::Model;

/// Terms that lie flat, which contracts see as a list. Their memory is used again.
#[derive(Drop)]
pub(crate) struct Parts {
    sets: WideLists,
    coefficients: Vec<i128>,
}

impl Model for Parts {
    ghost use Rattle.std.specs.Prelude.{◌≡◌, List, length};
    ghost use Rattle.problem_form.specs.WeighedLists.{zip_with};
    ghost use Rattle.term_table.specs.Terms.{Term};
    ghost use Rattle.penalty_layer.specs.Gathered.{term_of};

    ghost Value = { List Term };

    ghost view = { λ a. zip_with term_of a.sets a.coefficients.items };

    ghost invariant = { λ a. length a.sets ≡ length a.coefficients.items };
}

impl Parts {
    /// No parts. It takes no memory.
    pub(crate) fn empty(alloc: Global) -> Parts
        ensures { result ≡ [] }
    {
        Parts {
            sets: WideLists::empty(alloc),
            coefficients: Vec::new(alloc),
        }
    }

    pub(crate) fn len(&self) -> usize
        ensures { result ≡ length self.now }
    {
        self.coefficients.len()
    }

    /// The literals and the coefficient of the part at a place.
    #[inline]
    pub(crate) fn at(&self, i: usize) -> (&[Literal], i128)
        requires { i < length self.now }
        ensures { slice_get self.now i ≡ Some (result.0.now, result.1) }
    {
        (self.sets.list(i), self.coefficients[i])
    }

    /// Takes all parts out.
    fn clear(&mut self)
        ensures { self.new ≡ [] }
    {
        self.sets.clear();
        self.coefficients.clear();
    }

    /// Appends a part. Where memory is refused the list stays as it was.
    fn push(&mut self, literals: &[Literal], coefficient: i128) -> Result<(), NoMemory>
        ensures { OnOk result (self.new ≡ self.old ++ (literals.now, coefficient) ∷ []) }
    {
        let count = self.coefficients.len();
        self.coefficients.push(coefficient)?;
        if self.sets.push(literals).is_err() {
            self.coefficients.truncate(count);
            return Err(NoMemory);
        }
        Ok(())
    }

    /// Appends products.
    fn push_products(
        &mut self,
        set: &mut Vec<Literal>,
        products: Products<'_>,
    ) -> Result<(), NoMemory>
        ensures { OnOk result (self.new ≡ self.old ++ map product_term products.entry) }
    {
        for product in products {
            let ProductRef {
                literals,
                coefficient,
            } = product;
            literals.copy_into(set)?;
            self.push(set, coefficient)?;
        }
        Ok(())
    }

    /// Appends a slack bit, taken off with its weight.
    fn push_slack_bit(&mut self, number: usize, weight: u128) -> Result<(), NoMemory>
        requires { weight < 2 ^ 127 }
        ensures { OnOk result
            (self.new ≡ self.old ++ (node number ∷ [], neg_ℤ (pos weight)) ∷ []) }
    {
        let bit = Literal {
            variable: number as u64,
            negated: false,
        };
        self.push(&[bit], -(weight as i128))
    }

    /// Appends slack bits of the weights 1, 2, 4, .., so many of them, and one of a last weight.
    fn push_doubled(&mut self, first: usize, count: u32, last: u128) -> Result<(), NoMemory>
        requires count { count < 127 }
        requires last { last < 2 ^ 127 }
        requires first { first + 127 < 2 ^ 64 }
        ensures { OnOk result (self.new ≡ self.old ++ slack_terms first (doubled 1 count last)) }
    {
        let mut weight: u128 = 1;
        let mut number = first;
        for _ in 0..count {
            self.push_slack_bit(number, weight)?;
            weight *= 2;
            number += 1;
        }
        self.push_slack_bit(number, last)
    }

    /// Appends the slack bits of a range, numbered on from a first node.
    fn push_slack(&mut self, first: usize, range: u128) -> Result<(), NoMemory>
        requires range { range < 2 ^ 100 }
        requires first { first + 127 < 2 ^ 64 }
        ensures { OnOk result (self.new ≡ self.old ++ slack_terms first (slack_weights range)) }
    {
        let digits = binary_digits_of(range);
        if digits == 0 {
            return Ok(());
        }
        let count = digits - 1;
        self.push_doubled(first, count, last_weight(range, count))
    }

    /// Makes the parts those of a constraint, whose slack bits are numbered on from a first node.
    pub(crate) fn fill(
        &mut self,
        set: &mut Vec<Literal>,
        first: usize,
        constraint: &ConstraintRef<'_>,
    ) -> Result<(), NoMemory>
        requires first { first + 127 < 2 ^ 64 }
        requires small { constraint_total constraint.now < 2 ^ 100 }
        ensures { OnOk result (self.new ≡ slack_form first constraint.now) }
    {
        self.clear();
        self.push_products(set, constraint.products.again())?;
        self.push(&[], -constraint.bound)?;
        self.push_slack(first, slack_range_of(constraint))
    }
}
