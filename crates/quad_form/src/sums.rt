//! Sums of terms of at most two literals, of which a quadratic form is made.
//!
//! Each complement is replaced by 1 less its variable, and what that gives goes to its place at
//! once: to the constant, to the weights of nodes, or among the pairs, of which one may come several
//! times. In the end these are sorted, so that each pair has one coupler, and a pair whose sum is 0
//! has none.
ghost use Rattle.std.specs.Prelude.{◌≡◌, ◌+◌, ◌*◌, ◌≤◌, ◌<◌, ◌^◌, [], IfOk, OnOk, OnErr, length, unsigned_abs};
ghost use Rattle.term_table.specs.Terms.{IsTermSet, with_additions};
ghost use Rattle.term_table.specs.Tables.{TableContent, with_appended};
ghost use Rattle.quad_form.specs.Flat.{image};
ghost use Rattle.quad_form.specs.Sums.{AreSummed, HasRoom, IsSums};

use crate::quad::{NumberList, Quad};
use crate::short::{add_short_shares, constant_of, push_short};
use crate::weights::widened;
use base::NoMemory;
use literal_lists::Literal;
use pair_sums::GatheredPairs;
use std::alloc::Global;
use std::marker::Model;
use term_table::Gather;

/// The constant, the weights of nodes and the pairs that terms of at most two literals give.
pub struct QuadSums {
    total: u128,
    constant: i128,
    weights: Vec<i128>,
    pairs: GatheredPairs,
}

impl Drop for QuadSums {
    fn drop(self) {
        let QuadSums {
            total: _total,
            constant: _constant,
            weights: _weights,
            pairs: _pairs,
        } = self;
    }
}

impl Model for QuadSums {
    ghost use Rattle.quad_form.specs.Sums.{SumsContent, IsSums};

    ghost Value = { SumsContent };

    ghost view = { λ a. record {
      total = a.total;
      constant = a.constant;
      weights = a.weights.items;
      pairs = a.pairs;
    } };

    ghost invariant = { λ a. IsSums (record {
      total = a.total;
      constant = a.constant;
      weights = a.weights.items;
      pairs = a.pairs;
    }) };
}

impl QuadSums {
    /// No additions yet.
    pub fn new(alloc: Global, width: usize) -> Result<QuadSums, NoMemory>
        requires narrow { width < 2 ^ 32 }
        ensures empty { IfOk result (AreSummed (record { width = width; terms = [] })) }
        ensures width { IfOk result (λ sums. length sums.weights ≡ width) }
        ensures total { IfOk result (λ sums. sums.total ≡ 0) }
        ensures pairs { IfOk result (λ sums. length sums.pairs ≡ 0) }
    {
        Ok(QuadSums {
            total: 0,
            constant: 0,
            weights: vec![in alloc; 0; width]?,
            pairs: GatheredPairs::empty(alloc, width),
        })
    }

    /// Adds to the coefficient of a set of at most two literals.
    #[inline(always)]
    pub fn add(&mut self, literals: &[Literal], coefficient: i128) -> Result<(), NoMemory>
        requires set { IsTermSet (length self.old.weights) literals.now }
        requires short { length literals.now ≤ 2 }
        requires small { self.old.total + unsigned_abs coefficient ≤ 2 ^ 122 }
        ensures added { (t : TableContent) → AreSummed t self.old
            → OnOk result (AreSummed (with_appended t literals.now coefficient) self.new) }
        ensures width { OnOk result (length self.new.weights ≡ length self.old.weights) }
        ensures total { OnOk result (self.new.total ≡ self.old.total + unsigned_abs coefficient) }
        ensures pairs { OnOk result (4 * length self.new.pairs
            ≤ 4 * length self.old.pairs + length literals.now ^ 2) }
        ensures unchanged { OnErr result (self.new ≡ self.old) }
    {
        push_short(&mut self.pairs, literals, coefficient)?;
        add_short_shares(&mut self.weights, literals, coefficient);
        self.constant += constant_of(literals, coefficient);
        self.total += coefficient.unsigned_abs();
        Ok(())
    }

    /// How many nodes there are.
    pub fn width(&self) -> usize
        ensures { result ≡ length self.now.weights }
    {
        self.weights.len()
    }

    /// The same additions, over more nodes.
    pub fn widened(self, alloc: Global, nodes: usize) -> Result<QuadSums, NoMemory>
        requires wider { length self.weights ≤ nodes }
        requires narrow { nodes < 2 ^ 32 }
        ensures held { (t : TableContent) → AreSummed t self
            → IfOk result (AreSummed (record t { width = nodes })) }
        ensures width { IfOk result (λ sums. length sums.weights ≡ nodes) }
        ensures total { IfOk result (λ sums. sums.total ≡ self.total) }
        ensures pairs { IfOk result (λ sums. sums.pairs ≡ self.pairs) }
    {
        let QuadSums {
            total,
            constant,
            weights,
            pairs,
        } = self;
        Ok(QuadSums {
            total,
            constant,
            weights: widened(weights, nodes)?,
            pairs: pairs.widened(alloc, nodes),
        })
    }

    /// The constant, the weights of nodes and the pairs, whose numbers fit their fields.
    pub fn into_parts(self) -> (i128, Vec<i128>, GatheredPairs)
        ensures constant { result.0 ≡ self.constant }
        ensures weights { result.1.items ≡ self.weights }
        ensures pairs { result.2 ≡ self.pairs }
        ensures fits { IsSums self }
    {
        let QuadSums {
            total: _total,
            constant,
            weights,
            pairs,
        } = self;
        (constant, weights, pairs)
    }

    /// The quadratic form of the additions: that of the table in which they are summed.
    pub fn into_quad(self) -> Result<Quad, NoMemory>
        ensures { (t : TableContent) → AreSummed t self → IfOk result (λ quad.
            quad ≡ image (record t { terms = with_additions [] t.terms })) }
    {
        let (constant, weights, pairs) = self.into_parts();
        let couplers = pairs.summed()?;
        Ok(Quad {
            constant,
            diagonal: NumberList::new(weights),
            couplers,
        })
    }
}

impl Gather for QuadSums {
    ghost takes = { λ sums ts. HasRoom sums ts };

    ghost holds = { λ sums t. AreSummed t sums };

    #[inline(always)]
    fn gather(&mut self, literals: &[Literal], coefficient: i128) -> Result<(), NoMemory> {
        self.add(literals, coefficient)
    }
}
