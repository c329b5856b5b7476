//! Additions that are gathered, and become a quadratic form at once.
ghost use Rattle.std.specs.Prelude.{◌≡◌, ◌+◌, ◌*◌, ◌≤◌, ◌<◌, ◌^◌, ◌++◌, [], All, IfOk, OnOk, OnErr, ◌+ℤ◌, length, unsigned_abs};
ghost use Rattle.base.specs.Sums.{total_by};
ghost use Rattle.bits_model.specs.Output.{weight_total};
ghost use Rattle.term_table.specs.Terms.{IsTermSet, terms_total};
ghost use Rattle.term_table.specs.Tables.{TableContent, AreAdditions, with_appended};
ghost use Rattle.pair_sums.specs.Pairs.{IsPair};
ghost use Rattle.quadratization.specs.Apart.{long_terms, table_of};
ghost use Rattle.quadratization.specs.Long.{node_count};
ghost use Rattle.quad_form.specs.Sums.{widened, size_of};
ghost use Rattle.quadratization.specs.Parts.{image, short_part};
ghost use Rattle.quadratization.specs.Held.{AreHeld, Gains, HasPlaces, nodes_with};
ghost use Rattle.quadratization.specs.Gathered.{AreSumsOf, couplers_of_long};
ghost use Rattle.quadratization.specs.Places.{all_shares, long_constant};
ghost use Rattle.quadratization.specs.Rows.{AreRows};
ghost use Rattle.quadratization.specs.NewNodes.{AreOfTerms};
ghost use Rattle.quadratization.specs.Stated.{IsWithin};

use crate::long_table::LongTable;
use crate::new_nodes::{DirectForm, NewNodes};
use crate::rows::couplers_of;
use crate::shares::with_long;
use base::NoMemory;
use bits_model::CouplerList;
use literal_lists::Literal;
use pair_sums::GatheredPairs;
use problem_form::ProductList;
use quad_form::{NumberList, Quad, QuadSums};
use std::alloc::Global;
use std::marker::Model;
use term_table::Gather;

/// What a quadratic form is made of: its constant, the weights of its nodes, and its couplers.
#[derive(Drop)]
struct Sums {
    constant: i128,
    weights: Vec<i128>,
    couplers: CouplerList,
}

/// Sets with coefficients, of which a quadratic form is to be made. Those of at most two literals
/// go at once to the constant, the weights of nodes and the pairs, and longer ones are kept.
pub struct DirectTerms {
    sums: QuadSums,
    long: ProductList,
}

impl Drop for DirectTerms {
    fn drop(self) {
        let DirectTerms {
            sums: _sums,
            long: _long,
        } = self;
    }
}

impl Model for DirectTerms {
    ghost use Rattle.quadratization.specs.Held.{HeldContent, IsHeld, held_of};

    ghost Value = { HeldContent };

    ghost view = { λ a. held_of a.sums a.long };

    ghost invariant = { λ a. IsHeld (held_of a.sums a.long) };
}

/// The sums of a constant, the weights of nodes and pairs, with what long terms give. The pairs and
/// the weights are let go as soon as they are used.
fn sums_with(
    alloc: Global,
    constant: i128,
    weights: Vec<i128>,
    pairs: GatheredPairs,
    long: &LongTable,
) -> Result<Sums, NoMemory>
    requires width { length weights.items ≡ long.now.width }
    requires pairs { All (IsPair long.now.width) pairs }
    requires constant { unsigned_abs constant + unsigned_abs (total_by long_constant long.now.terms)
        ≤ 2 ^ 126 }
    requires weights { size_of weights.items + terms_total long.now.terms * 2 ^ 24 ≤ 2 ^ 126 }
    requires couplers { weight_total pairs + terms_total long.now.terms * 2 ^ 24 ≤ 2 ^ 126 }
    ensures constant { IfOk result (λ sums.
        sums.constant ≡ constant +ℤ total_by long_constant long.now.terms) }
    ensures weights { IfOk result (λ sums. Gains (all_shares long.now.terms long.now.width)
        (widened (node_count long.now) weights.items) sums.weights.items) }
    ensures couplers { IfOk result (λ sums. AreRows (node_count long.now) long.now.width
        (pairs ++ couplers_of_long long.now.terms long.now.width) sums.couplers) }
{
    let couplers = couplers_of(alloc, pairs, long)?;
    let (weights, more) = with_long(weights, long)?;
    Ok(Sums {
        constant: constant + more,
        weights,
        couplers,
    })
}

impl DirectTerms {
    /// No additions yet.
    pub fn new(alloc: Global, width: usize) -> Result<DirectTerms, NoMemory>
        requires narrow { width < 2 ^ 32 }
        ensures empty { IfOk result (AreHeld (record { width = width; terms = [] })) }
        ensures width { IfOk result (λ terms. length terms.weights ≡ width) }
        ensures total { IfOk result (λ terms. terms.total ≡ 0) }
        ensures pairs { IfOk result (λ terms. length terms.pairs ≡ 0) }
    {
        Ok(DirectTerms {
            sums: QuadSums::new(alloc, width)?,
            long: ProductList::empty(alloc),
        })
    }

    /// Adds to the coefficient of a longer set.
    fn add_long(&mut self, literals: &[Literal], coefficient: i128) -> Result<(), NoMemory>
        requires set { IsTermSet (length self.old.weights) literals.now }
        requires long { 2 < length literals.now }
        requires small { self.old.total + unsigned_abs coefficient ≤ 2 ^ 97 }
        ensures added { (t : TableContent) → AreHeld t self.old
            → OnOk result (AreHeld (with_appended t literals.now coefficient) self.new) }
        ensures width { OnOk result (length self.new.weights ≡ length self.old.weights) }
        ensures total { OnOk result (self.new.total ≡ self.old.total + unsigned_abs coefficient) }
        ensures pairs { OnOk result (self.new.pairs ≡ self.old.pairs) }
        ensures unchanged { OnErr result (self.new ≡ self.old) }
    {
        self.long.push(literals, coefficient)
    }

    /// Adds to the coefficient of a set.
    #[inline(always)]
    pub fn add(&mut self, literals: &[Literal], coefficient: i128) -> Result<(), NoMemory>
        requires set { IsTermSet (length self.old.weights) literals.now }
        requires small { self.old.total + unsigned_abs coefficient ≤ 2 ^ 97 }
        ensures added { (t : TableContent) → AreHeld t self.old
            → OnOk result (AreHeld (with_appended t literals.now coefficient) self.new) }
        ensures width { OnOk result (length self.new.weights ≡ length self.old.weights) }
        ensures total { OnOk result (self.new.total ≡ self.old.total + unsigned_abs coefficient) }
        ensures pairs { OnOk result (4 * length self.new.pairs
            ≤ 4 * length self.old.pairs + length literals.now ^ 2) }
        ensures unchanged { OnErr result (self.new ≡ self.old) }
    {
        if literals.len() <= 2 {
            self.sums.add(literals, coefficient)
        } else {
            self.add_long(literals, coefficient)
        }
    }

    /// How many nodes there are.
    pub fn width(&self) -> usize
        ensures { result ≡ length self.now.weights }
    {
        self.sums.width()
    }

    /// The additions of at most two literals, and the longer ones by themselves.
    pub fn apart(self, alloc: Global) -> (DirectTerms, ProductList)
        ensures short { (t : TableContent) → AreHeld t self → AreHeld (short_part t) result.0 }
        ensures long { result.1 ≡ self.long }
        ensures width { length result.0.weights ≡ length self.weights }
        ensures pairs { result.0.pairs ≡ self.pairs }
    {
        let DirectTerms { sums, long } = self;
        let short = DirectTerms {
            sums,
            long: ProductList::empty(alloc),
        };
        (short, long)
    }

    /// The same additions, over more nodes.
    pub fn widened(self, alloc: Global, nodes: usize) -> Result<DirectTerms, NoMemory>
        requires wider { length self.weights ≤ nodes }
        requires narrow { nodes < 2 ^ 32 }
        ensures held { (t : TableContent) → AreAdditions t → AreHeld t self
            → IfOk result (AreHeld (record t { width = nodes })) }
        ensures width { IfOk result (λ terms. length terms.weights ≡ nodes) }
        ensures total { IfOk result (λ terms. terms.total ≡ self.total) }
        ensures pairs { IfOk result (λ terms. terms.pairs ≡ self.pairs) }
    {
        let DirectTerms { sums, long } = self;
        Ok(DirectTerms {
            sums: sums.widened(alloc, nodes)?,
            long,
        })
    }

    /// The sums of what all additions give, and the long terms, for which they have new nodes. Each
    /// list is let go as soon as it is used.
    fn into_sums(self, alloc: Global) -> Result<(Sums, LongTable), NoMemory>
        requires narrow { nodes_with (length self.weights) self.long < 2 ^ 32 }
        ensures sums { (t : TableContent) → AreAdditions t → AreHeld t self
            → IfOk result (λ made.
            AreSumsOf t made.0.constant made.0.weights.items made.0.couplers) }
        ensures long { (t : TableContent) → AreHeld t self
            → IfOk result (λ made. made.1.terms ≡ long_terms t.terms) }
    {
        let table = LongTable::of(alloc, self.sums.width(), &self.long)?;
        let DirectTerms { sums, long } = self;
        drop(long);
        let (constant, weights, pairs) = sums.into_parts();
        let sums = sums_with(alloc, constant, weights, pairs, &table)?;
        Ok((sums, table))
    }

    /// The quadratic form of all additions: each set summed, longer ones replaced, and all
    /// multiplied out.
    pub fn into_form(self, alloc: Global) -> Result<DirectForm, NoMemory>
        requires held { (t : TableContent) × IsWithin t × AreHeld t self }
        ensures quad { (t : TableContent) → IsWithin t → AreHeld t self
            → IfOk result (λ form. form.quad ≡ image t) }
        ensures new_nodes { (t : TableContent) → AreHeld t self
            → IfOk result (λ form. AreOfTerms (table_of t) form.new_nodes) }
    {
        let (sums, long) = self.into_sums(alloc)?;
        let Sums {
            constant,
            weights,
            couplers,
        } = sums;
        Ok(DirectForm {
            quad: Quad {
                constant,
                diagonal: NumberList::new(weights),
                couplers,
            },
            new_nodes: NewNodes::Terms(long),
        })
    }
}

impl Gather for DirectTerms {
    ghost takes = { λ terms ts. HasPlaces terms ts };

    ghost holds = { λ terms t. AreHeld t terms };

    #[inline(always)]
    fn gather(&mut self, literals: &[Literal], coefficient: i128) -> Result<(), NoMemory> {
        self.add(literals, coefficient)
    }
}
