//! A problem in normal form.
ghost use Rattle.std.specs.Prelude.{◌≡◌, ◌+◌, ◌<◌, ◌≤◌, ◌^◌, ◌∷◌, All, IfSome, None, OnOk, OnErr, length, unsigned_abs, unwrap_or, []};
ghost use Rattle.problem_form.specs.NormalForm.{blank, with_variables, with_most, with_penalties, with_marked, with_clause, with_constraint, with_product};
ghost use Rattle.problem_form.specs.Problems.{constraint_total, problem_total};

use crate::clause_list::ClauseList;
use crate::clauses::{keep_clause, keep_literal, keep_pair, weight_constant};
use crate::constraint_list::ConstraintList;
use crate::penalties::PartPenalties;
use crate::product_list::ProductList;
use crate::products::{coefficient_constant, keep_product, keep_weighed, keep_weighed_pair};
use crate::terms::Constraint;
use base::NoMemory;
use literal_lists::Literal;
use std::alloc::Global;
use std::marker::Model;

/// A problem in normal form: its cost is the constant, the products that are true and the soft
/// clauses that are violated, and it is infinite where a hard clause or a constraint fails, and above
/// the most that an assignment may cost, where there is one. Its hard parts may have penalties of their
/// own, which change no cost.
pub struct Problem {
    pub variables: u64,
    pub constant: i128,
    pub objective: ProductList,
    pub clauses: ClauseList,
    pub constraints: ConstraintList,
    pub most: Option<i128>,
    pub penalties: PartPenalties,
}

// an owner's end lets it go by one call
impl Drop for Problem {
    fn drop(self) {
        let Problem {
            variables: _variables,
            constant: _constant,
            objective: _objective,
            clauses: _clauses,
            constraints: _constraints,
            most: _most,
            penalties: _penalties,
        } = self;
    }
}

impl Model for Problem {
    ghost use Rattle.problem_form.specs.Problems.{ProblemContent};

    ghost Value = { ProblemContent };

    ghost use Rattle.problem_form.specs.Fields.{content_within, IsSound};

    ghost view = { content_within };

    ghost invariant = { λ p. IsSound (content_within p) };
}

impl Problem {
    /// The problem of no variables that says nothing. It takes no memory.
    pub fn new(alloc: Global) -> Problem
        ensures { result ≡ blank }
    {
        Problem {
            variables: 0,
            constant: 0,
            objective: ProductList::empty(alloc),
            clauses: ClauseList::empty(alloc),
            constraints: ConstraintList::empty(alloc),
            most: None,
            penalties: PartPenalties::none(alloc),
        }
    }

    /// Gives the problem so many variables, which are no fewer than before.
    pub fn widen(&mut self, variables: u64)
        requires { self.old.variables ≤ variables }
        ensures { self.new ≡ with_variables self.old variables }
    {
        self.variables = variables;
    }

    /// Gives the problem the most that an assignment may cost: one that costs more is infeasible.
    pub fn cut_off(&mut self, most: Option<i128>)
        requires { IfSome most (λ n. unsigned_abs n < 2 ^ 64) }
        ensures { self.new ≡ with_most self.old most }
    {
        self.most = most;
    }

    /// Gives hard parts penalties of their own, in the place of those that they had.
    pub fn set_penalties(&mut self, penalties: PartPenalties)
        ensures { self.new ≡ with_penalties self.old penalties }
    {
        self.penalties = penalties;
    }

    /// Adds the product of literals as written to the objective, in normal form. The literals are
    /// put in order in their own list, which is left empty. Where memory is refused the problem
    /// stays as it was.
    pub fn add_term(
        &mut self,
        literals: &mut Vec<Literal>,
        coefficient: i128,
    ) -> Result<(), NoMemory>
        requires within { All (λ l. l.variable < self.old.variables) literals.old.items }
        requires small { problem_total self.old + unsigned_abs coefficient < 2 ^ 100 }
        ensures added { OnOk result (self.new ≡ with_product self.old
            (record { literals = literals.old.items; coefficient = coefficient })) }
        ensures unchanged { OnErr result (self.new ≡ self.old) }
        ensures emptied { literals.new.items ≡ [] }
    {
        let constant = coefficient_constant(literals.len(), coefficient);
        let kept = keep_product(&mut self.objective, literals, coefficient);
        literals.clear();
        kept?;
        self.constant += constant;
        Ok(())
    }

    /// Adds a number to the objective: a product without literals. It takes no memory.
    #[inline(always)]
    pub fn add_number(&mut self, coefficient: i128)
        requires { problem_total self.old + unsigned_abs coefficient < 2 ^ 100 }
        ensures { self.new ≡ with_product self.old
            (record { literals = []; coefficient = coefficient }) }
    {
        self.constant += coefficient;
    }

    /// Adds a number times a literal to the objective, in normal form. Where memory is refused the
    /// problem stays as it was.
    #[inline(always)]
    pub fn add_weighed(&mut self, literal: Literal, coefficient: i128) -> Result<(), NoMemory>
        requires within { literal.variable < self.old.variables }
        requires small { problem_total self.old + unsigned_abs coefficient < 2 ^ 100 }
        ensures added { OnOk result (self.new ≡ with_product self.old
            (record { literals = literal ∷ []; coefficient = coefficient })) }
        ensures unchanged { OnErr result (self.new ≡ self.old) }
    {
        keep_weighed(&mut self.objective, literal, coefficient)
    }

    /// Adds a number times two literals to the objective, in normal form. Where memory is refused the
    /// problem stays as it was.
    #[inline(always)]
    pub fn add_weighed_pair(
        &mut self,
        first: Literal,
        second: Literal,
        coefficient: i128,
    ) -> Result<(), NoMemory>
        requires first { first.variable < self.old.variables }
        requires second { second.variable < self.old.variables }
        requires small { problem_total self.old + unsigned_abs coefficient < 2 ^ 100 }
        ensures added { OnOk result (self.new ≡ with_product self.old
            (record { literals = first ∷ second ∷ []; coefficient = coefficient })) }
        ensures unchanged { OnErr result (self.new ≡ self.old) }
    {
        keep_weighed_pair(&mut self.objective, first, second, coefficient)
    }

    /// Adds the clause of literals as written, in normal form. The literals are put in order in
    /// their own list, which is left empty. Where memory is refused the problem stays as it was.
    #[inline(always)]
    pub fn add_literals(
        &mut self,
        literals: &mut Vec<Literal>,
        weight: Option<u64>,
    ) -> Result<(), NoMemory>
        requires within { All (λ l. l.variable < self.old.variables) literals.old.items }
        requires small { problem_total self.old + unwrap_or weight 0 < 2 ^ 100 }
        ensures added { OnOk result (self.new ≡ with_clause self.old
            (record { literals = literals.old.items; weight = weight })) }
        ensures unchanged { OnErr result (self.new ≡ self.old) }
        ensures emptied { literals.new.items ≡ [] }
    {
        let constant = weight_constant(weight, literals);
        let kept = keep_clause(&mut self.clauses, literals, weight);
        literals.clear();
        kept?;
        self.constant += i128::from(constant);
        Ok(())
    }

    /// Adds the hard clause of one literal. Where memory is refused the problem stays as it was.
    #[inline(always)]
    pub fn add_literal(&mut self, literal: Literal) -> Result<(), NoMemory>
        requires { literal.variable < self.old.variables }
        ensures added { OnOk result (self.new ≡ with_clause self.old
            (record { literals = literal ∷ []; weight = None })) }
        ensures unchanged { OnErr result (self.new ≡ self.old) }
    {
        keep_literal(&mut self.clauses, literal)
    }

    /// Adds the hard clause of two literals, in normal form. Where memory is refused the problem
    /// stays as it was.
    #[inline(always)]
    pub fn add_pair(&mut self, first: Literal, second: Literal) -> Result<(), NoMemory>
        requires first { first.variable < self.old.variables }
        requires second { second.variable < self.old.variables }
        ensures added { OnOk result (self.new ≡ with_clause self.old
            (record { literals = first ∷ second ∷ []; weight = None })) }
        ensures unchanged { OnErr result (self.new ≡ self.old) }
    {
        keep_pair(&mut self.clauses, first, second)
    }

    /// Adds a constraint as written, in normal form. Its products are copied, so that one list of
    /// products serves for one constraint after another. Where memory is refused the problem stays
    /// as it was.
    #[inline(always)]
    pub fn add_constraint(&mut self, constraint: &Constraint) -> Result<(), NoMemory>
        requires within { All (λ t. All (λ l. l.variable < self.old.variables) t.literals)
            constraint.now.products }
        requires small { problem_total self.old + constraint_total constraint.now < 2 ^ 100 }
        ensures added { OnOk result (self.new ≡ with_constraint self.old constraint.now) }
        ensures unchanged { OnErr result (self.new ≡ self.old) }
    {
        self.constraints.push_normal(constraint)
    }

    /// Leaves the constraints that are marked, in their order. It needs no memory.
    pub fn keep_constraints(&mut self, kept: &[bool])
        requires { length kept.now ≡ length self.old.constraints }
        ensures { self.new ≡ with_marked self.old kept.now }
    {
        self.constraints.keep_marked(kept);
    }
}
