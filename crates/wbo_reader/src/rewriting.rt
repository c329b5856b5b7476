//! The problem that a source of soft constraints is rewritten to.
ghost use Rattle.std.specs.Prelude.{◌≡◌, ◌+◌, ◌<◌, ◌^◌, ◌∷◌, [], false, pos, length, unsigned_abs, IfOk, IfSome, OnOk};
ghost use Rattle.problem_form.specs.Problems.{constraint_total};
ghost use Rattle.problem_form.specs.Fields.{IsSound};
ghost use Rattle.problem_form.specs.NormalForm.{blank};
ghost use Rattle.wbo_reader.specs.Rewriting.{bit_product, eased, eased_row, most_within, rewritten, topped, rewritten_within, rows_of, top_row, untopped, weighed_bits, with_products, with_rows};

use crate::copying::{copy_products, ease, put};
use crate::soft::SoftList;
use crate::wbo::Wbo;
use base::NoMemory;
use problem_form::{Constraint, ConstraintRef, Literal, Problem, ProductList};
use std::alloc::Global;

/// Adds a weight on the bit of a variable to the objective.
fn add_weight(problem: &mut Problem, variable: u64, weight: u64) -> Result<(), NoMemory>
    requires { IsSound (with_products problem.old (bit_product variable (pos weight) ∷ [])) }
    ensures { OnOk result (problem.new
        ≡ with_products problem.old (bit_product variable (pos weight) ∷ [])) }
{
    let bit = Literal {
        variable,
        negated: false,
    };
    problem.add_weighed(bit, i128::from(weight))
}

/// Adds the weight of each soft constraint on its bit to the objective.
fn add_weights(problem: &mut Problem, variables: u64, soft: &SoftList) -> Result<(), NoMemory>
    requires narrow { variables + length soft.now < 2 ^ 64 }
    requires sound { IsSound (with_products problem.old (weighed_bits variables soft.now)) }
    ensures { OnOk result (problem.new
        ≡ with_products problem.old (weighed_bits variables soft.now)) }
{
    for i in 0..soft.len() {
        add_weight(problem, variables + i as u64, soft.at(i).weight)?;
    }
    Ok(())
}

/// Adds a hard constraint as it is.
fn add_hard(
    problem: &mut Problem,
    written: &mut Constraint,
    literals: &mut Vec<Literal>,
    constraint: ConstraintRef<'_>,
) -> Result<(), NoMemory>
    requires { IsSound (with_rows problem.old (constraint ∷ [])) }
    ensures { OnOk result (problem.new ≡ with_rows problem.old (constraint.entry ∷ [])) }
{
    let ConstraintRef {
        products,
        bound,
        exact,
    } = constraint;
    copy_products(&mut written.products, products, literals)?;
    written.bound = bound;
    written.exact = exact;
    put(problem, written)
}

/// Adds a sum that is to be at least its bound where the bit of a variable is 0.
fn add_eased(problem: &mut Problem, written: &mut Constraint, variable: u64) -> Result<(), NoMemory>
    requires small { constraint_total written.old < 2 ^ 100 }
    requires inexact { written.old.exact ≡ false }
    requires sound { IsSound (with_rows problem.old
        (eased variable written.old.products written.old.bound ∷ [])) }
    ensures { OnOk result (problem.new ≡ with_rows problem.old
        (eased variable written.old.products written.old.bound ∷ [])) }
{
    ease(written, variable)?;
    put(problem, written)
}

/// Adds what stands for a soft constraint with the bit of a variable: two constraints for one that
/// is exact.
fn add_soft(
    problem: &mut Problem,
    written: &mut Constraint,
    literals: &mut Vec<Literal>,
    variable: u64,
    constraint: ConstraintRef<'_>,
) -> Result<(), NoMemory>
    requires small { constraint_total constraint < 2 ^ 100 }
    requires sound { IsSound (with_rows problem.old (eased_row variable constraint)) }
    ensures { OnOk result (problem.new
        ≡ with_rows problem.old (eased_row variable constraint.entry)) }
{
    let ConstraintRef {
        products,
        bound,
        exact,
    } = constraint;
    let again = products.again();
    copy_products(&mut written.products, products, literals)?;
    written.bound = bound;
    written.exact = false;
    add_eased(problem, written, variable)?;
    if !exact {
        return Ok(());
    }
    copy_products(&mut written.products, again, literals)?;
    written.products.negate();
    written.bound = -bound;
    written.exact = false;
    add_eased(problem, written, variable)
}

/// Adds the constraint of the top to a problem whose objective has the weights: they are to sum to
/// less. Where they can't be as many, none is needed.
fn add_top(
    problem: &mut Problem,
    written: &mut Constraint,
    literals: &mut Vec<Literal>,
    top: u64,
) -> Result<(), NoMemory>
    requires sound { IsSound (with_rows problem.old (top_row problem.old top)) }
    ensures { OnOk result (problem.new ≡ with_rows problem.old (top_row problem.old top)) }
{
    if problem.own_upper() < i128::from(top) {
        return Ok(());
    }
    copy_products(&mut written.products, problem.objective.iter(), literals)?;
    written.products.negate();
    written.bound = 1 - i128::from(top);
    written.exact = false;
    put(problem, written)
}

/// One less than the top, where the objective has the weights, and they can be as many.
fn most_within(problem: &Problem, top: Option<u64>) -> Option<i128>
    ensures value { result ≡ most_within problem.now top }
    ensures small { IfSome result (λ n. unsigned_abs n < 2 ^ 64) }
{
    let top = i128::from(top?);
    if problem.own_upper() < top {
        return None;
    }
    Some(top - 1)
}

impl Wbo {
    /// Adds what stands for each constraint, in the order of the text.
    fn add_rows(
        &self,
        problem: &mut Problem,
        written: &mut Constraint,
        literals: &mut Vec<Literal>,
    ) -> Result<(), NoMemory>
        requires { IsSound (with_rows problem.old (rows_of self.now)) }
        ensures { OnOk result (problem.new ≡ with_rows problem.old (rows_of self.now)) }
    {
        let mut hard = 0;
        let mut soft = 0;
        for is_soft in self.order.as_slice() {
            if *is_soft {
                let variable = self.variables + soft as u64;
                add_soft(
                    problem,
                    written,
                    literals,
                    variable,
                    self.soft.at(soft).constraint,
                )?;
                soft += 1;
            } else {
                add_hard(problem, written, literals, self.hard.at(hard))?;
                hard += 1;
            }
        }
        Ok(())
    }

    /// Adds the source but for its top to a problem that says nothing: a bit for each soft
    /// constraint, with its weight, then the rows.
    fn fill_rows(
        &self,
        problem: &mut Problem,
        written: &mut Constraint,
        literals: &mut Vec<Literal>,
    ) -> Result<(), NoMemory>
        requires { problem.old ≡ blank }
        ensures { OnOk result (problem.new ≡ untopped self.now) }
    {
        problem.widen(self.variables + self.soft.len() as u64);
        add_weights(problem, self.variables, &self.soft)?;
        self.add_rows(problem, written, literals)
    }

    /// Adds the source to a problem that says nothing: the rows, and then the top as a bound, or as
    /// a constraint that stands last.
    fn fill(
        &self,
        problem: &mut Problem,
        written: &mut Constraint,
        literals: &mut Vec<Literal>,
        within: bool,
    ) -> Result<(), NoMemory>
        requires { problem.old ≡ blank }
        ensures { OnOk result (problem.new ≡ topped within self.now) }
    {
        self.fill_rows(problem, written, literals)?;
        if within {
            let most = most_within(problem, self.top);
            problem.cut_off(most);
            return Ok(());
        }
        match self.top {
            Some(top) => add_top(problem, written, literals, top),
            None => Ok(()),
        }
    }

    /// Adds the source to a problem that says nothing, with lists of its own to write in.
    fn fill_anew(&self, alloc: Global, problem: &mut Problem, within: bool) -> Result<(), NoMemory>
        requires { problem.old ≡ blank }
        ensures { OnOk result (problem.new ≡ topped within self.now) }
    {
        let mut literals = Vec::new(alloc);
        let mut written = Constraint {
            products: ProductList::empty(alloc),
            bound: 0,
            exact: false,
        };
        self.fill(problem, &mut written, &mut literals, within)
    }

    /// The problem with a bit for each soft constraint, whose constraints stand in the order of the
    /// text; that of the top stands last, where there is one and the weights reach it.
    pub fn rewrite(&self, alloc: Global) -> Result<Problem, NoMemory>
        ensures { IfOk result (λ problem. problem ≡ rewritten self.now) }
    {
        let mut problem = Problem::new(alloc);
        self.fill_anew(alloc, &mut problem, false)?;
        Ok(problem)
    }

    /// The same problem, but for the constraint of the top: in its place the most that an assignment
    /// may cost is one less than the top.
    pub fn rewrite_within(&self, alloc: Global) -> Result<Problem, NoMemory>
        ensures { IfOk result (λ problem. problem ≡ rewritten_within self.now) }
    {
        let mut problem = Problem::new(alloc);
        self.fill_anew(alloc, &mut problem, true)?;
        Ok(problem)
    }
}
