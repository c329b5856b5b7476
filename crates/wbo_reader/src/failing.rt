//! Which constraints fail under an assignment, and the list of bits that stands for it in a
//! rewritten problem.
ghost use Rattle.std.specs.Prelude.{◌≡◌, ◌<◌, ◌^◌, IfOk};
ghost use Rattle.std.specs.List.{list_any};
ghost use Rattle.base.specs.Costs.{IsOf};
ghost use Rattle.problem_form.specs.Problems.{constraint_total, fails};
ghost use Rattle.wbo_reader.specs.Wbo.{form_of};
ghost use Rattle.wbo_reader.specs.Rewriting.{extended};

use crate::wbo::Wbo;
use base::NoMemory;
use problem_form::{ConstraintRef, sum_of_products};
use std::alloc::Global;

/// Whether a constraint fails.
pub(crate) fn fails(constraint: ConstraintRef<'_>, x: &[bool]) -> bool
    requires { constraint_total constraint < 2 ^ 100 }
    ensures { result ≡ fails x.now constraint.entry }
{
    let ConstraintRef {
        products,
        bound,
        exact,
    } = constraint;
    let sum = sum_of_products(products, x);
    if exact { sum != bound } else { sum < bound }
}

impl Wbo {
    /// The assignment of the rewritten problem that stands for one of the source: it begins with
    /// it, and has a bit for each soft constraint, which is 1 where the constraint fails.
    pub fn extend(&self, alloc: Global, x: &[bool]) -> Result<Vec<bool>, NoMemory>
        requires { IsOf (form_of self.now) x.now }
        ensures { IfOk result (λ y. y.items ≡ extended self.now x.now) }
    {
        let mut y = x.to_vec(alloc)?;
        for i in 0..self.soft.len() {
            let soft = self.soft.at(i);
            let bit = fails(soft.constraint, x);
            y.push(bit)?;
        }
        Ok(y)
    }
}
