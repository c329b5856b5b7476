//! What an assignment costs.
ghost use Rattle.std.specs.Prelude.{◌≡◌, ◌<◌, ◌^◌};
ghost use Rattle.std.specs.List.{list_any, sum_by};
ghost use Rattle.problem_form.specs.Problems.{constraint_total, fails};
ghost use Rattle.wbo_reader.specs.Wbo.{form_of, paid, paid_for, reaches_top, soft_total, wbo_total};
ghost use Rattle.wbo_reader.specs.Rewriting.{wbo_size};

use crate::failing::fails;
use crate::soft::{SoftList, SoftRef};
use crate::wbo::Wbo;
use base::{Cost, Costed};
use problem_form::ConstraintList;

/// Whether one of these constraints fails.
fn one_fails(constraints: &ConstraintList, x: &[bool]) -> bool
    requires { sum_by constraint_total constraints.now < 2 ^ 100 }
    ensures { result ≡ list_any (fails x.now) constraints.now }
{
    for constraint in constraints.iter() {
        if fails(constraint, x) {
            return true;
        }
    }
    false
}

/// The weight of a soft constraint that fails.
fn paid_for(soft: SoftRef<'_>, x: &[bool]) -> u64
    requires { constraint_total soft.constraint < 2 ^ 100 }
    ensures { result ≡ paid_for x.now soft.entry }
{
    let SoftRef { weight, constraint } = soft;
    if fails(constraint, x) { weight } else { 0 }
}

/// The weights of the soft constraints that fail.
fn paid(soft: &SoftList, x: &[bool]) -> u128
    requires { sum_by soft_total soft.now < 2 ^ 100 }
    ensures { result ≡ paid x.now soft.now }
{
    let mut sum: u128 = 0;
    for i in 0..soft.len() {
        sum += u128::from(paid_for(soft.at(i), x));
    }
    sum
}

/// Whether a sum of weights is the top or more, where there is one.
fn reaches(top: Option<u64>, sum: u128) -> bool
    ensures { result ≡ reaches_top top sum }
{
    match top {
        Some(top) => sum >= u128::from(top),
        None => false,
    }
}

impl Costed for Wbo {
    ghost form = { form_of };

    ghost total = { wbo_total };

    ghost size = { wbo_size };

    fn width(&self) -> usize {
        self.variables as usize
    }

    fn cost(&self, x: &[bool]) -> Cost {
        if one_fails(&self.hard, x) {
            return Cost::Infinite;
        }
        let sum = paid(&self.soft, x);
        if reaches(self.top, sum) {
            return Cost::Infinite;
        }
        Cost::Whole(sum as i128)
    }
}
