//! Bounds of the costs of a problem, on which penalties rest.
ghost use Rattle.std.specs.Prelude.{◌≡◌, ◌<◌, ◌≤◌, ◌^◌, Some, unsigned_abs};
ghost use Rattle.problem_form.specs.Limits.{cost_size, own_upper, penalty, penalty_above, upper};

use crate::counts::{positive_coefficients, size_of_products, soft_weights};
use crate::problem::Problem;

/// What lifts a cost of at least `least` above all that can be gained, or above the most that an
/// assignment may cost, where that is less.
fn penalty_above(most: i128, least: i128, gain: u128) -> u128
    requires most { unsigned_abs most < 2 ^ 64 }
    requires least { unsigned_abs least < 2 ^ 101 }
    requires gain { gain < 2 ^ 100 }
    ensures { result ≡ penalty_above (Some most) least gain }
{
    let lift = (most - least + 1).max(1) as u128;
    lift.min(gain + 1)
}

impl Problem {
    /// The sum of the sizes of the objective's coefficients and of the soft weights. No assignment
    /// costs less by more than this than another.
    pub fn cost_size(&self) -> u128
        ensures value { result ≡ cost_size self.now }
        ensures small { result < 2 ^ 100 }
    {
        size_of_products(self.objective.iter()) + soft_weights(&self.clauses)
    }

    /// What one violation adds at least: one more than any assignment can gain, or what lifts the
    /// least cost above the most that an assignment may cost, where that is less.
    pub fn penalty(&self) -> u128
        ensures value { result ≡ penalty self.now }
        ensures least { 1 ≤ result }
        ensures small { result ≤ 2 ^ 100 }
    {
        let gain = self.cost_size();
        match self.most {
            None => gain + 1,
            Some(most) => penalty_above(most, self.own_upper() - gain as i128, gain),
        }
    }

    /// The constant, the positive coefficients and the soft weights: no whole cost is greater where
    /// there is no most.
    pub fn own_upper(&self) -> i128
        ensures value { result ≡ own_upper self.now }
        ensures small { unsigned_abs result < 2 ^ 100 }
    {
        let most = positive_coefficients(self.objective.iter()) + soft_weights(&self.clauses);
        self.constant + most as i128
    }

    /// No whole cost is greater: the constant, the positive coefficients and the soft weights, or the
    /// most that an assignment may cost, where that is less.
    pub fn upper(&self) -> i128
        ensures { result ≡ upper self.now }
    {
        match self.most {
            None => self.own_upper(),
            Some(most) => most.min(self.own_upper()),
        }
    }
}
