//! A problem that is given to a step, or lent to it.
ghost use Rattle.std.specs.Prelude.{◌≡◌};
ghost use Rattle.problem_form.specs.Problems.{IsNormal, ProblemContent};

use problem_form::Problem;

/// A problem to work on: given, and let go once a form stands in its place, or lent.
pub trait Held: Drop {
    /// Which problem it is.
    ghost problem: { Self → ProblemContent };

    /// The problem, which is in normal form.
    fn problem(&self) -> &Problem
        ensures same { result.now ≡ problem self.now }
        ensures normal { IsNormal (problem self.now) };
}

impl Held for Problem {
    ghost problem = { λ p. p };

    fn problem(&self) -> &Problem {
        // a problem that is read is in normal form
        let _variables = self.variables;
        self
    }
}

impl Held for &Problem {
    ghost problem = { λ p. p.now };

    fn problem(&self) -> &Problem {
        // a problem that is read is in normal form
        let _variables = self.variables;
        *self
    }
}
