//! Assignments of the same variables, and what each of them costs.
ghost use Rattle.std.specs.Prelude.{ℕ, ◌≡◌, ◌≢◌, ◌↔◌, ◌≤◌, ◌<◌, length, IfOk, IsTrue};
ghost use Rattle.std.specs.List.{slice_index_or};
ghost use Rattle.problem_form.specs.Problems.{own_cost};
ghost use Rattle.batch_costs.specs.Assigned.{assignment, IsPlain};

use crate::marks::with_bit;
use crate::sums::add_products;
use base::{Cost, NoMemory};
use problem_form::Problem;
use std::alloc::Global;
use std::marker::Model;

/// Whether all that a problem says is its constant and its products.
pub fn is_plain(problem: &Problem) -> bool
    ensures { IsTrue result ↔ IsPlain problem.now }
{
    problem.clauses.len() == 0 && problem.constraints.len() == 0
}

/// Writes the bits of an assignment into the words of its variables.
fn put_bits(words: &mut [u64], place: usize, x: &[bool])
    requires place { place < 64 }
    requires width { length x.now ≡ length words.old }
    ensures put { assignment words.new place ≡ x.now }
    ensures others { (k : ℕ) → k < 64 → k ≢ place
        → assignment words.new k ≡ assignment words.old k }
{
    for i in 0..words.len() {
        words[i] = with_bit(words[i], place, x[i]);
    }
}

/// 64 assignments of the same variables, which contracts see as a word for each variable: its bits
/// are the values that the assignments give it.
#[derive(Drop)]
pub struct Assignments {
    pub(crate) words: Vec<u64>,
}

impl Model for Assignments {
    ghost use Rattle.std.specs.Prelude.{List, ℕ};

    ghost Value = { List ℕ };

    ghost view = { λ a. a.words.items };
}

impl Assignments {
    /// Assignments of so many variables. It takes eight bytes for each, and no other call takes any.
    pub fn new(alloc: Global, variables: usize) -> Result<Assignments, NoMemory>
        ensures { IfOk result (λ a. length a ≡ variables) }
    {
        Ok(Assignments {
            words: vec![in alloc; 0; variables]?,
        })
    }

    /// Puts an assignment at a place.
    pub fn put(&mut self, place: usize, x: &[bool])
        requires place { place < 64 }
        requires width { length x.now ≡ length self.old }
        ensures put { assignment self.new place ≡ x.now }
        ensures others { (k : ℕ) → k < 64 → k ≢ place
            → assignment self.new k ≡ assignment self.old k }
        ensures width { length self.new ≡ length self.old }
    {
        put_bits(&mut self.words, place, x);
    }

    /// What each of the first assignments costs, whatever the most is that it may cost.
    pub fn costs(&self, problem: &Problem, costs: &mut [Cost])
        requires plain { IsPlain problem.now }
        requires few { length costs.old ≤ 64 }
        ensures { (k : ℕ) → k < length costs.old → slice_index_or costs.new k Cost.Infinite
            ≡ own_cost problem.now (assignment self.now k) }
    {
        let mut sums = [0; 64];
        add_products(&mut sums, problem.objective.iter(), &self.words);
        for k in 0..costs.len() {
            costs[k] = Cost::Whole(problem.constant + sums[k]);
        }
    }
}
