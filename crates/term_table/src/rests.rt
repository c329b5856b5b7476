//! What is left of several runs, which are merged as they are gone through.
//!
//! Each run has a place in a fixed row, so no memory is taken. The least set with which a run
//! begins is looked for from the oldest run on, and its coefficients are summed in this order.
ghost use Rattle.std.specs.Prelude.{◌≡◌, ◌≤◌, length, map, drop};
ghost use Rattle.std.specs.Option.{option_copied};
ghost use Rattle.std.specs.Map.Iter.{TakesFirst};
ghost use Rattle.term_table.specs.Runs.{sum_over, merged_terms};
ghost use Rattle.term_table.specs.Rests.{rests_of, head_of, lesser_of, least_in, first_weight, without, IsLeast, AreRests};

use crate::run::Run;
use crate::run_term::RunTerm;
use literal_lists::Literal;
use std::marker::Model;

/// Runs, the oldest first, and how much of each is done.
#[derive(Drop)]
pub struct Rests<'a> {
    runs: &'a [Run],
    places: [usize; 64],
}

impl<'a> Model for Rests<'a> {
    ghost use Rattle.std.specs.Prelude.{List, ◌≤◌, length};
    ghost use Rattle.term_table.specs.Terms.{Term};
    ghost use Rattle.term_table.specs.Runs.{merged_terms};
    ghost use Rattle.term_table.specs.Rests.{rests_of, AreRests};

    ghost Value = { List Term };

    ghost view = { λ r. merged_terms (rests_of r.places r.runs.now) };

    ghost invariant = { λ r. (length r.runs.now ≤ 64) × AreRests (rests_of r.places r.runs.now) };
}

/// The term at a place of a run.
fn head_at<'a>(run: &'a Run, place: usize) -> Option<&'a RunTerm>
    ensures { option_copied result ≡ head_of (drop place run.now) }
{
    run.as_slice().get(place)
}

/// Of two terms the one of the lesser set, and the first one where the sets are equal.
fn lesser<'a>(least: Option<&'a RunTerm>, other: Option<&'a RunTerm>) -> Option<&'a RunTerm>
    ensures { option_copied result
        ≡ lesser_of (option_copied least.entry) (option_copied other.entry) }
{
    match (least, other) {
        (Some(term), Some(next)) => {
            if next.cmp_sets(term).is_lt() {
                Some(next)
            } else {
                Some(term)
            }
        }
        (None, next) => next,
        (term, None) => term,
    }
}

/// The first of the terms of the least set with which any of the rests begins.
fn least_of<'a>(runs: &'a [Run], places: &[usize; 64]) -> Option<&'a RunTerm>
    requires { length runs.now ≤ 64 }
    ensures { option_copied result ≡ least_in (rests_of places.now runs.now) }
{
    let mut least = None;
    for k in 0..runs.len() {
        least = lesser(least, head_at(&runs[k], places[k]));
    }
    least
}

/// The place after a set, and its coefficient, where the rest of the run begins with it.
fn step_past(run: &Run, place: usize, set: &RunTerm) -> (usize, i128)
    ensures rest { drop result.0 run.now ≡ without set.now.0 (drop place run.now) }
    ensures weight { result.1 ≡ first_weight set.now.0 (drop place run.now) }
{
    let _count = run.len();
    match head_at(run, place) {
        Some(term) => {
            if set.cmp_sets(term).is_eq() {
                (place + 1, term.weight())
            } else {
                (place, 0)
            }
        }
        None => (place, 0),
    }
}

/// Takes a set from each rest that begins with it, and sums its coefficients.
fn take_set(runs: &[Run], places: &mut [usize; 64], set: &RunTerm) -> i128
    requires few { length runs.now ≤ 64 }
    requires rests { AreRests (rests_of places.old runs.now) }
    requires least { IsLeast set.now.0 (rests_of places.old runs.now) }
    ensures taken { rests_of places.new runs.now
        ≡ map (without set.now.0) (rests_of places.old runs.now) }
    ensures sum { result ≡ sum_over set.now.0 (rests_of places.old runs.now) }
{
    let mut sum: i128 = 0;
    for k in 0..runs.len() {
        let (place, weight) = step_past(&runs[k], places[k], set);
        places[k] = place;
        sum += weight;
    }
    sum
}

impl<'a> Rests<'a> {
    /// All of the runs. Takes no memory.
    pub fn of(runs: &'a [Run]) -> Rests<'a>
        requires few { length runs.now ≤ 64 }
        requires rests { AreRests runs.now }
        ensures { result ≡ merged_terms runs.now }
    {
        Rests {
            runs,
            places: [0; 64],
        }
    }

    /// The next term. Takes no memory.
    pub fn next_term(&mut self) -> Option<(&'a [Literal], i128)>
        ensures { TakesFirst (λ p. (p.0.now, p.1)) self.old result self.new }
    {
        while let Some(least) = least_of(self.runs, &self.places) {
            let sum = take_set(self.runs, &mut self.places, least);
            if sum != 0 {
                return Some((least.as_slice(), sum));
            }
        }
        None
    }
}
