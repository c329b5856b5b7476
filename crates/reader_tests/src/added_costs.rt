//! What assignments cost, added up together, beside what each of them costs alone.
ghost use Rattle.std.specs.Prelude.{◌≡◌, ◌≤◌, ◌^◌, length};
ghost use Rattle.batch_costs.specs.Assigned.{IsPlain};

use base::Cost;
use batch_costs::{Assignments, is_plain};
use opb_reader::read_opb;
use problem_form::Problem;
use std::alloc::Global;
use std::test::Fail;

/// The last four binary digits of a number.
fn bits_of(number: usize) -> [bool; 4] {
    [
        number & 1 == 1,
        number & 2 == 2,
        number & 4 == 4,
        number & 8 == 8,
    ]
}

/// Puts the assignments of numbers from one on into all places.
fn put_all(together: &mut Assignments, first: usize)
    requires { length together.old ≡ 4 }
    ensures { length together.new ≡ 4 }
{
    for place in 0..64 {
        together.put(place, &bits_of(first.wrapping_add(place)));
    }
}

/// Whether assignments that were put cost what each costs alone, as many of them as are asked for.
fn cost_alike(problem: &Problem, together: &Assignments, first: usize, costs: &mut [Cost]) -> bool
    requires plain { IsPlain problem.now }
    requires few { length costs.old ≤ 64 }
{
    together.costs(problem, costs);
    for place in 0..costs.len() {
        if costs[place] != problem.own_cost(&bits_of(first.wrapping_add(place))) {
            return false;
        }
    }
    true
}

/// Whether all assignments of a problem cost alike, in the places that they were put into last.
fn is_added(alloc: Global, problem: &Problem) -> Result<bool, Fail> {
    if !is_plain(problem) {
        return Ok(false);
    }
    let mut together = Assignments::new(alloc, 4)?;
    let mut costs = [Cost::Infinite; 64];
    for first in 0..3 {
        put_all(&mut together, first);
        if !cost_alike(problem, &together, first, &mut costs) {
            return Ok(false);
        }
    }
    put_all(&mut together, 11);
    Ok(cost_alike(problem, &together, 11, &mut [Cost::Infinite]))
}

/// The problem of a text with at most four variables, by whether it can be added up so.
fn is_told(alloc: Global, text: &[u8], plain: bool) -> Result<bool, Fail>
    requires { length text.now ≤ 2 ^ 24 }
{
    match &read_opb(alloc, text) {
        Ok(problem) => Ok(is_added(alloc, problem)? == plain),
        Err(_) => Ok(false),
    }
}

const TEXTS: &[(&[u8], bool)] = &[
    (b"min: 3 x1 -2 x1 x2 5 ~x1 x3 ~x4 -9 ~x2 ~x3 1 x4 ;\n", true),
    (b"min: 18446744073709551614 x4 -1 ~x4 ;\n", true),
    (b"min: 3 x1 ;\n1 x1 1 x2 >= 1 ;\n", false),
];

#[test]
fn costs_added_up_together(rt: HostRuntime) -> Result<(), Fail> {
    for (text, plain) in TEXTS {
        let told = text.len() <= 1 << 24 && is_told(rt.alloc(), text, *plain)?;
        assert!(rt; told, "{text:?}");
    }
    Ok(())
}
