//! What an entry adds to a problem.
ghost use Rattle.std.specs.Prelude.{◌≡◌, ◌+◌, ◌*◌, ◌<◌, ◌≤◌, ◌^◌, ◌∷◌, [], OnOk, fold, unsigned_abs};
ghost use Rattle.problem_form.specs.Problems.{problem_total};
ghost use Rattle.problem_form.specs.NormalForm.{with_product};
ghost use Rattle.entry_reader.specs.Problems.{plain, times, field_products, coupling_products, products_of};

use crate::layout::{Layout, Listed};
use base::NoMemory;
use literal_lists::Literal;
use problem_form::Problem;

/// A variable, not complemented.
#[inline(always)]
fn plain(variable: u64) -> Literal
    ensures { result ≡ plain variable }
{
    Literal {
        variable,
        negated: false,
    }
}

/// Adds a number.
#[inline(always)]
fn add_number(problem: &mut Problem, coefficient: i128)
    requires { problem_total problem.old + unsigned_abs coefficient < 2 ^ 100 }
    ensures added { problem.new ≡ with_product problem.old (times coefficient []) }
    ensures same { problem.new.variables ≡ problem.old.variables }
    ensures total { problem_total problem.new
        ≤ problem_total problem.old + unsigned_abs coefficient }
{
    problem.add_number(coefficient);
}

/// Adds a number times a variable.
#[inline(always)]
fn add_single(problem: &mut Problem, coefficient: i128, node: u64) -> Result<(), NoMemory>
    requires within { node < problem.old.variables }
    requires small { problem_total problem.old + unsigned_abs coefficient < 2 ^ 100 }
    ensures added { OnOk result
        (problem.new ≡ with_product problem.old (times coefficient (node ∷ []))) }
    ensures same { OnOk result (problem.new.variables ≡ problem.old.variables) }
    ensures total { OnOk result (problem_total problem.new
        ≤ problem_total problem.old + unsigned_abs coefficient) }
{
    problem.add_weighed(plain(node), coefficient)
}

/// Adds a number times two variables.
#[inline(always)]
fn add_pair(
    problem: &mut Problem,
    coefficient: i128,
    first: u64,
    second: u64,
) -> Result<(), NoMemory>
    requires first { first < problem.old.variables }
    requires second { second < problem.old.variables }
    requires small { problem_total problem.old + unsigned_abs coefficient < 2 ^ 100 }
    ensures added { OnOk result
        (problem.new ≡ with_product problem.old (times coefficient (first ∷ second ∷ []))) }
    ensures same { OnOk result (problem.new.variables ≡ problem.old.variables) }
    ensures total { OnOk result (problem_total problem.new
        ≤ problem_total problem.old + unsigned_abs coefficient) }
{
    problem.add_weighed_pair(plain(first), plain(second), coefficient)
}

/// Adds a field.
fn add_field(problem: &mut Problem, field: i128, node: u64) -> Result<(), NoMemory>
    requires node { node < problem.old.variables }
    requires small { problem_total problem.old + 3 * unsigned_abs field < 2 ^ 100 }
    ensures added { OnOk result (problem.new
        ≡ fold with_product problem.old (field_products field node)) }
    ensures same { OnOk result (problem.new.variables ≡ problem.old.variables) }
    ensures total { OnOk result (problem_total problem.new
        ≤ problem_total problem.old + 3 * unsigned_abs field) }
{
    add_number(problem, -field);
    add_single(problem, 2 * field, node)
}

/// Adds a coupling.
fn add_coupling(
    problem: &mut Problem,
    coupling: i128,
    first: u64,
    second: u64,
) -> Result<(), NoMemory>
    requires first { first < problem.old.variables }
    requires second { second < problem.old.variables }
    requires small { problem_total problem.old + 9 * unsigned_abs coupling < 2 ^ 100 }
    ensures added { OnOk result (problem.new
        ≡ fold with_product problem.old (coupling_products coupling first second)) }
    ensures same { OnOk result (problem.new.variables ≡ problem.old.variables) }
    ensures total { OnOk result (problem_total problem.new
        ≤ problem_total problem.old + 9 * unsigned_abs coupling) }
{
    add_number(problem, coupling);
    add_pair(problem, 4 * coupling, first, second)?;
    add_single(problem, -2 * coupling, first)?;
    add_single(problem, -2 * coupling, second)
}

/// Adds the products of an entry.
#[inline(always)]
pub(crate) fn add_entry(
    problem: &mut Problem,
    layout: Layout,
    entry: Listed,
) -> Result<(), NoMemory>
    requires first { entry.first < problem.old.variables }
    requires second { entry.second < problem.old.variables }
    requires small { problem_total problem.old + 9 * unsigned_abs entry.weight < 2 ^ 100 }
    ensures added { OnOk result (problem.new
        ≡ fold with_product problem.old (products_of layout entry)) }
    ensures same { OnOk result (problem.new.variables ≡ problem.old.variables) }
    ensures total { OnOk result (problem_total problem.new
        ≤ problem_total problem.old + 9 * unsigned_abs entry.weight) }
{
    match layout {
        Layout::Qubo => add_pair(problem, entry.weight, entry.first, entry.second),
        Layout::Ising => {
            if entry.first == entry.second {
                add_field(problem, entry.weight, entry.first)
            } else {
                add_coupling(problem, entry.weight, entry.first, entry.second)
            }
        }
    }
}
