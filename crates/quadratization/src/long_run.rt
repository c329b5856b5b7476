//! The run of substitutions in long additions, which are summed first.
ghost use Rattle.std.specs.Prelude.{◌≡◌, ◌+◌, ◌-◌, ◌*◌, ◌<◌, ◌≤◌, ◌^◌, ◌++◌, ◌∷◌, [], All, IfOk, OnOk, length, map};
ghost use Rattle.std.specs.List.{filter};
ghost use Rattle.term_table.specs.Terms.{terms_total, with_additions};
ghost use Rattle.term_table.specs.Tables.{AreAdditions, IsTable, TableContent, table_size};
ghost use Rattle.term_table.specs.Summed.{sums_of};
ghost use Rattle.rosenberg_layer.specs.Rosenberg.{excess, is_long};
ghost use Rattle.quadratization.specs.Long.{additions_at, product_term, terms_of, HaveKeys};
ghost use Rattle.quadratization.specs.Apart.{table_of};
ghost use Rattle.quadratization.specs.ByPairs.{IsRunOf};

use crate::additions::{Keyed, ordered_additions};
use crate::sums::next_sum;
use base::NoMemory;
use literal_lists::Literals;
use problem_form::ProductList;
use rosenberg_layer::{LongTerms, Substitutions, run_of_long};
use std::alloc::Global;

/// Appends a term, and counts how many substitutions it takes at most.
fn append(
    terms: &mut LongTerms,
    turns: &mut usize,
    literals: Literals<'_>,
    coefficient: i128,
) -> Result<(), NoMemory>
    requires long { 3 ≤ length literals }
    requires short { length literals ≤ 2048 }
    requires narrow { All (λ l. l.variable < 2 ^ 31) literals }
    requires few { turns.old ≤ 2 ^ 32 }
    ensures terms { OnOk result (terms.new ≡ terms.old ++ (literals.entry, coefficient) ∷ []) }
    ensures turns { OnOk result (turns.new ≡ turns.old + (length literals.entry - 2)) }
{
    *turns += literals.len() - 2;
    terms.push_literals(literals, coefficient)
}

/// The sums of neighbours of one set, and the sum of d - 2 over their degrees d. A sum of 0 is left
/// out.
fn summed_terms(
    alloc: Global,
    width: usize,
    additions: &ProductList,
    order: &[Keyed],
) -> Result<(LongTerms, usize), NoMemory>
    requires additions { AreAdditions (terms_of width additions.now) }
    requires long { All (λ p. 3 ≤ length p.literals) additions.now }
    requires narrow { width ≤ 2 ^ 31 }
    requires indices { All (λ k. k.index < length additions.now) order.now }
    requires keys { HaveKeys additions.now order.now }
    requires small { terms_total (additions_at additions.now order.now) ≤ 2 ^ 124 }
    requires few { excess (sums_of (additions_at additions.now order.now)) ≤ 2 ^ 32 }
    ensures terms { IfOk result (λ made. made.0 ≡ sums_of (additions_at additions.now order.now)) }
    ensures excess { IfOk result (λ made. made.1 ≡ excess made.0) }
{
    let mut terms = LongTerms::empty(alloc);
    let mut turns = 0;
    let mut sum = 0;
    for i in 0..order.len() {
        if let Some(coefficient) = next_sum(additions, order, i, &mut sum) {
            let literals = additions.at(order[i].index).literals;
            append(&mut terms, &mut turns, literals, coefficient)?;
        }
    }
    Ok((terms, turns))
}

/// What all substitutions in the sums of long additions leave.
pub fn long_run(
    alloc: Global,
    width: usize,
    additions: ProductList,
) -> Result<Substitutions, NoMemory>
    requires additions { AreAdditions (terms_of width additions) }
    requires long { All (λ p. 3 ≤ length p.literals) additions }
    requires size { table_size (table_of (terms_of width additions)) * 2 ^ 2 ≤ 2 ^ 31 }
    ensures { (t : TableContent) → IsTable t → t.width ≡ width
        → filter is_long t.terms ≡ with_additions [] (map product_term additions)
        → IfOk result (IsRunOf t) }
{
    let order = ordered_additions(alloc, width, &additions)?;
    let (terms, turns) = summed_terms(alloc, width, &additions, &order)?;
    drop(order);
    drop(additions);
    run_of_long(alloc, terms, width, turns)
}
