//! The quadratic form of terms whose pairs of literals are replaced one after another.
ghost use Rattle.std.specs.Prelude.{◌≡◌, ◌*◌, ◌≤◌, ◌^◌, IfOk, length};
ghost use Rattle.term_table.specs.Tables.{TableContent};
ghost use Rattle.quadratization.specs.Apart.{table_of};
ghost use Rattle.quadratization.specs.Held.{AreHeld};
ghost use Rattle.quadratization.specs.NewNodes.{AreOfPairs};
ghost use Rattle.quadratization.specs.Parts.{short_part};
ghost use Rattle.quadratization.specs.ByPairs.{image, FitsByPairs, IsRunOf};

use crate::gathered::DirectTerms;
use crate::long_run::long_run;
use crate::new_nodes::{DirectForm, NewNodes};
use base::NoMemory;
use rosenberg_layer::{PairList, Substitutions, add_moved};
use std::alloc::Global;

/// The pairs that a run replaced. All else of it is let go.
fn pairs_alone(run: Substitutions) -> PairList
    ensures { result ≡ run.pairs }
{
    run.pairs
}

/// The short additions, and what the run of all substitutions in the sums of the long ones leaves.
fn short_and_run(
    alloc: Global,
    terms: DirectTerms,
) -> Result<(DirectTerms, Substitutions), NoMemory>
    requires held { (t : TableContent) × FitsByPairs t × AreHeld t terms }
    ensures short { (t : TableContent) → AreHeld t terms
        → IfOk result (λ made. AreHeld (short_part t) made.0) }
    ensures width { IfOk result (λ made. length made.0.weights ≡ length terms.weights) }
    ensures run { (t : TableContent) → FitsByPairs t → AreHeld t terms
        → IfOk result (λ made. IsRunOf (table_of t) made.1) }
{
    let width = terms.width();
    let (short, long) = terms.apart(alloc);
    let run = long_run(alloc, width, long)?;
    Ok((short, run))
}

/// The quadratic form of additions, summed and pairs of literals replaced one after another: what
/// `Rosenberg` and `Flatten` make of their table in a row, without tables. Only the long ones are
/// summed before that. Each list is let go as soon as it is used.
pub fn form_by_pairs(alloc: Global, terms: DirectTerms) -> Result<DirectForm, NoMemory>
    requires held { (t : TableContent) × FitsByPairs t × AreHeld t terms }
    ensures quad { (t : TableContent) → FitsByPairs t → AreHeld t terms
        → IfOk result (λ form. form.quad ≡ image (table_of t)) }
    ensures new_nodes { (t : TableContent) → FitsByPairs t → AreHeld t terms
        → IfOk result (λ form. AreOfPairs (table_of t) form.new_nodes) }
{
    let width = terms.width();
    let (short, made) = short_and_run(alloc, terms)?;
    let mut terms = short.widened(alloc, width + made.pairs.len())?;
    add_moved(&mut terms, &made, width)?;
    let pairs = pairs_alone(made);
    let quad = terms.into_form(alloc)?.into_quad();
    Ok(DirectForm {
        quad,
        new_nodes: NewNodes::Pairs(pairs),
    })
}
