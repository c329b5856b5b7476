//! The first least state of a model whose nodes are eliminated in an order.
ghost use Rattle.std.specs.Prelude.{◌≡◌, ◌<◌, ℕ, [], Err, IfOk, None, Some, length, reverse};
ghost use Rattle.bits_model.specs.Output.{form_of};
ghost use Rattle.basic_solve.specs.declared.answer.SolveAnswer.TheVariants.{TooWide};
ghost use Rattle.elimination_order.specs.Orders.{AreNodes};
ghost use Rattle.elimination_order.specs.Renumbered.{AreNumbers, IsFirstLeastBy, at_place, bits_by};
ghost use Rattle.elimination_order.specs.Widths.{first_wide};

use crate::numbering::{Numbering, taken_back};
use crate::renumbering::columns_by;
use basic_solve::{SolveAnswer, solve_columns};
use bits_model::OutputModel;
use std::alloc::Global;

/// The first least state by new numbers. The columns by these are let go as soon as the state stands.
fn state_by(
    alloc: Global,
    model: &OutputModel,
    numbering: &Numbering,
) -> Result<Vec<bool>, SolveAnswer>
    requires { AreNumbers model.now.nodes
        numbering.now.names.items numbering.now.numbers.items }
    ensures state { IfOk result (λ x. IsFirstLeastBy numbering.now.names.items
        (form_of model.now) (bits_by numbering.now.numbers.items x.items)) }
    ensures narrow { IfOk result (λ _.
        first_wide 16 model.now [] (reverse numbering.now.names.items) ≡ None) }
    ensures wide { (v w : ℕ) → result ≡ Err (TooWide v w)
        → first_wide 16 model.now [] (reverse numbering.now.names.items)
        ≡ Some (at_place numbering.now.names.items v, w) }
    ensures within { (v w : ℕ) → result ≡ Err (TooWide v w)
        → v < length numbering.now.names.items }
{
    let _nodes = model.nodes;
    let columns = columns_by(alloc, model, numbering)?;
    solve_columns(alloc, &columns)
}

/// The first least state, and the node that is too wide, by the nodes' own numbers again.
fn solve_numbered(
    alloc: Global,
    model: &OutputModel,
    numbering: &Numbering,
) -> Result<Vec<bool>, SolveAnswer>
    requires { AreNumbers model.now.nodes
        numbering.now.names.items numbering.now.numbers.items }
    ensures state { IfOk result (λ y.
        IsFirstLeastBy numbering.now.names.items (form_of model.now) y.items) }
    ensures narrow { IfOk result (λ _.
        first_wide 16 model.now [] (reverse numbering.now.names.items) ≡ None) }
    ensures wide { (v w : ℕ) → result ≡ Err (TooWide v w)
        → first_wide 16 model.now [] (reverse numbering.now.names.items) ≡ Some (v, w) }
{
    match state_by(alloc, model, numbering) {
        Ok(x) => Ok(taken_back(alloc, &numbering.numbers, &x)?),
        Err(SolveAnswer::TooWide(node, width)) => {
            Err(SolveAnswer::TooWide(numbering.names[node as usize], width))
        }
        Err(SolveAnswer::NoMemory) => Err(SolveAnswer::NoMemory),
    }
}

/// The first least state of a model whose nodes are eliminated in this order: of the states of least
/// energy the first one, compared from the node that is eliminated last on with 0 before 1. A node
/// that has more than 16 neighbours when it is eliminated is too wide, and the first of them is
/// named.
pub fn solve_by(alloc: Global, model: &OutputModel, order: &[u64]) -> Result<Vec<bool>, SolveAnswer>
    requires { AreNodes model.now.nodes order.now }
    ensures state { IfOk result (λ y.
        IsFirstLeastBy (reverse order.now) (form_of model.now) y.items) }
    ensures width { IfOk result (λ y. length y.items ≡ model.now.nodes) }
    ensures narrow { IfOk result (λ _. first_wide 16 model.now [] order.now ≡ None) }
    ensures wide { (v w : ℕ) → result ≡ Err (TooWide v w)
        → first_wide 16 model.now [] order.now ≡ Some (v, w) }
{
    let _nodes = model.nodes;
    let numbering = Numbering::of(alloc, order)?;
    solve_numbered(alloc, model, &numbering)
}
