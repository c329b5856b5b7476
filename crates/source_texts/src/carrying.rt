//! Assignments of a source as those of the problem that its text is read into.
ghost use Rattle.std.specs.Prelude.{◌≡◌, ◌<◌, ◌^◌, length, IfOk};
ghost use Rattle.base.specs.Costs.{IsOf};
ghost use Rattle.problem_form.specs.Problems.{own_cost};
ghost use Rattle.wbo_reader.specs.Wbo.{form_of as soft_form};
ghost use Rattle.wbo_reader.specs.Rewriting.{extended, rewritten};
ghost use Rattle.source_texts.specs.Sources.{carried, said_cost, KeepsSoft};

use crate::reading::Read;
use base::{Cost, Costed, NoMemory};
use std::alloc::Global;
use wbo_reader::Wbo;

/// The assignment of the problem that stands for one of the source, and begins with it.
pub fn carried(alloc: Global, read: &Read, x: &[bool]) -> Result<Vec<bool>, NoMemory>
    requires kept { KeepsSoft read.now }
    requires width { length x.now ≡ read.now.variables }
    ensures carried { IfOk result (λ y. y.items ≡ carried read.now.soft x.now) }
    ensures width { IfOk result (λ y. length y.items ≡ read.now.problem.variables) }
{
    match &read.soft {
        Some(wbo) => wbo.extend(alloc, x),
        None => Ok(x.to_vec(alloc)?),
    }
}

/// What an assignment costs where soft constraints have weights, which is what its extension costs
/// in the problem that they are rewritten to.
fn soft_cost(wbo: &Wbo, x: &[bool]) -> Cost
    requires width { IsOf (soft_form wbo.now) x.now }
    requires narrow { length x.now < 2 ^ 32 }
    ensures { result ≡ own_cost (rewritten wbo.now) (extended wbo.now x.now) }
{
    // This opens the type, which keeps that all constraints are in normal form.
    let _ = &wbo.soft;
    wbo.cost(x)
}

/// What an assignment of the source costs, whatever the most is that it may cost. It takes no memory.
pub fn cost_of(read: &Read, x: &[bool]) -> Cost
    requires kept { KeepsSoft read.now }
    requires width { length x.now ≡ read.now.variables }
    requires narrow { length x.now < 2 ^ 32 }
    ensures { result ≡ said_cost read.now x.now }
{
    match &read.soft {
        Some(wbo) => soft_cost(wbo, x),
        None => read.problem.own_cost(x),
    }
}
