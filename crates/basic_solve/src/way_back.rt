//! The way back: the bits that the tables chose.
ghost use Rattle.std.specs.Prelude.{◌≡◌, ◌≤◌, ℕ, [], IfOk, length, map};
ghost use Rattle.std.specs.List.{slice_index_or};
ghost use Rattle.base.specs.Costs.{energy};
ghost use Rattle.bits_model.specs.Output.{form_of};
ghost use Rattle.basic_solve.specs.Bits.{all_bits};
ghost use Rattle.basic_solve.specs.FirstLeast.{IsFirstLeast};
ghost use Rattle.basic_solve.specs.Tables.{AreChoices};

use crate::bits::bit;
use crate::columns::Columns;
use crate::tables::index_of;
use base::Lists;
use bits_model::{ChainList, NoMemory};
use std::alloc::Global;

/// The state in which each node has the bit that it chooses for the bits of the nodes before it.
pub(crate) fn chosen_state(
    alloc: Global,
    model: &Columns,
    sets: &ChainList,
    choices: &Lists<u8>,
) -> Result<Vec<bool>, NoMemory>
    requires narrow { (step : ℕ) → length (slice_index_or sets.now step []) ≤ 16 }
    requires sets { length sets.now ≡ model.now.nodes }
    requires chosen { AreChoices model.now.nodes (energy (form_of model.now)) sets.now
        (map all_bits choices.now) }
    ensures { IfOk result (λ y. IsFirstLeast (form_of model.now) y.items) }
{
    let nodes = model.nodes as usize;
    let mut y = Vec::with_capacity(alloc, nodes)?;
    for node in 0..nodes {
        let step = nodes - 1 - node;
        let index = index_of(&y, sets.list(step));
        y.push(bit(choices.list(step), index))?;
    }
    Ok(y)
}
