//! The text of a dead list, and what is left of a graph without the parts that it names.
ghost use Rattle.std.specs.Prelude.{IfErr};
ghost use Rattle.whole_text.specs.Steps.{Fails, Gives};
ghost use Rattle.working_graph.specs.DeadLists.{dead_parts, working_of};

use crate::working::Working;
use chimera_graph::Chimera;
use part_lists::read_parts;
use std::alloc::Global;
use whole_text::TextAnswer;

/// What is left of a graph without the dead parts that a text names, or the text's first fault.
pub fn read_dead(alloc: Global, text: &[u8], chimera: Chimera) -> Result<Working, TextAnswer>
    ensures fault { IfErr result (λ e. Fails e (dead_parts chimera text.now)) }
    ensures exact { Gives (λ w. w) result (working_of chimera text.now) }
{
    let parts = read_parts(alloc, text, &chimera)?;
    Ok(Working::without(alloc, chimera, parts)?)
}
