//! The text of a number and a count of clauses.
ghost use Rattle.std.specs.Prelude.{◌≡◌, ◌≤◌, ◌^◌, length, IfOk};
ghost use Rattle.sample_text.specs.Sample.{sample_text};

use crate::draws::Draws;
use crate::lines::{push_clauses, push_header};
use base::NoMemory;
use std::alloc::Global;

/// The text of a number and a count of clauses, drawn by the minimal standard generator of Park and
/// Miller (1988). The only memory is that of the text.
#[tactic(auto, using(crate::proofs::Sizes::text_short), unfolding(crate::specs::Sample::sample_text))]
pub fn sample_text(alloc: Global, number: u64, clauses: u64) -> Result<Vec<u8>, NoMemory>
    requires { clauses ≤ 100000 }
    ensures text { IfOk result (λ text. text.items ≡ sample_text number clauses) }
    ensures short { IfOk result (λ text. length text.items ≤ 2 ^ 24) }
{
    let variables = 3 + clauses / 4;
    let top = 10 * clauses + 1;
    let mut draws = Draws::new(number);
    let mut text = Vec::new(alloc);
    push_header(&mut text, variables, clauses, top)?;
    push_clauses(&mut text, &mut draws, clauses, variables, top)?;
    Ok(text)
}
