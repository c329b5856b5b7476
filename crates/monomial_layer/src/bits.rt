//! The bits of the new nodes, under an assignment of the variables.
ghost use Rattle.std.specs.Prelude.{◌≡◌, ◌++◌, ◌<◌, ◌≤◌, ◌^◌, length, OnOk};
ghost use Rattle.monomial_layer.specs.Monomials.{first_values, is_taken, new_bits, true_literals};

use crate::nodes::nodes_for;
use base::NoMemory;
use literal_lists::{Literal, all_hold};

/// How many literals are true.
fn true_literals(literals: &[Literal], x: &[bool]) -> usize
    ensures { result ≡ true_literals x.now literals.now }
{
    literals.iter().filter(|literal| literal.holds(x)).count()
}

/// Appends the bits of so many new nodes of a positive term.
pub fn push_taken(bits: &mut Vec<bool>, count: usize, nodes: usize) -> Result<(), NoMemory>
    requires { nodes < 2 ^ 32 }
    ensures { OnOk result (bits.new.items ≡ bits.old.items ++ first_values (is_taken count) nodes) }
{
    for place in 0..nodes {
        bits.push(2 * place + 2 <= count)?;
    }
    Ok(())
}

/// Appends the bits of the new nodes of a term.
pub fn push_bits(
    bits: &mut Vec<bool>,
    x: &[bool],
    literals: &[Literal],
    coefficient: i128,
) -> Result<(), NoMemory>
    requires { length literals.now ≤ 2048 }
    ensures { OnOk result
        (bits.new.items ≡ bits.old.items ++ new_bits x.now (literals.now, coefficient)) }
{
    if literals.len() <= 2 {
        return Ok(());
    }
    if coefficient < 0 {
        bits.push(all_hold(literals, x))?;
        return Ok(());
    }
    push_taken(bits, true_literals(literals, x), nodes_for(literals.len()))
}
