//! The weights of nodes, to which terms add.
ghost use Rattle.std.specs.Prelude.{◌≡◌, ◌+◌, ◌≤◌, ◌<◌, ◌^◌, IfOk, length, unsigned_abs};
ghost use Rattle.quad_form.specs.Short.{signed};
ghost use Rattle.quad_form.specs.Sums.{size_of, widened, with_weight};

use base::NoMemory;
use literal_lists::Literal;

/// A weight, whose sign a complement turns.
#[inline(always)]
pub fn signed(literal: Literal, weight: i128) -> i128
    requires { unsigned_abs weight ≤ 2 ^ 126 }
    ensures { result ≡ signed literal weight }
{
    if literal.negated { -weight } else { weight }
}

/// Adds to the weight of a node.
#[inline(always)]
pub fn add_weight(weights: &mut [i128], node: usize, weight: i128)
    requires within { node < length weights.old }
    requires small { size_of weights.old + unsigned_abs weight ≤ 2 ^ 126 }
    ensures { weights.new ≡ with_weight weights.old node weight }
{
    weights[node] += weight;
}

/// The weights of more nodes: those after the last one weigh 0.
pub fn widened(mut weights: Vec<i128>, nodes: usize) -> Result<Vec<i128>, NoMemory>
    requires { length weights.items ≤ nodes }
    ensures { IfOk result (λ wide. wide.items ≡ widened nodes weights.items) }
{
    weights.resize(nodes, 0)?;
    Ok(weights)
}
