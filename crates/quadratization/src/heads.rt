//! What is kept of a variable's places until its couplers with new nodes are appended: a place is
//! read once.
ghost use Rattle.std.specs.Prelude.{◌≡◌, ◌+◌, ◌≤◌, ◌<◌, ◌^◌, ◌++◌, All, OnOk, unsigned_abs};
ghost use Rattle.std.specs.List.{flat_map};
ghost use Rattle.monomial_layer.specs.Monomials.{nodes_for};
ghost use Rattle.quadratization.specs.Places.{node_couplers};
ghost use Rattle.quadratization.specs.RowSums.{head_of, head_part, IsHead};

use crate::long_table::PlaceRef;
use base::NoMemory;
use bits_model::CouplerList;
use literal_lists::Literal;
use monomial_layer::{factor, nodes_for};
use quad_form::signed;

/// A literal in a long term, and the term's degree, coefficient and first new node.
#[derive(Clone, Copy)]
pub struct Head {
    pub literal: Literal,
    pub degree: usize,
    pub coefficient: i128,
    pub first_node: u32,
}

/// What is kept of a place.
pub(crate) fn head_of(place: &PlaceRef<'_>) -> Head
    ensures { result ≡ head_of place.now }
{
    Head {
        literal: place.literal,
        degree: place.degree,
        coefficient: place.coefficient,
        first_node: place.first_node,
    }
}

/// Appends the couplers of a literal with the new nodes of its term, which is positive.
fn push_nodes(
    couplers: &mut CouplerList,
    literal: Literal,
    degree: usize,
    coefficient: i128,
    first_node: u32,
) -> Result<(), NoMemory>
    requires variable { literal.variable < 2 ^ 32 }
    requires nodes { first_node + nodes_for degree ≤ 2 ^ 32 }
    requires small { unsigned_abs coefficient ≤ 2 ^ 124 }
    ensures { OnOk result (couplers.new ≡ couplers.old
        ++ node_couplers literal degree coefficient first_node (nodes_for degree)) }
{
    let first = literal.variable as u32;
    for k in 0..nodes_for(degree) {
        let weight = signed(literal, -(coefficient * i128::from(factor(degree, k))));
        couplers.push(first, first_node + k as u32, weight)?;
    }
    Ok(())
}

/// Appends the couplers of a head.
fn push_head(couplers: &mut CouplerList, head: Head) -> Result<(), NoMemory>
    requires { IsHead head }
    ensures { OnOk result (couplers.new ≡ couplers.old ++ head_part head) }
{
    let Head {
        literal,
        degree,
        coefficient,
        first_node,
    } = head;
    if coefficient < 0 {
        let first = literal.variable as u32;
        return couplers.push(first, first_node, signed(literal, coefficient));
    }
    push_nodes(couplers, literal, degree, coefficient, first_node)
}

/// Appends the couplers of heads.
pub(crate) fn push_heads(couplers: &mut CouplerList, heads: &[Head]) -> Result<(), NoMemory>
    requires { All IsHead heads.now }
    ensures { OnOk result (couplers.new ≡ couplers.old ++ flat_map head_part heads.now) }
{
    for head in heads {
        push_head(couplers, *head)?;
    }
    Ok(())
}
