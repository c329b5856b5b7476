//! New nodes: how many a term has, and the factors of their weights.
ghost use Rattle.std.specs.Prelude.{◌≡◌, ◌+◌, ◌-◌, ◌*◌, ◌<◌, ◌≤◌, ◌^◌, ◌*ℤ◌, List, length, neg_ℤ, pos, unsigned_abs};
ghost use Rattle.std.specs.List.{sum_by};
ghost use Rattle.literal_lists.specs.declared.literal.Literal.{Literal};
ghost use Rattle.term_table.specs.Terms.{terms_size};
ghost use Rattle.term_table.specs.Tables.{IsTable};
ghost use Rattle.monomial_layer.specs.Monomials.{factor, new_nodes, node, nodes_for};

use literal_lists::Literal;
use term_table::Table;

/// The node of a number, as a literal.
pub fn node(number: usize) -> Literal
    ensures { result ≡ node number }
{
    Literal {
        variable: number as u64,
        negated: false,
    }
}

/// How many new nodes a positive term of a degree has.
pub fn nodes_for(degree: usize) -> usize
    ensures { result ≡ nodes_for degree }
{
    degree.saturating_sub(1) / 2
}

/// The factor of the new node after so many others: 1 for the last of an odd degree, and else 2.
pub fn factor(degree: usize, place: usize) -> u64
    requires { place < 2 ^ 32 }
    ensures { result ≡ factor degree place }
{
    if degree == 2 * place + 3 { 1 } else { 2 }
}

/// The weight of the new node after so many others.
pub fn node_weight(coefficient: &i128, degree: usize, place: usize) -> i128
    requires place { place < 2 ^ 32 }
    requires small { unsigned_abs
        (coefficient.now *ℤ pos (factor degree place * (2 * place + 2) - 1)) ≤ 2 ^ 124 }
    ensures { result ≡ coefficient.now *ℤ pos (factor degree place * (2 * place + 2) - 1) }
{
    *coefficient * i128::from(factor(degree, place) * (2 * place as u64 + 2) - 1)
}

/// The weight of that node with each literal.
pub fn pair_weight(coefficient: &i128, degree: usize, place: usize) -> i128
    requires place { place < 2 ^ 32 }
    requires small { unsigned_abs (coefficient.now *ℤ pos (factor degree place)) ≤ 2 ^ 124 }
    ensures { result ≡ neg_ℤ (coefficient.now *ℤ pos (factor degree place)) }
{
    -(*coefficient * i128::from(factor(degree, place)))
}

/// The weight of the new node of a negative term.
pub fn negative_weight(coefficient: &i128, degree: usize) -> i128
    requires some { 1 ≤ degree }
    requires small { unsigned_abs (coefficient.now *ℤ pos (degree - 1)) ≤ 2 ^ 124 }
    ensures { result ≡ neg_ℤ (coefficient.now *ℤ pos (degree - 1)) }
{
    -(*coefficient * (degree - 1) as i128)
}

/// How many new nodes a term of a degree has.
pub fn new_nodes(degree: usize, coefficient: i128) -> usize
    ensures { (ls : List Literal) → length ls ≡ degree → result ≡ new_nodes (ls, coefficient) }
{
    if degree <= 2 {
        0
    } else if coefficient < 0 {
        1
    } else {
        nodes_for(degree)
    }
}

/// How many new nodes all terms have.
pub fn all_new_nodes(table: &Table) -> usize
    requires { terms_size table.now.content.terms ≤ 2 ^ 32 }
    ensures nodes { result ≡ sum_by new_nodes table.now.content.terms }

    // What the laws of the layer rest on.
    ensures kept { IsTable table.now.content }
{
    let mut nodes = 0;
    for (literals, coefficient) in table.terms() {
        nodes += new_nodes(literals.len(), coefficient);
    }
    nodes
}
