//! What long terms add to the weights of nodes, and to the constant.
ghost use Rattle.std.specs.Prelude.{◌≡◌, ◌+◌, ◌-◌, ◌*◌, ◌≤◌, ◌<◌, ◌^◌, ◌∷◌, [], All, IfOk, List, length, pos, ◌-ℤ◌, ◌*ℤ◌, unsigned_abs};
ghost use Rattle.literal_lists.specs.declared.literal.Literal.{Literal};
ghost use Rattle.base.specs.Sums.{total_by};
ghost use Rattle.term_table.specs.Terms.{terms_total, IsTermSet};
ghost use Rattle.monomial_layer.specs.Monomials.{factor, nodes_for, new_nodes};
ghost use Rattle.quad_form.specs.Sums.{Gain, widened, size_of};
ghost use Rattle.quadratization.specs.Places.{complements, literal_share, own_shares, node_share, new_shares, term_shares, all_shares, long_constant};
ghost use Rattle.quadratization.specs.Long.{node_count};
ghost use Rattle.quadratization.specs.Held.{Gains, GainsBoth, shares_total};

use crate::long_table::{LongTable, LongTerm};
use base::NoMemory;
use literal_lists::{Literal, Literals};
use monomial_layer::{factor, nodes_for};
use quad_form::{add_weight, widened};

/// How many literals are complements.
fn complements(literals: Literals<'_>) -> usize
    ensures { result ≡ complements literals.entry }
{
    literals.filter(|literal| literal.negated).count()
}

/// Adds a share to the weight of its node.
fn add_share(weights: &mut [i128], node: usize, share: i128)
    requires within { node < length weights.old }
    requires small { size_of weights.old + unsigned_abs share ≤ 2 ^ 126 }
    ensures { Gain ((node, share) ∷ []) (unsigned_abs share) weights.old weights.new }
{
    add_weight(weights, node, share);
}

/// A coefficient that counts so many times.
#[tactic(auto, using(crate::proofs::GainedShares::product_bound))]
fn product(coefficient: i128, count: i128) -> i128
    requires coefficient { unsigned_abs coefficient ≤ 2 ^ 102 }
    requires count { unsigned_abs count ≤ 2 ^ 21 }
    ensures value { result ≡ coefficient *ℤ count }
    ensures bound { unsigned_abs result ≤ 2 ^ 124 }
{
    coefficient * count
}

/// What a literal of a positive term with so many complements adds to the weight of its variable.
fn literal_share(literal: Literal, negated: usize, coefficient: i128) -> i128
    requires negated { negated ≤ 2048 }
    requires coefficient { unsigned_abs coefficient ≤ 2 ^ 102 }
    ensures { result ≡ (literal_share negated coefficient literal).1 }
{
    if literal.negated {
        -product(coefficient, negated.saturating_sub(1) as i128)
    } else {
        product(coefficient, negated as i128)
    }
}

/// Adds what the literals of a positive term with so many complements give.
fn add_literal_shares(
    weights: &mut [i128],
    literals: Literals<'_>,
    negated: usize,
    coefficient: i128,
)
    requires within { All (λ l. l.variable < length weights.old) literals }
    requires negated { negated ≤ 2048 }
    requires coefficient { unsigned_abs coefficient ≤ 2 ^ 102 }
    requires small { size_of weights.old
        + shares_total (own_shares negated coefficient literals) ≤ 2 ^ 126 }
    ensures { Gains (own_shares negated coefficient literals.entry) weights.old weights.new }
{
    for literal in literals {
        let share = literal_share(literal, negated, coefficient);
        add_share(weights, literal.variable as usize, share);
    }
}

/// How often the new node after k others of a positive term counts in its own weight.
fn node_times(degree: usize, negated: usize, k: usize) -> i128
    requires degree { degree ≤ 2048 }
    requires negated { negated ≤ degree }
    requires place { 2 * k + 2 ≤ degree }
    ensures value { result ≡ pos (factor degree k) *ℤ (pos (2 * k + 2) -ℤ pos negated) -ℤ pos 1 }
{
    i128::from(factor(degree, k)) * ((2 * k + 2) as i128 - negated as i128) - 1
}

/// What the new node after k others of a positive term adds to its own weight.
#[tactic(auto, using(crate::proofs::GainedShares::count_bound))]
fn node_share(degree: usize, negated: usize, coefficient: i128, k: usize) -> i128
    requires degree { degree ≤ 2048 }
    requires negated { negated ≤ degree }
    requires place { 2 * k + 2 ≤ degree }
    requires coefficient { unsigned_abs coefficient ≤ 2 ^ 102 }
    ensures { result ≡ (node_share degree negated coefficient 0 k).1 }
{
    product(coefficient, node_times(degree, negated, k))
}

/// Adds what the new nodes of a positive term with so many complements give.
fn add_node_shares(
    weights: &mut [i128],
    degree: usize,
    negated: usize,
    coefficient: i128,
    first_node: usize,
)
    requires nodes { first_node + nodes_for degree ≤ length weights.old }
    requires degree { degree ≤ 2048 }
    requires negated { negated ≤ degree }
    requires coefficient { unsigned_abs coefficient ≤ 2 ^ 102 }
    requires small { size_of weights.old
        + shares_total (new_shares degree negated coefficient first_node) ≤ 2 ^ 126 }
    ensures { Gains (new_shares degree negated coefficient first_node) weights.old weights.new }
{
    for k in 0..nodes_for(degree) {
        let share = node_share(degree, negated, coefficient, k);
        add_share(weights, first_node + k, share);
    }
}

/// Adds what a negative term with so many complements gives.
fn add_negative(weights: &mut [i128], node: usize, degree: usize, negated: usize, coefficient: i128)
    requires node { node < length weights.old }
    requires degree { degree ≤ 2048 }
    requires negated { negated ≤ degree }
    requires coefficient { unsigned_abs coefficient ≤ 2 ^ 102 }
    requires small { size_of weights.old
        + unsigned_abs (coefficient *ℤ (pos (negated + 1) -ℤ pos degree)) ≤ 2 ^ 126 }
    ensures { Gain ((node, coefficient *ℤ (pos (negated + 1) -ℤ pos degree)) ∷ [])
        (unsigned_abs (coefficient *ℤ (pos (negated + 1) -ℤ pos degree)))
        weights.old weights.new }
{
    let share = product(coefficient, (negated + 1) as i128 - degree as i128);
    add_share(weights, node, share);
}

/// Adds what a positive term with so many complements gives.
fn add_positive(
    weights: &mut [i128],
    literals: Literals<'_>,
    negated: usize,
    coefficient: i128,
    node: usize,
)
    requires within { All (λ l. l.variable < length weights.old) literals }
    requires nodes { node + nodes_for (length literals) ≤ length weights.old }
    requires degree { length literals ≤ 2048 }
    requires negated { negated ≤ length literals }
    requires coefficient { unsigned_abs coefficient ≤ 2 ^ 102 }
    requires small { size_of weights.old
        + shares_total (own_shares negated coefficient literals)
        + shares_total (new_shares (length literals) negated coefficient node) ≤ 2 ^ 126 }
    ensures { GainsBoth (own_shares negated coefficient literals.entry)
        (new_shares (length literals.entry) negated coefficient node)
        weights.old weights.new }
{
    let degree = literals.len();
    add_literal_shares(weights, literals, negated, coefficient);
    add_node_shares(weights, degree, negated, coefficient, node);
}

/// Adds what a long term with so many complements gives to the weights of nodes.
fn add_term_shares(weights: &mut [i128], term: LongTerm<'_>, negated: usize)
    requires set { IsTermSet (length weights.old) term.literals }
    requires long { 3 ≤ length term.literals }
    requires negated { negated ≡ complements term.literals }
    requires nodes { term.first_node + new_nodes (term.literals, term.coefficient)
        ≤ length weights.old }
    requires coefficient { unsigned_abs term.coefficient ≤ 2 ^ 102 }
    requires small { size_of weights.old
        + shares_total (term_shares (term.literals, term.coefficient) term.first_node) ≤ 2 ^ 126 }
    ensures { Gains
        (term_shares (term.entry.literals, term.entry.coefficient) term.entry.first_node)
        weights.old weights.new }
{
    let LongTerm {
        literals,
        coefficient,
        first_node,
    } = term;
    let node = first_node as usize;
    if coefficient < 0 {
        add_negative(weights, node, literals.len(), negated, coefficient);
    } else {
        add_positive(weights, literals, negated, coefficient, node);
    }
}

/// What a long term with so many complements gives to the constant.
fn long_constant(negated: usize, coefficient: i128) -> i128
    requires negated { negated ≤ 2048 }
    requires coefficient { unsigned_abs coefficient ≤ 2 ^ 102 }
    ensures { (ls : List Literal) → negated ≡ complements ls
        → result ≡ long_constant (ls, coefficient) }
{
    if coefficient < 0 {
        0
    } else {
        product(
            coefficient,
            (negated * negated.saturating_sub(1) / 2) as i128,
        )
    }
}

/// Adds what long terms give to the weights of nodes, and says what they give to the constant.
pub(crate) fn add_shares(weights: &mut [i128], long: &LongTable) -> i128
    requires nodes { length weights.old ≡ node_count long.now }
    requires small { size_of weights.old + terms_total long.now.terms * 2 ^ 24 ≤ 2 ^ 126 }
    ensures weights { Gains (all_shares long.now.terms long.now.width) weights.old weights.new }
    ensures constant { result ≡ total_by long_constant long.now.terms }
{
    let mut constant = 0;
    for i in 0..long.len() {
        let negated = complements(long.at(i).literals);
        let term = long.at(i);
        let coefficient = term.coefficient;
        add_term_shares(weights, term, negated);
        constant += long_constant(negated, coefficient);
    }
    constant
}

/// The weights of all nodes, of which those of new nodes and what long terms give come to those
/// given, and what long terms give to the constant.
pub(crate) fn with_long(weights: Vec<i128>, long: &LongTable) -> Result<(Vec<i128>, i128), NoMemory>
    requires width { length weights.items ≡ long.now.width }
    requires small { size_of weights.items + terms_total long.now.terms * 2 ^ 24 ≤ 2 ^ 126 }
    ensures weights { IfOk result (λ made. Gains (all_shares long.now.terms long.now.width)
        (widened (node_count long.now) weights.items) made.0.items) }
    ensures constant { IfOk result (λ made. made.1 ≡ total_by long_constant long.now.terms) }
{
    let mut all = widened(weights, long.node_count() as usize)?;
    let constant = add_shares(&mut all, long);
    Ok((all, constant))
}
