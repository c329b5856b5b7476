//! Terms of at most two literals, as they go at once to the constant, the weights of nodes and the
//! pairs.
ghost use Rattle.std.specs.Prelude.{◌≡◌, ◌+◌, ◌*◌, ◌≤◌, ◌<◌, ◌^◌, ◌++◌, ◌∷◌, [], OnOk, OnErr, All, length, neg_ℤ, unsigned_abs};
ghost use Rattle.quad_form.specs.Short.{moved_share, signed, short_constant, short_couplers, short_shares};
ghost use Rattle.quad_form.specs.Sums.{size_of, Gain};

use crate::weights::{add_weight, signed};
use base::NoMemory;
use literal_lists::Literal;
use pair_sums::GatheredPairs;

/// Adds the share of a literal that is a term by itself.
#[inline(always)]
fn add_alone(weights: &mut [i128], literal: Literal, coefficient: i128)
    requires within { literal.variable < length weights.old }
    requires small { size_of weights.old + unsigned_abs coefficient ≤ 2 ^ 126 }
    ensures { Gain ((literal.variable, signed literal coefficient) ∷ []) (unsigned_abs coefficient)
        weights.old weights.new }
{
    add_weight(
        weights,
        literal.variable as usize,
        signed(literal, coefficient),
    );
}

/// Adds what a pair moves to the weight of one literal, where the other is a complement.
#[inline(always)]
fn move_weight(weights: &mut [i128], literal: Literal, other: Literal, coefficient: i128)
    requires within { literal.variable < length weights.old }
    requires small { size_of weights.old + unsigned_abs coefficient ≤ 2 ^ 126 }
    ensures { Gain (moved_share literal other coefficient) (unsigned_abs coefficient)
        weights.old weights.new }
{
    if other.negated {
        add_alone(weights, literal, coefficient);
    }
}

/// Adds what a pair moves to the weight of each of its literals.
#[inline(always)]
fn move_weights(weights: &mut [i128], first: Literal, second: Literal, coefficient: i128)
    requires first { first.variable < length weights.old }
    requires second { second.variable < length weights.old }
    requires small { size_of weights.old + 2 * unsigned_abs coefficient ≤ 2 ^ 126 }
    ensures { Gain (moved_share first second coefficient ++ moved_share second first coefficient)
        (2 * unsigned_abs coefficient) weights.old weights.new }
{
    move_weight(weights, first, second, coefficient);
    move_weight(weights, second, first, coefficient);
}

/// Adds what a term gives to the weights of nodes.
#[inline(always)]
pub(crate) fn add_short_shares(weights: &mut [i128], literals: &[Literal], coefficient: i128)
    requires within { All (λ l. l.variable < length weights.old) literals.now }
    requires small { size_of weights.old + 2 * unsigned_abs coefficient ≤ 2 ^ 126 }
    ensures { Gain (short_shares (literals.now, coefficient)) (2 * unsigned_abs coefficient)
        weights.old weights.new }
{
    match literals {
        [] => {}
        [only] => add_alone(weights, *only, coefficient),
        [first, second, ..] => move_weights(weights, *first, *second, coefficient),
    }
}

/// What a term gives to the constant: all of it, where all its literals are complements.
#[inline(always)]
pub(crate) fn constant_of(literals: &[Literal], coefficient: i128) -> i128
    ensures { result ≡ short_constant (literals.now, coefficient) }
{
    let counts = match literals {
        [] => true,
        [only] => only.negated,
        [first, second, ..] => first.negated && second.negated,
    };
    if counts { coefficient } else { 0 }
}

/// A weight with its sign turned. Few pairs of literals turn it, so the others take a branch.
#[inline(never)]
fn turned(weight: i128) -> i128
    requires { unsigned_abs weight ≤ 2 ^ 126 }
    ensures { result ≡ neg_ℤ weight }
{
    -weight
}

/// A weight, whose sign two complements turn twice.
#[inline(always)]
fn twice_signed(first: Literal, second: Literal, weight: i128) -> i128
    requires { unsigned_abs weight ≤ 2 ^ 126 }
    ensures { result ≡ signed first (signed second weight) }
{
    if first.negated == second.negated {
        weight
    } else {
        turned(weight)
    }
}

/// Appends the coupler of a term of two literals. Where memory is refused the list stays as it was.
#[inline(always)]
pub(crate) fn push_short(
    pairs: &mut GatheredPairs,
    literals: &[Literal],
    coefficient: i128,
) -> Result<(), NoMemory>
    requires narrow { All (λ l. l.variable < 2 ^ 32) literals.now }
    requires small { unsigned_abs coefficient ≤ 2 ^ 126 }
    ensures pushed { OnOk result (pairs.new
        ≡ pairs.old ++ short_couplers (literals.now, coefficient)) }
    ensures unchanged { OnErr result (pairs.new ≡ pairs.old) }
{
    let [first, second, ..] = literals else {
        return Ok(());
    };
    let weight = twice_signed(*first, *second, coefficient);
    pairs.push(first.variable as u32, second.variable as u32, weight)
}
