//! Slack bits: how many there are, their weights, and those of an assignment.
ghost use Rattle.std.specs.Prelude.{◌≡◌, ◌+◌, ◌-◌, ◌<◌, ◌≤◌, ◌^◌, ◌++◌, nat_lt, if◌then◌else◌, OnOk, IfOk};
ghost use Rattle.std.specs.List.{flat_map, sum_by};
ghost use Rattle.problem_form.specs.Problems.{constraint_total};
ghost use Rattle.problem_form.specs.Limits.{slack_bits};
ghost use Rattle.penalty_layer.specs.Slack.{bits_for, clamped, digit_bits, last_weight, value_bits};
ghost use Rattle.penalty_layer.specs.Squares.{slack_state};

use base::NoMemory;
use problem_form::{
    ConstraintList, ConstraintRef, binary_digits_of, slack_range_of, sum_of_products,
};
use std::alloc::Global;

/// How many slack bits a constraint has.
pub(crate) fn slack_bits_of(constraint: &ConstraintRef<'_>) -> usize
    requires { constraint_total constraint.now < 2 ^ 100 }
    ensures { result ≡ slack_bits constraint.now }
{
    binary_digits_of(slack_range_of(constraint)) as usize
}

fn power_of_2(exponent: u32) -> u128
    requires { exponent < 127 }
    ensures { result ≡ 2 ^ exponent }
{
    1 << exponent
}

/// What bits of the weights 1, 2, 4, .., so many of them, leave of a range.
pub(crate) fn last_weight(range: u128, count: u32) -> u128
    requires count { count < 127 }
    requires range { range < 2 ^ 127 }
    ensures { result ≡ last_weight range count }
{
    (range + 1).saturating_sub(power_of_2(count))
}

/// The value nearest to a number in 0 to a range.
fn clamped(range: u128, number: &i128) -> u128
    ensures { result ≡ clamped range number.now }
{
    if *number < 0 {
        0
    } else {
        number.unsigned_abs().min(range)
    }
}

/// What the last bit leaves of a value.
fn rest_of(value: u128, last: bool, weight: u128) -> u128
    ensures { result ≡ (if last then value - weight else value) }
{
    if last {
        value.saturating_sub(weight)
    } else {
        value
    }
}

/// Appends so many binary digits, the least first, and a last bit.
fn push_digits(bits: &mut Vec<bool>, count: u32, value: u128, last: bool) -> Result<(), NoMemory>
    ensures { OnOk result (bits.new.items ≡ bits.old.items ++ digit_bits count value last) }
{
    let mut rest = value;
    for _ in 0..count {
        bits.push(rest % 2 == 1)?;
        rest /= 2;
    }
    bits.push(last)?;
    Ok(())
}

/// Appends the slack bits of a value.
fn push_bits(bits: &mut Vec<bool>, range: u128, value: u128) -> Result<(), NoMemory>
    requires { range < 2 ^ 100 }
    ensures { OnOk result (bits.new.items ≡ bits.old.items ++ value_bits range value) }
{
    let digits = binary_digits_of(range);
    if digits == 0 {
        return Ok(());
    }
    let count = digits - 1;
    let last = power_of_2(count) - 1 < value;
    push_digits(
        bits,
        count,
        rest_of(value, last, last_weight(range, count)),
        last,
    )
}

/// Appends the slack bits of a constraint.
fn push_slack(
    bits: &mut Vec<bool>,
    constraint: &ConstraintRef<'_>,
    x: &[bool],
) -> Result<(), NoMemory>
    requires { constraint_total constraint.now < 2 ^ 100 }
    ensures { OnOk result
        (bits.new.items ≡ bits.old.items ++ slack_state x.now constraint.now) }
{
    let range = slack_range_of(constraint);
    let above = sum_of_products(constraint.products.again(), x) - constraint.bound;
    push_bits(bits, range, clamped(range, &above))
}

/// An assignment, and the slack bits of all constraints.
pub(crate) fn extended(
    alloc: Global,
    constraints: &ConstraintList,
    x: &[bool],
) -> Result<Vec<bool>, NoMemory>
    requires { sum_by constraint_total constraints.now < 2 ^ 100 }
    ensures { IfOk result
        (λ y. y.items ≡ x.now ++ flat_map (slack_state x.now) constraints.now) }
{
    let mut bits = x.to_vec(alloc)?;
    for constraint in constraints.iter() {
        push_slack(&mut bits, &constraint, x)?;
    }
    Ok(bits)
}
