//! Penalties of parts, their own or that of the whole.
ghost use Rattle.std.specs.Prelude.{◌≡◌};
ghost use Rattle.problem_form.specs.PartPenalties.{own, rest};

/// The penalty of the first part: its own where one is listed that is less, else that of the whole.
#[inline(always)]
pub(crate) fn own_or(listed: &[u64], penalty: u128) -> u128
    ensures { result ≡ own penalty listed.now }
{
    match listed.first() {
        Some(first) => u128::from(*first).min(penalty),
        None => penalty,
    }
}

/// The penalties of the parts after the first one.
#[inline(always)]
pub(crate) fn after_first(listed: &[u64]) -> &[u64]
    ensures { result.now ≡ rest listed.now }
{
    if listed.is_empty() {
        listed
    } else {
        &listed[1..]
    }
}
