//! Laws of the definitions, as contracts of functions with nothing to run.

ghost use Rattle.std.specs.Prelude.{◌≡◌, ℤ, ◌<◌, ◌^◌, nat_abs};
ghost use Rattle.std.specs.Fmt.{signed_decimal};
ghost use Rattle.whole_text.specs.Numbers.{number_of};

/// What `push_number` writes is read by `number` as the same number, where its size is below
/// 2 ^ 64.
#[tactic(auto, using(crate::proofs::NumberAgain::number_again))]
pub fn laws_of_numbers()
    ensures again { (z : ℤ) → nat_abs z < 2 ^ 64 → number_of (signed_decimal z) ≡ Some z }
{}
