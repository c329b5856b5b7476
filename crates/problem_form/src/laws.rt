//! Laws, as functions without code: each contract is a statement of `specs/`.
ghost use Rattle.problem_form.specs.Limits.{DigitsAreLeast};
ghost use Rattle.problem_form.specs.NormalForm.{NormalFormKeepsCosts, PartsAddUp};

/// The normal form costs what the problem as written costs.
pub fn normal_form_keeps_costs()
    ensures { NormalFormKeepsCosts }
{}

/// Parts that are added one by one give the normal form of the source as written.
pub fn parts_add_up()
    ensures { PartsAddUp }
{}

/// A number's binary digits hold it, and one fewer do not.
pub fn digits_are_least()
    ensures { DigitsAreLeast }
{}
