//! Laws, as functions without code: each contract is a statement of `specs/`.
ghost use Rattle.form_steps.specs.Stated.{KeepsAfterKeeps, KeepsAfterRelaxes, KeepsStaysAbove, ReducesAfterRelaxes, ReducesStaysAbove, RelaxesAlike, RelaxesIsAtLeast, RelaxesAfterRewrites, StaysAboveAlike};

/// Steps compose, also where a check that keeps the form stands between them.
pub fn relations_compose()
    ensures relaxed { KeepsAfterRelaxes }
    ensures kept { KeepsAfterKeeps }
    ensures reduced { ReducesAfterRelaxes }
    ensures alike { RelaxesAlike }
{}

/// What no state lies below stays there from step to step, and what relaxes does so at least.
pub fn bounds_compose()
    ensures at_least { RelaxesIsAtLeast }
    ensures kept { KeepsStaysAbove }
    ensures reduced { ReducesStaysAbove }
    ensures alike { StaysAboveAlike }
{}

/// A source that is rewritten with more variables is relaxed where what it becomes is.
pub fn rewriting_relaxes()
    ensures { RelaxesAfterRewrites }
{}
