//! The laws of the promise, as functions without code: each contract is a statement of `specs/`.
ghost use Rattle.model_pipeline.specs.faithful.Stated.{StandingIsFaithful, RelaxedIsFaithful, EnergiesAreBounded, RelaxedStandsAtLeast, LeastAfterLeast, ReducesAfterLeast, LeastAfterRewrites, LeastStatesTell};

/// A well-formed model whose least states stand for the least assignments of a source, with what
/// is stated of it, is faithful to it.
pub fn standing_is_faithful()
    ensures { StandingIsFaithful }
{}

/// A well-formed model that relaxes a source, with what is stated of it, is faithful to it.
pub fn relaxed_is_faithful()
    ensures { RelaxedIsFaithful }
{}

/// No energy of a bounded model is 2^121 in size.
pub fn energies_are_bounded()
    ensures { EnergiesAreBounded }
{}

/// Least states stand for least assignments wherever a form relaxes a source, and after each step
/// that keeps least states.
pub fn least_states_compose()
    ensures relaxed { RelaxedStandsAtLeast }
    ensures kept { LeastAfterLeast }
    ensures reduced { ReducesAfterLeast }
    ensures rewritten { LeastAfterRewrites }
{}

/// A least state of a faithful model tells the optimum of the source, or that it is infeasible.
pub fn least_states_tell()
    ensures { LeastStatesTell }
{}
