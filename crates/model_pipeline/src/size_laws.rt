//! Laws of sizes, as a function without code: its contract is a statement of `specs/`.
ghost use Rattle.model_pipeline.specs.Sizes.{NodesAreFew};

/// The nodes of a problem's quadratic form are at most its variables and its auxiliary bits.
pub fn laws_of_sizes()
    ensures few { NodesAreFew }
{}
