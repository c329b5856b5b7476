//! Laws, as functions without code: each contract is a statement of `specs/`.
ghost use Rattle.run_steps.specs.Plans.{PlansMakeOneModel};
ghost use Rattle.program_run.specs.Widths.{TheFirstWideNodeIsNamed};
ghost use Rattle.program_run.specs.Thresholds.{RowsGoByTheThreshold};

/// A plan makes one model, on a graph too, where parents and places are the least. So `decode` and
/// `extend` speak of the model that `compile` writes.
pub fn plans_make_one_model()
    ensures { PlansMakeOneModel }
{}

/// A model is too wide exactly where a node has more than 16 neighbours when it is eliminated, and the
/// first such node is named.
pub fn the_first_wide_node_is_named()
    ensures { TheFirstWideNodeIsNamed }
{}

/// A least state tells a least assignment and the optimum where unit times its energy is at most the
/// threshold, and else that the source is infeasible.
pub fn rows_go_by_the_threshold()
    ensures { RowsGoByTheThreshold }
{}
