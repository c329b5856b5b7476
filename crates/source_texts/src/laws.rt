//! Laws, as functions without code: each contract is a statement of `specs/`.
ghost use Rattle.source_texts.specs.Sources.{
  ClausesHaveNoConflicts,
  PenalizedCostsAsSources,
  PenalizedStandsForSources,
  PlainOwnsAll,
  ProblemsCostAsSources,
  ProblemsStandForSources,
  RelaxesStoodFor,
  SlackedCostsAsSources,
  SlackedStandsForSources,
  StaysStoodFor,
  WordsAreReadAsTexts,
};

/// The problem that a text is read into stands for the source that the text says, and what relaxes
/// the one relaxes the other.
pub fn problems_stand_for_sources()
    ensures stands { ProblemsStandForSources }
    ensures relaxed { RelaxesStoodFor }
{}

/// The problem that a text is read into costs what the source costs that the text says. Where the
/// source has no soft constraints, the problem has no more variables, and what no state lies below of
/// the one, none lies below of the other.
pub fn problems_cost_as_sources()
    ensures costs { ProblemsCostAsSources }
    ensures plain { PlainOwnsAll }
    ensures stays { StaysStoodFor }
{}

/// In each format the words of a text are read as the text is, however it was cut into pieces.
pub fn words_are_read_as_texts()
    ensures { WordsAreReadAsTexts }
{}

/// A problem with clauses in place of its conflicts, and of its covers, stands for the source, and
/// costs what it does, as the problem did; and the problem of a weighted CNF has none.
pub fn slack_keeps_sources()
    ensures stands { SlackedStandsForSources }
    ensures costs { SlackedCostsAsSources }
    ensures clauses { ClausesHaveNoConflicts }
{}

/// A problem whose hard parts have penalties of their own stands for the source in their scope, where
/// they are enough, and costs what it does, as the problem did.
pub fn penalties_keep_sources()
    ensures stands { PenalizedStandsForSources }
    ensures costs { PenalizedCostsAsSources }
{}
