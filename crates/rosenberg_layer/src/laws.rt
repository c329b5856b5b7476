//! Laws, as functions without code.
ghost use Rattle.rosenberg_layer.specs.Stated.{
  AddsFewNodes,
  ImagesAreLow,
  ImagesGoOn,
  LowTablesStay,
  SubstitutionsEnd,
  SubstitutionsKeep,
};

/// What one substitution keeps, where the run ends, and how many nodes it adds at most.
pub fn laws_of_substitutions()
    ensures keeps { SubstitutionsKeep }
    ensures stay { LowTablesStay }
    ensures next { ImagesGoOn }
    ensures end { SubstitutionsEnd }
    ensures low { ImagesAreLow }
    ensures few { AddsFewNodes }
{}
