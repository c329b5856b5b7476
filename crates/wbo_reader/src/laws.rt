//! Laws, as functions without code: each contract is a statement of `specs/`.
ghost use Rattle.wbo_reader.specs.Extensions.{ExtendsAfterRewrites};
ghost use Rattle.wbo_reader.specs.Reading.{
  ReadingIsNormal,
  ReadingKeepsCosts,
  RewritesItsText,
  WordsAreEnough,
};
ghost use Rattle.wbo_reader.specs.Rewriting.{
  CarriesAssignments,
  RewritesItsSource,
  RewrittenIsSound,
  TopIsABound,
  UpperIsSoftWeights,
};

/// The rewritten problem stands for its source, the extension of each assignment costs what the
/// assignment does, and no whole cost is above the sum of the soft weights. The top may be a bound
/// in place of a constraint.
pub fn laws_of_rewriting()
    ensures rewrites { RewritesItsSource }
    ensures carries { CarriesAssignments }
    ensures sound { RewrittenIsSound }
    ensures upper { UpperIsSoftWeights }
    ensures bound { TopIsABound }
{}

/// A state that extends a list of a rewritten form extends an assignment of the form.
pub fn laws_of_extensions()
    ensures { ExtendsAfterRewrites }
{}

/// What is read is in normal form and costs what its text costs, the problem that it is rewritten to
/// stands for the text, and all constraints are read.
pub fn laws_of_readings()
    ensures normal { ReadingIsNormal }
    ensures costs { ReadingKeepsCosts }
    ensures rewrites { RewritesItsText }
    ensures enough { WordsAreEnough }
{}
