//! Laws, as functions without code: each contract is a statement of `specs/`.
ghost use Rattle.sample_text.specs.Read.{EachSampleIsRead};

/// Each sample text of at most 100,000 clauses is read as a weighted CNF, and passes no limit.
pub fn laws_of_samples()
    ensures read { EachSampleIsRead }
{}
