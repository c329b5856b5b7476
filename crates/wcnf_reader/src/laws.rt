//! Laws, as functions without code.
ghost use Rattle.wcnf_reader.specs.Wcnf.{WordsAreEnough};
ghost use Rattle.wcnf_reader.specs.Cost.{ReadingKeepsCosts};

/// The problem that is read costs what its text costs, and in the layout of 2022 all clauses are
/// read.
pub fn laws_of_readings()
    ensures costs { ReadingKeepsCosts }
    ensures enough { WordsAreEnough }
{}
