//! Laws, as functions without code.
ghost use Rattle.opb_reader.specs.Opb.{WordsAreEnough};
ghost use Rattle.opb_reader.specs.Cost.{ReadingKeepsCosts};

/// The problem that is read costs what its text costs, and all terms and constraints are read.
pub fn laws_of_readings()
    ensures costs { ReadingKeepsCosts }
    ensures enough { WordsAreEnough }
{}
