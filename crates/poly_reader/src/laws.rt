//! Laws, as functions without code.
ghost use Rattle.poly_reader.specs.Numbering.{NamesAreNumbered};
ghost use Rattle.poly_reader.specs.Cost.{ReadingKeepsCosts};

/// The problem that is read costs what its text costs, and each name has a number of its own.
pub fn laws_of_readings()
    ensures costs { ReadingKeepsCosts }
    ensures numbers { NamesAreNumbered }
{}
