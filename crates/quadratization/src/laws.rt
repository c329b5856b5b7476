//! Laws, as functions without code: each contract is a statement of `specs/`.
ghost use Rattle.quadratization.specs.Stated.{
  ConstantsClose,
  CouplersClose,
  ImageHasSums,
  ImageIsQuad,
  PlacesMakeRows,
  PlacesPermute,
  RowsFollow,
  SharesClose,
  SizesGrow,
  SumIsImage,
  SumsGiveImage,
  TotalsGrow,
};

/// The sums of all parts make the form of the steps in a row, and how large it is.
pub fn laws_of_sums()
    ensures parts { SumsGiveImage }
    ensures closed { SumIsImage }
    ensures has { ImageHasSums }
    ensures quad { ImageIsQuad }
    ensures total { TotalsGrow }
    ensures size { SizesGrow }
{}

/// What stands for a long term, multiplied out.
pub fn laws_of_long_terms()
    ensures constants { ConstantsClose }
    ensures shares { SharesClose }
    ensures couplers { CouplersClose }
{}

/// Rows of couplers, one after another.
pub fn laws_of_rows()
    ensures places { PlacesMakeRows }
    ensures permuted { PlacesPermute }
    ensures follow { RowsFollow }
{}
