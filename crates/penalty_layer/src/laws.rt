//! Laws, as functions without code: each contract is a statement of `specs/`.
ghost use Rattle.penalty_layer.specs.Stated.{GlobalIsEnough, PricesAreLeast, SquaresAreProducts, SquaresCost, WeightsReach, WeightsStay};

/// What slack bits reach, what squares cost, and that they are products.
pub fn laws_of_squares()
    ensures reach { WeightsReach }
    ensures stay { WeightsStay }
    ensures cost { SquaresCost }
    ensures products { SquaresAreProducts }
{}

/// What an assignment costs with its penalties, and that one penalty for all parts is enough.
pub fn laws_of_penalties()
    ensures prices { PricesAreLeast }
    ensures global { GlobalIsEnough }
{}
