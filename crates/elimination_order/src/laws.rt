//! Laws of models by new numbers, as functions without code: each contract is a statement of
//! `specs/`.
ghost use Rattle.elimination_order.specs.Stated.{NumbersKeepEnergies, NumbersKeepFirst, NumbersKeepNarrow, NumbersKeepWidths, NumbersTakeBack, OrderFromLastIsUsual, OrdersNameAll, WidthsFromLastAreUsual};

/// What new numbers do to states and their energies.
pub fn laws_of_numbers()
    ensures energies { NumbersKeepEnergies }
    ensures back { NumbersTakeBack }
    ensures first { NumbersKeepFirst }
    ensures widths { NumbersKeepWidths }
    ensures narrow { NumbersKeepNarrow }
{}

/// What the reading of an order says of it, and what the usual order says of states and of
/// widths.
pub fn laws_of_orders()
    ensures read { OrdersNameAll }
    ensures usual { OrderFromLastIsUsual }
    ensures usual_widths { WidthsFromLastAreUsual }
{}
