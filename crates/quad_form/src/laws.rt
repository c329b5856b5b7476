//! Laws, as functions without code: each contract is a statement of `specs/`.
ghost use Rattle.quad_form.specs.Stated.{WrittenIsWellFormed, WrittenRelaxes, WrittenStaysAbove};

/// What a written model says of the form that it is made of.
pub fn written_stands_for_its_form()
    ensures well_formed { WrittenIsWellFormed }
    ensures relaxes { WrittenRelaxes }
    ensures stays { WrittenStaysAbove }
{}
