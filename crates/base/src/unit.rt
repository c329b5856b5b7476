//! The unit of a written model.

/// How the printed unit is chosen: it is 1, or the greatest whole number that divides all weights.
#[derive(Clone, Copy, Debug, PartialEq, Eq)]
pub enum UnitChoice {
    One,
    Reduce,
}
