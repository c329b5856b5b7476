//! The scope of penalties.

/// Where penalties come from: one for the whole problem, or one of its own for each part.
#[derive(Clone, Copy, Debug, PartialEq, Eq)]
pub enum PenaltyScope {
    Global,
    Local,
}
