//! Costs, figures and the want of memory.
ghost use Rattle.std.specs.Prelude.{◌≡◌, ◌+ℤ◌, ◌*ℤ◌, FitsSigned};
ghost use Rattle.std.specs.Int.{w128};
ghost use Rattle.base.specs.Figures.{figures_after, figures_moved};

use std::alloc::{AllocError, AllocFailed};

/// Memory was refused. It is an answer of its own and is merged with no other.
#[derive(Clone, Copy, Debug, PartialEq, Eq)]
pub struct NoMemory;

impl From<AllocError> for NoMemory {
    fn from(_: AllocError) -> NoMemory {
        NoMemory
    }
}

impl<T: Drop> From<AllocFailed<T>> for NoMemory {
    fn from(_: AllocFailed<T>) -> NoMemory {
        NoMemory
    }
}

/// What an assignment costs. `Infinite` is above every whole number.
#[derive(Clone, Copy, Debug, PartialEq, Eq)]
pub enum Cost {
    Whole(i128),
    Infinite,
}

/// How energies stand for costs: unit times the least energy is `scale * least cost + offset`, and
/// a source is infeasible exactly where this is above `threshold`.
#[derive(Clone, Copy, Debug, PartialEq, Eq)]
pub struct Figures {
    pub scale: i128,
    pub offset: i128,
    pub threshold: i128,
}

impl Figures {
    /// The figures after a step of this scale and offset.
    pub fn after(self, scale: i128, offset: i128) -> Figures
        requires scale { FitsSigned w128 (self.scale *ℤ scale) }
        requires product { FitsSigned w128 (scale *ℤ self.offset) }
        requires sum { FitsSigned w128 (scale *ℤ self.offset +ℤ offset) }
        requires product_2 { FitsSigned w128 (scale *ℤ self.threshold) }
        requires sum_2 { FitsSigned w128 (scale *ℤ self.threshold +ℤ offset) }
        ensures { result ≡ figures_after self scale offset }
    {
        Figures {
            scale: self.scale * scale,
            offset: scale * self.offset + offset,
            threshold: scale * self.threshold + offset,
        }
    }

    /// The figures where every energy is moved by the same number.
    pub fn moved(self, by: i128) -> Figures
        requires offset { FitsSigned w128 (self.offset +ℤ by) }
        requires threshold { FitsSigned w128 (self.threshold +ℤ by) }
        ensures { result ≡ figures_moved self by }
    {
        Figures {
            offset: self.offset + by,
            threshold: self.threshold + by,
            ..self
        }
    }
}
