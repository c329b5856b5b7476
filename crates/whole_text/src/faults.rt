//! Why a text could not be read.

ghost use Rattle.std.specs.Prelude.{◌≡◌};
ghost use Rattle.whole_text.specs.declared.faults.TextAnswer.TheVariants as answers;

use base::NoMemory;
use std::alloc::{AllocError, AllocFailed};

/// What stood where it cannot stand.
#[derive(Clone, Copy, Debug, PartialEq, Eq)]
pub enum TextKind {
    /// Another word had to stand here.
    Word,
    /// It is no number.
    Number,
    /// It is a number outside its range.
    Range,
    /// The text ended too soon.
    End,
    /// It stands after the end of what was to be read.
    Extra,
}

/// The first fault of a text, and the line where it stands.
#[derive(Clone, Copy, Debug, PartialEq, Eq)]
pub struct TextFault {
    pub kind: TextKind,
    pub line: u64,
}

/// Why a reader gave no value.
#[derive(Clone, Copy, Debug, PartialEq, Eq)]
pub enum TextAnswer {
    Bad(TextFault),
    NoMemory,
}

impl From<TextFault> for TextAnswer {
    ghost from_gives = { λ f e. e ≡ answers.Bad f };

    fn from(f: TextFault) -> TextAnswer {
        TextAnswer::Bad(f)
    }
}

impl From<NoMemory> for TextAnswer {
    ghost from_gives = { λ _ e. e ≡ answers.NoMemory };

    fn from(_: NoMemory) -> TextAnswer {
        TextAnswer::NoMemory
    }
}

impl From<AllocError> for TextAnswer {
    ghost from_gives = { λ _ e. e ≡ answers.NoMemory };

    fn from(_: AllocError) -> TextAnswer {
        TextAnswer::NoMemory
    }
}

impl<T: Drop> From<AllocFailed<T>> for TextAnswer {
    ghost from_gives = { λ _ e. e ≡ answers.NoMemory };

    fn from(_: AllocFailed<T>) -> TextAnswer {
        TextAnswer::NoMemory
    }
}
