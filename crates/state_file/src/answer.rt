//! Why no state was read.

ghost use Rattle.std.specs.Prelude.{◌≡◌};
ghost use Rattle.state_file.specs.declared.answer.StateAnswer.TheVariants.{NoMemory as no_memory};

use base::NoMemory;

/// Why no state was read from a text.
#[derive(Clone, Copy, Debug, PartialEq, Eq)]
pub enum StateAnswer {
    /// No line of the text is a state of the length that was asked for.
    NoState,
    NoMemory,
}

impl From<NoMemory> for StateAnswer {
    ghost from_gives = { λ _ answer. answer ≡ no_memory };

    fn from(_: NoMemory) -> StateAnswer {
        StateAnswer::NoMemory
    }
}
