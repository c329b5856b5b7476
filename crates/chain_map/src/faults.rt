//! What is wrong with a map of chains.
ghost use Rattle.std.specs.Prelude.{◌≡◌};
ghost use Rattle.chain_map.specs.declared.faults.CheckAnswer.TheVariants as answers;

use base::NoMemory;
use std::alloc::{AllocError, AllocFailed};

/// The first fault of a map.
#[derive(Clone, Copy, Debug, PartialEq, Eq)]
pub enum EmbedFault {
    /// There are so many chains, and another number of nodes.
    ChainCount(usize),
    /// The chain of this node is empty.
    EmptyChain(usize),
    /// The chain of this node lists a number that no qubit has.
    NoSuchQubit(usize, u64),
    /// This qubit is listed twice.
    Repeated(u64),
    /// No walk inside the chain of this node leads from its first qubit to this one.
    Disconnected(usize, u64),
    /// These two nodes have a coupling, and no qubit of the one is joined to one of the other.
    NoCoupler(usize, usize),
    /// There are so many nodes, and only so many places for them.
    TooManyNodes(usize, usize),
}

/// Why a map was not made or not taken.
#[derive(Clone, Copy, Debug, PartialEq, Eq)]
pub enum CheckAnswer {
    Fault(EmbedFault),
    NoMemory,
}

impl From<NoMemory> for CheckAnswer {
    ghost from_gives = { λ _ e. e ≡ answers.NoMemory };

    fn from(_: NoMemory) -> CheckAnswer {
        CheckAnswer::NoMemory
    }
}

impl From<AllocError> for CheckAnswer {
    ghost from_gives = { λ _ e. e ≡ answers.NoMemory };

    fn from(_: AllocError) -> CheckAnswer {
        CheckAnswer::NoMemory
    }
}

impl<T: Drop> From<AllocFailed<T>> for CheckAnswer {
    ghost from_gives = { λ _ e. e ≡ answers.NoMemory };

    fn from(_: AllocFailed<T>) -> CheckAnswer {
        CheckAnswer::NoMemory
    }
}
