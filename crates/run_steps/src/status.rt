//! How a run ends.
ghost use Rattle.std.specs.Prelude.{◌≡◌};

use base::NoMemory;
use chain_map::{CheckAnswer, EmbedFault};
use command_words::Which;
use posiform_check::ProofFault;
use problem_form::LimitKind;
use whole_text::TextKind;

/// How a run ends: each refusal with what it found.
#[derive(Clone, Copy, Debug, PartialEq, Eq)]
pub enum Status {
    Done,
    Usage(usize),
    ReadFault(Which),
    WriteFault,
    BadText(Which, TextKind, u64),
    Limit(Which, LimitKind, u128),
    NotEmbedded(EmbedFault),
    NoState(usize),
    TooWide(u32, u32),
    NotProved(ProofFault),
    NoMemory,
}

impl From<NoMemory> for Status {
    ghost use Rattle.run_steps.specs.declared.status.Status.TheVariants as statuses;

    ghost from_gives = { λ _ status. status ≡ statuses.NoMemory };

    fn from(_: NoMemory) -> Status {
        Status::NoMemory
    }
}

impl From<CheckAnswer> for Status {
    ghost use Rattle.run_steps.specs.Statuses.{unembedded};

    ghost from_gives = { λ answer status. status ≡ unembedded answer };

    fn from(answer: CheckAnswer) -> Status {
        match answer {
            CheckAnswer::Fault(fault) => Status::NotEmbedded(fault),
            CheckAnswer::NoMemory => Status::NoMemory,
        }
    }
}

impl Status {
    ghost use Rattle.run_steps.specs.Statuses.{exit_number};

    /// The exit status of the program.
    pub fn number(self) -> u8
        ensures { result ≡ exit_number self }
    {
        match self {
            Status::Done => 0,
            Status::Usage(_) => 2,
            Status::ReadFault(_) => 3,
            Status::WriteFault => 4,
            Status::BadText(..) => 5,
            Status::Limit(..) => 6,
            Status::NotEmbedded(_) => 7,
            Status::NoState(_) => 8,
            Status::NoMemory => 9,
            Status::NotProved(_) => 10,
            Status::TooWide(..) => 11,
        }
    }
}
