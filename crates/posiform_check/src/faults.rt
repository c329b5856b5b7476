//! Why a certificate proves nothing.
ghost use Rattle.std.specs.Prelude.{◌≡◌};
ghost use Rattle.posiform_check.specs.declared.faults.ProofAnswer.TheVariants as answers;

use base::NoMemory;

/// The first fault of a certificate.
#[derive(Clone, Copy, Debug, PartialEq, Eq)]
pub enum ProofFault {
    /// The line with this number is the first with a negative coefficient.
    Negative(u64),
    /// The coefficients of the model and of the certificate for the first set that differs.
    Differs(i128, i128),
    /// The energy of the state is so much above the bound.
    NotZero(i128),
}

/// Why a state was not proved.
#[derive(Clone, Copy, Debug, PartialEq, Eq)]
pub enum ProofAnswer {
    Fault(ProofFault),
    NoMemory,
}

impl From<NoMemory> for ProofAnswer {
    ghost from_gives = { λ _ e. e ≡ answers.NoMemory };

    fn from(_: NoMemory) -> ProofAnswer {
        ProofAnswer::NoMemory
    }
}
