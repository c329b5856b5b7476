//! The limits of a problem.
ghost use Rattle.std.specs.Prelude.{◌≡◌, ◌≢◌, nat_lt, Ok, Err, Some, None, if◌then◌else◌, IfErr, MatchResult};
ghost use Rattle.problem_form.specs.Limits.{limit_fault};

use crate::counts::{degree_of, weight_of};
use crate::pairs::{negations_of, pairs_of};
use crate::problem::Problem;

/// What is counted against a limit.
#[derive(Clone, Copy, Debug, PartialEq, Eq)]
pub enum LimitKind {
    Bytes,
    Variables,
    Degree,
    Negations,
    Pairs,
    Weight,
}

/// A counted number that passes its limit.
#[derive(Clone, Copy, Debug, PartialEq, Eq)]
pub struct LimitFault {
    pub kind: LimitKind,
    pub number: u128,
}

/// Which normal form the terms get: over literals, or multiplied out over variables.
#[derive(Clone, Copy, Debug, PartialEq, Eq)]
pub enum Normal {
    Literal,
    Multilinear,
}

/// How terms of degree 3 or more are replaced: each by itself, or pair by pair.
#[derive(Clone, Copy, Debug, PartialEq, Eq)]
pub enum High {
    Monomial,
    Rosenberg,
}

/// What a command chooses.
#[derive(Clone, Copy, Debug, PartialEq, Eq)]
pub struct Choices {
    pub normal: Normal,
    pub high: High,
}

/// The greatest number of bytes of a file that is accepted.
pub const MOST_BYTES: usize = 16_777_216;

/// The greatest number of variables that is accepted.
const MOST_VARIABLES: u128 = 1 << 20;

/// The greatest number of literals of a product or a clause that is accepted.
const MOST_DEGREE: u128 = 1024;

/// The greatest number of complements in a product that is multiplied out that is accepted.
const MOST_NEGATIONS: u128 = 8;

/// The greatest number of pairs of literals that is accepted.
const MOST_PAIRS: u128 = 1 << 24;

/// The greatest sum of the sizes of coefficients that is accepted.
const MOST_WEIGHT: u128 = u64::MAX as u128;

fn check(kind: LimitKind, number: u128, most: u128) -> Result<(), LimitFault>
    ensures { result
        ≡ (if nat_lt most number then Err (record { kind = kind; number = number }) else Ok tt) }
{
    if most < number {
        return Err(LimitFault { kind, number });
    }
    Ok(())
}

/// Whether each counted number is within its limit: the first that isn't is the fault. It takes no
/// memory.
pub fn check_limits(problem: &Problem, choices: &Choices) -> Result<(), LimitFault>
    ensures exact { MatchResult result
        (λ _. limit_fault choices.now.normal problem.now ≡ None)
        (λ fault. limit_fault choices.now.normal problem.now ≡ Some fault) }
    ensures counted { IfErr result (λ fault. fault.kind ≢ LimitKind.Bytes) }
{
    let normal = choices.normal;
    check(
        LimitKind::Variables,
        u128::from(problem.variables),
        MOST_VARIABLES,
    )?;
    check(LimitKind::Degree, degree_of(problem) as u128, MOST_DEGREE)?;
    check(
        LimitKind::Negations,
        negations_of(problem, normal),
        MOST_NEGATIONS,
    )?;
    check(LimitKind::Pairs, pairs_of(problem, normal), MOST_PAIRS)?;
    check(LimitKind::Weight, weight_of(problem), MOST_WEIGHT)
}
