//! The limits of certificates.
ghost use Rattle.std.specs.Prelude.{◌≡◌, ◌≤◌, ◌^◌, None, Some, All, MatchResult, length};
ghost use Rattle.problem_form.specs.Limits.{answered_number};
ghost use Rattle.term_table.specs.MultipliedOut.{complements};
ghost use Rattle.posiform_check.specs.Certificates.{certificate_fault, most_literals, pairs};

use crate::certificate::Certificate;
use crate::lines::{LineList, LineRef};
use literal_lists::Literals;
use problem_form::{LimitFault, LimitKind};

/// The greatest number of literals of a line that is accepted.
const MOST_LITERALS: usize = 8;

/// The greatest number of products that lines are multiplied out to that is accepted.
const MOST_PAIRS: u128 = 1 << 24;

/// The largest number of literals of a line.
fn degree_of(lines: &LineList) -> usize
    ensures { result ≡ most_literals lines.now }
{
    lines
        .iter()
        .fold(0, |most, line| most.max(line.literals.len()))
}

/// How many literals are complements.
fn complements_of(literals: Literals<'_>) -> usize
    ensures { result ≡ complements literals.entry }
{
    literals.filter(|literal| literal.negated).count()
}

/// 2 to this power.
fn power_of_2(exponent: usize) -> u128
    requires { exponent ≤ 8 }
    ensures value { result ≡ 2 ^ exponent }
    ensures small { result ≤ 256 }
{
    1 << exponent
}

/// How many products a line is multiplied out to.
fn products_of(line: LineRef<'_>) -> u128
    requires { length line.literals ≤ 8 }
    ensures value { result ≡ 2 ^ complements line.entry.literals }
    ensures small { result ≤ 256 }
{
    power_of_2(complements_of(line.literals))
}

/// How many products the lines are multiplied out to. It stops at the greatest number of 128 bits.
fn pairs_of(lines: &LineList) -> u128
    requires { All (λ l. length l.literals ≤ 8) lines.now }
    ensures { result ≡ answered_number (pairs lines.now) }
{
    let mut total: u128 = 0;
    for line in lines.iter() {
        total = total.saturating_add(products_of(line));
    }
    total
}

/// Whether each line has few literals, and all lines together few products. It takes no memory.
pub fn check_certificate(certificate: &Certificate) -> Result<(), LimitFault>
    ensures { MatchResult result
        (λ _. certificate_fault certificate.now ≡ None)
        (λ fault. certificate_fault certificate.now ≡ Some fault) }
{
    let lines = &certificate.lines;
    let degree = degree_of(lines);
    if degree > MOST_LITERALS {
        return Err(LimitFault {
            kind: LimitKind::Degree,
            number: degree as u128,
        });
    }
    let pairs = pairs_of(lines);
    if pairs > MOST_PAIRS {
        return Err(LimitFault {
            kind: LimitKind::Pairs,
            number: pairs,
        });
    }
    Ok(())
}
