//! The reading of a text in a format.
ghost use Rattle.std.specs.Prelude.{◌≡◌, ◌<◌, ◌≤◌, ◌^◌, length, unsigned_abs, Ok, Err, IfOk, IfSome, OnOk, MatchResult};
ghost use Rattle.local_penalties.specs.Kept.{IsWithinLimits};
ghost use Rattle.whole_text.specs.Steps.{Gives};
ghost use Rattle.whole_text.specs.TokenTexts.{words_of};
ghost use Rattle.source_texts.specs.Sources.{
  AreEnoughIn,
  bounded_read,
  eased,
  KeepsSoft,
  named,
  own,
  penalized,
  problem_of,
  problem_of_words,
  slacked,
  style_of,
};

use crate::preparing::{bound_costs, penalize, with_slack};
use base::NoMemory;
use command_words::{Format, Slack};
use form_steps::PenaltyScope;
use ising_file::read_ising_tokens;
use opb_reader::read_opb_tokens;
use poly_reader::{Names, Polynomial, read_poly_tokens};
use problem_form::Problem;
use qubo_file::read_qubo_tokens;
use std::alloc::Global;
use wbo_reader::{Wbo, read_wbo_tokens};
use wcnf_reader::read_wcnf_tokens;
use whole_text::{Style, TextAnswer, TokenText, cut_words};

/// What a text is read into: its problem, how many of the problem's first variables are the
/// source's own, and their names, where the text has names for them. Soft constraints are kept,
/// where the problem is what they are rewritten to: then its further variables are their bits.
pub struct Read {
    pub problem: Problem,
    pub variables: u64,
    pub names: Option<Names>,
    pub soft: Option<Wbo>,
}

impl Drop for Read {
    fn drop(self) {
        let Read {
            problem: _problem,
            variables: _variables,
            names: _names,
            soft: _soft,
        } = self;
    }
}

impl Read {
    /// The problem. All else is let go.
    pub fn into_problem(self) -> Problem
        ensures { result ≡ self.problem }
    {
        let Read {
            problem,
            variables: _variables,
            names: _names,
            soft: _soft,
        } = self;
        problem
    }

    /// Gives the problem the most that an assignment may cost, where it has no lesser one.
    pub fn cut_off(&mut self, most: Option<i128>)
        requires { IfSome most (λ n. unsigned_abs n < 2 ^ 64) }
        ensures value { self.new ≡ bounded_read most self.old }
        ensures kept { KeepsSoft self.old → KeepsSoft self.new }
    {
        bound_costs(&mut self.problem, most);
    }

    /// The same where the constraints of the problem get their slack so, which costs what it did. The
    /// soft constraints are kept beside it.
    pub fn slacked(self, alloc: Global, slack: Slack) -> Result<Read, NoMemory>
        ensures value { IfOk result (λ read. read ≡ slacked slack self) }
        ensures kept { KeepsSoft self → IfOk result KeepsSoft }
    {
        let Read {
            problem,
            variables,
            names,
            soft,
        } = self;
        let problem = with_slack(alloc, slack, problem)?;
        Ok(Read {
            problem,
            variables,
            names,
            soft,
        })
    }

    /// Gives the hard parts of the problem the penalties of a scope, which are enough.
    pub fn penalize(&mut self, alloc: Global, scope: PenaltyScope) -> Result<(), NoMemory>
        requires { IsWithinLimits self.old.problem }
        ensures value { OnOk result (self.new ≡ penalized scope self.old) }
        ensures kept { KeepsSoft self.old → KeepsSoft self.new }
        ensures enough { OnOk result (AreEnoughIn scope self.new) }
    {
        penalize(alloc, scope, &mut self.problem)
    }
}

/// How the texts of a format are cut into words.
pub fn style_of(format: Format) -> Style
    ensures { result ≡ style_of format }
{
    match format {
        Format::Wcnf | Format::Poly | Format::Ising | Format::Qubo => Style::Plain,
        Format::Opb => Style::Opb,
        Format::Wbo => Style::Wbo,
    }
}

/// A problem whose variables are all the source's own, or the fault of its text.
fn own(problem: Result<Problem, TextAnswer>) -> Result<Read, TextAnswer>
    ensures read { MatchResult problem (λ p. result ≡ Ok (own p)) (λ e. result ≡ Err e) }
    ensures within { IfOk result (λ read. read.variables ≤ read.problem.variables) }
    ensures kept { IfOk result KeepsSoft }
{
    let problem = problem?;
    let variables = problem.variables;
    Ok(Read {
        problem,
        variables,
        names: None,
        soft: None,
    })
}

/// A problem whose variables have names, or the fault of its text.
fn named(polynomial: Result<Polynomial, TextAnswer>) -> Result<Read, TextAnswer>
    ensures read { MatchResult polynomial (λ p. result ≡ Ok (named p)) (λ e. result ≡ Err e) }
    ensures within { IfOk result (λ read. read.variables ≤ read.problem.variables) }
    ensures kept { IfOk result KeepsSoft }
{
    let Polynomial { problem, names } = polynomial?;
    Ok(Read {
        variables: problem.variables,
        problem,
        names: Some(names),
        soft: None,
    })
}

/// The problem that soft constraints are rewritten to, and these. The top is a bound where clauses
/// take the place of constraints.
fn eased(alloc: Global, slack: Slack, wbo: Wbo) -> Result<Read, NoMemory>
    ensures read { IfOk result (λ read. read ≡ eased slack wbo) }
    ensures within { IfOk result (λ read. read.variables ≤ read.problem.variables) }
    ensures kept { IfOk result KeepsSoft }
{
    let problem = match slack {
        Slack::Bits | Slack::Pairs => wbo.rewrite(alloc)?,
        Slack::Clauses => wbo.rewrite_within(alloc)?,
    };
    Ok(Read {
        problem,
        variables: wbo.variables,
        names: None,
        soft: Some(wbo),
    })
}

/// The problem of a text that was cut into words, in normal form, or the first fault of the text. How
/// constraints get their slack says how soft ones are rewritten.
pub fn read_source_words(
    alloc: Global,
    slack: Slack,
    format: Format,
    text: &TokenText,
) -> Result<Read, TextAnswer>
    requires { length text.now.bytes ≤ 2 ^ 24 }
    ensures read { Gives (λ read. read) result
        (problem_of_words slack format (words_of text.now)) }
    ensures own { IfOk result (λ read. read.variables ≤ read.problem.variables) }
    ensures kept { IfOk result KeepsSoft }
{
    match format {
        Format::Wcnf => own(read_wcnf_tokens(alloc, text)),
        Format::Opb => own(read_opb_tokens(alloc, text)),
        Format::Wbo => Ok(eased(alloc, slack, read_wbo_tokens(alloc, text)?)?),
        Format::Poly => named(read_poly_tokens(alloc, text)),
        Format::Ising => own(read_ising_tokens(alloc, text)),
        Format::Qubo => own(read_qubo_tokens(alloc, text)),
    }
}

/// The problem of a text, in normal form, or the first fault of the text. How constraints get their
/// slack says how soft ones are rewritten.
pub fn read_source(
    alloc: Global,
    slack: Slack,
    format: Format,
    text: &[u8],
) -> Result<Read, TextAnswer>
    requires { length text.now ≤ 2 ^ 24 }
    ensures read { Gives (λ read. read) result (problem_of slack format text.now) }
    ensures own { IfOk result (λ read. read.variables ≤ read.problem.variables) }
    ensures kept { IfOk result KeepsSoft }
{
    read_source_words(
        alloc,
        slack,
        format,
        &cut_words(alloc, text, style_of(format))?,
    )
}
