//! A problem as its model is to be made of it: constraints with their slack, a bound of the costs, and
//! the penalties of hard parts.
ghost use Rattle.std.specs.Prelude.{◌≡◌, ◌<◌, ◌^◌, unsigned_abs, None, Some, IfOk, IfErr, IfSome, OnErr, OnOk};
ghost use Rattle.local_penalties.specs.Kept.{IsWithinLimits};
ghost use Rattle.penalty_layer.specs.Penalty.{Allows};
ghost use Rattle.problem_form.specs.Limits.{lesser_most, limit_fault};
ghost use Rattle.problem_form.specs.PartPenalties.{AreEnough, IsGlobal};
ghost use Rattle.problem_form.specs.Problems.{form_of};
ghost use Rattle.source_texts.specs.Sources.{with_slack};
ghost use Rattle.source_texts.specs.Prepared.{bounded_form, limited, prepared, with_bound, with_scope, IfLimit};

use base::NoMemory;
use command_words::Slack;
use conflict_clauses::{without_conflicts, without_covers};
use form_steps::PenaltyScope;
use local_penalties::local_penalties;
use problem_form::{Choices, LimitFault, Problem, check_limits};
use std::alloc::Global;

/// What a problem gets before its model is made: how its constraints get their slack, the most that
/// an assignment may cost, the steps whose limits are checked, and the penalties of its hard parts.
#[derive(Clone, Copy, Debug, PartialEq, Eq)]
pub struct Preparation {
    pub slack: Slack,
    pub bound: Option<i128>,
    pub choices: Choices,
    pub penalty: PenaltyScope,
}

/// Why a problem is not prepared: it passes a limit, or memory was wanting.
#[derive(Clone, Copy, Debug, PartialEq, Eq)]
pub enum PrepareAnswer {
    Limit(LimitFault),
    NoMemory,
}

impl From<NoMemory> for PrepareAnswer {
    ghost use Rattle.source_texts.specs.declared.preparing.PrepareAnswer.TheVariants as answers;

    ghost from_gives = { λ _ e. e ≡ answers.NoMemory };

    fn from(_: NoMemory) -> PrepareAnswer {
        PrepareAnswer::NoMemory
    }
}

/// A problem whose constraints get their slack so: from bits alone, or with clauses in place of
/// conflicts, or of conflicts and covers.
pub(crate) fn with_slack(alloc: Global, slack: Slack, problem: Problem) -> Result<Problem, NoMemory>
    ensures { IfOk result (λ given. given ≡ with_slack slack problem) }
{
    match slack {
        Slack::Bits => Ok(problem),
        Slack::Pairs => without_conflicts(alloc, problem),
        Slack::Clauses => without_covers(alloc, problem),
    }
}

/// The lesser of two bounds, where they are given.
fn lesser_most(most: Option<i128>, own: Option<i128>) -> Option<i128>
    ensures { result ≡ lesser_most most own }
{
    match (most, own) {
        (Some(most), Some(own)) => Some(if most < own { most } else { own }),
        (None, most) | (most, None) => most,
    }
}

/// Gives a problem the most that an assignment may cost, where it has no lesser one.
pub(crate) fn bound_costs(problem: &mut Problem, most: Option<i128>)
    requires { IfSome most (λ n. unsigned_abs n < 2 ^ 64) }
    ensures { problem.new ≡ with_bound most problem.old }
{
    let most = lesser_most(most, problem.most);
    problem.cut_off(most);
}

/// Gives the hard parts of a problem the penalties of a scope, which are enough.
pub(crate) fn penalize(
    alloc: Global,
    scope: PenaltyScope,
    problem: &mut Problem,
) -> Result<(), NoMemory>
    requires { IsWithinLimits problem.old }
    ensures value { OnOk result (problem.new ≡ with_scope scope problem.old) }
    ensures unchanged { OnErr result (problem.new ≡ problem.old) }
    ensures enough { OnOk result (scope ≡ PenaltyScope.Local → AreEnough problem.new) }
{
    match scope {
        PenaltyScope::Global => {}
        PenaltyScope::Local => {
            let penalties = local_penalties(alloc, problem)?;
            problem.set_penalties(penalties);
        }
    }
    Ok(())
}

/// A problem that is built in code, as its model is to be made of it. It costs what it did, cut off
/// at the bound, and it is within the limits. It is refused exactly where it passes one of them, before
/// penalties are sought.
pub fn prepare(
    alloc: Global,
    problem: Problem,
    wanted: &Preparation,
) -> Result<Problem, PrepareAnswer>
    requires { IfSome wanted.now.bound (λ n. unsigned_abs n < 2 ^ 64) }
    ensures value { IfOk result (λ given. given ≡ prepared wanted.now problem) }
    ensures costs { IfOk result (λ given.
        form_of given ≡ bounded_form wanted.now.bound (form_of problem)) }
    ensures within { IfOk result (λ given. limit_fault wanted.now.choices.normal given ≡ None) }
    ensures penalties { IfOk result (λ given. IsGlobal problem → Allows wanted.now.penalty given) }
    ensures limit { IfErr result (λ e. IfLimit e (λ fault.
        limit_fault wanted.now.choices.normal (limited wanted.now problem) ≡ Some fault)) }
{
    let mut problem = with_slack(alloc, wanted.slack, problem)?;
    bound_costs(&mut problem, wanted.bound);
    if let Err(fault) = check_limits(&problem, &wanted.choices) {
        return Err(PrepareAnswer::Limit(fault));
    }
    penalize(alloc, wanted.penalty, &mut problem)?;
    Ok(problem)
}
