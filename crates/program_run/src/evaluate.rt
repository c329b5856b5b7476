//! The states of a file, each judged by the cost of what it decodes to and by its energy.
ghost use Rattle.std.specs.Prelude.{◌≡◌, ◌≢◌, ◌+◌, ◌<◌, ◌^◌, [], None, length, IfOk, IfErr, IsErrOf};
ghost use Rattle.problem_form.specs.Limits.{limit_fault};
ghost use Rattle.command_words.specs.declared.commands.Ask.TheVariants as asks;
ghost use Rattle.command_words.specs.Names.{last_files, name_of};
ghost use Rattle.state_file.specs.States.{states_of};
ghost use Rattle.source_texts.specs.Sources.{KeepsSoft};
ghost use Rattle.run_steps.specs.Steps.{last_step};
ghost use Rattle.run_steps.specs.Statuses.{ended, IsRefusal};
ghost use Rattle.run_steps.specs.Causes.{AreFilesOf, WhereHeld};
ghost use Rattle.state_scores.specs.Scores.{IsEvaluation};
ghost use Rattle.program_run.specs.Answers.{text_of, IsScored};
ghost use Rattle.program_run.specs.Made.{EndsOf, IsMadeTextOf, IsModelled, IsWithin, judgement_by};

use crate::answer::Answer;
use crate::decode::decoded;
use crate::judging::ModelJudge;
use crate::made::nodes_of;
use bits_model::OutputModel;
use command_words::{Command, Name};
use edge_io::Files;
use run_steps::{Plan, Status, take_states};
use source_texts::Read;
use state_file::StateAnswer;
use state_scores::{Evaluation, EvaluationText, evaluate};
use std::alloc::Global;

/// What the states of a text are worth, and the best of them.
fn judged(
    alloc: Global,
    read: &Read,
    model: &OutputModel,
    text: &[u8],
) -> Result<Evaluation, StateAnswer>
    requires within { IsWithin read.now.problem }
    requires kept { KeepsSoft read.now }
    requires variables { model.now.variables ≡ read.now.variables }
    requires short { length text.now + 1 < 2 ^ 32 }
    ensures evaluated { IfOk result (λ found. IsEvaluation (judgement_by read.now model.now)
        (states_of model.now.nodes text.now) found.scores found.best found.state.items) }
    ensures no_state { IsErrOf result StateAnswer.NoState
        → states_of model.now.nodes text.now ≡ [] }
{
    let mut judge = ModelJudge::new(alloc, read, model, text.len())?;
    evaluate(alloc, text, model.nodes as usize, &mut judge)
}

/// What is written for the states of a text.
fn evaluated_text(
    alloc: Global,
    read: &Read,
    model: &OutputModel,
    text: &[u8],
) -> Result<EvaluationText, StateAnswer>
    requires within { IsWithin read.now.problem }
    requires kept { KeepsSoft read.now }
    requires variables { model.now.variables ≡ read.now.variables }
    requires short { length text.now + 1 < 2 ^ 32 }
    ensures told { IfOk result (IsScored (judgement_by read.now model.now) read.now.names model.now
        (states_of model.now.nodes text.now)) }
    ensures no_state { IsErrOf result StateAnswer.NoState
        → states_of model.now.nodes text.now ≡ [] }
{
    let evaluation = judged(alloc, read, model, text)?;
    let x = decoded(alloc, model, &evaluation.state)?;
    Ok(EvaluationText::new(alloc, evaluation, &x, &read.names)?)
}

/// Takes states of a model of a plan from the file of this name, and says what each is worth, which is
/// the best, and what that one decodes to.
pub fn states_evaluated<F: Files>(
    alloc: Global,
    command: &Command<'_>,
    name: &Name<'_>,
    plan: &Plan,
    model: &OutputModel,
    files: &mut F,
) -> Result<Answer, Status>
    requires asked { command.now.ask ≡ asks.Evaluate name.now }
    requires within { limit_fault plan.now.options.choices.normal plan.now.read.problem ≡ None }
    requires kept { KeepsSoft plan.now.read }
    requires modelled { IsModelled plan.now model.now }
    ensures step { WhereHeld (F.held files.old) (last_files command.now) (λ held.
        EndsOf (ended result) plan.now (last_step held command.now.ask plan.now.read.variables)) }
    ensures files { AreFilesOf (name_of command.now) [] (last_files command.now) (ended result)
        (F.counts files.old) (F.counts files.new) }
    ensures answer { IfOk result (λ answer. WhereHeld (F.held files.old) (last_files command.now)
        (λ held. IsMadeTextOf held command.now.ask plan.now (text_of answer))) }
    ensures some { IfOk result (λ answer. text_of answer ≢ []) }
    ensures refusal { IfErr result IsRefusal }
{
    let bytes = take_states(alloc, command, name, files)?;
    match evaluated_text(alloc, &plan.read, model, &bytes) {
        Ok(text) => Ok(Answer::Scores(text)),
        Err(StateAnswer::NoState) => Err(Status::NoState(nodes_of(model))),
        Err(StateAnswer::NoMemory) => Err(Status::NoMemory),
    }
}
