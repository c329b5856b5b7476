//! What a command answers.
ghost use Rattle.std.specs.Prelude.{◌≡◌, ◌≢◌, [], None, IfOk, IfErr};
ghost use Rattle.problem_form.specs.Limits.{limit_fault};
ghost use Rattle.command_words.specs.declared.commands.Ask.TheVariants as asks;
ghost use Rattle.command_words.specs.Commands.{by_command, HasFewClauses};
ghost use Rattle.command_words.specs.Names.{files_of, last_files, name_of};
ghost use Rattle.source_texts.specs.Sources.{KeepsSoft};
ghost use Rattle.run_steps.specs.Steps.{last_step, keeps_steps};
ghost use Rattle.program_run.specs.Outcome.{MeetsOutcome};
ghost use Rattle.program_run.specs.Made.{EndsOf, IsMadeTextOf, IsModelText, IsTextOfModelled, IsMadeBy};
ghost use Rattle.program_run.specs.Unembedded.{IsUnembedded};
ghost use Rattle.run_steps.specs.Statuses.{ended, IsRefusal};
ghost use Rattle.run_steps.specs.Causes.{AreFiles, AreFilesOf, WhereHeld};
ghost use Rattle.program_run.specs.Outcome.{MeetsOutcome};
ghost use Rattle.program_run.specs.Made.{EndsOf, IsMadeTextOf, IsModelText, IsTextOfModelled};
ghost use Rattle.program_run.specs.Unembedded.{IsUnembedded};
ghost use Rattle.program_run.specs.Answers.{text_of, IsAnswer};

use crate::answer::Answer;
use crate::evaluate::states_evaluated;
use crate::made::{made_lent, model_given, solved, solved_in_order, state_told};
use answer_text::written_size;
use base::NoMemory;
use bits_model::OutputModel;
use command_words::{Ask, Command, Make, Name, OfState};
use edge_io::Files;
use model_pipeline::Made;
use model_text::written_summary;
use run_steps::{Plan, Status, take_plan};
use std::alloc::Global;

/// The text of a model or of what it tells, as an answer.
fn told_of(alloc: Global, make: Make, model: OutputModel) -> Result<Answer, NoMemory>
    ensures { IfOk result (λ answer. IsModelText make model (text_of answer)) }
{
    match make {
        Make::Model => Ok(Answer::Model(model)),
        Make::Summary => Ok(Answer::Text(written_summary(alloc, &model)?)),
        Make::Size => Ok(Answer::Text(written_size(alloc, &model)?)),
    }
}

/// What a command answers that asks for the model of its plan, or for what the model alone tells.
fn answer_model(alloc: Global, make: Make, plan: Plan) -> Result<Answer, Status>
    requires within { limit_fault plan.options.choices.normal plan.read.problem ≡ None }
    requires kept { KeepsSoft plan.read }
    ensures made { IfOk result (λ answer. IsTextOfModelled make plan (text_of answer)) }
    ensures refused { IfErr result (IsUnembedded plan) }
{
    let model = model_given(alloc, plan)?;
    Ok(told_of(alloc, make, model)?)
}

/// What a command answers that asks for the first least state of the model of its plan.
fn answer_solved<F: Files>(
    alloc: Global,
    command: &Command<'_>,
    order: &Option<Name<'_>>,
    plan: Plan,
    files: &mut F,
) -> Result<Answer, Status>
    requires asked { command.now.ask ≡ asks.Solve order.now }
    requires within { limit_fault plan.options.choices.normal plan.read.problem ≡ None }
    requires kept { KeepsSoft plan.read }
    ensures step { WhereHeld (F.held files.old) (last_files command.now) (λ held. EndsOf (ended result)
        plan (last_step held command.now.ask plan.read.variables)) }
    ensures files { AreFilesOf (name_of command.now) [] (last_files command.now) (ended result)
        (F.counts files.old) (F.counts files.new) }
    ensures answer { IfOk result (λ answer. WhereHeld (F.held files.old) (last_files command.now)
        (λ held. IsMadeTextOf held command.now.ask plan (text_of answer))) }
    ensures some { IfOk result (λ answer. text_of answer ≢ []) }
    ensures refusal { IfErr result IsRefusal }
{
    let made = made_lent(alloc, &plan)?;
    match order {
        None => solved(alloc, &plan, &made.model),
        Some(name) => solved_in_order(alloc, command, name, &plan, &made.model, files),
    }
}

/// What a command answers that asks what states of the model of its plan are worth.
fn answer_evaluated<F: Files>(
    alloc: Global,
    command: &Command<'_>,
    name: &Name<'_>,
    plan: Plan,
    files: &mut F,
) -> Result<Answer, Status>
    requires asked { command.now.ask ≡ asks.Evaluate name.now }
    requires within { limit_fault plan.options.choices.normal plan.read.problem ≡ None }
    requires kept { KeepsSoft plan.read }
    ensures step { WhereHeld (F.held files.old) (last_files command.now) (λ held. EndsOf (ended result)
        plan (last_step held command.now.ask plan.read.variables)) }
    ensures files { AreFilesOf (name_of command.now) [] (last_files command.now) (ended result)
        (F.counts files.old) (F.counts files.new) }
    ensures answer { IfOk result (λ answer. WhereHeld (F.held files.old) (last_files command.now)
        (λ held. IsMadeTextOf held command.now.ask plan (text_of answer))) }
    ensures some { IfOk result (λ answer. text_of answer ≢ []) }
    ensures refusal { IfErr result IsRefusal }
{
    let made = made_lent(alloc, &plan)?;
    states_evaluated(alloc, command, name, &plan, &made.model, files)
}

/// What a command answers that asks something of a state of the model of its plan, or of an assignment.
fn answer_told<F: Files>(
    alloc: Global,
    command: &Command<'_>,
    name: &Name<'_>,
    of: &OfState<'_>,
    plan: Plan,
    files: &mut F,
) -> Result<Answer, Status>
    requires asked { command.now.ask ≡ asks.State name.now of.now }
    requires within { limit_fault plan.options.choices.normal plan.read.problem ≡ None }
    requires kept { KeepsSoft plan.read }
    requires steps { plan.options.keep_steps ≡ keeps_steps command.now.ask }
    ensures step { WhereHeld (F.held files.old) (last_files command.now) (λ held. EndsOf (ended result)
        plan (last_step held command.now.ask plan.read.variables)) }
    ensures files { AreFilesOf (name_of command.now) [] (last_files command.now) (ended result)
        (F.counts files.old) (F.counts files.new) }
    ensures answer { IfOk result (λ answer. WhereHeld (F.held files.old) (last_files command.now)
        (λ held. IsMadeTextOf held command.now.ask plan (text_of answer))) }
    ensures some { IfOk result (λ answer. text_of answer ≢ []) }
    ensures refusal { IfErr result IsRefusal }
{
    let made = made_lent(alloc, &plan)?;
    state_told(alloc, command, name, of, &plan, &made, files)
}

/// What a command answers of the model of its plan.
fn answer_by<F: Files>(
    alloc: Global,
    command: &Command<'_>,
    plan: Plan,
    files: &mut F,
) -> Result<Answer, Status>
    requires within { limit_fault plan.options.choices.normal plan.read.problem ≡ None }
    requires kept { KeepsSoft plan.read }
    requires steps { plan.options.keep_steps ≡ keeps_steps command.now.ask }
    ensures step { WhereHeld (F.held files.old) (last_files command.now) (λ held. EndsOf (ended result)
        plan (last_step held command.now.ask plan.read.variables)) }
    ensures files { AreFilesOf (name_of command.now) [] (last_files command.now) (ended result)
        (F.counts files.old) (F.counts files.new) }
    ensures answer { IfOk result (λ answer. WhereHeld (F.held files.old) (last_files command.now)
        (λ held. IsMadeTextOf held command.now.ask plan (text_of answer))) }
    ensures some { IfOk result (λ answer. text_of answer ≢ []) }
    ensures refusal { IfErr result IsRefusal }
{
    match &command.ask {
        Ask::Make(make) => answer_model(alloc, *make, plan),
        Ask::Solve(order) => answer_solved(alloc, command, order, plan, files),
        Ask::Evaluate(name) => answer_evaluated(alloc, command, name, plan, files),
        Ask::State(name, of) => answer_told(alloc, command, name, of, plan, files),
    }
}

/// What a command answers, and nothing is written yet.
pub fn answer_to<F: Files>(
    alloc: Global,
    command: &Command<'_>,
    files: &mut F,
) -> Result<Answer, Status>
    requires { HasFewClauses command.now.origin }
    ensures step { WhereHeld (F.held files.old) (files_of command.now) (λ held.
        MeetsOutcome held (by_command command.now) (ended result)) }
    ensures files { AreFiles command.now (ended result) (F.counts files.old) (F.counts files.new) }
    ensures answer { IfOk result (λ answer. WhereHeld (F.held files.old) (files_of command.now)
        (λ held. IsAnswer held command.now (text_of answer))) }
    ensures some { IfOk result (λ answer. text_of answer ≢ []) }
    ensures refusal { IfErr result IsRefusal }
{
    let plan = take_plan(alloc, command, files)?;
    answer_by(alloc, command, plan, files)
}
