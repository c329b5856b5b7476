//! The answer of a command from the plan of its model: the model alone, or a state of it.
ghost use Rattle.std.specs.Prelude.{◌≡◌, true, ◌≢◌, ℕ, List, [], None, Some, length, reverse, IfOk, IfErr};
ghost use Rattle.problem_form.specs.Limits.{limit_fault};
ghost use Rattle.bits_model.specs.Output.{form_of};
ghost use Rattle.command_words.specs.Names.{last_files, name_of};
ghost use Rattle.elimination_order.specs.Renumbered.{IsFirstLeastBy};
ghost use Rattle.source_texts.specs.Sources.{KeepsSoft};
ghost use Rattle.run_steps.specs.Steps.{asked_width, last_step, solving, keeps_steps};
ghost use Rattle.program_run.specs.Answers.{text_of};
ghost use Rattle.program_run.specs.Made.{EndsOf, IsMadeText, IsModelled, IsSolvedBy, IsToldOf, IsMadeTextOf, IsMadeBy};
ghost use Rattle.program_run.specs.Unembedded.{IsUnembedded, unsolved};
ghost use Rattle.run_steps.specs.Statuses.{ended, IsRefusal, IsUnsolved};
ghost use Rattle.run_steps.specs.Causes.{AreFilesOf, WhereHeld};

use crate::answer::Answer;
use crate::decode::{bounded_cost, decoded, decoded_text, proved_text};
use crate::extend::extended_text;
use answer_text::written_solution;
use base::NoMemory;
use basic_solve::{SolveAnswer, solve};
use bits_model::{OutputModel, energy_of};
use command_words::{Ask, Command, Name, OfState};
use edge_io::Files;
use elimination_order::solve_by;
use model_pipeline::{Made, compile};
use run_steps::{Plan, Status, take_last, take_order};
use source_texts::Read;
use std::alloc::Global;

/// The model of a plan, which is let go. Its problem is, as soon as a form stands in its place.
pub fn model_given(alloc: Global, plan: Plan) -> Result<OutputModel, Status>
    requires within { limit_fault plan.options.choices.normal plan.read.problem ≡ None }
    requires kept { KeepsSoft plan.read }
    ensures modelled { IfOk result (IsModelled plan) }
    ensures refused { IfErr result (IsUnembedded plan) }
{
    let variables = plan.read.variables;
    let (problem, options) = plan.into_problem_and_options();
    let Made {
        model,
        steps: _steps,
    } = compile(alloc, problem, variables, &options)?;
    Ok(model)
}

/// What is made of a plan, which stays.
pub fn made_lent(alloc: Global, plan: &Plan) -> Result<Made, Status>
    requires within { limit_fault plan.now.options.choices.normal plan.now.read.problem ≡ None }
    requires kept { KeepsSoft plan.now.read }
    ensures made { IfOk result (IsMadeBy plan.now) }
    ensures refused { IfErr result (IsUnembedded plan.now) }
{
    let read = &plan.read;
    let made = compile(alloc, &read.problem, read.variables, &plan.options)?;
    Ok(made)
}

/// What is written for a state of a model, or for an assignment of its source.
fn told(
    alloc: Global,
    of: &OfState<'_>,
    plan: &Plan,
    made: &Made,
    bits: &[bool],
) -> Result<Vec<u8>, NoMemory>
    requires within { limit_fault plan.now.options.choices.normal plan.now.read.problem ≡ None }
    requires soft { KeepsSoft plan.now.read }
    requires made { IsMadeBy plan.now made.now }
    requires steps { of.now ≡ OfState.Extend → plan.now.options.keep_steps ≡ true }
    requires width { length bits.now ≡ asked_width of.now plan.now.read.variables made.now.model }
    ensures { IfOk result (λ text. IsToldOf of.now plan.now.read plan.now.options.choices
        made.now.model bits.now text.items) }
{
    let model = &made.model;
    match of {
        OfState::Decode => decoded_text(alloc, &plan.read, model, bits),
        OfState::Extend => match &made.steps {
            Some(steps) => extended_text(alloc, &plan.read, steps, model, bits),
            None => unreachable!(),
        },
        OfState::Prove(_) => proved_text(alloc, &plan.read, model, bits),
    }
}

/// What is written for the first least state of a model.
fn solved_text(
    alloc: Global,
    read: &Read,
    model: &OutputModel,
    state: &[bool],
) -> Result<Vec<u8>, NoMemory>
    requires width { length state.now ≡ model.now.nodes }
    requires variables { model.now.variables ≡ read.now.variables }
    requires kept { KeepsSoft read.now }
    ensures { IfOk result (λ text. (order : List ℕ)
        → IsFirstLeastBy (reverse order) (form_of model.now) state.now
        → IsSolvedBy order read.now model.now text.items) }
{
    let x = decoded(alloc, model, state)?;
    let cost = bounded_cost(read, &x);
    let energy = energy_of(model.kind, state, &model.entries);
    written_solution(alloc, state, energy, &x, &read.names, cost)
}

/// How many nodes a model has.
pub fn nodes_of(model: &OutputModel) -> usize
    ensures { result ≡ model.now.nodes }
{
    model.nodes as usize
}

/// The status where a model isn't solved.
fn unsolved(answer: SolveAnswer) -> Status
    ensures { result ≡ unsolved answer }
{
    match answer {
        SolveAnswer::TooWide(node, width) => Status::TooWide(node, width),
        SolveAnswer::NoMemory => Status::NoMemory,
    }
}

/// Solves a model of a plan, and says what its first least state tells.
pub fn solved(alloc: Global, plan: &Plan, model: &OutputModel) -> Result<Answer, Status>
    requires kept { KeepsSoft plan.now.read }
    requires modelled { IsModelled plan.now model.now }
    ensures step { EndsOf (ended result) plan.now (solving [] None) }
    ensures answer { IfOk result (λ answer. IsMadeText (Ask.Solve None) plan.now
        (solving [] None) (text_of answer)) }
    ensures some { IfOk result (λ answer. text_of answer ≢ []) }
    ensures refusal { IfErr result IsUnsolved }
{
    let state = match solve(alloc, model) {
        Ok(state) => state,
        Err(answer) => return Err(unsolved(answer)),
    };
    let text = solved_text(alloc, &plan.read, model, &state)?;
    Ok(Answer::Text(text))
}

/// Solves a model of a plan in the order of the file of this name, and says what its first least state
/// tells.
pub fn solved_in_order<F: Files>(
    alloc: Global,
    command: &Command<'_>,
    name: &Name<'_>,
    plan: &Plan,
    model: &OutputModel,
    files: &mut F,
) -> Result<Answer, Status>
    requires asked { command.now.ask ≡ Ask.Solve (Some name.now) }
    requires kept { KeepsSoft plan.now.read }
    requires modelled { IsModelled plan.now model.now }
    ensures step { WhereHeld (F.held files.old) (last_files command.now) (λ held.
        EndsOf (ended result) plan.now (last_step held command.now.ask plan.now.read.variables)) }
    ensures files { AreFilesOf (name_of command.now) [] (last_files command.now) (ended result)
        (F.counts files.old) (F.counts files.new) }
    ensures answer { IfOk result (λ answer. WhereHeld (F.held files.old) (last_files command.now)
        (λ held. IsMadeTextOf held command.now.ask plan.now (text_of answer))) }
    ensures some { IfOk result (λ answer. text_of answer ≢ []) }
    ensures refusal { IfErr result IsRefusal }
{
    let nodes = nodes_of(model);
    let order = take_order(alloc, command, name, nodes, files)?;
    let state = match solve_by(alloc, model, &order) {
        Ok(state) => state,
        Err(answer) => return Err(unsolved(answer)),
    };
    let text = solved_text(alloc, &plan.read, model, &state)?;
    Ok(Answer::Text(text))
}

/// Takes a state of a model, or an assignment of its source, from the file of this name, and says what
/// is asked of it.
pub fn state_told<F: Files>(
    alloc: Global,
    command: &Command<'_>,
    name: &Name<'_>,
    of: &OfState<'_>,
    plan: &Plan,
    made: &Made,
    files: &mut F,
) -> Result<Answer, Status>
    requires asked { command.now.ask ≡ Ask.State name.now of.now }
    requires within { limit_fault plan.now.options.choices.normal plan.now.read.problem ≡ None }
    requires soft { KeepsSoft plan.now.read }
    requires made { IsMadeBy plan.now made.now }
    requires steps { plan.now.options.keep_steps ≡ keeps_steps command.now.ask }
    ensures step { WhereHeld (F.held files.old) (last_files command.now) (λ held.
        EndsOf (ended result) plan.now (last_step held command.now.ask plan.now.read.variables)) }
    ensures files { AreFilesOf (name_of command.now) [] (last_files command.now) (ended result)
        (F.counts files.old) (F.counts files.new) }
    ensures answer { IfOk result (λ answer. WhereHeld (F.held files.old) (last_files command.now)
        (λ held. IsMadeTextOf held command.now.ask plan.now (text_of answer))) }
    ensures some { IfOk result (λ answer. text_of answer ≢ []) }
    ensures refusal { IfErr result IsRefusal }
{
    let bits = take_last(alloc, command, name, of, plan, &made.model, files)?;
    let text = told(alloc, of, plan, made, &bits)?;
    Ok(Answer::Text(text))
}
