//! What the model of a command is made of.
ghost use Rattle.std.specs.Prelude.{◌≡◌, None, IfOk, IfErr};
ghost use Rattle.problem_form.specs.Limits.{limit_fault};
ghost use Rattle.command_words.specs.Commands.{HasFewClauses};
ghost use Rattle.command_words.specs.Names.{model_files};
ghost use Rattle.source_texts.specs.Sources.{AreEnoughIn, KeepsSoft};
ghost use Rattle.run_steps.specs.Steps.{keeps_steps, planning};
ghost use Rattle.run_steps.specs.Statuses.{IsRefusal};
ghost use Rattle.run_steps.specs.Takes.{HasTaken};

use crate::placements::take_placement;
use crate::sources::take_source;
use crate::status::Status;
use command_words::{Ask, Command, OfState};
use edge_io::Files;
use model_pipeline::Options;
use problem_form::Problem;
use source_texts::Read;
use std::alloc::Global;

/// What a model is made of: what its source is read into, and how that becomes a model.
pub struct Plan {
    pub read: Read,
    pub options: Options,
}

impl Drop for Plan {
    fn drop(self) {
        let Plan {
            read: _read,
            options: _options,
        } = self;
    }
}

impl Plan {
    /// The problem of the source, and how it becomes a model. All else is let go.
    pub fn into_problem_and_options(self) -> (Problem, Options)
        ensures problem { result.0 ≡ self.read.problem }
        ensures options { result.1 ≡ self.options }
    {
        let Plan { read, options } = self;
        (read.into_problem(), options)
    }
}

/// Whether the steps to the form are kept: where an assignment is to be extended.
fn keeps_steps(ask: &Ask<'_>) -> bool
    ensures { result ≡ keeps_steps ask.now }
{
    match ask {
        Ask::State(_, OfState::Extend) => true,
        _ => false,
    }
}

/// Takes the files that the model of a command is made of, and reads them.
pub fn take_plan<F: Files>(
    alloc: Global,
    command: &Command<'_>,
    files: &mut F,
) -> Result<Plan, Status>
    requires { HasFewClauses command.now.origin }
    ensures took { HasTaken F.held F.counts files.old files.new command.now
        (model_files command.now) (λ plan. plan) result (λ held. planning held command.now) }
    ensures within { IfOk result (λ plan.
        limit_fault plan.options.choices.normal plan.read.problem ≡ None) }
    ensures kept { IfOk result (λ plan. KeepsSoft plan.read) }
    ensures steps { IfOk result (λ plan. plan.options.keep_steps ≡ keeps_steps command.now.ask) }
    ensures enough { IfOk result (λ plan. AreEnoughIn command.now.penalty plan.read) }
    ensures refusal { IfErr result IsRefusal }
{
    let read = take_source(alloc, command, files)?;
    let target = take_placement(alloc, command, files)?;
    Ok(Plan {
        read,
        options: Options {
            choices: command.choices,
            unit: command.unit,
            target,
            keep_steps: keeps_steps(&command.ask),
        },
    })
}
