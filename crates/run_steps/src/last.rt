//! What is read once a model stands: a state of it, which a certificate may have to prove, or an
//! assignment of its source.
ghost use Rattle.std.specs.Prelude.{◌≡◌, ◌≤◌, ◌^◌, [], length, IfOk, IfErr};
ghost use Rattle.bits_model.specs.Output.{weight_total};
ghost use Rattle.command_words.specs.declared.commands.Ask.TheVariants as asks;
ghost use Rattle.command_words.specs.Names.{last_files, name_of};
ghost use Rattle.run_steps.specs.Steps.{Bits, asked_width, last_step};
ghost use Rattle.run_steps.specs.Statuses.{ended, IsReading};
ghost use Rattle.run_steps.specs.Causes.{AreFilesOf, MeetsHeld};

use crate::certificates::take_proof;
use crate::from_file::take_named;
use crate::plans::Plan;
use crate::status::Status;
use bits_model::OutputModel;
use command_words::{Command, Name, OfState};
use edge_io::Files;
use source_texts::Read;
use std::alloc::Global;

/// How many bits are asked for: those of a state of the model, or of an assignment.
fn width_of(of: &OfState<'_>, read: &Read, model: &OutputModel) -> usize
    ensures { result ≡ asked_width of.now read.now.variables model.now }
{
    match of {
        OfState::Extend => read.variables as usize,
        OfState::Decode | OfState::Prove(_) => model.nodes as usize,
    }
}

/// Takes the files that come after a model, and reads the bits that a command asks something of.
pub fn take_last<F: Files>(
    alloc: Global,
    command: &Command<'_>,
    name: &Name<'_>,
    of: &OfState<'_>,
    plan: &Plan,
    model: &OutputModel,
    files: &mut F,
) -> Result<Vec<bool>, Status>
    requires asked { command.now.ask ≡ asks.State name.now of.now }
    requires small { weight_total model.now.entries ≤ 2 ^ 121 }
    ensures step { MeetsHeld (F.held files.old) (last_files command.now)
        (λ bits. Bits bits.items) result
        (λ held. last_step held command.now.ask plan.now.read.variables model.now) }
    ensures width { IfOk result (λ bits.
        length bits.items ≡ asked_width of.now plan.now.read.variables model.now) }
    ensures files { AreFilesOf (name_of command.now) []
        (last_files command.now) (ended result) (F.counts files.old) (F.counts files.new) }
    ensures refusal { IfErr result IsReading }
{
    let width = width_of(of, &plan.read, model);
    let bits = take_named::<Vec<bool>, F>(alloc, command, name, width, files)?;
    match of {
        OfState::Prove(name) => take_proof(alloc, command, name, model, bits, files),
        OfState::Decode | OfState::Extend => Ok(bits),
    }
}
