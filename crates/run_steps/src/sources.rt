//! The source of a command: the file that it names, or the text that a number draws.
ghost use Rattle.std.specs.Prelude.{◌≡◌, ◌≤◌, None, IfOk, IfErr};
ghost use Rattle.problem_form.specs.declared.limits.Normal.{Normal};
ghost use Rattle.problem_form.specs.Limits.{limit_fault};
ghost use Rattle.local_penalties.specs.Kept.{IsWithinLimits};
ghost use Rattle.command_words.specs.Commands.{HasFewClauses};
ghost use Rattle.command_words.specs.declared.names.Which.{Which};
ghost use Rattle.command_words.specs.Names.{if_named};
ghost use Rattle.source_texts.specs.declared.reading.Read.{Read};
ghost use Rattle.source_texts.specs.Sources.{AreEnoughIn, KeepsSoft, penalized};
ghost use Rattle.run_steps.specs.Steps.{checking, prepared};
ghost use Rattle.run_steps.specs.Cut.{checking_file, reading_file};
ghost use Rattle.run_steps.specs.Takes.{HasTaken, HasTakenOne};
ghost use Rattle.run_steps.specs.Drawn.{IsDrawnFor, IsDrawnInto};

use crate::status::Status;
use crate::steps::{read_into, take_words};
use base::NoMemory;
use command_words::{Command, Format, Origin, Slack, Which, most_of};
use edge_io::Files;
use form_steps::PenaltyScope;
use problem_form::check_limits;
use sample_text::sample_text;
use source_texts::{Read, read_source, read_source_words, style_of};
use std::alloc::Global;

/// What the text that a number draws is read into. It has no fault, and passes no limit, so that the
/// status is want of memory.
fn read_drawn(alloc: Global, number: u64, clauses: u64) -> Result<Read, Status>
    requires { clauses ≤ 100000 }
    ensures read { IfOk result (λ read. (normal : Normal)
        → IsDrawnInto number clauses normal read) }
    ensures kept { IfOk result KeepsSoft }
    ensures no_fault { IfErr result (λ status. status ≡ Status.NoMemory) }
{
    let text = sample_text(alloc, number, clauses)?;
    let read = read_source(alloc, Slack::Bits, Format::Wcnf, &text);
    read_into(read, Which::Source)
}

/// What is read, where its constraints get their slack as a command says, and with the command's
/// bound.
fn prepared(alloc: Global, command: &Command<'_>, read: Read) -> Result<Read, NoMemory>
    requires { KeepsSoft read }
    ensures value { IfOk result (λ given. given ≡ prepared command.now read) }
    ensures kept { IfOk result KeepsSoft }
{
    let mut read = read.slacked(alloc, command.slack)?;
    read.cut_off(most_of(command.bound));
    Ok(read)
}

/// What is read, with penalties of a scope, which are enough.
fn penalized(alloc: Global, scope: PenaltyScope, read: Read) -> Result<Read, NoMemory>
    requires within { IsWithinLimits read.problem }
    requires kept { KeepsSoft read }
    ensures value { IfOk result (λ given. given ≡ penalized scope read) }
    ensures kept { IfOk result KeepsSoft }
    ensures enough { IfOk result (AreEnoughIn scope) }
{
    let mut read = read;
    read.penalize(alloc, scope)?;
    Ok(read)
}

/// What the text that a number draws is read into, as a command wants it. It passes no limit.
fn take_drawn(
    alloc: Global,
    number: u64,
    clauses: u64,
    command: &Command<'_>,
) -> Result<Read, Status>
    requires { clauses ≤ 100000 }
    ensures drawn { IfOk result (IsDrawnFor number clauses command.now) }
    ensures within { IfOk result (λ read.
        limit_fault command.now.choices.normal read.problem ≡ None) }
    ensures kept { IfOk result KeepsSoft }
    ensures enough { IfOk result (AreEnoughIn command.now.penalty) }
    ensures no_fault { IfErr result (λ status. status ≡ Status.NoMemory) }
{
    let own = read_drawn(alloc, number, clauses)?;
    let read = prepared(alloc, command, own)?;
    Ok(penalized(alloc, command.penalty, read)?)
}

/// Takes the file of a source, cut into words as it comes, and reads it.
fn take_read<F: Files>(
    alloc: Global,
    name: &str,
    slack: Slack,
    format: Format,
    files: &mut F,
) -> Result<Read, Status>
    ensures took { HasTakenOne F.held F.counts files.old files.new Which.Source name.now
        (λ read. read) result (λ held. reading_file held name.now slack format) }
    ensures kept { IfOk result KeepsSoft }
{
    let style = style_of(format);
    let text = take_words(alloc, name, Which::Source, style, files)?;
    let read = read_source_words(alloc, slack, format, &text);
    drop(text);
    read_into(read, Which::Source)
}

/// What a source in a file is read into, as a command wants it and within the limits.
fn take_file<F: Files>(
    alloc: Global,
    name: &str,
    format: Format,
    command: &Command<'_>,
    files: &mut F,
) -> Result<Read, Status>
    ensures took { HasTakenOne F.held F.counts files.old files.new Which.Source name.now
        (λ read. read) result (λ held. checking_file held name.now format command.now) }
    ensures within { IfOk result (λ read.
        limit_fault command.now.choices.normal read.problem ≡ None) }
    ensures kept { IfOk result KeepsSoft }
    ensures enough { IfOk result (AreEnoughIn command.now.penalty) }
{
    let own = take_read(alloc, name, command.slack, format, files)?;
    let read = prepared(alloc, command, own)?;
    match check_limits(&read.problem, &command.choices) {
        Ok(()) => {
            let given = penalized(alloc, command.penalty, read)?;
            Ok(given)
        }
        Err(fault) => Err(Status::Limit(Which::Source, fault.kind, fault.number)),
    }
}

/// What the source of a command is read into, as the command wants it and within the limits.
pub fn take_source<F: Files>(
    alloc: Global,
    command: &Command<'_>,
    files: &mut F,
) -> Result<Read, Status>
    requires { HasFewClauses command.now.origin }
    ensures took { HasTaken F.held F.counts files.old files.new command.now
        (if_named command.now Which.Source) (λ read. read) result
        (λ held. checking held command.now) }
    ensures within { IfOk result (λ read.
        limit_fault command.now.choices.normal read.problem ≡ None) }
    ensures kept { IfOk result KeepsSoft }
    ensures enough { IfOk result (AreEnoughIn command.now.penalty) }
{
    match &command.origin {
        Origin::Drawn(number, clauses) => take_drawn(alloc, *number, *clauses, command),
        Origin::File(format, name) => take_file(alloc, name.text(), *format, command, files),
    }
}
