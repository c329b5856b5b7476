//! One run: the answer to a command, its delivery, and the line for the status.
ghost use Rattle.std.specs.Prelude.{◌≡◌, ℕ, Ok, Err, IfOk, IfErr};
ghost use Rattle.command_words.specs.Commands.{asked, by_command, AsksForFewClauses, HasFewClauses};
ghost use Rattle.command_words.specs.Names.{files_of};
ghost use Rattle.command_words.specs.Notices.{notice_text};
ghost use Rattle.run_steps.specs.Statuses.{IsUsageOf, OnUsage, OnWriting, OnDone, OnRefusal, CountsWriteFault};
ghost use Rattle.run_steps.specs.Causes.{AreFiles, WhereHeld};
ghost use Rattle.program_run.specs.Outcome.{MeetsOutcome};
ghost use Rattle.program_run.specs.Answers.{Delivers, IsAnswer, IsDelivered, WritesText};
ghost use Rattle.program_run.specs.Runs.{IsRun};
ghost use Rattle.program_run.specs.Lines.{error_line, name_in, file_in, IsSaid};

use crate::answers::answer_to;
use crate::delivery::{deliver, deliver_text};
use crate::lines::say;
use command_words::{Command, Notice, Request, Which, name_of, notice_text, request};
use edge_io::{Files, LineBuffer, Sink};
use run_steps::Status;
use std::alloc::Global;

/// The file that a status speaks of.
fn file_in(status: Status) -> Which
    ensures { result ≡ file_in status }
{
    match status {
        Status::ReadFault(which) | Status::BadText(which, ..) | Status::Limit(which, ..) => which,
        Status::NoState(_) => Which::State,
        _ => Which::Source,
    }
}

/// The file's name in the line for a status.
fn name_in<'a>(asked: &Result<Request<'a>, usize>, status: Status) -> &'a str
    ensures { result.now ≡ name_in asked.now status }
{
    match asked {
        Ok(Request::Command(command)) => name_of(command, file_in(status)),
        Ok(Request::Notice(_)) | Err(_) => "",
    }
}

/// Writes what a notice says. It takes no memory and no file.
fn noticed<O: Sink>(notice: Notice, out: &mut O) -> Status
    ensures delivered { IsDelivered result (O.taken out.old) (O.taken out.new)
        (notice_text notice) }
    ensures fault { CountsWriteFault result (O.faults out.old) (O.faults out.new) }
    ensures refused { OnRefusal result (out.new ≡ out.old) }
{
    deliver_text(notice_text(notice).as_bytes(), out)
}

/// How a command ends, with its answer written to `out`, before which the whole answer stands, and
/// the buffer that it goes through.
fn carried_out<F: Files, O: Sink>(
    alloc: Global,
    command: &Command<'_>,
    files: &mut F,
    out: &mut O,
) -> Status
    requires few { HasFewClauses command.now.origin }
    ensures usage { IsUsageOf result (by_command command.now) }
    ensures no_call { OnUsage result (files.new ≡ files.old) }
    ensures files { AreFiles command.now result (F.counts files.old) (F.counts files.new) }
    ensures write_fault { CountsWriteFault result (O.faults out.old) (O.faults out.new) }
    ensures outcome { WhereHeld (F.held files.old) (files_of command.now) (λ held.
        MeetsOutcome held (by_command command.now) result) }
    ensures answered { OnWriting result (Delivers IsAnswer (by_command command.now)
        (F.held files.old) result (O.taken out.old) (O.taken out.new)) }
    ensures written { OnDone result (WritesText (O.taken out.old) (O.taken out.new)) }
    ensures refused { OnRefusal result (out.new ≡ out.old) }
{
    let Ok(mut buffer) = LineBuffer::new(alloc) else {
        return Status::NoMemory;
    };
    match answer_to(alloc, command, files) {
        Err(status) => status,
        Ok(answer) => {
            let status = deliver(&answer, &mut buffer, out);
            drop(answer);
            status
        }
    }
}

/// How a run ends on what its words ask for, with its answer written to `out`, before which the whole
/// answer stands. It knows no error output, so a fault of that changes no status.
pub fn answered<F: Files, O: Sink>(
    alloc: Global,
    asked: &Result<Request<'_>, usize>,
    files: &mut F,
    out: &mut O,
) -> Status
    requires few { IfOk asked.now AsksForFewClauses }
    ensures run { IsRun asked.now result (F.held files.old)
        (F.counts files.old) (F.counts files.new) (O.taken out.old) (O.taken out.new)
        (O.faults out.old) (O.faults out.new) }

    // A usage fault calls nothing, and nothing is written before the whole answer stands.
    ensures no_call { OnUsage result (files.new ≡ files.old) }
    ensures refused { OnRefusal result (out.new ≡ out.old) }
{
    match asked {
        Ok(request) => match request {
            Request::Command(command) => carried_out(alloc, command, files, out),
            Request::Notice(notice) => noticed(*notice, out),
        },
        Err(position) => Status::Usage(*position),
    }
}

/// One run: what is answered, and then the line for every status but `Done`, to `err`.
pub fn run<F: Files, O: Sink, E: Sink>(
    alloc: Global,
    words: &[String],
    files: &mut F,
    out: &mut O,
    err: &mut E,
) -> Status
    ensures run { IsRun (asked words.now) result (F.held files.old)
        (F.counts files.old) (F.counts files.new) (O.taken out.old) (O.taken out.new)
        (O.faults out.old) (O.faults out.new) }

    // A usage fault calls nothing, and nothing is written before the whole answer stands.
    ensures no_call { OnUsage result (files.new ≡ files.old) }
    ensures refused { OnRefusal result (out.new ≡ out.old) }

    // The line, and none at `Done`.
    ensures line { IsSaid (E.taken err.old) (E.taken err.new) (E.faults err.old) (E.faults err.new)
        (error_line result (name_in (asked words.now) result)) }
    ensures silent { OnDone result (err.new ≡ err.old) }
{
    let asked = request(words);
    let status = answered(alloc, &asked, files, out);
    say(status, name_in(&asked, status), err);
    status
}
