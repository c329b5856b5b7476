//! The program, over the real words and files.
ghost use Rattle.std.specs.Prelude.{◌≡◌, ◌≢◌, IfOk, IfErr, OnErr, OnOk};
ghost use Rattle.command_words.specs.Commands.{asked};
ghost use Rattle.run_steps.specs.Statuses.{IsUntaken, exit_number};
ghost use Rattle.program_run.specs.Exits.{ends_by, sinks_by, IsNumberOf, IsRunOn};

use crate::running::run;
use edge_io::{Files, RealFiles, Sink};
use run_steps::Status;
use std::alloc::{AllocError, Global};
use std::env;
use std::io::ErrorKind;

/// One run, and the number of its status.
pub fn finish<F: Files, O: Sink, E: Sink>(
    alloc: Global,
    words: &[String],
    files: &mut F,
    out: &mut O,
    err: &mut E,
) -> u8
    ensures run { IsNumberOf (asked words.now)
        (ends_by O.taken O.faults E.taken E.faults F.held F.counts)
        (out.old, err.old, files.old) (out.new, err.new, files.new) result }

    // Nothing is called at 2, nothing written to `out` but at 0 and 4, and nothing to `err` at 0.
    ensures no_call { result ≡ 2 → files.new ≡ files.old }
    ensures refused { result ≢ 0 → result ≢ 4 → out.new ≡ out.old }
    ensures silent { result ≡ 0 → err.new ≡ err.old }
{
    run(alloc, words, files, out, err).number()
}

/// The words after the program's name, or the status where they cannot be taken: memory is refused, or
/// a word is no UTF-8.
pub fn given_words(rt: &HostRuntime) -> Result<Vec<String>, Status>
    ensures { IfErr result IsUntaken }
{
    let mut words = match env::args(rt) {
        Ok(words) => words,
        Err(error) if error.kind() == ErrorKind::OutOfMemory => return Err(Status::NoMemory),
        Err(_) => return Err(Status::Usage(0)),
    };
    let _program = words.next();
    let collected: Result<Vec<String>, AllocError> = words.collect(rt.alloc());
    collected.map_err(|_| Status::NoMemory)
}

/// The number to exit with: that of a run on these words and the files of the system, or of the status
/// where no words could be taken, and then nothing is written.
pub fn exit_number<O: Sink, E: Sink>(
    rt: HostRuntime,
    words: Result<Vec<String>, Status>,
    out: &mut O,
    err: &mut E,
) -> u8
    ensures run { IfOk words (λ given. IsRunOn (asked given.items)
        (sinks_by O.taken O.faults E.taken E.faults)
        (out.old, err.old) (out.new, err.new) result) }
    ensures refused { OnOk words (result ≢ 0 → result ≢ 4 → out.new ≡ out.old) }
    ensures silent { OnOk words (result ≡ 0 → err.new ≡ err.old) }

    // Without words nothing is written.
    ensures untaken { IfErr words (λ status. result ≡ exit_number status) }
    ensures unwritten { OnErr words (out.new ≡ out.old) }
    ensures unsaid { OnErr words (err.new ≡ err.old) }
{
    match words {
        Ok(words) => {
            let alloc: Global = rt.alloc();
            finish(alloc, &words, &mut RealFiles::new(rt), out, err)
        }
        Err(status) => status.number(),
    }
}
