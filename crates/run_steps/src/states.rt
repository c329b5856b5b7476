//! A state of a model or an assignment of a source, read from a file.
ghost use Rattle.std.specs.Prelude.{◌≡◌, ◌≤◌, ◌^◌, Bool, List, length, IfOk, IfErr};
ghost use Rattle.command_words.specs.declared.commands.Ask.TheVariants as asks;
ghost use Rattle.command_words.specs.declared.names.Which.{Which};
ghost use Rattle.command_words.specs.Names.{last_files};
ghost use Rattle.run_steps.specs.Steps.{stating, taking, EndsState};
ghost use Rattle.run_steps.specs.Statuses.{IsReading, IsStateRefusal};
ghost use Rattle.run_steps.specs.Takes.{HasTaken};

use crate::from_file::FromFile;
use crate::status::Status;
use crate::steps::take_bytes;
use command_words::{Command, Name, Which};
use edge_io::Files;
use state_file::{StateAnswer, read_state};
use std::alloc::Global;

/// The bits that a text is read into, or the status where it has none of this length.
fn judged_state(read: Result<Vec<bool>, StateAnswer>, width: usize) -> Result<Vec<bool>, Status>
    ensures step { EndsState (λ bits. bits.items) read width result }
    ensures good { IfOk result (λ bits. read ≡ Ok bits) }
    ensures bad { IfErr result IsStateRefusal }
{
    match read {
        Ok(bits) => Ok(bits),
        Err(StateAnswer::NoState) => Err(Status::NoState(width)),
        Err(StateAnswer::NoMemory) => Err(Status::NoMemory),
    }
}

/// So many bits.
impl FromFile for Vec<bool> {
    type Context = usize;

    ghost which = { Which.State };

    ghost Content = { List Bool };

    ghost view = { λ bits. bits.items };

    ghost steps = { λ width held name. stating held name width };

    ghost fits = { λ width bits. length bits ≡ width };

    #[tactic(auto, unfolding(crate::specs::Steps::stating), using(crate::proofs::StateBits::state_has_width))]
    fn take<F: Files>(
        alloc: Global,
        name: &str,
        width: usize,
        files: &mut F,
    ) -> Result<Vec<bool>, Status> {
        let text = take_bytes(alloc, name, Which::State, files)?;
        let read = read_state(alloc, &text, width);
        drop(text);
        judged_state(read, width)
    }
}

/// Takes the bytes of the file of a command's states.
pub fn take_states<F: Files>(
    alloc: Global,
    command: &Command<'_>,
    name: &Name<'_>,
    files: &mut F,
) -> Result<Vec<u8>, Status>
    requires { command.now.ask ≡ asks.Evaluate name.now }
    ensures took { HasTaken F.held F.counts files.old files.new command.now
        (last_files command.now) (λ bytes. bytes.items) result
        (λ held. taking held Which.State name.now) }
    ensures short { IfOk result (λ bytes. length bytes.items ≤ 2 ^ 24) }
    ensures refusal { IfErr result IsReading }
{
    take_bytes(alloc, name.text(), Which::State, files)
}
