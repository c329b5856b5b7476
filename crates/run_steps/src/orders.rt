//! An order of the nodes of a model, read from a file.
ghost use Rattle.std.specs.Prelude.{◌≡◌, ℕ, List, Some, IfOk, IfErr};
ghost use Rattle.command_words.specs.declared.names.Which.{Which};
ghost use Rattle.command_words.specs.Names.{ask_file, if_named};
ghost use Rattle.elimination_order.specs.Orders.{AreNodes};
ghost use Rattle.run_steps.specs.Steps.{ordered};
ghost use Rattle.run_steps.specs.Statuses.{IsReading};
ghost use Rattle.run_steps.specs.Takes.{HasTaken};

use crate::from_file::{FromFile, take_named};
use crate::status::Status;
use crate::steps::{read_into, take_words};
use command_words::{Command, Name, Which};
use edge_io::Files;
use elimination_order::read_order;
use std::alloc::Global;
use whole_text::Style;

/// An order of so many nodes.
impl FromFile for Vec<u64> {
    type Context = usize;

    ghost which = { Which.Order };

    ghost Content = { List ℕ };

    ghost view = { λ order. order.items };

    ghost steps = { λ nodes held name. ordered held name nodes };

    ghost fits = { λ nodes order. AreNodes nodes order };

    fn take<F: Files>(
        alloc: Global,
        name: &str,
        nodes: usize,
        files: &mut F,
    ) -> Result<Vec<u64>, Status> {
        let text = take_words(alloc, name, Which::Order, Style::Plain, files)?;
        let read = read_order(alloc, &text, nodes);
        drop(text);
        read_into(read, Which::Order)
    }
}

/// Takes the file of a command's order, and reads an order of so many nodes.
pub fn take_order<F: Files>(
    alloc: Global,
    command: &Command<'_>,
    name: &Name<'_>,
    nodes: usize,
    files: &mut F,
) -> Result<Vec<u64>, Status>
    requires { ask_file command.now.ask Which.Order ≡ Some name.now }
    ensures took { HasTaken F.held F.counts files.old files.new command.now
        (if_named command.now Which.Order) (λ order. order.items) result
        (λ held. ordered held name.now nodes) }
    ensures nodes { IfOk result (λ order. AreNodes nodes order.items) }
    ensures refusal { IfErr result IsReading }
{
    take_named::<Vec<u64>, F>(alloc, command, name, nodes, files)
}
