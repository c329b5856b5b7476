//! What is read from a file of its own: each file that a command names is one `impl`.
ghost use Rattle.std.specs.Prelude.{◌≡◌, ℕ, List, Some, IfOk};
ghost use Rattle.edge_io.specs.Held.{NamedFiles};
ghost use Rattle.command_words.specs.declared.names.Which.{Which};
ghost use Rattle.command_words.specs.Names.{if_named, named};
ghost use Rattle.run_steps.specs.Steps.{Steps};
ghost use Rattle.run_steps.specs.Takes.{HasTaken, HasTakenOne};

use crate::status::Status;
use command_words::{Command, Name};
use edge_io::Files;
use std::alloc::Global;

/// What is read from a file of its own.
pub trait FromFile: Drop {
    /// What has to be known before it is read.
    type Context;

    /// The file that it is read from.
    ghost which: { Which };

    /// What it is, apart from how it is kept.
    ghost Content: { Type 0 };

    ghost view: { Self → Content };

    /// The steps that take the file of a name, and read it.
    ghost steps: { Self.Context → NamedFiles → List ℕ → Steps Content };

    /// What holds of all that is read.
    ghost fits: { Self.Context → Content → Type 0 };

    /// Takes the file of this name, and reads it.
    fn take<F: Files>(
        alloc: Global,
        name: &str,
        context: Self::Context,
        files: &mut F,
    ) -> Result<Self, Status>
        ensures took { HasTakenOne F.held F.counts files.old files.new which name.now view result
            (λ held. steps context held name.now) }
        ensures fits { IfOk result (λ x. fits context (view x)) };
}

/// Takes the file of a command that has this name, and reads it.
pub fn take_named<T: FromFile, F: Files>(
    alloc: Global,
    command: &Command<'_>,
    name: &Name<'_>,
    context: T::Context,
    files: &mut F,
) -> Result<T, Status>
    requires { named command.now T.which ≡ Some name.now }
    ensures took { HasTaken F.held F.counts files.old files.new command.now
        (if_named command.now T.which) T.view result (λ held. T.steps context held name.now) }
    ensures fits { IfOk result (λ x. T.fits context (T.view x)) }
{
    T::take(alloc, name.text(), context, files)
}
