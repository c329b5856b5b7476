//! The size of a model: its summary, its variables, and the levels of its weights.
ghost use Rattle.std.specs.Prelude.{◌≡◌, ◌++◌, ◌<◌, ◌^◌, fold, max, min, IfOk, OnOk};
ghost use Rattle.std.specs.List.{reduce};
ghost use Rattle.model_text.specs.Rows.{rows_text};
ghost use Rattle.answer_text.specs.Sizes.{levels_with, size_rows, size_text, sizes};

use crate::rows::push_number_row;
use base::NoMemory;
use bits_model::{EntryList, OutputModel};
use model_text::written_summary;
use std::alloc::Global;

/// The least of some sizes, where there are any, and the greatest.
#[derive(Clone, Copy)]
pub(crate) struct Levels {
    least: Option<u128>,
    greatest: u128,
}

/// The levels with one more size, which counts where it is not 0.
fn levels_with(levels: Levels, size: u128) -> Levels
    ensures { result ≡ levels_with levels size }
{
    if size > 0 {
        let least = match levels.least {
            Some(least) => least.min(size),
            None => size,
        };
        Levels {
            least: Some(least),
            greatest: levels.greatest.max(size),
        }
    } else {
        levels
    }
}

/// The levels of the weights.
fn levels_of(entries: &EntryList) -> Levels
    ensures least { result.least ≡ reduce min (sizes entries.now) }
    ensures greatest { result.greatest ≡ fold max 0 (sizes entries.now) }
{
    let mut levels = Levels {
        least: None,
        greatest: 0,
    };
    for entry in entries.iter() {
        levels = levels_with(levels, entry.weight.unsigned_abs());
    }
    levels
}

/// The rows of these numbers.
fn push_sizes(
    text: &mut Vec<u8>,
    variables: u32,
    least: u128,
    greatest: u128,
) -> Result<(), NoMemory>
    requires least { least < 2 ^ 127 }
    requires greatest { greatest < 2 ^ 127 }
    ensures { OnOk result (text.new.items
        ≡ text.old.items ++ rows_text (size_rows variables least greatest)) }
{
    push_number_row(text, b"variables", i128::from(variables))?;
    push_number_row(text, b"least", least as i128)?;
    push_number_row(text, b"greatest", greatest as i128)
}

/// The size of a model: its summary, how many variables its source has, and the least and the
/// greatest size of a weight that is not 0, both 0 where there is none.
pub fn written_size(alloc: Global, model: &OutputModel) -> Result<Vec<u8>, NoMemory>
    ensures { IfOk result (λ text. text.items ≡ size_text model.now) }
{
    let levels = levels_of(&model.entries);
    let mut text = written_summary(alloc, model)?;
    push_sizes(
        &mut text,
        model.variables,
        levels.least.unwrap_or(0),
        levels.greatest,
    )?;
    Ok(text)
}
