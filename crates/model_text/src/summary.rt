//! The summary of a model, in six rows.
ghost use Rattle.std.specs.Prelude.{◌≡◌, ◌++◌, IfOk, OnOk};
ghost use Rattle.model_text.specs.Rows.{row_text, rows_text};
ghost use Rattle.model_text.specs.Summary.{summary_row, summary_rows, summary_text};

use base::{Figures, NoMemory};
use bits_model::OutputModel;
use std::alloc::Global;
use whole_text::push_number;

/// A number, after its name.
fn push_row(text: &mut Vec<u8>, name: &[u8], value: i128) -> Result<(), NoMemory>
    ensures { OnOk result
        (text.new.items ≡ text.old.items ++ row_text (summary_row name.now value)) }
{
    text.extend_from_slice(name)?;
    text.push(b' ')?;
    push_number(text, value)?;
    text.push(b'\n')?;
    Ok(())
}

/// The six rows of these numbers.
fn push_summary(
    text: &mut Vec<u8>,
    nodes: i128,
    couplers: i128,
    figures: Figures,
    unit: i128,
) -> Result<(), NoMemory>
    ensures { OnOk result (text.new.items
        ≡ text.old.items ++ rows_text (summary_rows nodes couplers figures unit)) }
{
    push_row(text, b"nodes", nodes)?;
    push_row(text, b"couplers", couplers)?;
    push_row(text, b"scale", figures.scale)?;
    push_row(text, b"offset", figures.offset)?;
    push_row(text, b"threshold", figures.threshold)?;
    push_row(text, b"unit", unit)?;
    Ok(())
}

/// The summary of a model: how many nodes and couplers its text lists, its scale, offset and
/// threshold, and its unit, each in a row after its name.
#[tactic(auto, unfolding(crate::specs::Summary::summary_text))]
pub fn written_summary(alloc: Global, model: &OutputModel) -> Result<Vec<u8>, NoMemory>
    ensures { IfOk result (λ text. text.items ≡ summary_text model.now) }
{
    let counts = model.entries.counts();
    let mut text = Vec::new(alloc);
    push_summary(
        &mut text,
        counts.nodes as i128,
        counts.couplers as i128,
        model.figures,
        model.unit,
    )?;
    Ok(text)
}
