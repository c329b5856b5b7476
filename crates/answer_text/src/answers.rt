//! The texts of an answer.
ghost use Rattle.std.specs.Prelude.{◌≡◌, IfOk};
ghost use Rattle.answer_text.specs.Answers.{decoding_text, extension_text, proof_text, solution_text};

use crate::rows::{push_bits_row, push_cost, push_names, push_number_row, push_optimum};
use base::{Cost, NoMemory};
use poly_reader::Names;
use std::alloc::Global;

/// The assignment that a state was taken back to, with the names of its variables where they have
/// any, its cost, and the energy of the state.
pub fn written_decoding(
    alloc: Global,
    x: &[bool],
    names: &Option<Names>,
    cost: Cost,
    energy: i128,
) -> Result<Vec<u8>, NoMemory>
    ensures { IfOk result (λ text. text.items ≡ decoding_text x.now names.now cost energy) }
{
    let mut text = Vec::new(alloc);
    push_bits_row(&mut text, b"assignment", x)?;
    push_names(&mut text, names, x)?;
    push_cost(&mut text, cost)?;
    push_number_row(&mut text, b"energy", energy)?;
    Ok(text)
}

/// The state that an assignment was taken to, the cost of the assignment, and the energy of the
/// state.
pub fn written_extension(
    alloc: Global,
    y: &[bool],
    cost: Cost,
    energy: i128,
) -> Result<Vec<u8>, NoMemory>
    ensures { IfOk result (λ text. text.items ≡ extension_text y.now cost energy) }
{
    let mut text = Vec::new(alloc);
    push_bits_row(&mut text, b"state", y)?;
    push_cost(&mut text, cost)?;
    push_number_row(&mut text, b"energy", energy)?;
    Ok(text)
}

/// A least state, its energy, and the assignment that it stands for, of this cost: the optimum, or
/// that there is none where it is infinite.
pub fn written_solution(
    alloc: Global,
    y: &[bool],
    energy: i128,
    x: &[bool],
    names: &Option<Names>,
    cost: Cost,
) -> Result<Vec<u8>, NoMemory>
    ensures { IfOk result (λ text. text.items
        ≡ solution_text y.now energy x.now names.now cost) }
{
    let mut text = Vec::new(alloc);
    push_bits_row(&mut text, b"state", y)?;
    push_number_row(&mut text, b"energy", energy)?;
    push_optimum(&mut text, x, names, cost)?;
    Ok(text)
}

/// The energy of a state that is proved to be least, and the assignment that it stands for, of this
/// cost: the optimum, or that there is none where it is infinite.
pub fn written_proof(
    alloc: Global,
    energy: i128,
    x: &[bool],
    names: &Option<Names>,
    cost: Cost,
) -> Result<Vec<u8>, NoMemory>
    ensures { IfOk result (λ text. text.items ≡ proof_text energy x.now names.now cost) }
{
    let mut text = Vec::new(alloc);
    push_number_row(&mut text, b"energy", energy)?;
    push_optimum(&mut text, x, names, cost)?;
    Ok(text)
}
