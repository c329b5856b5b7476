//! The index of parts: a mark for each number that is named, and the numbers of the joins.
ghost use Rattle.std.specs.Prelude.{◌≡◌, ◌<◌, ◌≤◌, ◌||◌, ◌++◌, ℕ, true, false, All, length, IfOk, OnOk};
ghost use Rattle.std.specs.List.{list_any, slice_index_or};
ghost use Rattle.listed_graph.specs.Complete.{most, IsPart};
ghost use Rattle.listed_graph.specs.Parts.{beyond, is_named, exists_in, qubits_of};
ghost use Rattle.listed_graph.specs.Rows.{joins_of_part, joins_of};

use base::NoMemory;
use part_lists::{Part, pair_number};
use std::alloc::Global;
use std::cmp::max;

/// One more than the greatest qubit of a part.
fn beyond(part: Part) -> u32
    requires { IsPart part }
    ensures { result ≡ beyond part }
{
    match part {
        Part::Qubit(a) => a + 1,
        Part::Coupler(a, b) => max(a, b) + 1,
    }
}

/// One more than the greatest qubit of these parts.
fn count_of(parts: &[Part]) -> u32
    requires { All IsPart parts.now }
    ensures value { result ≡ qubits_of parts.now }
    ensures few { result ≤ most }
{
    let mut count = 0;
    for k in 0..parts.len() {
        count = max(count, beyond(parts[k]));
    }
    count
}

/// Marks the qubits of a part.
fn mark(marks: &mut [bool], part: Part)
    requires { (q : ℕ) → is_named q part ≡ true → q < length marks.old }
    ensures len { length marks.new ≡ length marks.old }
    ensures marked { (q : ℕ) → slice_index_or marks.new q false
        ≡ (slice_index_or marks.old q false || is_named q part) }
{
    match part {
        Part::Qubit(a) => marks[a as usize] = true,
        Part::Coupler(a, b) => {
            marks[a as usize] = true;
            marks[b as usize] = true;
        }
    }
}

/// A mark for each number up to the greatest that is named.
pub(crate) fn named_of(alloc: Global, parts: &[Part]) -> Result<Vec<bool>, NoMemory>
    requires { All IsPart parts.now }
    ensures sized { IfOk result (λ marks. length marks.items ≡ qubits_of parts.now) }
    ensures few { IfOk result (λ marks. length marks.items ≤ most) }
    ensures named { IfOk result (λ marks. (q : ℕ)
        → slice_index_or marks.items q false ≡ exists_in parts.now q) }
{
    let mut marks = vec![in alloc; false; count_of(parts) as usize]?;
    for k in 0..parts.len() {
        mark(&mut marks, parts[k]);
    }
    Ok(marks)
}

/// Adds the numbers of a part: of a coupler, from both its ends.
fn push_joins(numbers: &mut Vec<u64>, part: Part) -> Result<(), NoMemory>
    ensures { OnOk result (numbers.new.items ≡ numbers.old.items ++ joins_of_part part) }
{
    match part {
        Part::Qubit(_) => Ok(()),
        Part::Coupler(a, b) => {
            numbers.push(pair_number(a, b))?;
            numbers.push(pair_number(b, a))?;
            Ok(())
        }
    }
}

/// The numbers of the joins of these parts.
pub(crate) fn joins_of(alloc: Global, parts: &[Part]) -> Result<Vec<u64>, NoMemory>
    ensures { IfOk result (λ numbers. numbers.items ≡ joins_of parts.now) }
{
    let mut numbers = Vec::new(alloc);
    for k in 0..parts.len() {
        push_joins(&mut numbers, parts[k])?;
    }
    Ok(numbers)
}
