//! The index of dead parts: marks for the qubits, and numbers for the couplers.
ghost use Rattle.std.specs.Prelude.{◌≡◌, ◌<◌, ◌||◌, ◌++◌, ℕ, true, false, All, length, IfOk, OnOk};
ghost use Rattle.std.specs.List.{list_any, slice_index_or};
ghost use Rattle.working_graph.specs.DeadLists.{IsPartOf};
ghost use Rattle.working_graph.specs.Index.{coupler_number, numbers_of};
ghost use Rattle.working_graph.specs.Working.{is_qubit};

use base::NoMemory;
use chimera_graph::Chimera;
use hardware::Hardware;
use part_lists::{Part, pair_number};
use std::alloc::Global;
use std::cmp::{max, min};

/// Marks a part, where it is a qubit.
fn mark(marks: &mut [bool], part: Part)
    requires { (q : ℕ) → is_qubit q part ≡ true → q < length marks.old }
    ensures len { length marks.new ≡ length marks.old }
    ensures marked { (q : ℕ) → slice_index_or marks.new q false
        ≡ (slice_index_or marks.old q false || is_qubit q part) }
{
    match part {
        Part::Qubit(qubit) => marks[qubit as usize] = true,
        Part::Coupler(_, _) => {}
    }
}

/// A mark for each qubit of a graph, which says that it is one of these parts.
pub(crate) fn marks_of(
    alloc: Global,
    graph: &Chimera,
    parts: &[Part],
) -> Result<Vec<bool>, NoMemory>
    requires { All (IsPartOf graph.now) parts.now }
    ensures { IfOk result (λ marks. (q : ℕ)
        → slice_index_or marks.items q false ≡ list_any (is_qubit q) parts.now) }
{
    let mut marks = vec![in alloc; false; graph.qubits() as usize]?;
    for k in 0..parts.len() {
        mark(&mut marks, parts[k]);
    }
    Ok(marks)
}

/// Adds the number of a part, where it is a coupler.
fn push_number(numbers: &mut Vec<u64>, part: Part) -> Result<(), NoMemory>
    ensures { OnOk result (numbers.new.items ≡ numbers.old.items ++ coupler_number part) }
{
    match part {
        Part::Qubit(_) => Ok(()),
        Part::Coupler(a, b) => {
            numbers.push(pair_number(min(a, b), max(a, b)))?;
            Ok(())
        }
    }
}

/// The numbers of the couplers among these parts.
pub(crate) fn numbers_of(alloc: Global, parts: &[Part]) -> Result<Vec<u64>, NoMemory>
    ensures { IfOk result (λ numbers. numbers.items ≡ numbers_of parts.now) }
{
    let mut numbers = Vec::new(alloc);
    for k in 0..parts.len() {
        push_number(&mut numbers, parts[k])?;
    }
    Ok(numbers)
}
