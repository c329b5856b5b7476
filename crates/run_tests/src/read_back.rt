//! What a run writes, read back by the reader of its kind: it costs what its rows give.
ghost use Rattle.std.specs.Prelude.{◌≡◌, ◌≤◌};

use crate::models::{Model, Target, model_in, numbers};
use crate::runs::{SOUND, run_words};
use base::{Cost, Costed};
use ising_file::read_ising;
use problem_form::Problem;
use qubo_file::read_qubo;
use std::alloc::Global;
use std::test::Fail;

/// The most nodes of a model here.
const MOST: usize = 6;

/// The lowest bits of a number.
fn bits(state: u64) -> [bool; MOST] {
    let mut bits = [false; MOST];
    for i in 0..MOST {
        bits[i] = (state >> i) % 2 == 1;
    }
    bits
}

/// How many states a problem has, where it costs under each of them what the model's rows give;
/// none where one costs something else.
fn alike(problem: &Problem, model: Model) -> Option<u64> {
    let nodes = model.nodes as usize;
    if nodes > MOST || problem.variables != nodes as u64 {
        return None;
    }
    for state in 0..1_u64.wrapping_shl(model.nodes) {
        let energy = Cost::Whole(i128::from(model.energy(state)));
        if problem.cost(&bits(state)[..nodes]) != energy {
            return None;
        }
    }
    Some(1_u64.wrapping_shl(model.nodes))
}

/// The problem of a text of this kind.
fn read_back(alloc: Global, target: Target, text: &[u8]) -> Option<Problem> {
    if text.len() > 1 << 24 {
        return None;
    }
    match target {
        Target::Qubo => read_qubo(alloc, text).ok(),
        _ => read_ising(alloc, text).ok(),
    }
}

/// How many states cost alike in a model and in the problem of its text.
fn alike_to(alloc: Global, target: Target, text: &[u8], model: Model) -> Option<u64> {
    match read_back(alloc, target, text) {
        Some(problem) => alike(&problem, model),
        None => None,
    }
}

/// How many states cost alike in a text and in its problem.
fn alike_in(alloc: Global, target: Target, text: &[u8]) -> Result<Option<u64>, Fail> {
    let numbers = numbers(alloc, text)?;
    Ok(match model_in(target, &numbers) {
        Some(model) => alike_to(alloc, target, text, model),
        None => None,
    })
}

/// The same of the text that a run with these words writes.
fn alike_of(
    alloc: Global,
    target: Target,
    words: &[&str],
    text: &str,
) -> Result<Option<u64>, Fail> {
    let ran = run_words(alloc, words, text, SOUND)?;
    alike_in(alloc, target, ran.out.bytes())
}

/// Whether this is so for all states of both models of a source, in both units.
fn all_alike(alloc: Global, format: &'static str, text: &str, nodes: u32) -> Result<bool, Fail> {
    let count = Some(1_u64.wrapping_shl(nodes));
    for target in [Target::Qubo, Target::Ising] {
        for unit in ["unit=one", "unit=reduce"] {
            let words = ["compile", format, target.word(), "a", unit];
            if alike_of(alloc, target, &words, text)? != count {
                return Ok(false);
            }
        }
    }
    Ok(true)
}

/// Sources, their formats, and how many nodes their models have: that of their variables, and one
/// more for a clause of three literals.
const SOURCES: [(&str, &str, u32); 10] = [
    ("wcnf", "p wcnf 2 3 10\n10 1 2 0\n3 -1 0\n4 -2 0\n", 2),
    ("wcnf", "p wcnf 3 3 9\n9 1 2 3 0\n4 -1 -2 0\n2 0\n", 4),
    ("wcnf", "p wcnf 2 2\n4 1 0\n8 -2 0\n", 2),
    ("wcnf", "h 1 -2 0\n3 -1 0\n5 2 3 0\n", 3),
    ("wcnf", "h 1 2 4 0\n6 -1 0\n6 -4 3 0\n", 5),
    ("wcnf", "p wcnf 2 0\n", 2),
    ("qubo", "p qubo 0 3 2 2\n0 0 6\n2 1 -9\n1 1 3\n0 2 12\n", 3),
    (
        "qubo",
        "p qubo unconstrained 4 3 3\n3 3 -5\n1 0 2\n0 1 2\n3 3 1\n0 0 0\n2 3 -7\n",
        4,
    ),
    ("ising", "p ising 2 2 1\n1 1 -1\n0 0 1\n0 1 2\n", 2),
    (
        "ising",
        "p ising 3 2 3\n0 0 4\n0 0 2\n2 1 -6\n0 1 8\n1 0 -8\n",
        3,
    ),
];

#[test]
fn what_is_written_is_read_back_and_costs_what_its_rows_give(rt: HostRuntime) -> Result<(), Fail> {
    for (format, text, nodes) in SOURCES {
        assert!(rt; all_alike(rt.alloc(), format, text, nodes)?, "{text}");
    }
    Ok(())
}
