//! First least states by orders of elimination, which are read from texts.
ghost use Rattle.std.specs.Prelude.{◌≡◌, ◌+◌, ◌<◌, ◌≤◌, ◌^◌, OnOk, length};
ghost use Rattle.problem_form.specs.Problems.{problem_total};

use crate::drawn::{add_weight, node_model};
use crate::solving::drawn_model;
use base::NoMemory;
use basic_solve::{SolveAnswer, solve};
use bits_model::OutputModel;
use command_words::NodeModel;
use elimination_order::{read_order, solve_by};
use problem_form::Problem;
use std::alloc::{AllocError, Global};
use whole_text::{Style, TextAnswer, TextKind, TokenText, cut_words};

/// The greatest length of a text.
const MOST_BYTES: usize = 1 << 24;

/// What comes of a model and the text of an order.
#[derive(Clone, Copy, Debug, PartialEq, Eq)]
enum Outcome {
    /// The number whose digits are the bits of the state, that of node 0 first.
    Least(u32),

    TooWide(u32, u32),
    Fault(TextKind, u64),

    /// There is no such model, or no memory.
    Nothing,
}

fn number_of(bits: &[bool]) -> u32 {
    let mut number: u32 = 0;
    for bit in bits {
        number = number.wrapping_mul(2) | u32::from(*bit);
    }
    number
}

fn found_of(answer: Result<Vec<bool>, SolveAnswer>) -> Outcome {
    match answer {
        Ok(y) => Outcome::Least(number_of(&y)),
        Err(SolveAnswer::TooWide(node, width)) => Outcome::TooWide(node, width),
        Err(SolveAnswer::NoMemory) => Outcome::Nothing,
    }
}

/// What comes of an order that was cut into words.
fn found_by(alloc: Global, model: &OutputModel, text: &TokenText) -> Outcome {
    match read_order(alloc, text, model.nodes as usize) {
        Ok(order) => found_of(solve_by(alloc, model, &order)),
        Err(TextAnswer::Bad(fault)) => Outcome::Fault(fault.kind, fault.line),
        Err(TextAnswer::NoMemory) => Outcome::Nothing,
    }
}

fn found(alloc: Global, model: &OutputModel, text: &str) -> Outcome {
    if text.len() > MOST_BYTES {
        return Outcome::Nothing;
    }
    match cut_words(alloc, text.as_bytes(), Style::Plain) {
        Ok(text) => found_by(alloc, model, &text),
        Err(NoMemory) => Outcome::Nothing,
    }
}

/// Which nodes are neighbours: each node and the next, node 0 and all others, or all of them.
#[derive(Clone, Copy, Debug, PartialEq, Eq)]
enum Shape {
    Path,
    Star,
    Clique,
}

fn are_neighbours(shape: Shape, first: u32, second: u32) -> bool {
    first < second
        && match shape {
            Shape::Path => second - first == 1,
            Shape::Star => first == 0,
            Shape::Clique => true,
        }
}

/// The weights whose least states are the largest sets without neighbours.
fn weight_of(shape: Shape, first: u32, second: u32) -> i8 {
    if first == second {
        -1
    } else if are_neighbours(shape, first, second) {
        2
    } else {
        0
    }
}

/// Adds the weights of a node with each of so many nodes.
fn add_row(
    alloc: Global,
    problem: &mut Problem,
    shape: Shape,
    first: u32,
    nodes: u32,
) -> Result<(), NoMemory>
    requires { problem_total problem.old < 2 ^ 98 }
    ensures { OnOk result (problem_total problem.new ≤ problem_total problem.old + 2 ^ 39) }
{
    for second in 0..nodes {
        let weight = weight_of(shape, first, second);
        add_weight(alloc, problem, u64::from(first), u64::from(second), weight)?;
    }
    Ok(())
}

fn add_rows(alloc: Global, problem: &mut Problem, shape: Shape, nodes: u32) -> Result<(), NoMemory>
    requires { problem_total problem.old ≡ 0 }
{
    for first in 0..nodes {
        add_row(alloc, problem, shape, first, nodes)?;
    }
    Ok(())
}

fn problem_of(alloc: Global, shape: Shape, nodes: u32) -> Result<Problem, NoMemory> {
    let mut problem = Problem::new(alloc);
    problem.widen(u64::from(nodes));
    add_rows(alloc, &mut problem, shape, nodes)?;
    Ok(problem)
}

fn found_for(alloc: Global, problem: &Problem, text: &str) -> Outcome {
    match node_model(alloc, problem, problem.variables, NodeModel::Qubo) {
        Some(model) => found(alloc, &model, text),
        None => Outcome::Nothing,
    }
}

fn found_on(alloc: Global, shape: Shape, nodes: u32, text: &str) -> Outcome {
    match problem_of(alloc, shape, nodes) {
        Ok(problem) => found_for(alloc, &problem, text),
        Err(NoMemory) => Outcome::Nothing,
    }
}

/// Shapes of so many nodes, orders, and what comes of them.
const ORDERS: [(Shape, u32, &str, Outcome); 9] = [
    (Shape::Path, 6, "5 4 3 2 1 0", Outcome::Least(0b010101)),
    (Shape::Path, 6, "0 1 2 3 4 5", Outcome::Least(0b101010)),
    (Shape::Path, 6, "2 0 5 1 3 4", Outcome::Least(0b101001)),
    (
        Shape::Star,
        17,
        "0 1 2 3 4 5 6 7 8 9 10 11 12 13 14 15 16",
        Outcome::Least(0xFFFF),
    ),
    (
        Shape::Star,
        18,
        "0 1 2 3 4 5 6 7 8 9 10 11 12 13 14 15 16 17",
        Outcome::TooWide(0, 17),
    ),
    (
        Shape::Star,
        18,
        "17 16 15 14 13 12 11 10 9 8 7 6 5 4 3 2 1 0",
        Outcome::Least(0x1FFFF),
    ),
    (
        Shape::Star,
        19,
        "5 0 1 2 3 4 6 7 8 9 10 11 12 13 14 15 16 17 18",
        Outcome::TooWide(0, 17),
    ),
    (
        Shape::Clique,
        18,
        "7 0 1 2 3 4 5 6 8 9 10 11 12 13 14 15 16 17",
        Outcome::TooWide(7, 17),
    ),
    (
        Shape::Clique,
        18,
        "17 16 15 14 13 12 11 10 9 8 7 6 5 4 3 2 1 0",
        Outcome::TooWide(17, 17),
    ),
];

#[test]
fn states_and_wide_nodes_by_orders(rt: HostRuntime) {
    for (shape, nodes, text, wanted) in ORDERS {
        let found = found_on(rt.alloc(), shape, nodes, text);
        assert!(rt; found == wanted, "{text}");
    }
}

/// Texts for three nodes in a path, and what comes of them.
const TEXTS: [(&str, Outcome); 9] = [
    ("2 0 1", Outcome::Least(0b101)),
    ("02\n\n  0\t1\r\n", Outcome::Least(0b101)),
    ("0\n1\nx", Outcome::Fault(TextKind::Number, 3)),
    ("0 1\n3", Outcome::Fault(TextKind::Range, 2)),
    ("0 -1 2", Outcome::Fault(TextKind::Range, 1)),
    ("0\n1 0\n2", Outcome::Fault(TextKind::Range, 2)),
    ("2 0 1\n1", Outcome::Fault(TextKind::Range, 2)),
    ("2\n0\n\n", Outcome::Fault(TextKind::End, 2)),
    ("", Outcome::Fault(TextKind::End, 1)),
];

#[test]
fn faults_of_orders(rt: HostRuntime) {
    for (text, wanted) in TEXTS {
        let found = found_on(rt.alloc(), Shape::Path, 3, text);
        assert!(rt; found == wanted, "{text}");
    }
}

/// The order from the last node to node 0.
fn usual_order(alloc: Global, nodes: u32) -> Result<String, AllocError> {
    let mut text = String::new(alloc);
    for step in 0..nodes {
        let node = nodes - 1 - step;
        text.push_str(&format!(in alloc; "{node} ")?)?;
    }
    Ok(text)
}

/// Whether a model's state by the usual order is the usual state.
fn is_usual(alloc: Global, model: &OutputModel) -> bool {
    match usual_order(alloc, model.nodes) {
        Ok(text) => found(alloc, model, &text) == found_of(solve(alloc, model)),
        Err(AllocError) => false,
    }
}

fn is_usual_for(alloc: Global, seed: u32) -> bool {
    match drawn_model(alloc, seed) {
        Ok(Some(model)) => is_usual(alloc, &model),
        _ => false,
    }
}

#[test]
fn the_usual_order_of_twelve_drawn_models(rt: HostRuntime) {
    for seed in 0..12 {
        assert!(rt; is_usual_for(rt.alloc(), seed), "model {seed}");
    }
}
