//! Models of three nodes with a certificate that is made of all their states.
ghost use Rattle.std.specs.Prelude.{◌≡◌, ◌≤◌, ◌^◌, length};
ghost use Rattle.bits_model.specs.Output.{weight_total};
ghost use Rattle.posiform_check.specs.Certificates.{AreOfNodes};

use crate::drawn::{Weights, node_model, problem_of_three};
use base::NoMemory;
use bits_model::OutputModel;
use command_words::NodeModel;
use posiform_check::{
    Certificate, ProofAnswer, ProofFault, check_certificate, prove, read_certificate,
};
use std::alloc::{AllocError, Global};
use std::test::Fail;

/// The greatest length of a text.
const MOST_BYTES: usize = 1 << 24;

/// What is said of a certificate.
#[derive(Clone, Copy, Debug, PartialEq, Eq)]
enum Verdict {
    Proved(i128),
    Fault(ProofFault),

    /// There is no such model or certificate, or no memory.
    Nothing,
}

/// What is said of a certificate and a state.
fn judged(alloc: Global, model: &OutputModel, certificate: &Certificate, y: &[bool]) -> Verdict
    requires small { weight_total model.now.entries ≤ 2 ^ 121 }
    requires nodes { AreOfNodes model.now.nodes certificate.now }
    requires width { length y.now ≡ model.now.nodes }
{
    if check_certificate(certificate).is_err() {
        return Verdict::Nothing;
    }
    match prove(alloc, model, certificate, y) {
        Ok(energy) => Verdict::Proved(energy),
        Err(ProofAnswer::Fault(fault)) => Verdict::Fault(fault),
        Err(ProofAnswer::NoMemory) => Verdict::Nothing,
    }
}

/// What is said of the certificate of a text and a state.
fn judged_text(alloc: Global, model: &OutputModel, text: &str, y: &[bool]) -> Verdict
    requires { weight_total model.now.entries ≤ 2 ^ 121 }
{
    if text.len() > MOST_BYTES || y.len() != model.nodes as usize {
        return Verdict::Nothing;
    }
    match read_certificate(alloc, text.as_bytes(), model.nodes) {
        Ok(certificate) => judged(alloc, model, &certificate, y),
        Err(_) => Verdict::Nothing,
    }
}

fn differs(ours: i128, theirs: i128) -> Verdict {
    Verdict::Fault(ProofFault::Differs(ours, theirs))
}

const MODELS: [Weights; 30] = [
    [-1, -4, 0, 4, -7, -5],
    [2, -5, -1, 3, -7, 2],
    [-3, -7, -5, 0, 0, -5],
    [-3, -5, 2, 0, -7, 3],
    [-5, -3, 4, 4, 3, -7],
    [3, 3, 0, -7, -3, -7],
    [2, -4, -2, 0, -4, 2],
    [-5, 3, -2, 2, 4, -4],
    [-5, 3, 3, 4, -3, -1],
    [-5, 2, 6, -5, 3, -7],
    [3, -3, 1, 4, 2, 0],
    [-1, 1, 3, 1, -1, -2],
    [-3, -4, 6, -3, -5, 3],
    [-2, 2, 1, -1, 6, 1],
    [-2, 3, -5, -5, 2, 0],
    [-4, -1, -4, 1, 0, -7],
    [4, -5, 2, 3, -1, -1],
    [6, -1, 3, 1, 3, 1],
    [-5, -5, -2, 1, 6, 4],
    [-5, -7, 6, 6, -2, 4],
    [3, 4, 1, -2, 6, 0],
    [4, -1, -7, 1, -1, -4],
    [3, -5, 1, -7, -3, -2],
    [-4, 6, -3, 0, 0, 1],
    [-5, -4, 1, 0, 2, -2],
    [-4, 0, 2, -2, 6, 0],
    [-1, 4, 0, -3, -4, -5],
    [-4, -4, -3, 4, -3, -7],
    [1, 3, -4, -2, -2, -7],
    [-4, 0, 2, -1, 3, 3],
];

/// The bits of a state's number.
fn state_of(number: u32) -> [bool; 3] {
    [number % 2 == 1, number / 2 % 2 == 1, number / 4 % 2 == 1]
}

fn counted(holds: bool, weight: i8) -> i64 {
    if holds { i64::from(weight) } else { 0 }
}

/// The sum of the weights whose bits are all 1.
fn cost(weights: &Weights, number: u32) -> i64 {
    let [a, b, c] = state_of(number);
    let [first, second, third, low, outer, high] = *weights;
    counted(a, first)
        .saturating_add(counted(b, second))
        .saturating_add(counted(c, third))
        .saturating_add(counted(a && b, low))
        .saturating_add(counted(a && c, outer))
        .saturating_add(counted(b && c, high))
}

fn sum_of_three(first: i8, second: i8, third: i8) -> i64 {
    i64::from(first)
        .saturating_add(i64::from(second))
        .saturating_add(i64::from(third))
}

/// The mean cost, four times.
fn four_means(weights: &Weights) -> i64 {
    let [first, second, third, low, outer, high] = *weights;
    let nodes = sum_of_three(first, second, third);
    nodes
        .saturating_mul(2)
        .saturating_add(sum_of_three(low, outer, high))
}

/// The energy of a state: on spins four times the cost, less what all states have in common.
fn energy(weights: &Weights, target: NodeModel, number: u32) -> i64 {
    let cost = cost(weights, number);
    match target {
        NodeModel::Qubo => cost,
        NodeModel::Ising => cost.saturating_mul(4).saturating_sub(four_means(weights)),
    }
}

fn least_energy(weights: &Weights, target: NodeModel) -> i64 {
    let mut least = energy(weights, target, 0);
    for number in 1..8 {
        least = least.min(energy(weights, target, number));
    }
    least
}

/// How far a state is above the least energy.
fn gap(weights: &Weights, target: NodeModel, number: u32) -> i64 {
    energy(weights, target, number).saturating_sub(least_energy(weights, target))
}

/// Appends the product that is 1 in this state alone.
fn push_product(text: &mut String, number: u32) -> Result<(), AllocError> {
    for (node, bit) in state_of(number).iter().enumerate() {
        text.push_str(if *bit { " " } else { " ~" })?;
        text.push_str(match node {
            0 => "0",
            1 => "1",
            _ => "2",
        })?;
    }
    text.push_str("\n")
}

/// A number of a certificate that is raised, and by how much: that of one of its nine lines, counted
/// from 0.
type Raised = (u32, i64);

fn raise(number: i64, line: u32, raised: Raised) -> i64 {
    if line == raised.0 {
        number.saturating_add(raised.1)
    } else {
        number
    }
}

/// Appends for each state how far it is above the least energy, times the product that is 1 in this
/// state alone.
fn push_gaps(
    alloc: Global,
    text: &mut String,
    weights: &Weights,
    target: NodeModel,
    raised: Raised,
) -> Result<(), AllocError> {
    for number in 0..8 {
        let gap = raise(gap(weights, target, number), number + 1, raised);
        text.push_str(&format!(in alloc; "{gap}")?)?;
        push_product(text, number)?;
    }
    Ok(())
}

/// The least energy, and the gaps above it, with one number raised.
fn certificate(
    alloc: Global,
    weights: &Weights,
    target: NodeModel,
    raised: Raised,
) -> Result<String, AllocError> {
    let bound = raise(least_energy(weights, target), 0, raised);
    let mut text = format!(in alloc; "{bound}\n")?;
    push_gaps(alloc, &mut text, weights, target, raised)?;
    Ok(text)
}

/// What is said of a certificate where a number is raised.
fn judged_raised(
    alloc: Global,
    model: &OutputModel,
    weights: &Weights,
    target: NodeModel,
    raised: Raised,
    number: u32,
) -> Result<Verdict, AllocError>
    requires { weight_total model.now.entries ≤ 2 ^ 121 }
{
    let text = certificate(alloc, weights, target, raised)?;
    Ok(judged_text(alloc, model, &text, &state_of(number)))
}

const TARGETS: [NodeModel; 2] = [NodeModel::Qubo, NodeModel::Ising];

/// Yes for a least state, and for another how far it is above the least energy.
fn expected(weights: &Weights, target: NodeModel, number: u32) -> Verdict {
    match gap(weights, target, number) {
        0 => Verdict::Proved(i128::from(least_energy(weights, target))),
        above => Verdict::Fault(ProofFault::NotZero(i128::from(above))),
    }
}

/// The first state of which something else is said.
fn first_other(
    alloc: Global,
    model: &OutputModel,
    weights: &Weights,
    target: NodeModel,
) -> Result<Option<u32>, AllocError>
    requires { weight_total model.now.entries ≤ 2 ^ 121 }
{
    for number in 0..8 {
        let found = judged_raised(alloc, model, weights, target, (0, 0), number)?;
        if found != expected(weights, target, number) {
            return Ok(Some(number));
        }
    }
    Ok(None)
}

/// A number that is raised, and what is said then: the bound and the line of the state of zeros
/// count in the constant, which is the energy of that state, and the line of the state of ones in no
/// set but that of all nodes.
fn changed(weights: &Weights, target: NodeModel) -> [(Raised, Verdict); 4] {
    let constant = i128::from(energy(weights, target, 0));
    let raised = differs(constant, constant.saturating_add(1));
    let below = gap(weights, target, 7).saturating_add(1).saturating_neg();
    [
        ((0, 1), raised),
        ((1, 1), raised),
        ((8, 1), differs(0, 1)),
        ((8, below), Verdict::Fault(ProofFault::Negative(9))),
    ]
}

/// The first change of which something else is said.
fn first_other_change(
    alloc: Global,
    model: &OutputModel,
    weights: &Weights,
    target: NodeModel,
) -> Result<Option<Raised>, AllocError>
    requires { weight_total model.now.entries ≤ 2 ^ 121 }
{
    for (raised, expected) in changed(weights, target) {
        if judged_raised(alloc, model, weights, target, raised, 5)? != expected {
            return Ok(Some(raised));
        }
    }
    Ok(None)
}

/// Whether what is said of all states, and of all changes, is as expected.
fn is_judged(
    alloc: Global,
    model: &OutputModel,
    weights: &Weights,
    target: NodeModel,
) -> Result<bool, AllocError>
    requires { weight_total model.now.entries ≤ 2 ^ 121 }
{
    let other = first_other(alloc, model, weights, target)?;
    let change = first_other_change(alloc, model, weights, target)?;
    Ok(other.is_none() && change.is_none())
}

/// The same of the model of three nodes.
fn are_judged(alloc: Global, weights: &Weights, target: NodeModel) -> Result<bool, NoMemory> {
    let problem = problem_of_three(alloc, weights)?;
    match node_model(alloc, &problem, 3, target) {
        Some(model) => Ok(is_judged(alloc, &model, weights, target)?),
        None => Ok(false),
    }
}

#[test]
fn thirty_models_are_proved_at_their_least_states_alone(rt: HostRuntime) -> Result<(), Fail> {
    for weights in &MODELS {
        for target in TARGETS {
            assert!(rt; are_judged(rt.alloc(), weights, target)?, "{weights:?}");
        }
    }
    Ok(())
}
