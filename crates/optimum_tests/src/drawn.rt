//! Small problems, of given weights or of weights that look random, and their models.
ghost use Rattle.std.specs.Prelude.{◌≡◌, ◌↔◌, ◌+◌, ◌<◌, ◌≤◌, ◌^◌, All, IfOk, IfSome, IsTrue, OnOk};
ghost use Rattle.bits_model.specs.Output.{weight_total};
ghost use Rattle.problem_form.specs.Problems.{problem_total};

use base::{NoMemory, UnitChoice};
use bits_model::OutputModel;
use chimera_graph::Chimera;
use command_words::{ChainStrength, NodeModel};
use literal_lists::Literal;
use model_pipeline::{ChainSource, Made, ModelTarget, Options, Qubits, Site, compile};
use problem_form::{Choices, High, Normal, Problem, check_limits};
use std::alloc::Global;

const CHOICES: Choices = Choices {
    normal: Normal::Literal,
    high: High::Monomial,
};

/// Numbers that look random, each from the one before (Knuth's linear congruential generator).
#[derive(Clone, Copy)]
pub struct Dice {
    pub state: u64,
}

impl Dice {
    /// A number below this one.
    fn roll(&mut self, below: u64) -> u64
        requires { 0 < below }
        ensures { result < below }
    {
        self.state = self
            .state
            .wrapping_mul(6_364_136_223_846_793_005)
            .wrapping_add(1_442_695_040_888_963_407);
        (self.state >> 33) % below
    }

    /// A weight from -2 to 2.
    fn weight(&mut self) -> i8 {
        self.roll(5) as i8 - 2
    }
}

fn positive(variable: u64) -> Literal {
    Literal {
        variable,
        negated: false,
    }
}

fn are_within(literals: &[Literal], variables: u64) -> bool
    ensures { IsTrue result ↔ All (λ l. l.variable < variables) literals.now }
{
    literals.iter().all(|literal| literal.variable < variables)
}

/// Adds a weight of two nodes, or of one where both are the same, if the problem has them.
pub fn add_weight(
    alloc: Global,
    problem: &mut Problem,
    first: u64,
    second: u64,
    weight: i8,
) -> Result<(), NoMemory>
    requires { problem_total problem.old < 2 ^ 99 }
    ensures same { OnOk result (problem.new.variables ≡ problem.old.variables) }
    ensures total { OnOk result (problem_total problem.new ≤ problem_total problem.old + 2 ^ 7) }
{
    let literals = [positive(first), positive(second)];
    if !are_within(&literals, problem.variables) {
        return Ok(());
    }
    let mut written = Vec::from_slice(alloc, &literals)?;
    problem.add_term(&mut written, i128::from(weight))
}

/// Draws a weight for a node with each of so many nodes.
fn draw_row(
    alloc: Global,
    problem: &mut Problem,
    dice: &mut Dice,
    first: u32,
    nodes: u32,
) -> Result<(), NoMemory>
    requires { problem_total problem.old < 2 ^ 98 }
    ensures { OnOk result (problem_total problem.new ≤ problem_total problem.old + 2 ^ 39) }
{
    for second in 0..nodes {
        add_weight(
            alloc,
            problem,
            u64::from(first),
            u64::from(second),
            dice.weight(),
        )?;
    }
    Ok(())
}

/// Draws a weight for each node, and two for each pair of nodes.
fn draw_weights(
    alloc: Global,
    problem: &mut Problem,
    dice: &mut Dice,
    nodes: u32,
) -> Result<(), NoMemory>
    requires { problem_total problem.old ≡ 0 }
{
    for first in 0..nodes {
        draw_row(alloc, problem, dice, first, nodes)?;
    }
    Ok(())
}

/// The weights of three nodes, and of their three pairs.
pub type Weights = [i8; 6];

/// What each of them is a weight of: two nodes, or one where both are the same.
const OF_WHAT: [(u64, u64); 6] = [(0, 0), (1, 1), (2, 2), (0, 1), (0, 2), (1, 2)];

/// Adds the weights of three nodes.
fn add_weights(alloc: Global, problem: &mut Problem, weights: &Weights) -> Result<(), NoMemory>
    requires { problem_total problem.old ≡ 0 }
    ensures { OnOk result (problem.new.variables ≡ problem.old.variables) }
{
    for k in 0..6 {
        let (first, second) = OF_WHAT[k];
        add_weight(alloc, problem, first, second, weights[k])?;
    }
    Ok(())
}

/// The problem of these weights.
pub fn problem_of_three(alloc: Global, weights: &Weights) -> Result<Problem, NoMemory>
    ensures { IfOk result (λ p. p.variables ≡ 3) }
{
    let mut problem = Problem::new(alloc);
    problem.widen(3);
    add_weights(alloc, &mut problem, weights)?;
    Ok(problem)
}

/// A problem of so many variables, with a weight for each and for each pair.
pub fn drawn_problem(alloc: Global, dice: &mut Dice, nodes: u32) -> Result<Problem, NoMemory> {
    let mut problem = Problem::new(alloc);
    problem.widen(u64::from(nodes));
    draw_weights(alloc, &mut problem, dice, nodes)?;
    Ok(problem)
}

/// The model of a problem on a target, if it is within the limits and has its place there.
fn model_on(
    alloc: Global,
    problem: &Problem,
    variables: u64,
    target: ModelTarget,
) -> Option<OutputModel>
    requires { variables ≤ problem.now.variables }
    ensures { IfSome result (λ m. weight_total m.entries ≤ 2 ^ 121) }
{
    check_limits(problem, &CHOICES).ok()?;
    let options = Options {
        choices: CHOICES,
        unit: UnitChoice::One,
        target,
        keep_steps: false,
    };
    let Made {
        model,
        steps: _steps,
    } = compile(alloc, problem, variables, &options).ok()?;
    Some(model)
}

/// The model of a problem for bits or spins, if it is within the limits.
pub fn node_model(
    alloc: Global,
    problem: &Problem,
    variables: u64,
    target: NodeModel,
) -> Option<OutputModel>
    requires { variables ≤ problem.now.variables }
    ensures { IfSome result (λ m. weight_total m.entries ≤ 2 ^ 121) }
{
    model_on(alloc, problem, variables, ModelTarget::Nodes(target))
}

/// The model of a problem on the qubits of a graph, if it is within the limits and has its place
/// there.
pub fn model_at(alloc: Global, problem: &Problem, variables: u64, site: Site) -> Option<OutputModel>
    requires { variables ≤ problem.now.variables }
{
    model_on(alloc, problem, variables, ModelTarget::Qubits(site))
}

/// The target of a model.
#[derive(Clone, Copy, Debug, PartialEq, Eq)]
pub enum Target {
    Nodes(NodeModel),

    /// The qubits of a graph of so many rows, columns and qubits on a shore, on chains of a clique.
    Chimera(u32, u32, u32),
}

/// The model of a problem for a target, if it has one.
pub fn model_for(alloc: Global, problem: &Problem, target: Target) -> Option<OutputModel> {
    match target {
        Target::Nodes(target) => node_model(alloc, problem, problem.variables, target),
        Target::Chimera(rows, cols, shore) => {
            let site = Site {
                qubits: Qubits::All(Chimera::new(rows, cols, shore)?),
                chain_source: ChainSource::Clique,
                ties: ChainStrength::Choi,
            };
            model_at(alloc, problem, problem.variables, site)
        }
    }
}
