//! Commands. The names of files stand in one as they do in the words.
ghost use Rattle.std.specs.Prelude.{◌≡◌, ◌<◌, ◌^◌, IfSome, unsigned_abs};
ghost use Rattle.command_words.specs.Bounds.{most_of, number_of};

use crate::name::Name;
use base::UnitChoice;
use chimera_graph::Chimera;
use form_steps::PenaltyScope;
use problem_form::Choices;

/// The layout of a source.
#[derive(Clone, Copy, Debug, PartialEq, Eq)]
pub enum Format {
    Wcnf,
    Wbo,
    Opb,
    Poly,
    Ising,
    Qubo,
}

/// A model on the nodes of a form.
#[derive(Clone, Copy, Debug, PartialEq, Eq)]
pub enum NodeModel {
    Qubo,
    Ising,
}

/// What a key says of the chains of the nodes of a form: they are those of a clique, or of the map in
/// a file of this name.
#[derive(Drop)]
pub enum Chaining<'a> {
    Clique,
    Map(Name<'a>),
}

/// How strongly the qubits of a chain are tied: by the simple bound of Choi, which is one for the
/// whole chain, or by what a broken tie cuts off.
#[derive(Clone, Copy, Debug, PartialEq, Eq)]
pub enum ChainStrength {
    Choi,
    Cut,
}

/// The qubits of a graph, and how the nodes of a form get chains of them: those of a Chimera graph
/// without those in a file of dead ones, where there is one, with the map in a file or else the chains
/// of a clique, or those of a graph in a file, with the map in another.
#[derive(PartialEq, Eq, Drop)]
pub enum Ground<'a> {
    Chimera {
        graph: Chimera,
        dead: Option<Name<'a>>,
        map: Option<Name<'a>>,
    },
    Listed {
        graph: Name<'a>,
        map: Name<'a>,
    },
}

/// The qubits of a graph with chains of them, and how these are tied.
#[derive(PartialEq, Eq, Drop)]
pub struct Board<'a> {
    pub ground: Ground<'a>,
    pub ties: ChainStrength,
}

/// What a model stands on: the nodes of a form, or the qubits of a graph.
#[derive(PartialEq, Eq, Drop)]
pub enum Target<'a> {
    Nodes(NodeModel),
    Qubits(Board<'a>),
}

/// What the word of a target says.
#[derive(Clone, Copy)]
pub enum TargetWord {
    Nodes(NodeModel),
    Chimera,
    Graph,
}

/// How conflicts, the constraints of which no two products may miss, and covers, those that one
/// product makes hold, enter a model: with slack bits, as other constraints do, or conflicts as
/// clauses of pairs, or both as clauses.
#[derive(Clone, Copy, Debug, PartialEq, Eq)]
pub enum Slack {
    Bits,
    Pairs,
    Clauses,
}

/// A bound of the cost: its size, which is below 2^64, and whether it is negative.
#[derive(Clone, Copy, Debug, PartialEq, Eq)]
pub struct Bound {
    pub negative: bool,
    pub size: u64,
}

impl Bound {
    /// The number that it is.
    fn number(self) -> i128
        ensures value { result ≡ number_of self }
        ensures small { unsigned_abs result < 2 ^ 64 }
    {
        let size = i128::from(self.size);
        if self.negative { -size } else { size }
    }
}

/// The most that an assignment may cost, where a bound is given.
pub fn most_of(bound: Option<Bound>) -> Option<i128>
    ensures value { result ≡ most_of bound }
    ensures small { IfSome result (λ most. unsigned_abs most < 2 ^ 64) }
{
    match bound {
        Some(bound) => Some(bound.number()),
        None => None,
    }
}

/// Where a source comes from.
#[derive(PartialEq, Eq, Drop)]
pub enum Origin<'a> {
    /// A file of this name, in this format.
    File(Format, Name<'a>),
    /// The text that a number draws, with so many clauses.
    Drawn(u64, u64),
}

/// What the first word of a command says.
#[derive(Clone, Copy)]
pub enum Verb {
    Compile,
    Size,
    Decode,
    Evaluate,
    Extend,
    Sample,
    Solve,
    Prove,
}

/// What is asked that the model of a source alone tells.
#[derive(Clone, Copy, Debug, PartialEq, Eq)]
pub enum Make {
    /// The model itself.
    Model,
    /// Its summary.
    Summary,
    /// Its summary, the variables of the source, and the sizes of its weights.
    Size,
}

/// What is asked of a state of a model, or of an assignment of its source.
#[derive(PartialEq, Eq, Drop)]
pub enum OfState<'a> {
    /// The assignment of the source that the state stands for.
    Decode,
    /// The state that the assignment extends to.
    Extend,
    /// Whether the state is a least one, by the certificate in the file of this name.
    Prove(Name<'a>),
}

/// What is asked of the model of a source.
#[derive(PartialEq, Eq, Drop)]
pub enum Ask<'a> {
    /// What it alone tells.
    Make(Make),
    /// Its first least state, and what that tells of the source; by the order of elimination in the
    /// file of this name, where there is one.
    Solve(Option<Name<'a>>),
    /// What each of the states of it, in the file of this name, stands for, and the best of them.
    Evaluate(Name<'a>),
    /// What the state or the assignment in the file of this name is asked for.
    State(Name<'a>, OfState<'a>),
}

/// What a run does: a source, the most that an assignment of it may cost, how it becomes a model,
/// whose penalties are of this scope, and what is asked of that model.
#[derive(PartialEq, Eq, Drop)]
pub struct Command<'a> {
    pub origin: Origin<'a>,
    pub target: Target<'a>,
    pub choices: Choices,
    pub unit: UnitChoice,
    pub bound: Option<Bound>,
    pub slack: Slack,
    pub penalty: PenaltyScope,
    pub ask: Ask<'a>,
}

/// What the program tells of itself: its help, or its version.
#[derive(Clone, Copy, Debug, PartialEq, Eq)]
pub enum Notice {
    Help,
    Version,
}

/// What the words of a run ask for.
#[derive(PartialEq, Eq, Drop)]
pub enum Request<'a> {
    Notice(Notice),
    Command(Command<'a>),
}
