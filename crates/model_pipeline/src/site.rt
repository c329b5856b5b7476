//! Where chains stand, and how they are tied.
ghost use Rattle.std.specs.Prelude.{◌≡◌};
ghost use Rattle.model_pipeline.specs.Sites.{graph_in, in_numbers};

use bits_model::Graph;
use chain_map::ChainMap;
use chimera_graph::Chimera;
use command_words::ChainStrength;
use hardware::Hardware;
use listed_graph::Listed;
use std::marker::Model;
use working_graph::Working;

/// A graph that a text lists, which contracts see as the parts that are listed.
#[derive(Drop)]
pub struct GivenGraph {
    pub(crate) listed: Listed,
}

impl Model for GivenGraph {
    ghost use Rattle.std.specs.Prelude.{List};
    ghost use Rattle.part_lists.specs.declared.parts.Part.{Part};

    ghost Value = { List Part };

    ghost view = { λ given. given.listed.parts.items };
}

impl GivenGraph {
    /// The graph that was read of a text.
    pub fn of(listed: Listed) -> GivenGraph
        ensures { result ≡ listed.parts.items }
    {
        GivenGraph { listed }
    }
}

/// The qubits that chains may stand on: all those of a Chimera graph, those of it that work, or
/// those of a graph that is given as a list.
#[derive(Drop)]
pub enum Qubits {
    All(Chimera),
    Working(Working),
    Listed(GivenGraph),
}

/// Where chains come from: they are those of a clique, or of a map.
#[derive(Drop)]
pub enum ChainSource {
    Clique,
    Map(ChainMap),
}

/// The qubits and the chains that a form is put on, and how strongly these are tied.
#[derive(Drop)]
pub struct Site {
    pub qubits: Qubits,
    pub chain_source: ChainSource,
    pub ties: ChainStrength,
}

/// A Chimera graph, in the numbers that a model has of it.
fn in_numbers(graph: Chimera) -> Graph
    ensures { result ≡ in_numbers graph }
{
    Graph::Chimera {
        rows: graph.rows,
        cols: graph.cols,
        shore: graph.shore,
    }
}

/// The graph of the qubits.
pub(crate) fn graph_in(qubits: &Qubits) -> Graph
    ensures { result ≡ graph_in qubits.now }
{
    match qubits {
        Qubits::All(graph) => in_numbers(*graph),
        Qubits::Working(working) => in_numbers(working.graph()),
        Qubits::Listed(given) => Graph::Listed {
            qubits: given.listed.qubits(),
        },
    }
}
