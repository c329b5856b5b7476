//! Where the nodes of a clique are on the diagonal, and the qubits on the way of each.
ghost use Rattle.std.specs.Prelude.{◌≡◌, ◌<◌, ◌≤◌, OnOk};
ghost use Rattle.std.specs.List.{slice_index_or};
ghost use Rattle.chain_map.specs.Cliques.{
  diagonal_of,
  clique_places,
  spot_of,
  path_of,
  clique_chain,
};

use base::NoMemory;
use chimera_graph::{Chimera, Place};
use std::cmp::min;

/// A cell of the diagonal, and where on a side of the cells the qubits of a node are.
#[derive(Clone, Copy)]
pub struct Spot {
    pub cell: u32,
    pub at: u32,
}

/// How many cells the diagonal has.
pub fn diagonal_of(graph: &Chimera) -> u32
    ensures { result ≡ diagonal_of graph.now }
{
    min(graph.rows, graph.cols)
}

/// How many nodes there are places for.
pub fn clique_places(graph: &Chimera) -> u32
    ensures { result ≡ clique_places graph.now }
{
    graph.shore * diagonal_of(graph)
}

/// Where a node is.
pub fn spot_of(graph: &Chimera, node: u32) -> Spot
    requires { node < clique_places graph.now }
    ensures spot { result ≡ spot_of graph.now node }
    ensures cell { result.cell < diagonal_of graph.now }
    ensures at { result.at < graph.now.shore }
{
    let cell = node / graph.shore;
    Spot {
        cell,
        at: node - cell * graph.shore,
    }
}

/// The qubit after so many steps: down the column to the diagonal, and on along the row.
pub fn path_qubit(graph: &Chimera, spot: Spot, steps: u32) -> u32
    requires cell { spot.cell < diagonal_of graph.now }
    requires at { spot.at < graph.now.shore }
    requires steps { steps ≤ diagonal_of graph.now }
    ensures { result ≡ slice_index_or (path_of graph.now spot.cell spot.at) steps 0 }
{
    let Spot { cell, at } = spot;
    if steps <= cell {
        graph.index(Place {
            row: steps,
            col: cell,
            side: 0,
            at,
        })
    } else {
        graph.index(Place {
            row: cell,
            col: steps - 1,
            side: 1,
            at,
        })
    }
}

/// The chain of a node, in place of what the list had.
pub fn fill_chain(graph: &Chimera, node: u32, chain: &mut Vec<u32>) -> Result<(), NoMemory>
    requires { node < clique_places graph.now }
    ensures { OnOk result (chain.new.items ≡ clique_chain graph.now node) }
{
    let spot = spot_of(graph, node);
    chain.clear();
    for steps in 0..diagonal_of(graph) + 1 {
        chain.push(path_qubit(graph, spot, steps))?;
    }
    Ok(())
}
