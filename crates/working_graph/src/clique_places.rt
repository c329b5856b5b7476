//! The places of the couplings on the chains of a clique.
ghost use Rattle.std.specs.Prelude.{◌≡◌, ◌<◌, ◌≤◌, ◌++◌, length, map, All, IfOk, OnOk};
ghost use Rattle.quad_form.specs.Quads.{IsCoupler};
ghost use Rattle.chain_map.specs.Cliques.{diagonal_of, clique_places, spot_of};
ghost use Rattle.working_graph.specs.CliquePlaces.{place_of_spots, clique_place};

use base::{Items, NoMemory};
use bits_model::{CouplerList, Row};
use chain_map::{Spot, spot_of};
use chimera_graph::{Chimera, Place};
use embedding_check::PairList;
use std::alloc::Global;

/// The least joined pair of the chains of an earlier node and a later one.
fn place_of_spots(graph: &Chimera, first: Spot, second: Spot) -> (u32, u32)
    requires order { first.cell ≤ second.cell }
    requires cell { second.cell < diagonal_of graph.now }
    requires at { first.at < graph.now.shore }
    requires other { second.at < graph.now.shore }
    ensures { result ≡ place_of_spots graph.now first second }
{
    let start = graph.index(Place {
        row: first.cell,
        col: second.cell,
        side: 0,
        at: 0,
    });
    if first.cell == second.cell {
        (start + first.at, start + graph.shore + second.at)
    } else {
        (start + second.at, start + graph.shore + first.at)
    }
}

/// Where a node is. A node in the same cell as another one is found without a division.
#[inline(always)]
fn spot_near(graph: &Chimera, other: Spot, node: u32) -> Spot
    requires node { node < clique_places graph.now }
    requires cell { other.cell < diagonal_of graph.now }
    ensures spot { result ≡ spot_of graph.now node }
    ensures cell { result.cell < diagonal_of graph.now }
    ensures at { result.at < graph.now.shore }
{
    let start = other.cell * graph.shore;
    if start <= node && node - start < graph.shore {
        return Spot {
            cell: other.cell,
            at: node - start,
        };
    }
    spot_of(graph, node)
}

/// Adds the place of each coupling of a row.
fn push_places(graph: &Chimera, row: &Row<'_>, places: &mut Vec<(u32, u32)>) -> Result<(), NoMemory>
    requires some { 0 < length row.now }
    requires nodes { All (IsCoupler (clique_places graph.now)) row.now }
    ensures { OnOk result (places.new.items ≡ places.old.items
        ++ map (clique_place graph.now) row.now) }
{
    let first = spot_of(graph, row.first());
    let mut second = first;
    for k in 0..row.len() {
        second = spot_near(graph, second, row.second(k));
        places.push(place_of_spots(graph, first, second))?;
    }
    Ok(())
}

/// The place of each coupling.
pub(crate) fn all_places(
    alloc: Global,
    graph: &Chimera,
    couplings: &CouplerList,
) -> Result<PairList, NoMemory>
    requires { All (IsCoupler (clique_places graph.now)) couplings.now }
    ensures { IfOk result (λ places. places ≡ map (clique_place graph.now) couplings.now) }
{
    let mut places = Vec::with_capacity(alloc, couplings.len())?;
    for k in 0..couplings.row_count() {
        let row = couplings.row(k);
        push_places(graph, &row, &mut places)?;
    }
    Ok(Items::new(places))
}
