//! The joins of two small graphs, against lists made by hand, and the sizes that are taken.
ghost use Rattle.std.specs.Prelude.{◌<◌};

use chimera_graph::{Chimera, Place};
use hardware::Hardware;

/// The first qubit at whose join with a the graph and the list differ. The list has each join once.
fn difference_at<H: Hardware>(graph: &H, joins: &[(u32, u32)], a: u32) -> Option<u32>
    requires { a < H.qubits graph.now }
{
    for b in 0..graph.qubits() {
        let wanted = joins.contains(&(a, b)) || joins.contains(&(b, a));
        if graph.joined(a, b) != wanted {
            return Some(b);
        }
    }
    None
}

/// The first pair of qubits at which the graph and the list differ.
fn first_difference<H: Hardware>(graph: &H, joins: &[(u32, u32)]) -> Option<(u32, u32)> {
    for a in 0..graph.qubits() {
        if let Some(b) = difference_at(graph, joins, a) {
            return Some((a, b));
        }
    }
    None
}

/// One cell with two qubits on each side.
const INSIDE: [(u32, u32); 4] = [(0, 2), (0, 3), (1, 2), (1, 3)];

/// Three rows and two columns: six cells, then down the columns, then along the rows.
const IN_ROWS: [(u32, u32); 13] = [
    (0, 1),
    (2, 3),
    (4, 5),
    (6, 7),
    (8, 9),
    (10, 11),
    (0, 4),
    (4, 8),
    (2, 6),
    (6, 10),
    (1, 3),
    (5, 7),
    (9, 11),
];

/// How many qubits the graph of a size has, and the first pair of them at which it differs from a
/// list of joins.
fn compared(size: &[u32; 3], joins: &[(u32, u32)]) -> Option<(u32, Option<(u32, u32)>)> {
    let [rows, cols, shore] = *size;
    let graph = Chimera::new(rows, cols, shore)?;
    Some((graph.qubits(), first_difference(&graph, joins)))
}

/// Each size with how many qubits it has, and their joins.
const GRAPHS: &[([u32; 3], u32, &[(u32, u32)])] = &[
    ([1, 1, 2], 4, &INSIDE),
    ([3, 2, 1], 12, &IN_ROWS),
];

#[test]
fn joins_of_small_graphs(rt: HostRuntime) {
    for (size, qubits, joins) in GRAPHS {
        assert!(rt; compared(size, joins) == Some((*qubits, None)), "{size:?}");
    }
}

const PLACE: Place = Place {
    row: 2,
    col: 1,
    side: 0,
    at: 3,
};

/// The number of that place, and the place of the number 43.
fn numbered() -> Option<(u32, Place)> {
    let graph = Chimera::new(3, 2, 4)?;
    Some((graph.index(PLACE), graph.place(43)))
}

fn qubits_of(rows: u32, cols: u32, shore: u32) -> Option<u32> {
    Some(Chimera::new(rows, cols, shore)?.qubits())
}

/// Each size with how many qubits it has, if it is taken.
const SIZES: &[(u32, u32, u32, Option<u32>)] = &[
    (1, 1, 1, Some(2)),
    (1, 524_288, 1, Some(1_048_576)),
    (1, 524_289, 1, None),
    (1024, 1024, 1, None),
    (0, 1, 1, None),
    (1, 0, 1, None),
    (1, 1, 0, None),
    (u32::MAX, u32::MAX, u32::MAX, None),
];

#[test]
fn places_and_sizes(rt: HostRuntime) {
    assert!(rt; numbered() == Some((43, PLACE)));
    for (rows, cols, shore, qubits) in SIZES {
        let found = qubits_of(*rows, *cols, *shore);
        assert!(rt; found == *qubits, "{rows} {cols} {shore}");
    }
}
