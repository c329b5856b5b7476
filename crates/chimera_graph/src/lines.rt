//! The joins of the Chimera graph, and where they can be.
ghost use Rattle.std.specs.Prelude.{◌≡◌};

use crate::chimera::Chimera;
use crate::place::are_joined;
use hardware::{Hardware, Others, Span};

impl Chimera {
    ghost use Rattle.std.specs.Prelude.{◌+◌, ◌<◌, ◌^◌, true};
    ghost use Rattle.chimera_graph.specs.Graph.{qubits_of, place_of};
    ghost use Rattle.chimera_graph.specs.Lines.{facing_of, step_of};
    ghost use Rattle.chimera_graph.specs.Places.{are_joined};

    /// The first qubit of the other side of a qubit's cell, by one division.
    #[inline(always)]
    fn across(&self, a: u32) -> u32
        requires { a < qubits_of self.now }
        ensures start { result ≡ (facing_of self.now a).start }
        ensures small { result + self.now.shore < 2 ^ 32 }
    {
        let line = a / self.shore;
        if line % 2 == 0 {
            (line + 1) * self.shore
        } else {
            (line - 1) * self.shore
        }
    }

    /// Whether a qubit faces another one: most joins are found by this alone.
    #[inline(always)]
    fn faces(&self, a: u32, b: u32) -> bool
        requires first { a < qubits_of self.now }
        requires second { b < qubits_of self.now }
        ensures { result ≡ true → are_joined (place_of self.now a) (place_of self.now b) ≡ true }
    {
        let start = self.across(a);
        start <= b && b - start < self.shore
    }

    /// How far apart the numbers of a qubit and of its neighbours in its line are.
    fn step(&self, a: u32) -> u32
        requires { a < qubits_of self.now }
        ensures { result ≡ step_of self.now a }
    {
        if a / self.shore % 2 == 0 {
            2 * self.cols * self.shore
        } else {
            2 * self.shore
        }
    }
}

impl Hardware for Chimera {
    ghost use Rattle.std.specs.Prelude.{nat_lt};
    ghost use Rattle.chimera_graph.specs.Graph.{qubits_of, place_of};
    ghost use Rattle.chimera_graph.specs.Lines.{facing_of, others_of, other_of};
    ghost use Rattle.chimera_graph.specs.Places.{are_joined};
    ghost use Rattle.chimera_graph.specs.laws.Joins.{are_joined-comm, are_joined-self};
    ghost use Rattle.chimera_graph.specs.laws.Findable.{joins_findable, others_ordered, below_exists, exists_below};

    ghost qubits = { qubits_of };

    ghost exists = { λ graph q. nat_lt q (qubits_of graph) };

    ghost joined = { λ graph a b. are_joined (place_of graph a) (place_of graph b) };

    ghost facing = { facing_of };

    ghost others = { others_of };

    ghost other = { other_of };

    fn qubits(&self) -> u32 {
        2 * self.rows * self.cols * self.shore
    }

    fn exists(&self, a: u32) -> bool {
        a < self.qubits()
    }

    fn joined(&self, a: u32, b: u32) -> bool {
        self.faces(a, b) || are_joined(self.place(a), self.place(b))
    }

    /// The other side of its cell.
    fn facing(&self, a: u32) -> Span {
        let start = self.across(a);
        Span {
            start,
            end: start + self.shore,
        }
    }

    /// Its neighbours in its column or row.
    fn others(&self, a: u32) -> Others {
        let place = self.place(a);
        let (first, last) = if place.side == 0 {
            (place.row == 0, place.row + 1 == self.rows)
        } else {
            (place.col == 0, place.col + 1 == self.cols)
        };
        Others {
            start: if first { 1 } else { 0 },
            end: if last { 1 } else { 2 },
        }
    }

    fn other(&self, a: u32, k: usize) -> u32 {
        let step = self.step(a);
        if k == 0 { a - step } else { a + step }
    }

    ghost few = { λ graph. graph.shape.few };

    ghost symmetric = { λ graph a b. are_joined-comm (place_of graph a) (place_of graph b) };

    ghost irreflexive = { λ graph a. are_joined-self (place_of graph a) };

    ghost below = { λ graph a. exists_below a (qubits_of graph) };

    ghost existing = { λ graph a b below _. below_exists a (qubits_of graph) below };

    ghost ordered = { others_ordered };

    ghost findable = { joins_findable };
}
