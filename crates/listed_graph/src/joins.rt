//! The joins of a listed graph.
use crate::listed::{Listed, first_from};
use hardware::{Hardware, Others, Span};
use part_lists::{has_number, pair_number};

impl Hardware for Listed {
    ghost use Rattle.listed_graph.specs.Parts.{qubits_of, exists_in, joined_in, no_span};
    ghost use Rattle.listed_graph.specs.Rows.{others_of, other_of};
    ghost use Rattle.listed_graph.specs.laws.ListedJoins.{
      exists_in-below,
      joined_in-comm,
      joined_in-exists,
      joined_in-findable,
      listed-few,
      others_ordered,
    };

    ghost qubits = { λ g. qubits_of g.parts.items };

    ghost exists = { λ g. exists_in g.parts.items };

    ghost joined = { λ g. joined_in g.parts.items };

    ghost facing = { λ g a. no_span };

    ghost others = { λ g. others_of g.joins.items };

    ghost other = { λ g a. other_of g.joins.items };

    fn qubits(&self) -> u32 {
        self.named.len() as u32
    }

    fn exists(&self, a: u32) -> bool {
        self.named[a as usize]
    }

    fn joined(&self, a: u32, b: u32) -> bool {
        has_number(&self.joins, pair_number(a, b))
    }

    /// No qubit faces a span.
    fn facing(&self, _a: u32) -> Span {
        Span { start: 0, end: 0 }
    }

    /// The places of its joins in the list of all.
    fn others(&self, a: u32) -> Others {
        Others {
            start: first_from(&self.joins, pair_number(a, 0)),
            end: first_from(&self.joins, pair_number(a + 1, 0)),
        }
    }

    /// The end of the join at a place.
    fn other(&self, _a: u32, k: usize) -> u32 {
        (self.joins[k] % (1 << 32)) as u32
    }

    ghost few = { λ g. listed-few g.parts.items g.named.items g.joins.items g.indexed };

    ghost symmetric = { λ g. joined_in-comm g.parts.items };

    ghost irreflexive = { λ g. g.indexed.apart };

    ghost below = { λ g. exists_in-below g.parts.items };

    ghost existing = { λ g a b _. joined_in-exists g.parts.items a b };

    ghost ordered = { λ g. others_ordered g.joins.items };

    ghost findable = { λ g. joined_in-findable g.parts.items g.named.items g.joins.items g.indexed
        no_span };
}
