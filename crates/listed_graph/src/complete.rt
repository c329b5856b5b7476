//! The complete graph: the host of all listed graphs.
use hardware::{Hardware, Others, Span};

/// The complete graph on 2^20 qubits: each two of them are joined.
pub(crate) struct Complete;

impl Hardware for Complete {
    ghost use Rattle.listed_graph.specs.Complete.{most, is_below, are_apart, no_span, all_others};
    ghost use Rattle.listed_graph.specs.laws.Completes.{
      complete-few,
      complete-below,
      complete-comm,
      complete-self,
      complete-exists,
      complete-ordered,
      complete-findable,
    };

    ghost qubits = { λ _. most };

    ghost exists = { λ _. is_below };

    ghost joined = { λ _. are_apart };

    ghost facing = { λ _ a. no_span };

    ghost others = { λ _ a. all_others };

    ghost other = { λ _ a k. k };

    fn qubits(&self) -> u32 {
        1 << 20
    }

    fn exists(&self, a: u32) -> bool {
        a < 1 << 20
    }

    fn joined(&self, a: u32, b: u32) -> bool {
        a != b
    }

    fn facing(&self, _a: u32) -> Span {
        Span { start: 0, end: 0 }
    }

    fn others(&self, _a: u32) -> Others {
        Others {
            start: 0,
            end: 1 << 20,
        }
    }

    fn other(&self, _a: u32, k: usize) -> u32 {
        k as u32
    }

    ghost few = { λ _. complete-few };

    ghost symmetric = { λ _. complete-comm };

    ghost irreflexive = { λ _. complete-self };

    ghost below = { λ _. complete-below };

    ghost existing = { λ _ a b below _. complete-exists a below };

    ghost ordered = { λ _ a. complete-ordered };

    ghost findable = { λ _ a b _ below _. complete-findable b below };
}
