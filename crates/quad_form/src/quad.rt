//! Quadratic forms, and the models that are written for them.
use crate::units::counted_weights;
use base::{Figures, Items, NoMemory};
use bits_model::{ChainList, CouplerList, EntryList, Kind, NodeWeights, OutputModel};
use form_steps::Reduced;
use std::alloc::Global;
use std::marker::Model;

/// The weights of nodes.
pub type NumberList = Items<i128>;

/// A quadratic form over nodes that are 0 or 1: a constant, a weight for each node, and couplers in
/// order, whose weights are not 0.
pub struct Quad {
    pub constant: i128,
    pub diagonal: NumberList,
    pub couplers: CouplerList,
}

impl Drop for Quad {
    fn drop(self) {
        let Quad {
            constant: _constant,
            diagonal: _diagonal,
            couplers: _couplers,
        } = self;
    }
}

impl Model for Quad {
    ghost use Rattle.quad_form.specs.Quads.{QuadContent, IsQuad};

    ghost Value = { QuadContent };

    ghost view = { λ q. record {
      constant = q.constant;
      diagonal = q.diagonal;
      couplers = q.couplers;
    } };

    ghost invariant = { λ q. IsQuad (record {
      constant = q.constant;
      diagonal = q.diagonal;
      couplers = q.couplers;
    }) };
}

impl Quad {
    ghost use Rattle.std.specs.Prelude.{
      ◌≡◌,
      ◌≤◌,
      ◌<◌,
      ◌^◌,
      ◌⊎◌,
      ◌≤ℤ◌,
      IfOk,
      length,
      ◌*◌,
      neg_ℤ,
      pos,
      unsigned_abs,
    };
    ghost use Rattle.form_steps.specs.Relations.{Reduces};
    ghost use Rattle.quad_form.specs.Quads.{form_of, quad_total, written_of};
    ghost use Rattle.quad_form.specs.Units.{quad_unit, reduced, IsReducedAsWritten};

    /// The model of the form, whose energies count this unit: its constant is taken off the offset
    /// and the threshold. A form in another unit than 1 has no constant. The model takes the form's
    /// weights as they lie in memory.
    pub fn output(
        self,
        alloc: Global,
        variables: u32,
        figures: Figures,
        unit: i128,
    ) -> Result<OutputModel, NoMemory>
        requires enough { variables ≤ length self.diagonal }
        requires scale { pos 1 ≤ℤ figures.scale }
        requires unit { pos 1 ≤ℤ unit }
        requires constant { (unit ≡ pos 1) ⊎ (self.constant ≡ pos 0) }
        requires offset { unsigned_abs figures.offset < 2 ^ 125 }
        requires threshold { unsigned_abs figures.threshold < 2 ^ 125 }
        ensures { IfOk result (λ m. m ≡ written_of self variables figures unit) }
    {
        let Quad {
            constant,
            diagonal,
            couplers,
        } = self;
        let weights = diagonal.into_vec();
        Ok(OutputModel {
            kind: Kind::Qubo,
            variables,
            figures: figures.moved(-constant),
            unit,
            nodes: weights.len() as u32,
            entries: EntryList {
                nodes: NodeWeights::numbered(weights),
                couplers,
            },
            chains: ChainList::empty(alloc),
        })
    }

    /// The form whose weights are counted in their greatest unit, without the constant. The weights
    /// are divided in place, or stay as they are in the unit 1.
    pub fn reduce(self) -> Result<Reduced<Quad>, NoMemory>
        ensures target { IfOk result (λ made. made.target ≡ reduced self) }
        ensures unit { IfOk result (λ made. made.unit ≡ quad_unit self) }
        ensures offset { IfOk result (λ made. made.offset ≡ neg_ℤ self.constant) }

        ensures reduces { IfOk result (λ made.
            Reduces (form_of self) (form_of made.target) made.unit made.offset) }
        ensures total { IfOk result (λ made.
            unsigned_abs made.unit * quad_total made.target ≤ quad_total self) }
        ensures greatest { IfOk result (λ made. IsReducedAsWritten made.target made.unit) }
    {
        let Quad {
            constant,
            diagonal,
            couplers,
        } = self;
        let counted = counted_weights(diagonal, couplers);
        Ok(Reduced {
            target: Quad {
                constant: 0,
                diagonal: counted.nodes,
                couplers: counted.couplers,
            },
            unit: counted.unit,
            offset: -constant,
        })
    }
}
