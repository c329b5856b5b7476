//! Ising forms, their weights counted in the greatest unit, and the models that are written for them.
use crate::chained::nodes_for;
use base::{Figures, NoMemory};
use bits_model::{ChainList, CouplerList, EntryList, Kind, OutputModel};
use form_steps::Reduced;
use quad_form::{NumberList, counted_weights};
use std::alloc::Global;
use std::marker::Model;

/// An Ising form over spins: a constant, a field for each node, and couplings in order, whose weights
/// are not 0.
pub struct Ising {
    pub constant: i128,
    pub fields: NumberList,
    pub couplings: CouplerList,
}

impl Drop for Ising {
    fn drop(self) {
        let Ising {
            constant: _constant,
            fields: _fields,
            couplings: _couplings,
        } = self;
    }
}

impl Model for Ising {
    ghost use Rattle.ising_form.specs.Isings.{IsingContent, IsIsing};

    ghost Value = { IsingContent };

    ghost view = { λ f. record {
      constant = f.constant;
      fields = f.fields;
      couplings = f.couplings;
    } };

    ghost invariant = { λ f. IsIsing (record {
      constant = f.constant;
      fields = f.fields;
      couplings = f.couplings;
    }) };
}

impl Ising {
    ghost use Rattle.std.specs.Prelude.{
      ◌≡◌,
      ◌*◌,
      ◌<◌,
      ◌≤◌,
      ◌^◌,
      ◌⊎◌,
      ◌≤ℤ◌,
      IfOk,
      neg_ℤ,
      pos,
      unsigned_abs,
    };
    ghost use Rattle.form_steps.specs.Relations.{Reduces};
    ghost use Rattle.ising_form.specs.Isings.{form_of, ising_total};
    ghost use Rattle.ising_form.specs.Reduction.{ising_unit, reduced, IsReducedAsWritten};
    ghost use Rattle.ising_form.specs.Outputs.{FitsOutput, written_of};

    /// The form whose weights are counted in their greatest unit, without the constant. The weights
    /// are divided in place, or stay as they are in the unit 1.
    pub fn reduce(self) -> Result<Reduced<Ising>, NoMemory>
        ensures target { IfOk result (λ made. made.target ≡ reduced self) }
        ensures unit { IfOk result (λ made. made.unit ≡ ising_unit self) }
        ensures offset { IfOk result (λ made. made.offset ≡ neg_ℤ self.constant) }

        ensures reduces { IfOk result (λ made.
            Reduces (form_of self) (form_of made.target) made.unit made.offset) }
        ensures total { IfOk result (λ made.
            unsigned_abs made.unit * ising_total made.target ≤ ising_total self) }
        ensures greatest { IfOk result (λ made. IsReducedAsWritten made.target made.unit) }
    {
        let Ising {
            constant,
            fields,
            couplings,
        } = self;
        let counted = counted_weights(fields, couplings);
        Ok(Reduced {
            target: Ising {
                constant: 0,
                fields: counted.nodes,
                couplings: counted.couplers,
            },
            unit: counted.unit,
            offset: -constant,
        })
    }
    /// The model of the form on these chains, whose energies count this unit: its constant is taken
    /// off the offset and the threshold. A form in another unit than 1 has no constant. The model
    /// takes the form's couplings as they lie in memory, and its fields too where it has all.
    pub fn output(
        self,
        alloc: Global,
        variables: u32,
        figures: Figures,
        unit: i128,
        kind: Kind,
        chains: ChainList,
    ) -> Result<OutputModel, NoMemory>
        requires kind { FitsOutput kind chains variables self }
        requires scale { pos 1 ≤ℤ figures.scale }
        requires unit { pos 1 ≤ℤ unit }
        requires constant { (unit ≡ pos 1) ⊎ (self.constant ≡ pos 0) }
        requires offset { unsigned_abs figures.offset < 2 ^ 125 }
        requires threshold { unsigned_abs figures.threshold < 2 ^ 125 }
        ensures { IfOk result (λ m. m ≡ written_of self variables figures unit kind chains) }
    {
        let Ising {
            constant,
            fields,
            couplings,
        } = self;
        let nodes = fields.as_slice().len() as u32;
        let weights = nodes_for(alloc, fields, kind, &chains)?;
        Ok(OutputModel {
            kind,
            variables,
            figures: figures.moved(-constant),
            unit,
            nodes,
            entries: EntryList {
                nodes: weights,
                couplers: couplings,
            },
            chains,
        })
    }
}
