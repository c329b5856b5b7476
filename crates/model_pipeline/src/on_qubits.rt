//! The models of Ising forms on the qubits of a graph.
ghost use Rattle.std.specs.Prelude.{◌≡◌, ◌+◌, ◌*◌, ◌<◌, ◌≤◌, ◌^◌, ◌≤ℤ◌, pos, length, unsigned_abs, IfOk, IfErr};
ghost use Rattle.ising_form.specs.Isings.{ising_size, ising_total};
ghost use Rattle.chain_map.specs.Faults.{IfFault};
ghost use Rattle.model_pipeline.specs.Sites.{CanStandBy, IsFaultBy};
ghost use Rattle.model_pipeline.specs.GraphModels.{IsFormAt, StandsForForm};

use crate::chained::embedded_model;
use crate::embedding::embedded_on;
use crate::site::{Site, graph_in};
use base::{Figures, UnitChoice};
use bits_model::OutputModel;
use chain_map::CheckAnswer;
use ising_form::Ising;
use std::alloc::Global;

/// The model of an Ising form at a site, or why the form has no place there. It is refused exactly
/// where the form cannot stand there.
pub fn form_on_qubits(
    alloc: Global,
    form: Ising,
    own: u32,
    figures: Figures,
    unit: UnitChoice,
    site: &Site,
) -> Result<OutputModel, CheckAnswer>
    requires own { own ≤ length form.fields }
    requires total { (ising_total form + 1) * 2 ^ 21 ≤ 2 ^ 124 }
    requires size { (ising_size form + 4 * 2 ^ 20) * 2 ^ 1 ≤ 2 ^ 32 }
    requires scale { pos 1 ≤ℤ figures.scale }
    requires offset { unsigned_abs figures.offset < 2 ^ 122 }
    requires threshold { unsigned_abs figures.threshold < 2 ^ 122 }
    ensures model { IfOk result (IsFormAt site.now unit form own figures) }
    ensures stands { IfOk result (StandsForForm site.now unit form own figures) }

    ensures can_stand { IfOk result (λ _. CanStandBy site.now form) }
    ensures fault { IfErr result (λ e. IfFault e (IsFaultBy site.now form)) }
    ensures refused { IfErr result (λ e. IfFault e (λ _. CanStandBy site.now form → ⊥)) }
{
    let embedded = embedded_on(alloc, &site.qubits, &site.chain_source, form)?;
    let graph = graph_in(&site.qubits);
    Ok(embedded_model(alloc, embedded, own, figures, unit, site.ties, graph)?)
}
