//! The models of forms, in the unit that is chosen. Reducing is the last step before a model is
//! written, and is done in the form's own memory.
ghost use Rattle.std.specs.Prelude.{◌≡◌, ◌≤◌, ◌<◌, ◌+◌, ◌*◌, ◌^◌, ◌≤ℤ◌, pos, length, unsigned_abs, IfOk};
ghost use Rattle.quad_form.specs.Quads.{IsQuad, quad_total};
ghost use Rattle.ising_form.specs.Outputs.{FitsOutput};
ghost use Rattle.model_pipeline.specs.Models.{form_model, qubo_model};
ghost use Rattle.model_pipeline.specs.QubitModels.{chained_model};
ghost use Rattle.model_pipeline.specs.Formed.{HaveRoom};

use crate::scaled::Scaled;
use crate::spins::quad_to_ising;
use base::{NoMemory, UnitChoice};
use bits_model::{ChainList, Kind, OutputModel};
use command_words::NodeModel;
use ising_form::Ising;
use quad_form::Quad;
use std::alloc::Global;

/// The model of a quadratic form.
fn qubo_model(
    alloc: Global,
    form: Scaled<Quad>,
    variables: u32,
    unit: UnitChoice,
) -> Result<OutputModel, NoMemory>
    requires enough { variables ≤ length form.target.diagonal }
    requires scale { pos 1 ≤ℤ form.figures.scale }
    requires offset { unsigned_abs form.figures.offset < 2 ^ 124 }
    requires threshold { unsigned_abs form.figures.threshold < 2 ^ 124 }
    ensures model { IfOk result (λ m. m ≡ qubo_model unit form.target variables form.figures) }

    // What the laws of the model rest on.
    ensures kept { IsQuad form.target }
{
    let Scaled { target, figures } = form;
    match unit {
        UnitChoice::One => target.output(alloc, variables, figures, 1),
        UnitChoice::Reduce => {
            let made = target.reduce()?;
            let figures = figures.moved(made.offset);
            made.target.output(alloc, variables, figures, made.unit)
        }
    }
}

/// The model of an Ising form over spins, without chains or on those of a graph.
pub fn chained_model(
    alloc: Global,
    form: Scaled<Ising>,
    variables: u32,
    unit: UnitChoice,
    kind: Kind,
    chains: ChainList,
) -> Result<OutputModel, NoMemory>
    requires kind { FitsOutput kind chains variables form.target }
    requires scale { pos 1 ≤ℤ form.figures.scale }
    requires offset { unsigned_abs form.figures.offset < 2 ^ 124 }
    requires threshold { unsigned_abs form.figures.threshold < 2 ^ 124 }
    ensures { IfOk result (λ m.
        m ≡ chained_model unit form.target variables form.figures kind chains) }
{
    let Scaled { target, figures } = form;
    match unit {
        UnitChoice::One => target.output(alloc, variables, figures, 1, kind, chains),
        UnitChoice::Reduce => {
            let made = target.reduce()?;
            let figures = figures.moved(made.offset);
            made.target
                .output(alloc, variables, figures, made.unit, kind, chains)
        }
    }
}

/// The model of a quadratic form for a target.
pub fn form_model(
    alloc: Global,
    form: Scaled<Quad>,
    variables: u32,
    target: NodeModel,
    unit: UnitChoice,
) -> Result<OutputModel, NoMemory>
    requires enough { variables ≤ length form.target.diagonal }
    requires total { (quad_total form.target + 1) * 2 ^ 2 ≤ 2 ^ 124 }
    requires figures { HaveRoom form.figures }
    ensures model { IfOk result (λ m.
        m ≡ form_model target unit form.target variables form.figures) }

    // What the laws of the model rest on.
    ensures kept { IsQuad form.target }
{
    match target {
        NodeModel::Qubo => qubo_model(alloc, form, variables, unit),
        NodeModel::Ising => {
            let spins = quad_to_ising(alloc, form)?;
            let chains = ChainList::empty(alloc);
            chained_model(alloc, spins, variables, unit, Kind::Ising, chains)
        }
    }
}
