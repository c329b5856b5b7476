//! The Ising form of a quadratic form.
ghost use Rattle.std.specs.Prelude.{◌≡◌, ◌≤◌, ◌+◌, ◌*◌, ◌^◌, IfOk};
ghost use Rattle.quad_form.specs.Quads.{IsQuad, quad_total};
ghost use Rattle.ising_form.specs.Spins.{image};
ghost use Rattle.model_pipeline.specs.Models.{ising_figures};
ghost use Rattle.model_pipeline.specs.Formed.{HaveRoom};

use crate::scaled::Scaled;
use base::NoMemory;
use ising_form::Ising;
use quad_form::Quad;
use std::alloc::Global;

/// The Ising form of a quadratic form that is given up.
pub fn quad_to_ising(alloc: Global, form: Scaled<Quad>) -> Result<Scaled<Ising>, NoMemory>
    requires total { (quad_total form.target + 1) * 2 ^ 2 ≤ 2 ^ 124 }
    requires figures { HaveRoom form.figures }
    ensures image { IfOk result (λ made. made.target ≡ image form.target) }
    ensures figures { IfOk result (λ made. made.figures ≡ ising_figures form.figures) }

    // What the laws of the form rest on.
    ensures kept { IsQuad form.target }
{
    let target = Ising::from_quad(alloc, form.target)?;
    Ok(Scaled {
        target,
        figures: form.figures.after(4, 0),
    })
}
