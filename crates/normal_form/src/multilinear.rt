//! The penalty method's table in multilinear form.
//!
//! No run of the program comes here: it multiplies out what a problem contributes as it comes.
ghost use Rattle.std.specs.Prelude.{◌^◌};
ghost use Rattle.form_steps.specs.Links.{first_bits, HasFirstBits};
ghost use Rattle.term_table.specs.Tables.{kept_at_once};
ghost use Rattle.penalty_layer.specs.Penalty.{extension, figures, Allows, Fits};
ghost use Rattle.penalty_layer.specs.laws.Relaxing.{penalty_sound};
ghost use Rattle.normal_form.specs.Multilinear.{image, Admits};
ghost use Rattle.normal_form.specs.laws.Relaxing.{
  multilinear_joins,
  multilinear_relaxes,
  multilinear_stays,
  multilinear_whole,
};

use crate::multiplied::expand;
use base::NoMemory;
use form_steps::{BitsLink, Guard, Guarded};
use penalty_layer::Penalty;
use problem_form::Problem;
use std::alloc::Global;
use term_table::Table;

/// Penalties for hard clauses and constraints, and all multiplied out, so that no complement is
/// left. States are those of the penalty method, and cost the same.
#[derive(Drop)]
pub struct MultilinearForm;

impl Guard for MultilinearForm {
    type Source = Problem;

    type Target = Table;

    type Link = BitsLink;

    ghost TOTAL_BITS = { 72 };

    ghost SIZE_BITS = { 26 };

    ghost FIGURE_BOUND = { 2 ^ 64 };

    ghost admits = { Admits };

    ghost allows = { Allows };

    ghost image = { λ problem. kept_at_once (image problem) };

    ghost figures = { figures };

    ghost extension = { extension };

    ghost decoding = { first_bits };

    ghost is_sound = { HasFirstBits };

    ghost fits = { λ link problem. Fits link problem };

    ghost sound = { penalty_sound };

    ghost joins = { multilinear_joins };

    ghost relaxes = { multilinear_relaxes };

    ghost stays = { multilinear_stays };

    ghost whole = { multilinear_whole };

    fn guard(&self, alloc: Global, source: &Problem) -> Result<Guarded<Table, BitsLink>, NoMemory> {
        let Guarded {
            target,
            link,
            figures,
        } = Penalty.guard(alloc, source)?;
        Ok(Guarded {
            target: expand(alloc, &target)?,
            link,
            figures,
        })
    }

    fn decode(&self, alloc: Global, link: &BitsLink, y: &[bool]) -> Result<Vec<bool>, NoMemory> {
        Penalty.decode(alloc, link, y)
    }

    fn extend(
        &self,
        alloc: Global,
        source: &Problem,
        link: &BitsLink,
        x: &[bool],
    ) -> Result<Vec<bool>, NoMemory> {
        Penalty.extend(alloc, source, link, x)
    }
}
