//! Laws of what states stand for, how they are taken back and what they extend, as functions
//! without code.
ghost use Rattle.std.specs.Prelude.{◌≡◌};
ghost use Rattle.form_steps.specs.declared.layer.BitsLink.{BitsLink};
ghost use Rattle.form_steps.specs.Links.{first_bits};
ghost use Rattle.quad_form.specs.Flat.{same_bits};
ghost use Rattle.chain_layer.specs.declared.link.ChainLink.{ChainLink};
ghost use Rattle.chain_layer.specs.Image.{decoding};
ghost use Rattle.model_pipeline.specs.Decoders.{ReadOffIsDecoded};
ghost use Rattle.model_pipeline.specs.Extensions.{FirstAreDecoded, LeastExtends};
ghost use Rattle.model_pipeline.specs.QubitStanding.{LeastStandBy};

use chain_layer::Chains;
use form_steps::{Guard, Layer};
use ising_form::ToSpins;
use monomial_layer::Monomials;
use normal_form::MultilinearForm;
use penalty_layer::Penalty;
use quad_form::Flatten;
use rosenberg_layer::Rosenberg;

/// How each step decodes a state.
pub fn decoders_of_steps()
    ensures literal { (l : BitsLink) → ⟦<Penalty as Guard>⟧.decoding l ≡ first_bits l }
    ensures multilinear { (l : BitsLink) → ⟦<MultilinearForm as Guard>⟧.decoding l ≡ first_bits l }
    ensures monomial { (l : BitsLink) → ⟦<Monomials as Layer>⟧.decoding l ≡ first_bits l }
    ensures rosenberg { (l : BitsLink) → ⟦<Rosenberg as Layer>⟧.decoding l ≡ first_bits l }
    ensures flatten { (l : BitsLink) → ⟦<Flatten as Layer>⟧.decoding l ≡ same_bits l }
    ensures spins { (l : BitsLink) → ⟦<ToSpins as Layer>⟧.decoding l ≡ same_bits l }
    ensures chains { (l : ChainLink) → ⟦<Chains as Layer>⟧.decoding l ≡ decoding l }
{}

/// What is read off a state of a model is what these give, one after another.
pub fn laws_of_decoding()
    ensures { ReadOffIsDecoded }
{}

/// What is read off a state of a model with fewer variables than its problem, and what a least
/// state of a model with all of them extends.
pub fn laws_of_extensions()
    ensures first { FirstAreDecoded }
    ensures least { LeastExtends }
{}

/// The least states of a model on qubits stand for the least assignments of its problem.
pub fn laws_of_ties()
    ensures { LeastStandBy }
{}
