//! A law, as a function without code: its contract is a statement of `specs/`.
ghost use Rattle.model_text.specs.Told.{TextsTellModels};

/// What the text of a model tells.
#[tactic(auto, using(crate::proofs::ModelRows::texts_tell_models))]
pub fn laws_of_texts()
    ensures one { TextsTellModels }
{}
