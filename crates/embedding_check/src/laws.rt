//! The law of checks, as a function without code: the contract is a statement of `specs/`.
ghost use Rattle.embedding_check.specs.Stated.{ChecksGiveOneEmbedding};

/// A form, a map and a graph have one embedding alone: parents and places are the least.
pub fn checks_give_one_embedding()
    ensures { ChecksGiveOneEmbedding }
{}
