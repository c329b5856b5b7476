//! Laws, as functions without code: each contract is a statement of `specs/`.
ghost use Rattle.bits_model.specs.Stated.{PairsHaveNumbers, RowsMakeUp};

/// What a list of entries has to do with its rows.
#[tactic(auto, using(crate::proofs::EntryRows::joined_rows))]
pub fn laws_of_rows()
    ensures { RowsMakeUp }
{}

/// What the number of a pair tells.
#[tactic(auto, using(crate::proofs::PairNumbers::pair_of_number))]
pub fn laws_of_pairs()
    ensures { PairsHaveNumbers }
{}
