//! Laws, as functions without code: each contract is a statement of `specs/`.
ghost use Rattle.entry_reader.specs.Again.{TextsAreReadAgain};
ghost use Rattle.entry_reader.specs.Cost.{ReadingKeepsCosts};
ghost use Rattle.entry_reader.specs.Energies.{TextsKeepEnergies};

/// The problem that is read costs what its text costs.
pub fn laws_of_readings()
    ensures { ReadingKeepsCosts }
{}

/// What is written of a model is read again.
pub fn texts_are_read_again()
    ensures { TextsAreReadAgain }
{}

/// The text of a model costs the model's energies when it is read.
pub fn laws_of_texts()
    ensures { TextsKeepEnergies }
{}
