//! Laws, as functions without code.
ghost use Rattle.monomial_layer.specs.Stated.{AddsFewNodes, ImagesAreLow};

/// How many nodes a term takes at most, and what is left of its degree.
pub fn laws_of_replacements()
    ensures few { AddsFewNodes }
    ensures low { ImagesAreLow }
{}
