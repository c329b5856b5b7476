//! Laws, as functions without code.
ghost use Rattle.chain_layer.specs.Stated.{ImageFitsOutput, ImageIsJoined, ReadOffTheChains};

/// What a model on the qubits of a graph asks of an image.
pub fn laws_of_images()
    ensures fits { ImageFitsOutput }
    ensures joined { ImageIsJoined }
    ensures read_off { ReadOffTheChains }
{}
