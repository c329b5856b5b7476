//! A law of what a text holds, as a function without code.
ghost use Rattle.state_file.specs.States.{FirstOfStates};

/// The state of a text is the first of its states.
pub fn laws_of_states()
    ensures { FirstOfStates }
{}
