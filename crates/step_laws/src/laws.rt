//! A law of lists of steps, for whoever builds on them. The function does nothing.
ghost use Rattle.step_laws.specs.Laws.{ValidIsWithin};

/// The fact of each step of a list that is valid at a height has a derivation within that height.
pub fn valid_is_within()
    ensures { ValidIsWithin }
{}
