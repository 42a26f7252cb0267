//! A law of the verdicts.
ghost use Rattle.answer_core.specs.Verdicts.{OneVerdict};

/// An answer has one verdict within a height.
pub fn one_verdict()
    ensures { OneVerdict }
{}
