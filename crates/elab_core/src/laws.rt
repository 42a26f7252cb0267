//! Laws of judging.
ghost use Rattle.std.specs.Prelude.{◌≡◌, ℕ, List, Result};
ghost use Rattle.problem_core.specs.Problems.{Parts};
ghost use Rattle.syntax_core.specs.declared.fault.Fault.{Fault};
ghost use Rattle.elab_core.specs.Judging.{Judges};

/// Every text is judged, and to one result: a problem, or why it is refused.
pub fn one_judgement()
    ensures judged { (text : List ℕ) → (result : Result Parts Fault) × Judges text result }
    ensures once { (text : List ℕ) (result other : Result Parts Fault) → Judges text result → Judges text other → result ≡ other }
{}
