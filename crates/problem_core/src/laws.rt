ghost use Rattle.std.specs.Prelude.{[], ◌∷◌};
ghost use Rattle.problem_core.specs.Derivations.{IsLeastHeight, Within};
ghost use Rattle.problem_core.specs.Examples.{a_coin, int, maps_to, plus_rule, rules_of_sums, sums, thrice};
ghost use Rattle.rule_core.specs.Instances.{IsInstance};
ghost use Rattle.problem_core.specs.Laws.{OneAnswer, WithinRises};

/// A fact that has a derivation within a height has one within each greater height.
pub fn within_rises()
    ensures { WithinRises }
{}

/// A problem has one answer for each height and size.
pub fn one_answer()
    ensures { OneAnswer }
{}

/// Examples: an instance with two existentials, a fact of least height 3, and two rules of one constructor that give two
/// outputs.
pub fn derivation_examples()
    ensures instance { IsInstance sums plus_rule (int 5 ∷ int 7 ∷ int 3 ∷ int 4 ∷ []) }
    ensures least { IsLeastHeight sums rules_of_sums (maps_to thrice 5 15) 3 }
    ensures outputs { Within sums rules_of_sums 1 (maps_to a_coin 5 0) × Within sums rules_of_sums 1 (maps_to a_coin 5 1) }
{}
