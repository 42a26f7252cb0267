ghost use Rattle.rule_core.specs.Flow.{HandsOn};
ghost use Rattle.std.specs.Prelude.{[], ◌∷◌};
ghost use Rattle.problem_core.specs.Derivations.{Within};
ghost use Rattle.eval_core.specs.ShiftExample.{expression, int, just_x, just_zero, shift_con, shift_of, shift_problem, zero_mark};
ghost use Rattle.eval_core.specs.SlowExample.{fast, semantics, slow, speed_problem};
ghost use Rattle.eval_core.specs.Alikeness.{AlikeBothWays, AlikeInTurn, AlikeSolvesAlike, AlikeToItself, Congruence, FlowFits, IsAlike};
ghost use Rattle.eval_core.specs.FactHeights.{AgreeingIsSame, SameIsAgreeing, SameLeastHeights};
ghost use Rattle.eval_core.specs.Lenses.{AlikeIsCongruent, AlikeIsSameness, HandsOnByTest};
ghost use Rattle.eval_core.specs.Words.{AgreeingIsAlike, AlikeIsAgreeing, OutcomesSettle};
ghost use Rattle.eval_core.specs.Marks.{IsMarkOf, MarksDecide, OutcomesDecide, ProbesAreAll};

/// Children that are alike at places where the constructor hands on, and equal at the others, give alike terms, heights
/// included. Of the rules that needs only that each call fits its relation, as it does where each rule passes data flow.
pub fn congruence()
    ensures alike { Congruence }
    ensures flow { FlowFits }
{}

/// Alikeness of terms of one type is an equivalence.
pub fn alikeness_laws()
    ensures itself { AlikeToItself }
    ensures both_ways { AlikeBothWays }
    ensures in_turn { AlikeInTurn }
{}

/// Two facts have derivations within the same heights up to a bound exactly where they have one least height up to it or
/// neither is derivable within it. For the second half one has to know the least height of one of them.
pub fn height_laws()
    ensures same { AgreeingIsSame }
    ensures agreeing { SameIsAgreeing }
    ensures least { SameLeastHeights }
{}

/// Terms are alike exactly where each fact of the one and of the other have the same least height up to the bound, or
/// neither is derivable within it. For the second half the outcomes of one of them are to be known: they settle each fact.
pub fn alike_in_words()
    ensures alike { AgreeingIsAlike }
    ensures agreeing { AlikeIsAgreeing }
    ensures settled { OutcomesSettle }
{}

/// Of two alike terms of the constraints' type either both solve or neither, at each height up to the bound.
pub fn alike_terms_solve_alike()
    ensures { AlikeSolvesAlike }
{}

/// Terms of one type are alike exactly where they have equal outcomes at each probe of the type, and so exactly where
/// their marks are equal.
pub fn marks_decide()
    ensures outcomes { OutcomesDecide }
    ensures probes { ProbesAreAll }
    ensures marks { MarksDecide }
{}

/// Alikeness is the sameness of a lens, whose plain places are those where a constructor hands on.
pub fn lens_laws()
    ensures sameness { AlikeIsSameness }
    ensures congruent { AlikeIsCongruent }
    ensures places { HandsOnByTest }
{}

/// Examples: at input 0 the terms 0 and x are alike, and have one mark; a shift, whose rule calls its child at x + 1,
/// doesn't hand on, and the shifts of the two are not alike.
pub fn alikeness_examples()
    ensures alike { IsAlike shift_problem expression 2 just_zero just_x }
    ensures place { ¬ HandsOn shift_problem.signature shift_problem.rules shift_con 0 }
    ensures shifts { ¬ IsAlike shift_problem expression 2 (shift_of just_zero) (shift_of just_x) }
    ensures mark { IsMarkOf shift_problem 2 just_zero zero_mark }
    ensures same_mark { IsMarkOf shift_problem 2 just_x zero_mark }
{}

/// Examples: two terms give 4 at input 4, within heights 1 and 2, and are not alike at height 2.
pub fn height_examples()
    ensures fast { Within speed_problem.signature speed_problem.rules 1 (record { relation = semantics; term = fast; args = int 4 ∷ int 4 ∷ [] }) }
    ensures slow { Within speed_problem.signature speed_problem.rules 2 (record { relation = semantics; term = slow; args = int 4 ∷ int 4 ∷ [] }) }
    ensures heights { ¬ IsAlike speed_problem expression 2 slow fast }
{}
