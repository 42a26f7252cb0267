//! Where the faults of a file's commands stand.
ghost use Rattle.std.specs.Prelude.{ℕ, List, All};
ghost use Rattle.std.specs.List.{flat_map};
ghost use Rattle.sexpr_core.specs.declared.form.Sexpr.{Sexpr};
ghost use Rattle.sexpr_core.specs.Sizes.{IsSmall};
ghost use Rattle.sexpr_core.specs.Spelling.{Spell};
ghost use Rattle.syntax_core.specs.declared.commands.Head.{Head};
ghost use Rattle.name_core.specs.Faults.{shapes};
ghost use Rattle.name_core.specs.Limits.{limits};
ghost use Rattle.name_core.specs.Names.{names};
ghost use Rattle.name_core.specs.States.{State};
ghost use Rattle.sort_core.specs.Sorts.{sorts};
ghost use Rattle.making_core.specs.Soundness.{IsSoundState};
ghost use Rattle.elab_laws.specs.Flowing.{IsTestedDefinition, RulesFit};
ghost use Rattle.elab_laws.specs.Places.{AreInOrder, IsShaped, Rise, places_in};

/// The nodes of the forms that a text spells stand at rising places, a list before its items and the items from the left.
/// So the first of the bad nodes that a test lists is the leftmost, with the least reason and the least limit there: of the
/// shape, and in a command of right shape of its limits, names and sorts.
pub fn nodes_from_the_left()
    ensures nodes { (text : List ℕ) (forms : List Sexpr) → Spell text forms → Rise (flat_map places_in forms) }
    ensures shaped { (text : List ℕ) (forms : List Sexpr) → Spell text forms → All (λ form. AreInOrder (shapes form)) forms }
    ensures limited { (s : State) (text : List ℕ) (forms : List Sexpr) → Spell text forms → All (λ form. (h : Head) → IsShaped h form → AreInOrder (limits s h form)) forms }
    ensures named { (s : State) (text : List ℕ) (forms : List Sexpr) → Spell text forms → All (λ form. (h : Head) → IsShaped h form → AreInOrder (names s h form)) forms }
    ensures sorted { (s : State) (text : List ℕ) (forms : List Sexpr) → Spell text forms → All (λ form. (h : Head) → IsShaped h form → AreInOrder (sorts s h form)) forms }
{}

/// Where the tests of shape, limits, names and sorts find nothing in a `define-funs-rec`, no rule that it makes is refused for an
/// atom that doesn't fit. So reason 40 always stands at an atom that uses an unknown variable.
pub fn rules_fit()
    ensures { (s : State) (form : Sexpr) → IsSoundState s → IsSmall form → IsTestedDefinition s form → RulesFit s form }
{}
