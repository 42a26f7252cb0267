//! Laws of what bytes say of the texts that begin with them.
ghost use Rattle.std.specs.Prelude.{◌≡◌, ◌++◌, ◌⊎◌, ℕ, List, All};
ghost use Rattle.sexpr_core.specs.declared.form.Sexpr.{Sexpr};
ghost use Rattle.sexpr_core.specs.Examples.{SofarExamples, CompleteExamples, FaultExamples};
ghost use Rattle.sexpr_core.specs.Prefixes.{IsFault, Sofar, Complete, Given};
ghost use Rattle.sexpr_core.specs.Respelling.{AreSpellable, SpellsAgain};
ghost use Rattle.sexpr_core.specs.Spelling.{Spell};

/// A text spells one list of forms at most.
pub fn one_spelling()
    ensures { (text : List ℕ) (forms others : List Sexpr) → Spell text forms → Spell text others → forms ≡ others }
{}

/// Bytes have one list of forms so far at most, one list of complete forms, and one list of forms that a reader gives.
pub fn one_giving()
    ensures sofar { (bytes : List ℕ) (forms others : List Sexpr) → Sofar bytes forms → Sofar bytes others → forms ≡ others }
    ensures complete { (bytes : List ℕ) (forms others : List Sexpr) → Complete bytes forms → Complete bytes others → forms ≡ others }
    ensures completes { (bytes : List ℕ) → (forms : List Sexpr) × Complete bytes forms }
    ensures given { (bytes : List ℕ) (forms others : List Sexpr) → Given bytes forms → Given bytes others → forms ≡ others }
    ensures gives { (bytes : List ℕ) → (forms : List Sexpr) × Given bytes forms }
{}

/// What was given for a first part of the bytes stands first in what is given for more of them, and in the complete forms
/// of the whole.
pub fn giving_grows()
    ensures given { (bytes more : List ℕ) (forms all : List Sexpr) → Given bytes forms → Given (bytes ++ more) all → (rest : List Sexpr) × (all ≡ forms ++ rest) }
    ensures complete { (bytes more : List ℕ) (forms all : List Sexpr) → Given bytes forms → Complete (bytes ++ more) all → (rest : List Sexpr) × (all ≡ forms ++ rest) }
{}

/// Bytes are a spelling or have a lexical fault, one place and one reason, and never both.
pub fn one_fault()
    ensures fault { (bytes : List ℕ) (place reason other_place other_reason : ℕ) → IsFault bytes place reason → IsFault bytes other_place other_reason → (place ≡ other_place) × (reason ≡ other_reason) }
    ensures judged { (bytes : List ℕ) → ((forms : List Sexpr) × Spell bytes forms) ⊎ ((place : ℕ) × (reason : ℕ) × IsFault bytes place reason) }
    ensures refused { (bytes : List ℕ) (place reason : ℕ) (forms : List Sexpr) → IsFault bytes place reason → Spell bytes forms → ⊥ }
{}

/// What a text spells can be spelled, and the canonical spelling of each form that can be spelled is a spelling of the
/// same form, places aside.
pub fn forms_spelled_again()
    ensures read { (text : List ℕ) (forms : List Sexpr) → Spell text forms → AreSpellable 200 forms }
    ensures again { (forms : List Sexpr) → AreSpellable 200 forms → All SpellsAgain forms }
{}

/// Worked examples.
pub fn prefix_examples()
    ensures sofar { SofarExamples }
    ensures complete { CompleteExamples }
    ensures faults { FaultExamples }
{}
