//! The reading of types, constructors and nonterminals.
ghost use Rattle.std.specs.Prelude.{◌≡◌, ◌++◌, map, IfOk, OnOk};
ghost use Rattle.std.specs.List.{flat_map};
ghost use Rattle.sexpr_core.specs.Access.{parts_of};
ghost use Rattle.syntax_core.specs.Syntax.{items_at, nonterminals_of, pattern_of, type_names};

use crate::access::items_at;
use crate::functions::pattern_of;
use crate::reading::{atom_of, pair_of};
use crate::syntax::{Pairs, Patterns, Symbols};
use sexpr_core::{Sexpr, item_of, parts_of};
use std::alloc::{AllocError, Global};

/// The names of the types of a `declare-term-types`.
pub fn type_names(alloc: Global, form: &Sexpr) -> Result<Symbols, AllocError>
    ensures { IfOk result (λ names. names ≡ type_names form.now) }
{
    let pairs = items_at(1, form);
    let mut names = Symbols::new(alloc);
    for pair in pairs {
        names.push(atom_of(alloc, item_of(0, pair))?)?;
    }
    Ok(names)
}

/// Puts the constructors of a group last.
fn put_patterns(alloc: Global, forms: &[Sexpr], out: &mut Patterns) -> Result<(), AllocError>
    ensures { OnOk result (out.new ≡ out.old ++ map pattern_of forms.now) }
{
    for form in forms {
        out.push(pattern_of(alloc, form)?)?;
    }
    Ok(())
}

/// The constructors of all groups of a `declare-term-types`, each as a pattern whose variables are the argument types.
pub fn constructors_in(alloc: Global, form: &Sexpr) -> Result<Patterns, AllocError>
    ensures { IfOk result (λ patterns. patterns ≡ map pattern_of (flat_map parts_of (items_at 2 form.now))) }
{
    let groups = items_at(2, form);
    let mut patterns = Patterns::new(alloc);
    for group in groups {
        put_patterns(alloc, parts_of(group), &mut patterns)?;
    }
    Ok(patterns)
}

/// The nonterminals of a `synth-fun`, each with its type; none where it has no grammar.
pub fn nonterminals_of(alloc: Global, form: &Sexpr) -> Result<Pairs, AllocError>
    ensures { IfOk result (λ pairs. pairs ≡ nonterminals_of form.now) }
{
    let forms = items_at(4, form);
    let mut pairs = Pairs::new(alloc);
    for form in forms {
        pairs.push(pair_of(alloc, form)?)?;
    }
    Ok(pairs)
}
