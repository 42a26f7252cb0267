//! The reading of functions.
ghost use Rattle.std.specs.Prelude.{◌≡◌, map, IfOk};
ghost use Rattle.syntax_core.specs.Syntax.{atom_of, case_of, declaration_of, definition_of, function_of, functions_from, functions_of, has_outputs_first, pattern_of};

use crate::bodies::body_of;
use crate::reading::{atom_of, atoms_of, name_of, pairs_of, symbols_of};
use crate::syntax::{Case, Cases, Declaration, Definition, Function, Functions, Pattern};
use sexpr_core::{Sexpr, item_of, others_of, parts_of};
use std::alloc::{AllocError, Global};

/// `s` or `(s s ..)`
pub(crate) fn pattern_of(alloc: Global, form: &Sexpr) -> Result<Pattern, AllocError>
    ensures { IfOk result (λ pattern. pattern ≡ pattern_of form.now) }
{
    Ok(Pattern {
        place: form.place(),
        name: name_of(alloc, form)?,
        variables: atoms_of(alloc, others_of(form))?,
    })
}

/// `(pattern body)`
fn case_of(alloc: Global, form: &Sexpr) -> Result<Case, AllocError>
    ensures { IfOk result (λ case. case ≡ case_of form.now) }
{
    Ok(Case {
        pattern: pattern_of(alloc, item_of(0, form))?,
        body: body_of(alloc, item_of(1, form))?,
    })
}

fn cases_of(alloc: Global, forms: &[Sexpr]) -> Result<Cases, AllocError>
    ensures { IfOk result (λ cases. cases ≡ map case_of forms.now) }
{
    let mut cases = Cases::new(alloc);
    for form in forms {
        cases.push(case_of(alloc, form)?)?;
    }
    Ok(cases)
}

/// `(s (pair ..) Bool)`
fn declaration_of(alloc: Global, form: &Sexpr) -> Result<Declaration, AllocError>
    ensures { IfOk result (λ declaration. declaration ≡ declaration_of form.now) }
{
    Ok(Declaration {
        place: form.place(),
        name: atom_of(alloc, item_of(0, form))?,
        params: pairs_of(alloc, item_of(1, form))?,
    })
}

/// Whether the `:output` of a definition stands before its `:input`.
fn has_outputs_first(form: &Sexpr) -> bool
    ensures { result ≡ has_outputs_first form.now }
{
    item_of(2, form).is_keyword(b"output")
}

/// `(! (match s (case ..)) A A)`
fn definition_of(alloc: Global, form: &Sexpr) -> Result<Definition, AllocError>
    ensures { IfOk result (λ definition. definition ≡ definition_of form.now) }
{
    let has_outputs_first = has_outputs_first(form);
    let matching = item_of(1, form);
    Ok(Definition {
        place: form.place(),
        matched: atom_of(alloc, item_of(1, matching))?,
        cases: cases_of(alloc, parts_of(item_of(2, matching)))?,
        inputs: symbols_of(alloc, item_of(if has_outputs_first { 5 } else { 3 }, form))?,
        outputs: symbols_of(alloc, item_of(if has_outputs_first { 3 } else { 5 }, form))?,
        has_outputs_first,
    })
}

fn function_of(
    alloc: Global,
    declaration: &Sexpr,
    definition: &Sexpr,
) -> Result<Function, AllocError>
    ensures { IfOk result (λ function. function ≡ function_of declaration.now definition.now) }
{
    Ok(Function {
        declaration: declaration_of(alloc, declaration)?,
        definition: definition_of(alloc, definition)?,
    })
}

fn functions_from(
    alloc: Global,
    declarations: &[Sexpr],
    definitions: &[Sexpr],
) -> Result<Functions, AllocError>
    ensures { IfOk result (λ functions. functions ≡ functions_from declarations.now definitions.now) }
{
    let mut functions = Functions::new(alloc);
    for (k, declaration) in declarations.iter().enumerate() {
        if k >= definitions.len() {
            return Ok(functions);
        }
        functions.push(function_of(alloc, declaration, &definitions[k])?)?;
    }
    Ok(functions)
}

/// The functions of a `define-funs-rec`.
pub fn functions_of(alloc: Global, form: &Sexpr) -> Result<Functions, AllocError>
    ensures { IfOk result (λ functions. functions ≡ functions_of form.now) }
{
    let declarations = parts_of(item_of(1, form));
    let definitions = parts_of(item_of(2, form));
    Ok(functions_from(alloc, declarations, definitions)?)
}
