//! The names of relations and of what defines them.
ghost use Rattle.std.specs.Prelude.{◌&&◌, ◌≡◌, ◌<◌, ◌≤◌, ◌++◌, [], not, map, length, IfOk, OnOk};
ghost use Rattle.std.specs.List.{flat_map, list_all, list_any};
ghost use Rattle.sig_core.specs.Names.{same_name};
ghost use Rattle.sig_core.specs.WellFormed.{relation_names};
ghost use Rattle.name_core.specs.Faults.{bad_if, first, found};
ghost use Rattle.name_core.specs.Names.{are_listed, attribute_names, attributes_of, case_names, declaration_names, definition_names, function_names, functions_names, has, is_plain, names_in, parameter_names, plain_pairs, sort_names, term_pairs, texts, unfit_name, unknown_name};

use crate::body_names::body_name;
use crate::copies::{copy_names, put_names};
use crate::expression_names::has;
use crate::pairs::is_plain;
use crate::type_names::{has_symbol, is_sort_name};
use rule_core::Names;
use sexpr_core::Atom;
use sig_core::{Bytes, RelId, Signature, is_reserved, is_word};
use std::alloc::{AllocError, Global};
use syntax_core::{Case, Definition, Fault, Function, Pair, Symbols, refusal};

/// Whether one of the pairs has this name.
#[tactic(auto, using(crate::proofs::Having::havings))]
pub(crate) fn has_pair(pairs: &[Pair], name: &[u8]) -> bool
    ensures { result ≡ has (names_in pairs.now) name.now }
{
    for pair in pairs {
        if name == pair.name.bytes.as_slice() {
            return true;
        }
    }
    false
}

/// Whether the parameter has this name, and isn't a term.
fn is_plain_named(name: &[u8], pair: &Pair) -> bool
    ensures { result ≡ (is_plain pair.now && same_name name.now pair.now.name.bytes) }
{
    is_plain(pair) && is_word(pair.name.bytes.as_slice(), name)
}

/// Whether the parameter has this name, and is a term.
fn is_term_named(name: &[u8], pair: &Pair) -> bool
    ensures { result ≡ (not (is_plain pair.now) && same_name name.now pair.now.name.bytes) }
{
    !is_plain(pair) && is_word(pair.name.bytes.as_slice(), name)
}

fn any_plain(params: &[Pair], name: &[u8]) -> bool
    ensures { result ≡ list_any (λ pair. is_plain pair && same_name name.now pair.name.bytes) params.now }
{
    params.iter().any(|pair| is_plain_named(name, pair))
}

fn any_term(params: &[Pair], name: &[u8]) -> bool
    ensures { result ≡ list_any (λ pair. not (is_plain pair) && same_name name.now pair.name.bytes) params.now }
{
    params.iter().any(|pair| is_term_named(name, pair))
}

/// Whether one of the parameters that aren't terms has this name.
fn has_plain(params: &[Pair], name: &[u8]) -> bool
    ensures { result ≡ has (names_in (plain_pairs params.now)) name.now }
{
    any_plain(params, name)
}

/// Whether one of the terms among the parameters has this name.
fn has_term(params: &[Pair], name: &[u8]) -> bool
    ensures { result ≡ has (names_in (term_pairs params.now)) name.now }
{
    any_term(params, name)
}

/// Whether one of the functions has this name.
#[tactic(auto, using(crate::proofs::Having::havings))]
fn has_function(functions: &[Function], name: &[u8]) -> bool
    ensures { result ≡ has (function_names functions.now) name.now }
{
    for function in functions {
        if name == function.declaration.name.bytes.as_slice() {
            return true;
        }
    }
    false
}

/// The fault of a parameter's name, where these are before it.
fn new_parameter_name(before: &[Pair], name: &Atom) -> Option<Fault>
    ensures { result ≡ first (unfit_name (names_in before.now) name.now) }
{
    let text = name.bytes.as_slice();
    if has_pair(before, text) || is_reserved(text) {
        Some(refusal(name.place, 21))
    } else {
        None
    }
}

/// The fault of a sort that is no type, `Int` or `Bool`.
#[tactic(auto, using(crate::proofs::Having::joints))]
fn parameter_sort_name(signature: &Signature, name: &Atom) -> Option<Fault>
    ensures { result ≡ first (unknown_name (signature.now.types ++ sort_names) name.now) }
{
    let text = name.bytes.as_slice();
    if signature.type_named(text).is_some() || is_sort_name(text) {
        None
    } else {
        Some(refusal(name.place, 20))
    }
}

/// The leftmost wrong name of a parameter, where these are before it.
#[tactic(auto, using(crate::proofs::Firsts::firsts))]
fn parameter_name(signature: &Signature, before: &[Pair], pair: &Pair) -> Option<Fault>
    ensures { result ≡ first (parameter_names signature.now before.now pair.now) }
{
    if let Some(fault) = new_parameter_name(before, &pair.name) {
        return Some(fault);
    }
    parameter_sort_name(signature, &pair.sort)
}

/// The leftmost wrong name of parameters.
#[tactic(auto, using(crate::proofs::Firsts::firsts))]
fn parameters_name(signature: &Signature, params: &[Pair]) -> Option<Fault>
    ensures { result ≡ first (found (parameter_names signature.now) params.now) }
{
    for (k, pair) in params.iter().enumerate() {
        if let Some(fault) = parameter_name(signature, &params[..k], pair) {
            return Some(fault);
        }
    }
    None
}

/// The fault of a new relation's name, where these functions are before it.
#[tactic(auto, using(crate::proofs::Having::havings))]
fn relation_name(signature: &Signature, before: &[Function], name: &Atom) -> Option<Fault>
    ensures { result ≡ first (unfit_name (relation_names signature.now.relations ++ function_names before.now) name.now) }
{
    let text = name.bytes.as_slice();
    if signature.relation_named(text).is_some() || has_function(before, text) || is_reserved(text) {
        Some(refusal(name.place, 21))
    } else {
        None
    }
}

/// The leftmost wrong name of a declaration, where these functions are before it.
#[tactic(auto, using(crate::proofs::Firsts::firsts))]
fn declaration_name(
    signature: &Signature,
    before: &[Function],
    function: &Function,
) -> Option<Fault>
    ensures { result ≡ first (declaration_names signature.now before.now function.now) }
{
    if let Some(fault) = relation_name(signature, before, &function.declaration.name) {
        return Some(fault);
    }
    parameters_name(signature, function.declaration.params.as_slice())
}

/// The leftmost wrong name of declarations.
#[tactic(auto, using(crate::proofs::Loops::steps))]
fn declarations_name(signature: &Signature, functions: &[Function]) -> Option<Fault>
    ensures { result ≡ first (found (declaration_names signature.now) functions.now) }
{
    for (k, function) in functions.iter().enumerate() {
        if let Some(fault) = declaration_name(signature, &functions[..k], function) {
            return Some(fault);
        }
    }
    None
}

/// The fault of a pattern's variable, where these names are in scope and these variables before it.
#[tactic(auto, using(crate::proofs::Having::havings))]
fn variable_name(scope: &[Bytes], before: &[Atom], name: &Atom) -> Option<Fault>
    ensures { result ≡ first (unfit_name (scope.now ++ texts before.now) name.now) }
{
    let text = name.bytes.as_slice();
    if has(scope, text) || has_symbol(before, text) || is_reserved(text) {
        Some(refusal(name.place, 21))
    } else {
        None
    }
}

/// The first wrong name of a pattern's variables.
#[tactic(auto, using(crate::proofs::Firsts::firsts))]
fn variables_name(scope: &[Bytes], variables: &[Atom]) -> Option<Fault>
    ensures { result ≡ first (found (λ before variable. unfit_name (scope.now ++ texts before) variable) variables.now) }
{
    for (k, variable) in variables.iter().enumerate() {
        if let Some(fault) = variable_name(scope, &variables[..k], variable) {
            return Some(fault);
        }
    }
    None
}

/// The names, and those of symbols after them.
fn with_texts(alloc: Global, names: &[Bytes], symbols: &[Atom]) -> Result<Names, AllocError>
    ensures { IfOk result (λ all. all ≡ names.now ++ texts symbols.now) }
{
    let mut all = copy_names(alloc, names)?;
    for symbol in symbols {
        all.push(symbol.bytes.copy(alloc)?)?;
    }
    Ok(all)
}

/// The leftmost wrong name of a case, where these are the relations and the parameters.
#[tactic(auto, using(crate::proofs::Firsts::firsts))]
fn case_name(
    alloc: Global,
    signature: &Signature,
    relations: &[Bytes],
    scope: &[Bytes],
    case: &Case,
) -> Result<Option<Fault>, AllocError>
    ensures { IfOk result (λ fault. fault ≡ first (case_names signature.now relations.now scope.now case.now)) }
{
    let name = &case.pattern.name;
    if signature.constructor_named(name.bytes.as_slice()).is_none() {
        return Ok(Some(refusal(name.place, 20)));
    }
    let variables = case.pattern.variables.as_slice();
    if let Some(fault) = variables_name(scope, variables) {
        return Ok(Some(fault));
    }
    let inside = with_texts(alloc, scope, variables)?;
    Ok(body_name(alloc, relations, inside.as_slice(), &[], &case.body)?)
}

/// The leftmost wrong name of cases.
#[tactic(auto, using(crate::proofs::Loops::steps))]
fn cases_name(
    alloc: Global,
    signature: &Signature,
    relations: &[Bytes],
    scope: &[Bytes],
    cases: &[Case],
) -> Result<Option<Fault>, AllocError>
    ensures { IfOk result (λ fault. fault ≡ first (flat_map (case_names signature.now relations.now scope.now) cases.now)) }
{
    for case in cases {
        if let Some(fault) = case_name(alloc, signature, relations, scope, case)? {
            return Ok(Some(fault));
        }
    }
    Ok(None)
}

/// Puts symbols last.
fn put_symbols(alloc: Global, symbols: &[Atom], out: &mut Symbols) -> Result<(), AllocError>
    ensures { OnOk result (out.new ≡ out.old ++ symbols.now) }
{
    for symbol in symbols {
        out.push(Atom {
            place: symbol.place,
            bytes: symbol.bytes.copy(alloc)?,
        })?;
    }
    Ok(())
}

/// The names in the two lists of attributes, in their order.
fn attributes_of(alloc: Global, definition: &Definition) -> Result<Symbols, AllocError>
    ensures { IfOk result (λ names. names ≡ attributes_of definition.now) }
{
    let mut names = Symbols::new(alloc);
    if definition.has_outputs_first {
        put_symbols(alloc, definition.outputs.as_slice(), &mut names)?;
        put_symbols(alloc, definition.inputs.as_slice(), &mut names)?;
    } else {
        put_symbols(alloc, definition.inputs.as_slice(), &mut names)?;
        put_symbols(alloc, definition.outputs.as_slice(), &mut names)?;
    }
    Ok(names)
}

/// Whether each parameter that isn't a term is among these names.
fn are_listed(names: &[Atom], params: &[Pair]) -> bool
    ensures { result ≡ list_all (has (texts names.now)) (names_in (plain_pairs params.now)) }
{
    for pair in params {
        if is_plain(pair) && !has_symbol(names, pair.name.bytes.as_slice()) {
            return false;
        }
    }
    true
}

/// The fault of a name of an attribute, where these are before it.
#[tactic(auto, using(crate::proofs::Firsts::firsts))]
fn attribute_name(params: &[Pair], before: &[Atom], name: &Atom) -> Option<Fault>
    ensures { result ≡ first (attribute_names params.now before.now name.now) }
{
    let text = name.bytes.as_slice();
    if !has_plain(params, text) {
        return Some(refusal(name.place, 20));
    }
    if has_symbol(before, text) {
        return Some(refusal(name.place, 21));
    }
    None
}

/// The first wrong name of the attributes.
#[tactic(auto, using(crate::proofs::Firsts::firsts))]
fn attributes_name(params: &[Pair], names: &[Atom]) -> Option<Fault>
    ensures { result ≡ first (found (attribute_names params.now) names.now) }
{
    for (k, name) in names.iter().enumerate() {
        if let Some(fault) = attribute_name(params, &names[..k], name) {
            return Some(fault);
        }
    }
    None
}

/// The fault of the head of a definition, which has these attributes: a parameter that stands in neither list, or a
/// match of what is no term.
#[tactic(auto, using(crate::proofs::Firsts::firsts))]
fn heading_name(names: &[Atom], function: &Function) -> Option<Fault>
    requires { names.now ≡ attributes_of function.now.definition }
    ensures { result ≡ first (bad_if (not (are_listed function.now)) 20 function.now.definition.place
        ++ unknown_name (names_in (term_pairs function.now.declaration.params)) function.now.definition.matched) }
{
    let params = function.declaration.params.as_slice();
    if !are_listed(names, params) {
        return Some(refusal(function.definition.place, 20));
    }
    let matched = &function.definition.matched;
    if has_term(params, matched.bytes.as_slice()) {
        None
    } else {
        Some(refusal(matched.place, 20))
    }
}

/// The leftmost wrong name of a function's cases.
fn inner_name(
    alloc: Global,
    signature: &Signature,
    relations: &[Bytes],
    function: &Function,
) -> Result<Option<Fault>, AllocError>
    ensures { IfOk result (λ fault. fault ≡ first (flat_map
        (case_names signature.now relations.now (names_in function.now.declaration.params)) function.now.definition.cases)) }
{
    let mut scope = Names::new(alloc);
    put_names(alloc, function.declaration.params.as_slice(), &mut scope)?;
    let cases = function.definition.cases.as_slice();
    Ok(cases_name(alloc, signature, relations, scope.as_slice(), cases)?)
}

/// The leftmost wrong name of a definition.
#[tactic(auto, using(crate::proofs::Firsts::firsts))]
fn definition_name(
    alloc: Global,
    signature: &Signature,
    relations: &[Bytes],
    function: &Function,
) -> Result<Option<Fault>, AllocError>
    ensures { IfOk result (λ fault. fault ≡ first (definition_names signature.now relations.now function.now)) }
{
    let names = attributes_of(alloc, &function.definition)?;
    if let Some(fault) = heading_name(names.as_slice(), function) {
        return Ok(Some(fault));
    }
    if let Some(fault) = inner_name(alloc, signature, relations, function)? {
        return Ok(Some(fault));
    }
    Ok(attributes_name(function.declaration.params.as_slice(), names.as_slice()))
}

/// The leftmost wrong name of definitions.
#[tactic(auto, using(crate::proofs::Loops::steps))]
fn definitions_name(
    alloc: Global,
    signature: &Signature,
    relations: &[Bytes],
    functions: &[Function],
) -> Result<Option<Fault>, AllocError>
    ensures { IfOk result (λ fault. fault ≡ first (flat_map (definition_names signature.now relations.now) functions.now)) }
{
    for function in functions {
        if let Some(fault) = definition_name(alloc, signature, relations, function)? {
            return Ok(Some(fault));
        }
    }
    Ok(None)
}

/// Puts the names of functions last.
fn put_functions(alloc: Global, functions: &[Function], out: &mut Names) -> Result<(), AllocError>
    ensures { OnOk result (out.new ≡ out.old ++ function_names functions.now) }
{
    for function in functions {
        out.push(function.declaration.name.bytes.copy(alloc)?)?;
    }
    Ok(())
}

/// The names of the signature's relations.
fn relation_names(alloc: Global, signature: &Signature) -> Result<Names, AllocError>
    ensures { IfOk result (λ names. names ≡ relation_names signature.now.relations) }
{
    let mut names = Names::new(alloc);
    for number in 0..signature.relations() {
        let relation = signature.relation(RelId(number));
        names.push(relation.name.copy(alloc)?)?;
    }
    Ok(names)
}

/// The leftmost wrong name of functions.
#[tactic(auto, using(crate::proofs::Firsts::firsts))]
pub(crate) fn functions_name(
    alloc: Global,
    signature: &Signature,
    functions: &[Function],
) -> Result<Option<Fault>, AllocError>
    ensures { IfOk result (λ fault. fault ≡ first (functions_names signature.now functions.now)) }
{
    if let Some(fault) = declarations_name(signature, functions) {
        return Ok(Some(fault));
    }
    let mut relations = relation_names(alloc, signature)?;
    put_functions(alloc, functions, &mut relations)?;
    Ok(definitions_name(alloc, signature, relations.as_slice(), functions)?)
}
