//! The names of types and constructors.
ghost use Rattle.std.specs.Prelude.{◌≡◌, ◌≤◌, ◌++◌, map, take, length, IfOk};
ghost use Rattle.std.specs.List.{flat_map};
ghost use Rattle.sig_core.specs.WellFormed.{constructor_names};
ghost use Rattle.syntax_core.specs.Syntax.{type_names};
ghost use Rattle.name_core.specs.Faults.{first, found};
ghost use Rattle.name_core.specs.Names.{constructors_in, has, sort_names, taken_name, texts, types_names, unknown_name};

use sexpr_core::{Atom, Sexpr};
use sig_core::{Signature, is_word};
use std::alloc::{AllocError, Global};
use syntax_core::{Fault, Pattern, Patterns, Symbols, constructors_in, refusal, type_names};

/// Whether one of the symbols has this name.
#[tactic(auto, using(crate::proofs::Having::havings))]
pub(crate) fn has_symbol(symbols: &[Atom], name: &[u8]) -> bool
    ensures { result ≡ has (texts symbols.now) name.now }
{
    for symbol in symbols {
        if name == symbol.bytes.as_slice() {
            return true;
        }
    }
    false
}

/// Whether the name is `Int` or `Bool`.
#[tactic(auto, using(crate::proofs::Having::sorts))]
pub(crate) fn is_sort_name(name: &[u8]) -> bool
    ensures { result ≡ has sort_names name.now }
{
    is_word(b"Int", name) || is_word(b"Bool", name)
}

/// The fault of a new type, where these are before it.
#[tactic(auto, using(crate::proofs::Having::joints))]
fn type_name(signature: &Signature, before: &[Atom], name: &Atom) -> Option<Fault>
    ensures { result ≡ first (taken_name (signature.now.types ++ texts before.now ++ sort_names) name.now) }
{
    let text = name.bytes.as_slice();
    if signature.type_named(text).is_some() || has_symbol(before, text) || is_sort_name(text) {
        Some(refusal(name.place, 21))
    } else {
        None
    }
}

/// The first of the new types whose name is taken.
#[tactic(auto, using(crate::proofs::Firsts::firsts))]
fn each_type_name(signature: &Signature, names: &[Atom]) -> Option<Fault>
    ensures { result ≡ first (found (λ before name. taken_name (signature.now.types ++ texts before ++ sort_names) name) names.now) }
{
    for (k, name) in names.iter().enumerate() {
        if let Some(fault) = type_name(signature, &names[..k], name) {
            return Some(fault);
        }
    }
    None
}

/// The fault of an argument type that is none of the signature's and none of these.
#[tactic(auto, using(crate::proofs::Having::havings))]
fn argument_type_name(signature: &Signature, types: &[Atom], name: &Atom) -> Option<Fault>
    ensures { result ≡ first (unknown_name (signature.now.types ++ texts types.now) name.now) }
{
    let text = name.bytes.as_slice();
    if signature.type_named(text).is_some() || has_symbol(types, text) {
        None
    } else {
        Some(refusal(name.place, 20))
    }
}

/// The first unknown argument type.
#[tactic(auto, using(crate::proofs::Firsts::firsts))]
fn argument_types_name(signature: &Signature, types: &[Atom], names: &[Atom]) -> Option<Fault>
    ensures { result ≡ first (flat_map (unknown_name (signature.now.types ++ texts types.now)) names.now) }
{
    for name in names {
        if let Some(fault) = argument_type_name(signature, types, name) {
            return Some(fault);
        }
    }
    None
}

/// Whether one of the constructors has this name.
#[tactic(auto, using(crate::proofs::Having::havings))]
fn has_constructor(constructors: &[Pattern], name: &[u8]) -> bool
    ensures { result ≡ has (map (λ c. c.name.bytes) constructors.now) name.now }
{
    for constructor in constructors {
        if name == constructor.name.bytes.as_slice() {
            return true;
        }
    }
    false
}

/// The fault of a new constructor's name, where these are before it.
#[tactic(auto, using(crate::proofs::Having::havings))]
fn constructor_name(signature: &Signature, before: &[Pattern], name: &Atom) -> Option<Fault>
    ensures { result ≡ first (taken_name (constructor_names signature.now.constructors ++ map (λ c. c.name.bytes) before.now) name.now) }
{
    let text = name.bytes.as_slice();
    if signature.constructor_named(text).is_some() || has_constructor(before, text) {
        Some(refusal(name.place, 21))
    } else {
        None
    }
}

/// The leftmost wrong name of a new constructor, where these types are new and these constructors are before it.
#[tactic(auto, using(crate::proofs::Firsts::firsts))]
fn new_constructor_name(
    signature: &Signature,
    types: &[Atom],
    before: &[Pattern],
    constructor: &Pattern,
) -> Option<Fault>
    ensures { result ≡ first (taken_name (constructor_names signature.now.constructors ++ map (λ c. c.name.bytes) before.now) constructor.now.name
        ++ flat_map (unknown_name (signature.now.types ++ texts types.now)) constructor.now.variables) }
{
    if let Some(fault) = constructor_name(signature, before, &constructor.name) {
        return Some(fault);
    }
    argument_types_name(signature, types, constructor.variables.as_slice())
}

/// The leftmost wrong name of new constructors, where these types are new.
#[tactic(auto, using(crate::proofs::Loops::steps))]
fn each_constructor_name(
    signature: &Signature,
    types: &[Atom],
    constructors: &[Pattern],
) -> Option<Fault>
    ensures { result ≡ first (found (λ before con. taken_name (constructor_names signature.now.constructors ++ map (λ c. c.name.bytes) before) con.name
        ++ flat_map (unknown_name (signature.now.types ++ texts types.now)) con.variables) constructors.now) }
{
    for (k, constructor) in constructors.iter().enumerate() {
        let before = &constructors[..k];
        if let Some(fault) = new_constructor_name(signature, types, before, constructor) {
            return Some(fault);
        }
    }
    None
}

/// The leftmost wrong name of new types and constructors.
#[tactic(auto, using(crate::proofs::Loops::joined))]
fn declared_name(signature: &Signature, types: &Symbols, constructors: &Patterns) -> Option<Fault>
    ensures { result ≡ first (found (λ before name. taken_name (signature.now.types ++ texts before ++ sort_names) name) types.now
        ++ found (λ before con. taken_name (constructor_names signature.now.constructors ++ map (λ c. c.name.bytes) before) con.name
        ++ flat_map (unknown_name (signature.now.types ++ texts types.now)) con.variables) constructors.now) }
{
    if let Some(fault) = each_type_name(signature, types.as_slice()) {
        return Some(fault);
    }
    each_constructor_name(signature, types.as_slice(), constructors.as_slice())
}

/// The leftmost wrong name of a `declare-term-types`.
pub(crate) fn types_name(
    alloc: Global,
    signature: &Signature,
    form: &Sexpr,
) -> Result<Option<Fault>, AllocError>
    ensures { IfOk result (λ fault. fault ≡ first (types_names signature.now form.now)) }
{
    let types = type_names(alloc, form)?;
    let constructors = constructors_in(alloc, form)?;
    Ok(declared_name(signature, &types, &constructors))
}
