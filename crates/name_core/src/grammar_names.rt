//! The names of grammars.
ghost use Rattle.std.specs.Prelude.{◌≡◌, ◌≤◌, ◌++◌, [], ◌∷◌, map, length, IfOk};
ghost use Rattle.std.specs.List.{flat_map, zip};
ghost use Rattle.sig_core.specs.WellFormed.{constructor_names};
ghost use Rattle.sexpr_core.specs.Access.{item_of, others_of};
ghost use Rattle.syntax_core.specs.Syntax.{atom_of};
ghost use Rattle.name_core.specs.Faults.{first, found};
ghost use Rattle.name_core.specs.Names.{group_names, names_in, nonterminal_names, production_names, taken_name, unhad_name, unknown_name, wanted_names};

use crate::function_names::has_pair;
use sexpr_core::{Atom, Sexpr, item_of, others_of};
use sig_core::Signature;
use std::alloc::{AllocError, Global};
use syntax_core::{Fault, Pair, items_at, nonterminals_of, refusal};

/// The name of a symbol, empty where the form is none.
fn text_of(form: &Sexpr) -> &[u8]
    ensures { result.now ≡ (atom_of form.now).bytes }
{
    form.symbol().unwrap_or(&[])
}

/// The fault of a symbol that is no type.
fn wanted_type_name(signature: &Signature, form: &Sexpr) -> Option<Fault>
    ensures { result ≡ first (unknown_name signature.now.types (atom_of form.now)) }
{
    if signature.type_named(text_of(form)).is_some() {
        None
    } else {
        Some(refusal(form.place(), 20))
    }
}

fn nonterminal_type_name(signature: &Signature, name: &Atom) -> Option<Fault>
    ensures { result ≡ first (unknown_name signature.now.types name.now) }
{
    if signature.type_named(name.bytes.as_slice()).is_some() {
        None
    } else {
        Some(refusal(name.place, 20))
    }
}

/// The fault of a nonterminal's name, where these are before it.
#[tactic(auto, using(crate::proofs::Having::havings))]
fn new_nonterminal_name(signature: &Signature, before: &[Pair], name: &Atom) -> Option<Fault>
    ensures { result ≡ first (taken_name (names_in before.now ++ constructor_names signature.now.constructors) name.now) }
{
    let text = name.bytes.as_slice();
    if has_pair(before, text) || signature.constructor_named(text).is_some() {
        Some(refusal(name.place, 21))
    } else {
        None
    }
}

/// The leftmost wrong name of a nonterminal, where these are before it.
#[tactic(auto, using(crate::proofs::Firsts::firsts))]
fn nonterminal_name(signature: &Signature, before: &[Pair], pair: &Pair) -> Option<Fault>
    ensures { result ≡ first (nonterminal_names signature.now before.now pair.now) }
{
    if let Some(fault) = new_nonterminal_name(signature, before, &pair.name) {
        return Some(fault);
    }
    nonterminal_type_name(signature, &pair.sort)
}

/// The leftmost wrong name of nonterminals.
#[tactic(auto, using(crate::proofs::Firsts::firsts))]
fn nonterminals_name(signature: &Signature, pairs: &[Pair]) -> Option<Fault>
    ensures { result ≡ first (found (nonterminal_names signature.now) pairs.now) }
{
    for (k, pair) in pairs.iter().enumerate() {
        if let Some(fault) = nonterminal_name(signature, &pairs[..k], pair) {
            return Some(fault);
        }
    }
    None
}

/// The fault of a production that is a symbol: reason 13 at a nonterminal, 20 at what is neither that nor a
/// constructor.
fn symbol_name(signature: &Signature, nonterminals: &[Pair], form: &Sexpr) -> Option<Fault>
    ensures { result ≡ first (unhad_name (constructor_names signature.now.constructors) (names_in nonterminals.now) form.now) }
{
    let Some(text) = form.symbol() else {
        return Some(refusal(form.place(), 13));
    };
    if signature.constructor_named(text).is_some() {
        return None;
    }
    let is_nonterminal = has_pair(nonterminals, text);
    Some(refusal(form.place(), if is_nonterminal { 13 } else { 20 }))
}

/// The fault of a production's argument: reason 13 at a list or a constructor, 20 at what is neither that nor a
/// nonterminal.
fn argument_name(signature: &Signature, nonterminals: &[Pair], form: &Sexpr) -> Option<Fault>
    ensures { result ≡ first (unhad_name (names_in nonterminals.now) (constructor_names signature.now.constructors) form.now) }
{
    let Some(text) = form.symbol() else {
        return Some(refusal(form.place(), 13));
    };
    if has_pair(nonterminals, text) {
        return None;
    }
    let is_constructor = signature.constructor_named(text).is_some();
    Some(refusal(form.place(), if is_constructor { 13 } else { 20 }))
}

/// The first wrong name of a production's arguments.
#[tactic(auto, using(crate::proofs::Firsts::firsts))]
fn arguments_name(signature: &Signature, nonterminals: &[Pair], forms: &[Sexpr]) -> Option<Fault>
    ensures { result ≡ first (flat_map (unhad_name (names_in nonterminals.now) (constructor_names signature.now.constructors)) forms.now) }
{
    for form in forms {
        if let Some(fault) = argument_name(signature, nonterminals, form) {
            return Some(fault);
        }
    }
    None
}

/// The fault of a symbol that is no constructor.
fn constructor_name(signature: &Signature, form: &Sexpr) -> Option<Fault>
    ensures { result ≡ first (unknown_name (constructor_names signature.now.constructors) (atom_of form.now)) }
{
    if signature.constructor_named(text_of(form)).is_some() {
        None
    } else {
        Some(refusal(form.place(), 20))
    }
}

/// The leftmost wrong name of a production that is a list.
#[tactic(auto, using(crate::proofs::Firsts::firsts))]
fn list_name(signature: &Signature, nonterminals: &[Pair], form: &Sexpr) -> Option<Fault>
    ensures { result ≡ first (unknown_name (constructor_names signature.now.constructors) (atom_of (item_of 0 form.now))
        ++ flat_map (unhad_name (names_in nonterminals.now) (constructor_names signature.now.constructors)) (others_of form.now)) }
{
    if let Some(fault) = constructor_name(signature, item_of(0, form)) {
        return Some(fault);
    }
    arguments_name(signature, nonterminals, others_of(form))
}

/// The leftmost wrong name of a production.
fn production_name(signature: &Signature, nonterminals: &[Pair], form: &Sexpr) -> Option<Fault>
    ensures { result ≡ first (production_names (names_in nonterminals.now) (constructor_names signature.now.constructors) form.now) }
{
    if form.symbol().is_some() {
        symbol_name(signature, nonterminals, form)
    } else {
        list_name(signature, nonterminals, form)
    }
}

/// The leftmost wrong name of productions.
#[tactic(auto, using(crate::proofs::Firsts::firsts))]
fn productions_name(signature: &Signature, nonterminals: &[Pair], forms: &[Sexpr]) -> Option<Fault>
    ensures { result ≡ first (flat_map (production_names (names_in nonterminals.now) (constructor_names signature.now.constructors)) forms.now) }
{
    for form in forms {
        if let Some(fault) = production_name(signature, nonterminals, form) {
            return Some(fault);
        }
    }
    None
}

/// The fault of a group's name that isn't the declared one.
fn group_name(name: &Atom, form: &Sexpr) -> Option<Fault>
    ensures { result ≡ first (unknown_name (name.now.bytes ∷ []) (atom_of form.now)) }
{
    if name.bytes.as_slice() == text_of(form) {
        None
    } else {
        Some(refusal(form.place(), 20))
    }
}

/// The leftmost wrong name of a nonterminal's group.
#[tactic(auto, using(crate::proofs::Firsts::firsts))]
fn group_fault(
    signature: &Signature,
    nonterminals: &[Pair],
    pair: &Pair,
    group: &Sexpr,
) -> Option<Fault>
    ensures { result ≡ first (group_names signature.now (names_in nonterminals.now) (pair.now, group.now)) }
{
    if let Some(fault) = group_name(&pair.name, item_of(0, group)) {
        return Some(fault);
    }
    if let Some(fault) = wanted_type_name(signature, item_of(1, group)) {
        return Some(fault);
    }
    productions_name(signature, nonterminals, items_at(2, group))
}

/// The leftmost wrong name of the nonterminals' groups.
#[tactic(auto, using(crate::proofs::Loops::steps))]
fn groups_name(signature: &Signature, nonterminals: &[Pair], groups: &[Sexpr]) -> Option<Fault>
    ensures { result ≡ first (flat_map (group_names signature.now (names_in nonterminals.now)) (zip nonterminals.now groups.now)) }
{
    for (k, pair) in nonterminals.iter().enumerate() {
        if k >= groups.len() {
            return None;
        }
        if let Some(fault) = group_fault(signature, nonterminals, pair, &groups[k]) {
            return Some(fault);
        }
    }
    None
}

/// The leftmost wrong name of a `synth-fun`.
#[tactic(auto, using(crate::proofs::Firsts::firsts))]
pub(crate) fn wanted_name(
    alloc: Global,
    signature: &Signature,
    form: &Sexpr,
) -> Result<Option<Fault>, AllocError>
    ensures { IfOk result (λ fault. fault ≡ first (wanted_names signature.now form.now)) }
{
    if let Some(fault) = wanted_type_name(signature, item_of(3, form)) {
        return Ok(Some(fault));
    }
    let nonterminals = nonterminals_of(alloc, form)?;
    if let Some(fault) = nonterminals_name(signature, nonterminals.as_slice()) {
        return Ok(Some(fault));
    }
    Ok(groups_name(signature, nonterminals.as_slice(), items_at(5, form)))
}
