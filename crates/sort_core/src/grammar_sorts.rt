//! The sorts of grammars.
ghost use Rattle.std.specs.Prelude.{◌≡◌, Some, None, option_map, if◌then◌else◌, IfOk};
ghost use Rattle.std.specs.List.{flat_map, zip};
ghost use Rattle.std.specs.Option.{option_copied};
ghost use Rattle.sexpr_core.specs.Access.{item_of};
ghost use Rattle.syntax_core.specs.Syntax.{atom_of, items_at, name_of, nonterminals_of};
ghost use Rattle.name_core.specs.Faults.{first, found_from};
ghost use Rattle.sort_core.specs.Relations.{child_type, sort_of_pair, type_named};
ghost use Rattle.sort_core.specs.Sorts.{constructor_at, group_faults, makes, production_argument, production_faults, start_faults, wanted_faults};

use crate::functions::type_named;
use items::at;
use rule_core::same_type;
use sexpr_core::{Sexpr, item_of, others_of};
use sig_core::{Constructor, Signature, TypeId};
use std::alloc::{AllocError, Global};
use syntax_core::{Fault, Pair, Pairs, items_at, pair_of, refusal};

/// The bytes of the symbol that the form is; none where it is none.
fn text_of(form: &Sexpr) -> &[u8]
    ensures { result.now ≡ (atom_of form.now).bytes }
{
    match form.symbol() {
        Some(text) => text,
        None => &[],
    }
}

/// The bytes of the name of `s` or `(s ..)`.
fn name_text(form: &Sexpr) -> &[u8]
    ensures { result.now ≡ (name_of form.now).bytes }
{
    if form.symbol().is_some() {
        text_of(form)
    } else {
        text_of(item_of(0, form))
    }
}

/// The type of the nonterminal with this name.
fn nonterminal_type(signature: &Signature, pairs: &[Pair], name: &[u8]) -> Option<TypeId>
    ensures { result ≡ option_map (type_named signature.now) (sort_of_pair pairs.now name.now) }
{
    for pair in pairs {
        if pair.name.bytes.as_slice() == name {
            return Some(type_named(signature, pair.sort.bytes.as_slice()));
        }
    }
    None
}

/// The fault of argument k of a production of this constructor.
fn argument_fault(
    signature: &Signature,
    pairs: &[Pair],
    con: &Constructor,
    k: usize,
    form: &Sexpr,
) -> Option<Fault>
    ensures { result ≡ first (production_argument signature.now pairs.now (Some con.now) k form.now) }
{
    let found = nonterminal_type(signature, pairs, text_of(form));
    if same_type(found, at(con.args.as_slice(), k).copied()) {
        None
    } else {
        Some(refusal(form.place(), 30))
    }
}

/// The leftmost fault of the arguments of a production of this constructor.
#[tactic(auto, using(name_core::proofs::Firsts::firsts))]
fn arguments_fault(
    signature: &Signature,
    pairs: &[Pair],
    con: &Constructor,
    forms: &[Sexpr],
) -> Option<Fault>
    ensures { result ≡ first (found_from (production_argument signature.now pairs.now (Some con.now)) 0 forms.now) }
{
    for (k, form) in forms.iter().enumerate() {
        if let Some(fault) = argument_fault(signature, pairs, con, k, form) {
            return Some(fault);
        }
    }
    None
}

/// The constructor of this name, if it makes terms of the type from so many children.
fn maker<'s>(
    signature: &'s Signature,
    owner: TypeId,
    count: usize,
    name: &[u8],
) -> Option<&'s Constructor>
    ensures { option_copied result ≡ (if makes owner count (constructor_at signature.now name.now) then constructor_at signature.now name.now else None) }
{
    let con = signature.constructor(signature.constructor_named(name)?);
    if con.owner.0 == owner.0 && con.args.len() == count {
        Some(con)
    } else {
        None
    }
}

/// The leftmost fault of a production of a nonterminal of this type.
#[tactic(auto, using(name_core::proofs::Firsts::firsts))]
fn production_fault(
    signature: &Signature,
    pairs: &[Pair],
    owner: TypeId,
    form: &Sexpr,
) -> Option<Fault>
    ensures { result ≡ first (production_faults signature.now pairs.now owner form.now) }
{
    let arguments = others_of(form);
    match maker(signature, owner, arguments.len(), name_text(form)) {
        Some(con) => arguments_fault(signature, pairs, con, arguments),
        None => Some(refusal(form.place(), 30)),
    }
}

/// The leftmost fault of productions of a nonterminal of this type.
#[tactic(auto, using(name_core::proofs::Firsts::firsts))]
fn productions_fault(
    signature: &Signature,
    pairs: &[Pair],
    owner: TypeId,
    forms: &[Sexpr],
) -> Option<Fault>
    ensures { result ≡ first (flat_map (production_faults signature.now pairs.now owner) forms.now) }
{
    for form in forms {
        if let Some(fault) = production_fault(signature, pairs, owner, form) {
            return Some(fault);
        }
    }
    None
}

/// The leftmost fault of the group of this nonterminal.
#[tactic(auto, using(name_core::proofs::Firsts::firsts))]
fn group_fault(signature: &Signature, pairs: &[Pair], pair: &Pair, group: &Sexpr) -> Option<Fault>
    ensures { result ≡ first (group_faults signature.now pairs.now (pair.now, group.now)) }
{
    let sort = pair.sort.bytes.as_slice();
    let named = item_of(1, group);
    if text_of(named) != sort {
        return Some(refusal(named.place(), 30));
    }
    productions_fault(
        signature,
        pairs,
        type_named(signature, sort),
        items_at(2, group),
    )
}

/// The leftmost fault of groups, each of the nonterminal that is declared at its number.
#[tactic(auto, using(name_core::proofs::Firsts::firsts))]
fn groups_fault(signature: &Signature, pairs: &[Pair], groups: &[Sexpr]) -> Option<Fault>
    ensures { result ≡ first (flat_map (group_faults signature.now pairs.now) (zip pairs.now groups.now)) }
{
    for (k, pair) in pairs.iter().enumerate() {
        if k >= groups.len() {
            return None;
        }
        match group_fault(signature, pairs, pair, &groups[k]) {
            Some(fault) => return Some(fault),
            None => {}
        }
    }
    None
}

/// The fault of a start that isn't of the wanted type.
fn start_fault(owner: &[u8], pairs: &[Pair]) -> Option<Fault>
    ensures { result ≡ first (start_faults owner.now pairs.now) }
{
    match pairs {
        [] => None,
        [start, ..] => {
            if start.sort.bytes.as_slice() == owner {
                None
            } else {
                Some(refusal(start.sort.place, 30))
            }
        }
    }
}

/// The nonterminals of a `synth-fun`, each with its type; none where it has no grammar.
fn nonterminals_of(alloc: Global, form: &Sexpr) -> Result<Pairs, AllocError>
    ensures { IfOk result (λ pairs. pairs ≡ nonterminals_of form.now) }
{
    let mut pairs = Pairs::new(alloc);
    for item in items_at(4, form) {
        pairs.push(pair_of(alloc, item)?)?;
    }
    Ok(pairs)
}

/// The leftmost fault of a `synth-fun` whose nonterminals are these.
#[tactic(auto, using(name_core::proofs::Firsts::firsts))]
fn grammar_fault(signature: &Signature, nonterminals: &[Pair], form: &Sexpr) -> Option<Fault>
    requires { nonterminals.now ≡ nonterminals_of form.now }
    ensures { result ≡ first (wanted_faults signature.now form.now) }
{
    if let Some(fault) = start_fault(text_of(item_of(3, form)), nonterminals) {
        return Some(fault);
    }
    groups_fault(signature, nonterminals, items_at(5, form))
}

/// The leftmost node of a wrong sort (reason 30) of a `synth-fun`.
pub(crate) fn wanted_fault(
    alloc: Global,
    signature: &Signature,
    form: &Sexpr,
) -> Result<Option<Fault>, AllocError>
    ensures { IfOk result (λ fault. fault ≡ first (wanted_faults signature.now form.now)) }
{
    let nonterminals = nonterminals_of(alloc, form)?;
    Ok(grammar_fault(signature, nonterminals.as_slice(), form))
}
