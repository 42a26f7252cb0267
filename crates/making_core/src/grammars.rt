//! The grammar of a `synth-fun`.
ghost use Rattle.std.specs.Prelude.{◌≡◌, ◌≤◌, ◌+◌, None, map, length, IfOk, OnOk};
ghost use Rattle.sexpr_core.specs.Access.{item_of};
ghost use Rattle.grammar_core.specs.declared.grammar.GrammarError.TheVariants.{Memory};
ghost use Rattle.grammar_core.specs.Refusals.{nonterminal_refusal, with_nonterminal, with_production};
ghost use Rattle.sort_core.specs.Branches.{constructor_named};
ghost use Rattle.making_core.specs.Fitting.{GroupsFit, GroupsOfFit, NonterminalsFit, ProductionFits, ProductionsFit, WantedFits, with_groups, with_nonterminals, with_productions};
ghost use Rattle.making_core.specs.Making.{grammar_of, nonterminal_of, production_of};
ghost use Rattle.name_core.specs.Names.{groups_of, names_in};
ghost use Rattle.sort_core.specs.Opens.{number_named};
ghost use Rattle.sort_core.specs.Relations.{type_named};
ghost use Rattle.syntax_core.specs.Syntax.{atom_of, items_at, nonterminals_of, pair_of};

use grammar_core::{Grammar, GrammarError, NtId, NtIds};
use name_core::place_of;
use rule_core::Names;
use sexpr_core::{Sexpr, item_of, others_of, parts_of};
use sig_core::{Bytes, ConId, Signature, TypeId};
use sort_core::type_named;
use std::alloc::{AllocError, Global};
use syntax_core::{atom_of, items_at, name_of, pair_of};

/// Want of memory, which is the only error left where nothing is refused.
fn want_of_memory(_error: GrammarError) -> AllocError
    requires { _error ≡ Memory }
{
    AllocError
}

/// The constructor of this name.
fn constructor_named(signature: &Signature, name: &[u8]) -> ConId
    ensures { result ≡ constructor_named signature.now name.now }
{
    match signature.constructor_named(name) {
        Some(found) => found,
        None => ConId(signature.constructors()),
    }
}

/// The nonterminal of this name among these.
fn nonterminal_named(nonterminals: &[Bytes], name: &[u8]) -> NtId
    requires { length nonterminals.now ≤ 256 }
    ensures { result ≡ record { 0 = number_named nonterminals.now name.now } }
{
    match place_of(nonterminals, name) {
        Some(place) => NtId(place as u16),
        None => NtId(nonterminals.len() as u16),
    }
}

/// Adds the nonterminal of a pair.
fn add_nonterminal(
    alloc: Global,
    signature: &Signature,
    grammar: &mut Grammar,
    form: &Sexpr,
) -> Result<(), AllocError>
    requires { nonterminal_refusal grammar.old (pair_of form.now).name.bytes ≡ None }
    ensures { OnOk result (grammar.new ≡ with_nonterminal grammar.old (pair_of form.now).name.bytes (type_named signature.now (pair_of form.now).sort.bytes)) }
{
    let pair = pair_of(alloc, form)?;
    let owner = type_named(signature, pair.sort.bytes.as_slice());
    match grammar.add_nonterminal(pair.name.bytes.as_slice(), owner) {
        Ok(_) => Ok(()),
        Err(error) => Err(want_of_memory(error)),
    }
}

/// Adds the nonterminals of pairs.
fn add_nonterminals(
    alloc: Global,
    signature: &Signature,
    grammar: &mut Grammar,
    forms: &[Sexpr],
) -> Result<(), AllocError>
    requires { NonterminalsFit signature.now grammar.old (map pair_of forms.now) }
    ensures { OnOk result (grammar.new ≡ with_nonterminals signature.now grammar.old (map pair_of forms.now)) }
{
    for form in forms {
        add_nonterminal(alloc, signature, grammar, form)?;
    }
    Ok(())
}

/// The nonterminals of these names.
fn children_of(alloc: Global, nonterminals: &[Bytes], forms: &[Sexpr]) -> Result<NtIds, AllocError>
    requires { length nonterminals.now ≤ 256 }
    ensures { IfOk result (λ made. made ≡ map (λ arg. record { 0 = number_named nonterminals.now (atom_of arg).bytes }) forms.now) }
{
    let mut made = NtIds::new(alloc);
    for form in forms {
        let name = atom_of(alloc, form)?;
        made.push(nonterminal_named(nonterminals, name.bytes.as_slice()))?;
    }
    Ok(made)
}

/// Adds a production of this nonterminal, where the nonterminals have these names.
fn add_production(
    alloc: Global,
    signature: &Signature,
    nonterminals: &[Bytes],
    grammar: &mut Grammar,
    nt: NtId,
    form: &Sexpr,
) -> Result<(), AllocError>
    requires few { length nonterminals.now ≤ 256 }
    requires fits { ProductionFits signature.now grammar.old nt (production_of signature.now nonterminals.now form.now) }
    ensures { OnOk result (grammar.new ≡ with_production grammar.old nt (production_of signature.now nonterminals.now form.now)) }
{
    let name = name_of(alloc, form)?;
    let con = constructor_named(signature, name.bytes.as_slice());
    let args = children_of(alloc, nonterminals, others_of(form))?;
    match grammar.add_production(signature, nt, con, args.as_slice()) {
        Ok(()) => Ok(()),
        Err(error) => Err(want_of_memory(error)),
    }
}

/// Adds productions of this nonterminal.
fn add_productions(
    alloc: Global,
    signature: &Signature,
    nonterminals: &[Bytes],
    grammar: &mut Grammar,
    nt: NtId,
    forms: &[Sexpr],
) -> Result<(), AllocError>
    requires few { length nonterminals.now ≤ 256 }
    requires fit { ProductionsFit signature.now grammar.old nt (map (production_of signature.now nonterminals.now) forms.now) }
    ensures { OnOk result (grammar.new ≡ with_productions grammar.old nt (map (production_of signature.now nonterminals.now) forms.now)) }
{
    for form in forms {
        add_production(alloc, signature, nonterminals, grammar, nt, form)?;
    }
    Ok(())
}

/// Adds the productions of groups, each to the nonterminal of its number.
fn add_groups(
    alloc: Global,
    signature: &Signature,
    nonterminals: &[Bytes],
    grammar: &mut Grammar,
    groups: &[Sexpr],
) -> Result<(), AllocError>
    requires few { length nonterminals.now ≤ 256 }
    requires groups { length groups.now ≤ 256 }
    requires fit { GroupsFit signature.now grammar.old 0 (map (λ group. map (production_of signature.now nonterminals.now) (items_at 2 group)) groups.now) }
    ensures { OnOk result (grammar.new ≡ with_groups grammar.old 0 (map (λ group. map (production_of signature.now nonterminals.now) (items_at 2 group)) groups.now)) }
{
    let mut number = 0;
    for group in groups {
        let forms = items_at(2, group);
        add_productions(alloc, signature, nonterminals, grammar, NtId(number), forms)?;
        number += 1;
    }
    Ok(())
}

/// The names of pairs.
fn names_of(alloc: Global, forms: &[Sexpr]) -> Result<Names, AllocError>
    ensures { IfOk result (λ names. names ≡ names_in (map pair_of forms.now)) }
{
    let mut names = Names::new(alloc);
    for form in forms {
        let pair = pair_of(alloc, form)?;
        names.push(pair.name.bytes.copy(alloc)?)?;
    }
    Ok(names)
}

/// The grammar of nonterminals and groups.
fn grammar_of_groups(
    alloc: Global,
    signature: &Signature,
    form: &Sexpr,
) -> Result<Grammar, AllocError>
    requires { GroupsOfFit signature.now form.now }
    ensures { IfOk result (λ grammar. grammar ≡ map (nonterminal_of signature.now (names_in (nonterminals_of form.now))) (groups_of form.now)) }
{
    let names = names_of(alloc, items_at(4, form))?;
    let mut grammar = Grammar::new(alloc);
    add_nonterminals(alloc, signature, &mut grammar, items_at(4, form))?;
    add_groups(
        alloc,
        signature,
        names.as_slice(),
        &mut grammar,
        items_at(5, form),
    )?;
    Ok(grammar)
}

/// The grammar of a `synth-fun`: the whole one of its type where it has none.
pub fn grammar_of(
    alloc: Global,
    signature: &Signature,
    form: &Sexpr,
    owner: TypeId,
) -> Result<Grammar, AllocError>
    requires owner { owner ≡ type_named signature.now (atom_of (item_of 3 form.now)).bytes }
    requires fits { WantedFits signature.now form.now }
    ensures { IfOk result (λ grammar. grammar ≡ grammar_of signature.now form.now) }
{
    if parts_of(form).len() > 4 {
        Ok(grammar_of_groups(alloc, signature, form)?)
    } else {
        Ok(Grammar::all(alloc, signature, owner)?)
    }
}
