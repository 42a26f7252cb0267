//! The text of `synth-fun`.
ghost use Rattle.std.specs.Prelude.{◌≡◌, ◌<◌, ◌∷◌, ◌++◌, map, length, OnOk};
ghost use Rattle.std.specs.List.{flat_map};
ghost use Rattle.std.specs.Cmp.Lexicographic.{pointwise};
ghost use Rattle.sexpr_core.specs.Texts.{form_text, joined};
ghost use Rattle.grammar_core.specs.Grammars.{nonterminal_at};
ghost use Rattle.problem_core.specs.Soundness.{wanted_type};
ghost use Rattle.problem_core.specs.Texts.{forms_of_grammar, grammar_forms, next_text, nonterminal_form, production_form, productions_form, same_grammar, same_nonterminal, same_production, symbol_form, synth_form};

use crate::atom_texts::put_next_name;
use crate::expr_texts::{put_gap, put_next, put_pair};
use crate::names::{constructor_name, type_name};
use grammar_core::{Grammar, NtId, Production};
use sig_core::{Bytes, Signature, put_symbol};
use std::alloc::{AllocError, Global};

/// The wanted function, its type, and the grammar unless that is the one of all terms.
#[tactic(auto, using(crate::proofs::Forms::synth_text))]
pub(crate) fn put_synth(
    alloc: Global,
    signature: &Signature,
    grammar: &Grammar,
    wanted: &[u8],
    out: &mut Bytes,
) -> Result<(), AllocError>
    requires start { 0 < length grammar.now }
    requires declared { (wanted_type grammar.now).0 < length signature.now.types }
    ensures { OnOk result (out.new ≡ out.old ++ form_text (synth_form signature.now grammar.now wanted.now)) }
{
    out.push(b'(')?;
    put_symbol(b"synth-fun", out)?;
    put_next(wanted, out)?;
    out.append(b" ()")?;
    put_next(type_name(signature, grammar.owner(NtId(0))), out)?;
    put_grammar(alloc, signature, grammar, out)?;
    out.push(b')')?;
    Ok(())
}

/// A space and the text, for each part of the grammar; nothing for the grammar of all terms.
#[tactic(auto, using(crate::proofs::Forms::grammar_text))]
fn put_grammar(
    alloc: Global,
    signature: &Signature,
    grammar: &Grammar,
    out: &mut Bytes,
) -> Result<(), AllocError>
    requires start { 0 < length grammar.now }
    requires declared { (wanted_type grammar.now).0 < length signature.now.types }
    ensures { OnOk result (out.new ≡ out.old ++ flat_map next_text (forms_of_grammar signature.now grammar.now)) }
{
    let all = Grammar::all(alloc, signature, grammar.owner(NtId(0)))?;
    if is_same(grammar, &all) {
        return Ok(());
    }
    put_nonterminals(signature, grammar, out)
}

/// The nonterminals, and the productions of each.
#[tactic(auto, using(crate::proofs::Forms::grammar_text))]
fn put_nonterminals(
    signature: &Signature,
    grammar: &Grammar,
    out: &mut Bytes,
) -> Result<(), AllocError>
    ensures { OnOk result (out.new ≡ out.old ++ flat_map next_text (grammar_forms signature.now grammar.now)) }
{
    out.append(b" (")?;
    put_names(signature, grammar, out)?;
    out.append(b") (")?;
    put_groups(signature, grammar, out)?;
    out.push(b')')?;
    Ok(())
}

/// Whether two grammars have the same nonterminals, with the same productions in the same order.
fn is_same(grammar: &Grammar, other: &Grammar) -> bool
    ensures { result ≡ same_grammar grammar.now other.now }
{
    if grammar.len() != other.len() {
        return false;
    }
    for n in 0..grammar.len() {
        if !is_same_at(grammar, other, NtId(n)) {
            return false;
        }
    }
    true
}

fn is_same_at(grammar: &Grammar, other: &Grammar, nt: NtId) -> bool
    requires known { nt.0 < length grammar.now }
    requires other { nt.0 < length other.now }
    ensures { result ≡ same_nonterminal (nonterminal_at grammar.now nt) (nonterminal_at other.now nt) }
{
    grammar.name(nt).as_slice() == other.name(nt).as_slice()
        && grammar.owner(nt).0 == other.owner(nt).0
        && have_same(grammar.productions(nt), other.productions(nt))
}

fn have_same(productions: &[Production], others: &[Production]) -> bool
    ensures { result ≡ pointwise same_production productions.now others.now }
{
    productions == others
}

/// The names of the nonterminals, each with its type.
fn put_names(signature: &Signature, grammar: &Grammar, out: &mut Bytes) -> Result<(), AllocError>
    ensures { OnOk result (out.new ≡ out.old ++ joined (map form_text (map (nonterminal_form signature.now) grammar.now))) }
{
    for n in 0..grammar.len() {
        put_gap(usize::from(n), out)?;
        put_pair(
            grammar.name(NtId(n)).as_slice(),
            type_name(signature, grammar.owner(NtId(n))),
            out,
        )?;
    }
    Ok(())
}

fn put_groups(signature: &Signature, grammar: &Grammar, out: &mut Bytes) -> Result<(), AllocError>
    ensures { OnOk result (out.new ≡ out.old ++ joined (map form_text (map (productions_form signature.now grammar.now) grammar.now))) }
{
    for n in 0..grammar.len() {
        put_gap(usize::from(n), out)?;
        put_group(signature, grammar, NtId(n), out)?;
    }
    Ok(())
}

/// A nonterminal's name, its type and its productions.
#[tactic(auto, using(crate::proofs::Forms::productions_text))]
fn put_group(
    signature: &Signature,
    grammar: &Grammar,
    nt: NtId,
    out: &mut Bytes,
) -> Result<(), AllocError>
    requires { nt.0 < length grammar.now }
    ensures { OnOk result (out.new ≡ out.old ++ form_text (productions_form signature.now grammar.now (nonterminal_at grammar.now nt))) }
{
    out.push(b'(')?;
    put_symbol(grammar.name(nt).as_slice(), out)?;
    put_next(type_name(signature, grammar.owner(nt)), out)?;
    out.append(b" (")?;
    put_productions(signature, grammar, grammar.productions(nt), out)?;
    out.append(b"))")?;
    Ok(())
}

fn put_productions(
    signature: &Signature,
    grammar: &Grammar,
    productions: &[Production],
    out: &mut Bytes,
) -> Result<(), AllocError>
    ensures { OnOk result (out.new ≡ out.old ++ joined (map form_text (map (production_form signature.now grammar.now) productions.now))) }
{
    for (place, production) in productions.iter().enumerate() {
        put_gap(place, out)?;
        put_production(signature, grammar, production, out)?;
    }
    Ok(())
}

/// A constructor's name alone, or in a list with the nonterminals of its children.
#[tactic(auto, using(crate::proofs::Forms::production_alone, crate::proofs::Forms::production_applied))]
fn put_production(
    signature: &Signature,
    grammar: &Grammar,
    production: &Production,
    out: &mut Bytes,
) -> Result<(), AllocError>
    ensures { OnOk result (out.new ≡ out.old ++ form_text (production_form signature.now grammar.now production.now)) }
{
    let name = constructor_name(signature, production.con);
    let args = production.args.as_slice();
    if args.is_empty() {
        return put_symbol(name, out);
    }
    out.push(b'(')?;
    put_symbol(name, out)?;
    put_children(grammar, args, out)?;
    out.push(b')')?;
    Ok(())
}

/// A space and the name, for each nonterminal.
fn put_children(grammar: &Grammar, args: &[NtId], out: &mut Bytes) -> Result<(), AllocError>
    ensures { OnOk result (out.new ≡ out.old ++ flat_map (λ n. next_text (symbol_form (nonterminal_at grammar.now n).name)) args.now) }
{
    for nt in args {
        put_child(grammar, *nt, out)?;
    }
    Ok(())
}

/// A space and the nonterminal's name.
fn put_child(grammar: &Grammar, nt: NtId, out: &mut Bytes) -> Result<(), AllocError>
    ensures { OnOk result (out.new ≡ out.old ++ next_text (symbol_form (nonterminal_at grammar.now nt).name)) }
{
    put_next_name(name_of(grammar, nt), out)?;
    Ok(())
}

/// The name of a nonterminal; empty where the grammar has none of this number.
fn name_of(grammar: &Grammar, nt: NtId) -> &[u8]
    ensures { result.now ≡ (nonterminal_at grammar.now nt).name }
{
    if nt.0 < grammar.len() {
        grammar.name(nt).as_slice()
    } else {
        &[]
    }
}
