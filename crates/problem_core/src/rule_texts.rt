//! The text of `define-funs-rec`.
ghost use Rattle.std.specs.Prelude.{◌≡◌, ◌∷◌, ◌++◌, [], map, OnOk};
ghost use Rattle.std.specs.List.{flat_map};
ghost use Rattle.sig_core.specs.Lists.{numbers_from};
ghost use Rattle.sig_core.specs.Names.{symbol_text};
ghost use Rattle.sexpr_core.specs.Texts.{form_text, joined};
ghost use Rattle.rule_core.specs.Rulebooks.{rules_of};
ghost use Rattle.problem_core.specs.Modes.{is_of};
ghost use Rattle.problem_core.specs.Texts.{atoms_form, case_form, decl_form, def_at, def_form, exists_form, functions_form, match_form, names_form, names_where, next_text, param_form, params_of, pattern_form, symbol_form, var_form};

use crate::atom_texts::put_atoms;
use crate::expr_texts::{put_gap, put_next, put_pair};
use crate::names::{Mode, constructor_name, is_of, kind_name, params_of, sort_name, term_name};
use rule_core::{Rule, Rulebook, Var};
use sig_core::{Bytes, Param, RelId, Relation, Signature, put_symbol};
use std::alloc::AllocError;

/// All relations, and their rules.
#[tactic(auto, using(crate::proofs::Forms::functions_text))]
pub(crate) fn put_functions(
    signature: &Signature,
    rulebook: &Rulebook,
    out: &mut Bytes,
) -> Result<(), AllocError>
    ensures { OnOk result (out.new ≡ out.old ++ form_text (functions_form signature.now rulebook.now)) }
{
    out.push(b'(')?;
    put_symbol(b"define-funs-rec", out)?;
    out.append(b" (")?;
    put_decls(signature, out)?;
    out.append(b") (")?;
    put_defs(signature, rulebook, out)?;
    out.append(b"))")?;
    Ok(())
}

fn put_decls(signature: &Signature, out: &mut Bytes) -> Result<(), AllocError>
    ensures { OnOk result (out.new ≡ out.old ++ joined (map form_text (map (decl_form signature.now) signature.now.relations))) }
{
    for r in 0..signature.relations() {
        put_gap(usize::from(r), out)?;
        put_decl(signature, signature.relation(RelId(r)), out)?;
    }
    Ok(())
}

/// A relation's name, its parameters and `Bool`.
#[tactic(auto, using(crate::proofs::Forms::decl_text))]
fn put_decl(signature: &Signature, relation: &Relation, out: &mut Bytes) -> Result<(), AllocError>
    ensures { OnOk result (out.new ≡ out.old ++ form_text (decl_form signature.now relation.now)) }
{
    out.push(b'(')?;
    put_symbol(relation.name.as_slice(), out)?;
    out.append(b" (")?;
    put_params(signature, relation.params.as_slice(), out)?;
    out.push(b')')?;
    put_next(b"Bool", out)?;
    out.push(b')')?;
    Ok(())
}

fn put_params(signature: &Signature, params: &[Param], out: &mut Bytes) -> Result<(), AllocError>
    ensures { OnOk result (out.new ≡ out.old ++ joined (map form_text (map (param_form signature.now) params.now))) }
{
    for (place, param) in params.iter().enumerate() {
        put_gap(place, out)?;
        put_pair(param.name.as_slice(), kind_name(signature, param.kind), out)?;
    }
    Ok(())
}

fn put_defs(signature: &Signature, rulebook: &Rulebook, out: &mut Bytes) -> Result<(), AllocError>
    ensures { OnOk result (out.new ≡ out.old ++ joined (map form_text (map (def_at signature.now rulebook.now) (numbers_from 0 signature.now.relations)))) }
{
    for r in 0..signature.relations() {
        put_gap(usize::from(r), out)?;
        put_def(signature, rulebook, RelId(r), out)?;
    }
    Ok(())
}

/// The rules of a relation, and which of its parameters are inputs and outputs.
#[tactic(auto, using(crate::proofs::Forms::def_text))]
fn put_def(
    signature: &Signature,
    rulebook: &Rulebook,
    relation: RelId,
    out: &mut Bytes,
) -> Result<(), AllocError>
    ensures { OnOk result (out.new ≡ out.old ++ form_text (def_form signature.now (params_of signature.now relation) (rules_of rulebook.now relation))) }
{
    let params = params_of(signature, relation);
    out.push(b'(')?;
    put_symbol(b"!", out)?;
    out.push(b' ')?;
    put_match(signature, rulebook, relation, out)?;
    out.append(b" :input ")?;
    put_names(Mode::Input, params, out)?;
    out.append(b" :output ")?;
    put_names(Mode::Output, params, out)?;
    out.push(b')')?;
    Ok(())
}

/// A `match` on the parameter that is a term, with a case for each rule.
#[tactic(auto, using(crate::proofs::Forms::match_text))]
fn put_match(
    signature: &Signature,
    rulebook: &Rulebook,
    relation: RelId,
    out: &mut Bytes,
) -> Result<(), AllocError>
    ensures { OnOk result (out.new ≡ out.old ++ form_text (match_form signature.now (params_of signature.now relation) (rules_of rulebook.now relation))) }
{
    out.push(b'(')?;
    put_symbol(b"match", out)?;
    put_next(term_name(params_of(signature, relation)), out)?;
    out.append(b" (")?;
    put_cases(signature, rulebook, relation, out)?;
    out.append(b"))")?;
    Ok(())
}

fn put_cases(
    signature: &Signature,
    rulebook: &Rulebook,
    relation: RelId,
    out: &mut Bytes,
) -> Result<(), AllocError>
    ensures { OnOk result (out.new ≡ out.old ++ joined (map form_text (map (case_form signature.now) (rules_of rulebook.now relation)))) }
{
    for k in 0..rulebook.len() {
        let Some(rule) = rulebook.of_relation(relation, k) else {
            break;
        };
        put_gap(k as usize, out)?;
        put_case(signature, rule, out)?;
    }
    Ok(())
}

/// A list of the names of the parameters of this mode.
#[tactic(auto, using(crate::proofs::Forms::names_text))]
fn put_names(mode: Mode, params: &[Param], out: &mut Bytes) -> Result<(), AllocError>
    ensures { OnOk result (out.new ≡ out.old ++ form_text (names_form (names_where (is_of mode) params.now))) }
{
    out.push(b'(')?;
    put_names_of_mode(mode, params, out)?;
    out.push(b')')?;
    Ok(())
}

fn put_names_of_mode(mode: Mode, params: &[Param], out: &mut Bytes) -> Result<(), AllocError>
    ensures { OnOk result (out.new ≡ out.old ++ joined (map form_text (map symbol_form (names_where (is_of mode) params.now)))) }
{
    let mut place = 0;
    for param in params {
        if is_of(mode, param.kind) {
            put_gap(place, out)?;
            put_symbol(param.name.as_slice(), out)?;
            place += 1;
        }
    }
    Ok(())
}

/// A rule: its pattern and its body.
#[tactic(auto, using(crate::proofs::Forms::case_text))]
fn put_case(signature: &Signature, rule: &Rule, out: &mut Bytes) -> Result<(), AllocError>
    ensures { OnOk result (out.new ≡ out.old ++ form_text (case_form signature.now rule.now)) }
{
    out.push(b'(')?;
    put_pattern(signature, rule, out)?;
    out.push(b' ')?;
    put_body(signature, rule, out)?;
    out.push(b')')?;
    Ok(())
}

/// A constructor's name alone, or in a list with the names of its children.
#[tactic(auto, using(crate::proofs::Forms::pattern_alone, crate::proofs::Forms::pattern_applied))]
fn put_pattern(signature: &Signature, rule: &Rule, out: &mut Bytes) -> Result<(), AllocError>
    ensures { OnOk result (out.new ≡ out.old ++ form_text (pattern_form signature.now rule.now)) }
{
    let name = constructor_name(signature, rule.con);
    let kids = rule.kid_names.as_slice();
    if kids.is_empty() {
        return put_symbol(name, out);
    }
    out.push(b'(')?;
    put_symbol(name, out)?;
    put_kid_names(kids, out)?;
    out.push(b')')?;
    Ok(())
}

/// A space and the name, for each child.
#[tactic(auto, using(crate::proofs::Forms::symbol))]
fn put_kid_names(names: &[Bytes], out: &mut Bytes) -> Result<(), AllocError>
    ensures { OnOk result (out.new ≡ out.old ++ flat_map (λ name. next_text (symbol_form name)) names.now) }
{
    for name in names {
        put_next(name.as_slice(), out)?;
    }
    Ok(())
}

/// The atoms, under the existentials where there are any.
#[tactic(auto, using(crate::proofs::Forms::no_exists, crate::proofs::Forms::exists_text))]
fn put_body(signature: &Signature, rule: &Rule, out: &mut Bytes) -> Result<(), AllocError>
    ensures { OnOk result (out.new ≡ out.old ++ form_text (exists_form rule.now.more (atoms_form signature.now rule.now))) }
{
    let vars = rule.more.as_slice();
    if vars.is_empty() {
        return put_atoms(signature, rule, out);
    }
    out.push(b'(')?;
    put_symbol(b"exists", out)?;
    out.append(b" (")?;
    put_vars(vars, out)?;
    out.append(b") ")?;
    put_atoms(signature, rule, out)?;
    out.push(b')')?;
    Ok(())
}

fn put_vars(vars: &[Var], out: &mut Bytes) -> Result<(), AllocError>
    ensures { OnOk result (out.new ≡ out.old ++ joined (map form_text (map var_form vars.now))) }
{
    for (place, var) in vars.iter().enumerate() {
        put_gap(place, out)?;
        put_pair(var.name.as_slice(), sort_name(var.sort), out)?;
    }
    Ok(())
}
