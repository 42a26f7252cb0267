//! The texts of atoms.
ghost use Rattle.std.specs.Prelude.{◌≡◌, ◌∷◌, ◌++◌, map, OnOk};
ghost use Rattle.std.specs.List.{flat_map};
ghost use Rattle.sig_core.specs.Names.{symbol_text};
ghost use Rattle.sig_core.specs.Signatures.{woven};
ghost use Rattle.sexpr_core.specs.Texts.{form_text};
ghost use Rattle.problem_core.specs.Texts.{atom_form, atoms_form, call_form, expr_form, fill_form, next_text, params_of, relation_name, symbol_form, who_name, with_term};

use crate::expr_texts::{put_expr, put_next};
use crate::names::{params_of, relation_name, slot_name, who_name};
use expr_core::{Expr, Op, name_of};
use rule_core::{Atom, Call, Rule};
use sig_core::{Bytes, Kind, Param, Signature, put_symbol};
use std::alloc::AllocError;

/// The `and` of a rule's atoms.
#[tactic(auto, using(crate::proofs::Forms::atoms_text))]
pub(crate) fn put_atoms(
    signature: &Signature,
    rule: &Rule,
    out: &mut Bytes,
) -> Result<(), AllocError>
    ensures { OnOk result (out.new ≡ out.old ++ form_text (atoms_form signature.now rule.now)) }
{
    let atoms = rule.atoms.as_slice();
    out.push(b'(')?;
    put_symbol(b"and", out)?;
    put_each_atom(signature, rule, atoms, out)?;
    out.push(b')')?;
    Ok(())
}

/// A space and its text, for each atom.
fn put_each_atom(
    signature: &Signature,
    rule: &Rule,
    atoms: &[Atom],
    out: &mut Bytes,
) -> Result<(), AllocError>
    ensures { OnOk result (out.new ≡ out.old ++ flat_map (λ atom. next_text (atom_form signature.now rule.now atom)) atoms.now) }
{
    for atom in atoms {
        out.push(b' ')?;
        put_atom(signature, rule, atom, out)?;
    }
    Ok(())
}

fn put_atom(
    signature: &Signature,
    rule: &Rule,
    atom: &Atom,
    out: &mut Bytes,
) -> Result<(), AllocError>
    ensures { OnOk result (out.new ≡ out.old ++ form_text (atom_form signature.now rule.now atom.now)) }
{
    match atom {
        Atom::Call(call) => put_call(signature, rule, call, out),
        Atom::Fill(slot, e) => put_fill(signature, rule, *slot, e, out),
        Atom::Test(e) => put_expr(signature, rule, e, out),
    }
}

/// An equation of the slot and the expression.
#[tactic(auto, using(crate::proofs::Forms::fill_text))]
fn put_fill(
    signature: &Signature,
    rule: &Rule,
    slot: u8,
    e: &Expr,
    out: &mut Bytes,
) -> Result<(), AllocError>
    ensures { OnOk result (out.new ≡ out.old ++ form_text (fill_form signature.now rule.now slot e.now)) }
{
    out.push(b'(')?;
    put_symbol(name_of(Op::Equal), out)?;
    put_next(slot_name(signature, rule, slot), out)?;
    out.push(b' ')?;
    put_expr(signature, rule, e, out)?;
    out.push(b')')?;
    Ok(())
}

/// A relation and its arguments, with the term among them.
#[tactic(auto, using(crate::proofs::Forms::call_text))]
fn put_call(
    signature: &Signature,
    rule: &Rule,
    call: &Call,
    out: &mut Bytes,
) -> Result<(), AllocError>
    ensures { OnOk result (out.new ≡ out.old ++ form_text (call_form signature.now rule.now call.now)) }
{
    let term = who_name(signature, rule, call.who);
    out.push(b'(')?;
    put_symbol(relation_name(signature, call.relation), out)?;
    put_args(
        signature,
        rule,
        params_of(signature, call.relation),
        term,
        call.inputs.as_slice(),
        call.outputs.as_slice(),
        out,
    )?;
    out.push(b')')?;
    Ok(())
}

/// A space and the argument, for each parameter.
fn put_args(
    signature: &Signature,
    rule: &Rule,
    params: &[Param],
    term: &[u8],
    inputs: &[Expr],
    outputs: &[Expr],
    out: &mut Bytes,
) -> Result<(), AllocError>
    ensures { OnOk result (out.new ≡ out.old ++ flat_map next_text (with_term (map (λ p. p.kind) params.now) (symbol_form term.now)
        (map (expr_form signature.now rule.now) (woven (map (λ p. p.kind) params.now) inputs.now outputs.now)))) }
{
    let [param, rest @ ..] = params else {
        return Ok(());
    };
    match param.kind {
        Kind::Term(_) => {
            put_next_name(term, out)?;
            put_args(signature, rule, rest, term, inputs, outputs, out)
        }
        Kind::Input(_) => {
            let [first, others @ ..] = inputs else {
                return Ok(());
            };
            put_next_expr(signature, rule, first, out)?;
            put_args(signature, rule, rest, term, others, outputs, out)
        }
        Kind::Output(_) => {
            let [first, others @ ..] = outputs else {
                return Ok(());
            };
            put_next_expr(signature, rule, first, out)?;
            put_args(signature, rule, rest, term, inputs, others, out)
        }
    }
}

/// A space and the expression.
fn put_next_expr(
    signature: &Signature,
    rule: &Rule,
    e: &Expr,
    out: &mut Bytes,
) -> Result<(), AllocError>
    ensures { OnOk result (out.new ≡ out.old ++ next_text (expr_form signature.now rule.now e.now)) }
{
    out.push(b' ')?;
    put_expr(signature, rule, e, out)?;
    Ok(())
}

/// A space and the name.
#[tactic(auto, using(crate::proofs::Forms::symbol))]
pub(crate) fn put_next_name(name: &[u8], out: &mut Bytes) -> Result<(), AllocError>
    ensures { OnOk result (out.new ≡ out.old ++ next_text (symbol_form name.now)) }
{
    put_next(name, out)?;
    Ok(())
}
