//! The texts of expressions and of what is shared by all commands.
ghost use Rattle.std.specs.Prelude.{◌≡◌, [], ◌∷◌, ◌++◌, OnOk};
ghost use Rattle.std.specs.List.{flat_map};
ghost use Rattle.sig_core.specs.Names.{symbol_text};
ghost use Rattle.sexpr_core.specs.Texts.{form_text, gap_before};
ghost use Rattle.expr_core.specs.Names.{operator_name};
ghost use Rattle.problem_core.specs.Texts.{expr_form, literal_form, next_text, pair_form};

use crate::names::slot_name;
use expr_core::{Expr, Op, name_of};
use rule_core::Rule;
use sig_core::{Bytes, Signature, Value, put_symbol, put_value};
use std::alloc::AllocError;

/// Appends what stands before the item in this place of a list: a space, but before the first.
pub(crate) fn put_gap(place: usize, out: &mut Bytes) -> Result<(), AllocError>
    ensures { OnOk result (out.new ≡ out.old ++ gap_before place) }
{
    if place > 0 {
        out.push(b' ')?;
    }
    Ok(())
}

/// A space and the symbol.
pub(crate) fn put_next(name: &[u8], out: &mut Bytes) -> Result<(), AllocError>
    ensures { OnOk result (out.new ≡ out.old ++ 32 ∷ symbol_text name.now) }
{
    out.push(b' ')?;
    put_symbol(name, out)?;
    Ok(())
}

/// A name and its sort or type.
#[tactic(auto, using(crate::proofs::Forms::pair_text))]
pub(crate) fn put_pair(name: &[u8], sort: &[u8], out: &mut Bytes) -> Result<(), AllocError>
    ensures { OnOk result (out.new ≡ out.old ++ form_text (pair_form name.now sort.now)) }
{
    out.push(b'(')?;
    put_symbol(name, out)?;
    put_next(sort, out)?;
    out.push(b')')?;
    Ok(())
}

/// A literal.
#[tactic(auto, using(crate::proofs::Forms::literal_form_text))]
pub(crate) fn put_literal(value: &Value, out: &mut Bytes) -> Result<(), AllocError>
    ensures { OnOk result (out.new ≡ out.old ++ form_text (literal_form value.now)) }
{
    put_value(value, out)?;
    Ok(())
}

/// An expression over the slots of the rule.
#[cycle(put_expr)]
#[tactic(auto, using(crate::proofs::Forms::slot_text, crate::proofs::Forms::operation_text))]
pub(crate) fn put_expr(
    signature: &Signature,
    rule: &Rule,
    e: &Expr,
    out: &mut Bytes,
) -> Result<(), AllocError>
    ensures { OnOk result (out.new ≡ out.old ++ form_text (expr_form signature.now rule.now e.now)) }
{
    match e {
        Expr::Slot(slot) => put_symbol(slot_name(signature, rule, *slot), out)?,
        Expr::Lit(value) => put_literal(value, out)?,
        Expr::Apply(op, kids) => put_operation(signature, rule, *op, kids.as_slice(), out)?,
    }
    Ok(())
}

/// An operator on these operands.
#[cycle(put_expr)]
fn put_operation(
    signature: &Signature,
    rule: &Rule,
    op: Op,
    kids: &[Expr],
    out: &mut Bytes,
) -> Result<(), AllocError>
    ensures { OnOk result (out.new ≡ out.old ++ 40 ∷ (symbol_text (operator_name op) ++ (flat_map (λ e. next_text (expr_form signature.now rule.now e)) kids.now ++ 41 ∷ []))) }
{
    out.push(b'(')?;
    put_symbol(name_of(op), out)?;
    put_operands(signature, rule, kids, out)?;
    out.push(b')')?;
    Ok(())
}

/// A space and its text, for each operand.
#[cycle(put_expr)]
fn put_operands(
    signature: &Signature,
    rule: &Rule,
    kids: &[Expr],
    out: &mut Bytes,
) -> Result<(), AllocError>
    ensures { OnOk result (out.new ≡ out.old ++ flat_map (λ e. next_text (expr_form signature.now rule.now e)) kids.now) }
{
    for kid in kids {
        out.push(b' ')?;
        put_expr(signature, rule, kid, out)?;
    }
    Ok(())
}
