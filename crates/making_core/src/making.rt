//! The atoms of rules, made of expressions whose names are looked up.
ghost use Rattle.std.specs.Prelude.{◌≡◌, ◌++◌, [], ◌∷◌, map, IfOk, OnOk};
ghost use Rattle.sig_core.specs.Signatures.{input_slots};
ghost use Rattle.making_core.specs.Rules.{atom_of, atoms_from, call_atom, equation_atom, expr_of, filled_slot, input_args, output_args, term_args, value_of_literal, who_in, who_of};
ghost use Rattle.sort_core.specs.declared.open.OpenNode.{out-OpenNode};

use expr_core::{Expr, Kids, Op};
use rule_core::{Atom, Atoms, Call, Who, is_known, learn};
use sig_core::{Bytes, Kind, Param, RelId, Signature, Value, params_of};
use sort_core::{OpenExp, OpenNode};
use std::alloc::{AllocError, Global};
use syntax_core::Literal;

pub(crate) fn value_of_literal(literal: Literal) -> Value
    ensures { result ≡ value_of_literal literal }
{
    match literal {
        Literal::Number(Some(number)) => Value::Int(number),
        Literal::Number(None) => Value::Int(0),
        Literal::Truth(truth) => Value::Bool(truth),
    }
}

/// The expression, without its places.
#[cycle(exprs)]
#[tactic(auto, using(crate::proofs::Exprs::exprs))]
fn expr_of(alloc: Global, e: &OpenExp) -> Result<Expr, AllocError>
    ensures { IfOk result (λ expr. expr ≡ expr_of e.now) }
{
    match &e.node {
        OpenNode::Slot(slot) => Ok(Expr::Slot(*slot)),
        OpenNode::Literal(_, literal) => Ok(Expr::Lit(value_of_literal(*literal))),
        OpenNode::Apply(op, kids) => Ok(Expr::Apply(*op, exprs_of(alloc, kids.as_slice())?)),
        OpenNode::Term(_) | OpenNode::Call(_, _) => Ok(Expr::Lit(Value::Bool(false))),
    }
}

/// The expressions, without their places.
#[cycle(exprs)]
fn exprs_of(alloc: Global, es: &[OpenExp]) -> Result<Kids, AllocError>
    ensures { IfOk result (λ exprs. exprs ≡ map expr_of es.now) }
{
    let mut exprs = Kids::new(alloc);
    for e in es {
        exprs.push(expr_of(alloc, e)?)?;
    }
    Ok(exprs)
}

/// The matched term or the child that the expression is.
fn who_in(e: &OpenExp) -> Who
    ensures { result ≡ who_in (out-OpenNode e.now.node) }
{
    match &e.node {
        OpenNode::Term(who) => *who,
        _ => Who::Own,
    }
}

/// The matched term or the child that the argument for the term parameter is.
fn who_of(params: &[Param], args: &[OpenExp]) -> Who
    ensures { result ≡ who_of (term_args (map (λ p. p.kind) params.now) args.now) }
{
    for (k, param) in params.iter().enumerate() {
        if k >= args.len() {
            return Who::Own;
        }
        let arg = &args[k];
        match param.kind {
            Kind::Term(_) => return who_in(arg),
            Kind::Input(_) => {}
            Kind::Output(_) => {}
        }
    }
    Who::Own
}

/// The arguments for inputs.
fn inputs_of(alloc: Global, params: &[Param], args: &[OpenExp]) -> Result<Kids, AllocError>
    ensures { IfOk result (λ inputs. inputs ≡ map expr_of (input_args (map (λ p. p.kind) params.now) args.now)) }
{
    let mut inputs = Kids::new(alloc);
    for (k, param) in params.iter().enumerate() {
        if k >= args.len() {
            return Ok(inputs);
        }
        let arg = &args[k];
        match param.kind {
            Kind::Term(_) => {}
            Kind::Input(_) => inputs.push(expr_of(alloc, arg)?)?,
            Kind::Output(_) => {}
        }
    }
    Ok(inputs)
}

/// The arguments for outputs.
fn outputs_of(alloc: Global, params: &[Param], args: &[OpenExp]) -> Result<Kids, AllocError>
    ensures { IfOk result (λ outputs. outputs ≡ map expr_of (output_args (map (λ p. p.kind) params.now) args.now)) }
{
    let mut outputs = Kids::new(alloc);
    for (k, param) in params.iter().enumerate() {
        if k >= args.len() {
            return Ok(outputs);
        }
        let arg = &args[k];
        match param.kind {
            Kind::Term(_) => {}
            Kind::Input(_) => {}
            Kind::Output(_) => outputs.push(expr_of(alloc, arg)?)?,
        }
    }
    Ok(outputs)
}

/// A call of a relation with these parameters.
fn call_atom(
    alloc: Global,
    relation: RelId,
    params: &[Param],
    args: &[OpenExp],
) -> Result<Atom, AllocError>
    ensures { IfOk result (λ atom. atom ≡ call_atom relation (map (λ p. p.kind) params.now) args.now) }
{
    Ok(Atom::Call(Call {
        relation,
        who: who_of(params, args),
        inputs: inputs_of(alloc, params, args)?,
        outputs: outputs_of(alloc, params, args)?,
    }))
}

/// The slot of the one side, where it is a bare unknown variable and the other side is known.
#[tactic(auto, using(rule_core::proofs::Equations::expr_equations))]
fn filled_slot(known: &[u8], one: &Expr, other: &Expr) -> Option<u8>
    ensures { result ≡ filled_slot known.now one.now other.now }
{
    match one {
        Expr::Slot(slot) if !known.contains(slot) && is_known(known, other) => Some(*slot),
        _ => None,
    }
}

/// An equation of two sides: a fill of the one that is a bare unknown variable where the other is known, else a test.
fn equation_atom(alloc: Global, known: &[u8], left: Expr, right: Expr) -> Result<Atom, AllocError>
    ensures { IfOk result (λ atom. atom ≡ equation_atom known.now left right) }
{
    if let Some(slot) = filled_slot(known, &left, &right) {
        return Ok(Atom::Fill(slot, right));
    }
    if let Some(slot) = filled_slot(known, &right, &left) {
        return Ok(Atom::Fill(slot, left));
    }
    let mut sides = Kids::new(alloc);
    sides.push(left)?;
    sides.push(right)?;
    Ok(Atom::Test(Expr::Apply(Op::Equal, sides)))
}

/// A call, a fill or a test, where these slots are known before it.
fn atom_of(
    alloc: Global,
    signature: &Signature,
    known: &[u8],
    e: &OpenExp,
) -> Result<Atom, AllocError>
    ensures { IfOk result (λ atom. atom ≡ atom_of signature.now known.now e.now) }
{
    match &e.node {
        OpenNode::Call(relation, args) => {
            let params = params_of(signature, *relation);
            Ok(call_atom(alloc, *relation, params, args.as_slice())?)
        }
        OpenNode::Apply(Op::Equal, kids) => match kids.as_slice() {
            [left, right] => {
                let left = expr_of(alloc, left)?;
                let right = expr_of(alloc, right)?;
                Ok(equation_atom(alloc, known, left, right)?)
            }
            _ => Ok(Atom::Test(expr_of(alloc, e)?)),
        },
        _ => Ok(Atom::Test(expr_of(alloc, e)?)),
    }
}

/// The atoms from the left, where these slots are known before the first. The first that uses an unknown variable is the
/// last.
pub(crate) fn atoms_from(
    alloc: Global,
    signature: &Signature,
    known: &mut Bytes,
    es: &[OpenExp],
) -> Result<Atoms, AllocError>
    ensures { IfOk result (λ atoms. atoms ≡ atoms_from signature.now known.old es.now) }
{
    let mut atoms = Atoms::new(alloc);
    for e in es {
        let atom = atom_of(alloc, signature, known.as_slice(), e)?;
        let goes_on = learn(known, &atom)?;
        atoms.push(atom)?;
        if !goes_on {
            return Ok(atoms);
        }
    }
    Ok(atoms)
}
