//! A term that asks another relation of itself.
ghost use Rattle.std.specs.Prelude.{All, IfOk};
ghost use Rattle.eval_core.specs.Evaluations.{IsAccepted};
ghost use Rattle.example_atoms.specs.Rules.{IsShort};

use crate::expecting::expect;
use example_atoms::{call_itself, fill, giving, put, rule, variables};
use example_outcomes::{Given, Question, add_unary, found_by, two_rules};
use example_terms::{E, LEAF, Language, signature_of};
use expr_core::Expr;
use rule_core::{AddError, Atoms, Rule, Rulebook};
use sig_core::{ConId, RelId, SigError, Signature, Sort, Value};
use std::alloc::{AllocError, Global};

const SEM: RelId = RelId(0);

const AUX: RelId = RelId(1);

const LANGUAGE: Language = Language {
    types: &[b"E"],
    constructors: &[(b"$slow", E, &[]), (b"$fast", E, &[]), (b"$wrap", E, &[E])],
};

/// `(exists ((q Int)) (and (Aux t x q) (= r q)))`
fn slow(alloc: Global) -> Result<Rule, AllocError>
    ensures { IfOk result IsShort }
{
    let mut atoms = Atoms::new(alloc);
    put(&mut atoms, call_itself(alloc, AUX, Expr::Slot(0), 2)?)?;
    put(&mut atoms, fill(1, Expr::Slot(2)))?;
    Ok(rule(alloc, SEM, ConId(0), variables(alloc, &[Sort::Int])?, atoms))
}

fn book(alloc: Global, signature: &Signature) -> Result<Rulebook, AddError>
    ensures { IfOk result (All (IsAccepted signature.now)) }
{
    let aux = giving(alloc, AUX, ConId(0), 1, Expr::Slot(0));
    two_rules(alloc, signature, slow(alloc), aux)
}

fn signature(alloc: Global) -> Result<Signature, SigError> {
    let mut signature = signature_of(alloc, &LANGUAGE)?;
    add_unary(alloc, &mut signature, b"Sem", E)?;
    add_unary(alloc, &mut signature, b"Aux", E)?;
    Ok(signature)
}

fn at_by(
    alloc: Global,
    signature: &Signature,
    inputs: &[Value],
    height: u32,
) -> Result<Given, AddError> {
    let question = Question {
        relation: SEM,
        inputs,
        height,
    };
    let book = book(alloc, signature);
    found_by(alloc, signature, book, &LEAF, &question)
}

/// What `$slow` gives at x.
fn at(alloc: Global, x: i128, height: u32) -> Result<Given, AddError> {
    match signature(alloc) {
        Ok(signature) => at_by(alloc, &signature, &[Value::Int(x)], height),
        Err(_) => Err(AddError::Memory),
    }
}

#[test]
fn a_call_is_one_lower(rt: HostRuntime) {
    expect(&rt, at(rt.alloc(), 0, 1), &[]);
    expect(&rt, at(rt.alloc(), 0, 2), &[(0, 2)]);
}
