//! The greater of two numbers.
ghost use Rattle.std.specs.Prelude.{◌≡◌, ◌≤◌, ◌+◌, length, All, IfOk};
ghost use Rattle.eval_core.specs.Evaluations.{IsAccepted};
ghost use Rattle.rule_core.specs.Rulebooks.{HasSmallParts};
ghost use Rattle.example_atoms.specs.Rules.{IsShort};

use crate::expecting::expect;
use example_atoms::{call_child, choice, fill, giving, over_two, put, rule, variables};
use example_outcomes::{Given, Question, add_binary, add_made, found_by, two_rules};
use example_terms::{B, E, Language, Node, signature_of};
use expr_core::{Expr, Op};
use rule_core::{AddError, Atoms, Rule, Rulebook};
use sig_core::{ConId, RelId, SigError, Signature, Sort, Value};
use std::alloc::{AllocError, Global};

const E_SEM: RelId = RelId(0);

const B_SEM: RelId = RelId(1);

const LANGUAGE: Language = Language {
    types: &[b"E", b"B"],
    constructors: &[
        (b"$x", E, &[]),
        (b"$y", E, &[]),
        (b"$ite", E, &[B, E, E]),
        (b"$<", B, &[E, E]),
    ],
};

const ITE: ConId = ConId(2);

const LESS: ConId = ConId(3);

/// The nodes of `($ite ($< $x $y) $y $x)`.
const GREATER: [Node; 4] = [(0, &[]), (1, &[]), (3, &[0, 1]), (2, &[2, 1, 0])];

/// `(exists ((r1 Int) (r2 Int)) (and (E.Sem et1 x y r1) (E.Sem et2 x y r2) (= r (< r1 r2))))`
fn less(alloc: Global) -> Result<Rule, AllocError>
    ensures { IfOk result IsShort }
{
    let mut atoms = Atoms::new(alloc);
    put(&mut atoms, call_child(alloc, E_SEM, 0, 3)?)?;
    put(&mut atoms, call_child(alloc, E_SEM, 1, 4)?)?;
    put(&mut atoms, fill(2, over_two(alloc, Op::Less, 3, 4)?))?;
    let more = variables(alloc, &[Sort::Int, Sort::Int])?;
    Ok(rule(alloc, B_SEM, LESS, more, atoms))
}

/// The calls `(B.Sem bt1 x y b)`, `(E.Sem et1 x y r1)` and `(E.Sem et2 x y r2)`.
fn put_calls(alloc: Global, atoms: &mut Atoms) -> Result<(), AllocError>
    requires few { length atoms.old ≤ 5 }
    requires small { All HasSmallParts atoms.old }
    ensures count { length atoms.new ≤ length atoms.old + 3 }
    ensures all { All HasSmallParts atoms.new }
{
    put(atoms, call_child(alloc, B_SEM, 0, 3)?)?;
    put(atoms, call_child(alloc, E_SEM, 1, 4)?)?;
    put(atoms, call_child(alloc, E_SEM, 2, 5)?)
}

/// `(exists ((b Bool) (r1 Int) (r2 Int)) (and .. (= r (ite b r1 r2))))`
fn choose(alloc: Global) -> Result<Rule, AllocError>
    ensures { IfOk result IsShort }
{
    let mut atoms = Atoms::new(alloc);
    put_calls(alloc, &mut atoms)?;
    put(&mut atoms, fill(2, choice(alloc, 3, 4, 5)?))?;
    let more = variables(alloc, &[Sort::Bool, Sort::Int, Sort::Int])?;
    Ok(rule(alloc, E_SEM, ITE, more, atoms))
}

/// The rules of `$x` and `$y`.
fn inputs(alloc: Global, signature: &Signature) -> Result<Rulebook, AddError>
    ensures short { IfOk result (λ book. length book ≡ 2) }
    ensures accepted { IfOk result (All (IsAccepted signature.now)) }
{
    let x = giving(alloc, E_SEM, ConId(0), 2, Expr::Slot(0));
    let y = giving(alloc, E_SEM, ConId(1), 2, Expr::Slot(1));
    two_rules(alloc, signature, x, y)
}

fn book(alloc: Global, signature: &Signature) -> Result<Rulebook, AddError>
    ensures { IfOk result (All (IsAccepted signature.now)) }
{
    let mut book = inputs(alloc, signature)?;
    add_made(&mut book, signature, less(alloc))?;
    add_made(&mut book, signature, choose(alloc))?;
    Ok(book)
}

fn signature(alloc: Global) -> Result<Signature, SigError> {
    let mut signature = signature_of(alloc, &LANGUAGE)?;
    add_binary(alloc, &mut signature, b"E.Sem", E, Sort::Int)?;
    add_binary(alloc, &mut signature, b"B.Sem", B, Sort::Bool)?;
    Ok(signature)
}

fn greater_by(
    alloc: Global,
    signature: &Signature,
    inputs: &[Value],
    height: u32,
) -> Result<Given, AddError> {
    let question = Question {
        relation: E_SEM,
        inputs,
        height,
    };
    let book = book(alloc, signature);
    found_by(alloc, signature, book, &GREATER, &question)
}

/// What the term gives at these inputs.
fn greater(alloc: Global, inputs: &[Value], height: u32) -> Result<Given, AddError> {
    match signature(alloc) {
        Ok(signature) => greater_by(alloc, &signature, inputs, height),
        Err(_) => Err(AddError::Memory),
    }
}

#[test]
fn the_greater_is_chosen(rt: HostRuntime) {
    let inputs = [Value::Int(4), Value::Int(2)];
    expect(&rt, greater(rt.alloc(), &inputs, 3), &[(4, 3)]);
    expect(&rt, greater(rt.alloc(), &inputs, 2), &[]);
}
