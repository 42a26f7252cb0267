//! Worked values of the operators, and bad nodes at some depth.

ghost use Rattle.std.specs.Prelude.{◌≡◌, ◌+◌, IfOk};
ghost use Rattle.expr_core.specs.Expressions.{node_count};

use crate::{Env, Expr, Kids, Op, SortFault};
use sig_core::{Sort, Value};
use std::alloc::{AllocError, Global};
use std::process::Abort;
use std::test::Fail;

const MAX: i128 = i128::MAX;

const MIN: i128 = i128::MIN;

fn int(number: i128) -> Expr
    ensures { node_count result ≡ 1 }
{
    Expr::Lit(Value::Int(number))
}

fn truth(value: bool) -> Expr
    ensures { node_count result ≡ 1 }
{
    Expr::Lit(Value::Bool(value))
}

fn slot(number: u8) -> Expr
    ensures { node_count result ≡ 1 }
{
    Expr::Slot(number)
}

fn empty(alloc: Global, op: Op) -> Expr
    ensures { node_count result ≡ 1 }
{
    Expr::Apply(op, Kids::new(alloc))
}

fn unary(alloc: Global, op: Op, a: Expr) -> Result<Expr, AllocError>
    ensures { IfOk result (λ e. node_count e ≡ 1 + node_count a) }
{
    let mut kids = Kids::new(alloc);
    kids.push(a)?;
    Ok(Expr::Apply(op, kids))
}

fn binary(alloc: Global, op: Op, a: Expr, b: Expr) -> Result<Expr, AllocError>
    ensures { IfOk result (λ e. node_count e ≡ 1 + node_count a + node_count b) }
{
    let mut kids = Kids::new(alloc);
    kids.push(a)?;
    kids.push(b)?;
    Ok(Expr::Apply(op, kids))
}

fn ternary(alloc: Global, op: Op, a: Expr, b: Expr, c: Expr) -> Result<Expr, AllocError>
    ensures { IfOk result (λ e. node_count e ≡ 1 + node_count a + node_count b + node_count c) }
{
    let mut kids = Kids::new(alloc);
    kids.push(a)?;
    kids.push(b)?;
    kids.push(c)?;
    Ok(Expr::Apply(op, kids))
}

fn gives(rt: &impl Abort, expr: &Expr, wanted: Option<Value>) {
    let none: [Value; 0] = [];
    assert_eq!(rt; expr.value_in(&none), wanted);
}

#[test]
fn operators_of_one_operand(rt: HostRuntime) -> Result<(), Fail> {
    let alloc = rt.alloc();
    for (op, a, wanted) in [
        (Op::Abs, MIN, None),
        (Op::Abs, MIN + 1, Some(MAX)),
        (Op::Abs, -5, Some(5)),
        (Op::Minus, 7, Some(-7)),
        (Op::Minus, MAX, Some(-MAX)),
        (Op::Minus, MIN, None),
        (Op::Add, 7, Some(7)),
        (Op::Times, 7, Some(7)),
        (Op::Div, 7, None),
        (Op::Mod, 7, None),
        (Op::Less, 7, None),
        (Op::Equal, 7, None),
        (Op::Not, 7, None),
    ] {
        gives(&rt, &unary(alloc, op, int(a))?, wanted.map(Value::Int));
    }
    for (op, a, wanted) in [
        (Op::Not, true, Some(false)),
        (Op::And, false, Some(false)),
        (Op::Or, true, Some(true)),
        (Op::Xor, true, None),
        (Op::Implies, true, None),
        (Op::Distinct, true, None),
        (Op::Add, true, None),
    ] {
        gives(&rt, &unary(alloc, op, truth(a))?, wanted.map(Value::Bool));
    }
    Ok(())
}

#[test]
fn operators_on_two_numbers(rt: HostRuntime) -> Result<(), Fail> {
    let alloc = rt.alloc();
    for (op, a, b, wanted) in [
        (Op::Div, -7, 2, Some(-4)),
        (Op::Mod, -7, 2, Some(1)),
        (Op::Div, -7, -2, Some(4)),
        (Op::Mod, -7, -2, Some(1)),
        (Op::Div, 7, -2, Some(-3)),
        (Op::Mod, MIN, -1, Some(0)),
        (Op::Div, MIN, -1, None),
        (Op::Div, MIN, 1, Some(MIN)),
        (Op::Mod, 1, 0, None),
        (Op::Div, 1, 0, None),
        (Op::Mod, MAX, MIN, Some(MAX)),
        (Op::Mod, MIN, MAX, Some(MAX - 1)),
        (Op::Add, MAX - 1, 1, Some(MAX)),
        (Op::Minus, MIN + 1, 1, Some(MIN)),
        (Op::Times, MIN / 2, 2, Some(MIN)),
    ] {
        gives(
            &rt,
            &binary(alloc, op, int(a), int(b))?,
            wanted.map(Value::Int),
        );
    }
    Ok(())
}

#[test]
fn chains_of_two_numbers(rt: HostRuntime) -> Result<(), Fail> {
    let alloc = rt.alloc();
    for (op, a, b, wanted) in [
        (Op::Less, 1, 2, true),
        (Op::Less, 2, 2, false),
        (Op::AtMost, 2, 2, true),
        (Op::AtMost, 2, 1, false),
        (Op::Greater, 2, 1, true),
        (Op::Greater, 2, 2, false),
        (Op::AtLeast, 2, 2, true),
        (Op::AtLeast, 1, 2, false),
        (Op::Equal, 2, 2, true),
        (Op::Equal, MIN, MAX, false),
        (Op::Distinct, MIN, MAX, true),
        (Op::Distinct, 2, 2, false),
    ] {
        let expr = binary(alloc, op, int(a), int(b))?;
        gives(&rt, &expr, Some(Value::Bool(wanted)));
    }
    Ok(())
}

#[test]
fn operators_on_two_truths(rt: HostRuntime) -> Result<(), Fail> {
    let alloc = rt.alloc();
    for (op, a, b, wanted) in [
        (Op::And, true, true, Some(true)),
        (Op::Or, false, false, Some(false)),
        (Op::Xor, true, false, Some(true)),
        (Op::Implies, false, false, Some(true)),
        (Op::Implies, true, false, Some(false)),
        (Op::Equal, true, true, Some(true)),
        (Op::Equal, true, false, Some(false)),
        (Op::Distinct, true, false, Some(true)),
        (Op::Not, true, true, None),
        (Op::Ite, true, true, None),
        (Op::Less, true, false, None),
    ] {
        let expr = binary(alloc, op, truth(a), truth(b))?;
        gives(&rt, &expr, wanted.map(Value::Bool));
    }
    Ok(())
}

#[test]
fn too_many_operands(rt: HostRuntime) -> Result<(), Fail> {
    let alloc = rt.alloc();
    gives(&rt, &binary(alloc, Op::Abs, int(1), int(2))?, None);
    let mut kids = Kids::new(alloc);
    for _ in 0..4u8 {
        kids.push(truth(true))?;
    }
    gives(&rt, &Expr::Apply(Op::Ite, kids), None);
    Ok(())
}

#[test]
fn partial_results_out_of_range(rt: HostRuntime) -> Result<(), Fail> {
    let alloc = rt.alloc();
    for (op, a, b, c, wanted) in [
        (Op::Add, MAX, 1, -1, None),
        (Op::Add, MAX, -1, 1, Some(MAX)),
        (Op::Minus, MIN, 1, -2, None),
        (Op::Minus, 10, 3, 2, Some(5)),
        (Op::Times, MAX, 2, 0, None),
        (Op::Div, MIN, -1, 2, None),
        (Op::Div, -7, 2, -2, Some(2)),
        (Op::Mod, 7, 5, 2, None),
    ] {
        gives(
            &rt,
            &ternary(alloc, op, int(a), int(b), int(c))?,
            wanted.map(Value::Int),
        );
    }
    Ok(())
}

#[test]
fn chains_of_three_numbers(rt: HostRuntime) -> Result<(), Fail> {
    let alloc = rt.alloc();
    for (op, a, b, c, wanted) in [
        (Op::Less, 1, 2, 2, false),
        (Op::Less, 1, 2, 3, true),
        (Op::AtMost, 1, 2, 2, true),
        (Op::AtMost, 2, 1, 3, false),
        (Op::Greater, 3, 2, 1, true),
        (Op::Greater, 3, 2, 2, false),
        (Op::AtLeast, 3, 2, 2, true),
        (Op::AtLeast, 1, 2, 1, false),
        (Op::Equal, 2, 2, 2, true),
        (Op::Equal, 2, 2, 1, false),
        (Op::Distinct, 1, 2, 1, false),
        (Op::Distinct, 1, 2, 3, true),
    ] {
        gives(
            &rt,
            &ternary(alloc, op, int(a), int(b), int(c))?,
            Some(Value::Bool(wanted)),
        );
    }
    Ok(())
}

#[test]
fn operators_on_three_truths(rt: HostRuntime) -> Result<(), Fail> {
    let alloc = rt.alloc();
    for (op, a, b, c, wanted) in [
        (Op::Implies, false, true, false, Some(true)),
        (Op::Implies, true, false, false, Some(true)),
        (Op::Implies, true, true, false, Some(false)),
        (Op::Xor, true, true, true, Some(true)),
        (Op::Xor, true, true, false, Some(false)),
        (Op::And, true, true, false, Some(false)),
        (Op::Or, false, false, true, Some(true)),
        (Op::Equal, true, true, true, Some(true)),
        (Op::Distinct, true, false, false, Some(false)),
        (Op::Ite, false, true, false, Some(false)),
        (Op::Not, true, true, true, None),
    ] {
        let expr = ternary(alloc, op, truth(a), truth(b), truth(c))?;
        gives(&rt, &expr, wanted.map(Value::Bool));
    }
    Ok(())
}

#[test]
fn operands_without_a_value(rt: HostRuntime) -> Result<(), Fail> {
    let alloc = rt.alloc();
    let nothing = binary(alloc, Op::Div, int(1), int(0))?;
    let strict = binary(
        alloc,
        Op::And,
        truth(false),
        binary(alloc, Op::Equal, int(1), nothing)?,
    )?;
    gives(&rt, &strict, None);
    let other = binary(alloc, Op::Div, int(1), int(0))?;
    gives(
        &rt,
        &ternary(alloc, Op::Ite, truth(true), int(1), other)?,
        Some(Value::Int(1)),
    );
    gives(
        &rt,
        &ternary(alloc, Op::Equal, int(1), int(2), truth(true))?,
        None,
    );
    gives(
        &rt,
        &ternary(alloc, Op::Distinct, int(1), int(1), truth(true))?,
        None,
    );
    gives(&rt, &empty(alloc, Op::And), None);
    Ok(())
}

/// So many operands, each the place of the last one with its number.
fn places(alloc: Global, count: u8, last: i128) -> Result<Expr, AllocError> {
    let mut kids = Kids::new(alloc);
    for place in 0..count {
        kids.push(int(i128::from(place)))?;
    }
    kids.push(int(last))?;
    Ok(Expr::Apply(Op::Distinct, kids))
}

#[test]
fn many_distinct_operands(rt: HostRuntime) -> Result<(), Fail> {
    let alloc = rt.alloc();
    for (count, last, wanted) in [
        (15, -1, true),
        (15, 14, false),
        (16, -1, true),
        (16, 0, false),
        (40, -1, true),
        (40, 39, false),
    ] {
        gives(&rt, &places(alloc, count, last)?, Some(Value::Bool(wanted)));
    }
    Ok(())
}

#[test]
fn slots_of_an_environment(rt: HostRuntime) -> Result<(), Fail> {
    let alloc = rt.alloc();
    let sum = binary(alloc, Op::Add, slot(0), slot(1))?;
    let mut env = Env::new(alloc, 2)?;
    assert_eq!(rt; env.get(1), None);
    env.set(0, Some(Value::Int(5)));
    assert_eq!(rt; sum.value(&env), None);
    env.set(1, Some(Value::Int(6)));
    assert_eq!(rt; env.get(1), Some(Value::Int(6)));
    assert_eq!(rt; sum.value(&env), Some(Value::Int(11)));
    assert_eq!(rt; slot(2).value(&env), None);
    env.set(0, None);
    assert_eq!(rt; env.get(0), None);
    assert_eq!(rt;
        sum.value_in(&[Value::Int(5), Value::Int(6)]),
        Some(Value::Int(11))
    );
    assert_eq!(rt; sum.value_in(&[Value::Int(5)]), None);
    Ok(())
}

#[test]
fn sorts_of_expressions(rt: HostRuntime) -> Result<(), Fail> {
    let alloc = rt.alloc();
    let scope = [Sort::Int, Sort::Bool];
    let condition = binary(alloc, Op::Equal, slot(0), int(3))?;
    let negated = unary(alloc, Op::Minus, slot(0))?;
    let chosen = ternary(alloc, Op::Ite, condition, int(1), negated)?;
    assert_eq!(rt; chosen.sort_of(&scope), Ok(Sort::Int));
    let compared = binary(alloc, Op::Less, chosen, int(1))?;
    assert_eq!(rt; compared.sort_of(&scope), Ok(Sort::Bool));
    assert_eq!(rt; slot(1).sort_of(&scope), Ok(Sort::Bool));
    Ok(())
}

#[test]
fn bad_nodes(rt: HostRuntime) -> Result<(), Fail> {
    let alloc = rt.alloc();
    let scope = [Sort::Int];
    let out_of_scope = binary(alloc, Op::Add, slot(0), slot(1))?;
    assert_eq!(rt;
        out_of_scope.sort_of(&scope),
        Err(SortFault { node: 2, reason: 1 })
    );
    let too_few = binary(
        alloc,
        Op::And,
        truth(true),
        unary(alloc, Op::Implies, truth(true))?,
    )?;
    assert_eq!(rt;
        too_few.sort_of(&scope),
        Err(SortFault { node: 2, reason: 2 })
    );
    let no_number = unary(alloc, Op::Abs, empty(alloc, Op::Ite))?;
    assert_eq!(rt;
        no_number.sort_of(&scope),
        Err(SortFault { node: 1, reason: 2 })
    );
    Ok(())
}

#[test]
fn operands_of_the_wrong_sort(rt: HostRuntime) -> Result<(), Fail> {
    let alloc = rt.alloc();
    let branches = ternary(alloc, Op::Ite, truth(true), int(2), truth(false))?;
    let deep = unary(alloc, Op::Not, binary(alloc, Op::Less, int(1), branches)?)?;
    assert_eq!(rt; deep.sort_of(&[]), Err(SortFault { node: 6, reason: 3 }));
    let sum = binary(alloc, Op::Add, int(1), truth(true))?;
    let unlike = ternary(alloc, Op::Equal, int(1), truth(true), sum)?;
    assert_eq!(rt; unlike.sort_of(&[]), Err(SortFault { node: 2, reason: 3 }));
    let condition = ternary(alloc, Op::Ite, int(1), int(2), int(3))?;
    assert_eq!(rt;
        condition.sort_of(&[]),
        Err(SortFault { node: 1, reason: 3 })
    );
    let nested = unary(alloc, Op::Not, unary(alloc, Op::Abs, truth(true))?)?;
    assert_eq!(rt; nested.sort_of(&[]), Err(SortFault { node: 1, reason: 3 }));
    Ok(())
}
