ghost use Rattle.std.specs.Prelude.{◌≡◌, ◌+◌, ◌≤◌, length, All, IfOk, OnOk};
ghost use Rattle.rule_core.specs.Rulebooks.{HasSmallParts, IsRuleOf};
ghost use Rattle.eval_core.specs.Evaluations.{IsAccepted};
ghost use Rattle.example_loops.specs.Loops.{loops};

use crate::language::{LOOP, S};
use example_atoms::{call_itself, fill, number, over_number, over_two, put, test};
use expr_core::{Expr, Op};
use rule_core::{AddError, Atoms, Names, Rule, Rulebook, Var, Vars};
use sig_core::{Signature, Sort, bytes_of};
use std::alloc::{AllocError, Global};

fn rule(alloc: Global, more: Vars, atoms: Atoms) -> Rule
    requires more { length more ≤ 62 }
    requires few { length atoms ≤ 8 }
    requires small { All HasSmallParts atoms }
    ensures { IsRuleOf loops result }
{
    Rule {
        relation: S,
        con: LOOP,
        kid_names: Names::new(alloc),
        more,
        atoms,
    }
}

fn variable(alloc: Global, name: &[u8]) -> Result<Var, AllocError> {
    Ok(Var {
        name: bytes_of(alloc, name)?,
        sort: Sort::Int,
    })
}

/// The existential `q`.
fn one_more(alloc: Global) -> Result<Vars, AllocError>
    ensures { IfOk result (λ vars. length vars ≤ 62) }
{
    let mut vars = Vars::new(alloc);
    vars.push(variable(alloc, b"q")?)?;
    Ok(vars)
}

/// The existentials `a` and `b`.
fn two_more(alloc: Global) -> Result<Vars, AllocError>
    ensures { IfOk result (λ vars. length vars ≤ 62) }
{
    let mut vars = Vars::new(alloc);
    vars.push(variable(alloc, b"a")?)?;
    vars.push(variable(alloc, b"b")?)?;
    Ok(vars)
}

/// The atom `(S t (- x less) v)`, where v has the slot.
fn put_call(alloc: Global, atoms: &mut Atoms, less: i128, slot: u8) -> Result<(), AllocError>
    requires few { length atoms.old ≤ 7 }
    requires small { All HasSmallParts atoms.old }
    ensures count { length atoms.new ≤ length atoms.old + 1 }
    ensures all { All HasSmallParts atoms.new }
{
    let before = over_number(alloc, Op::Minus, 0, less)?;
    put(atoms, call_itself(alloc, S, before, slot)?)
}

/// `(and (<= x 0) (= r 0))`
fn last(alloc: Global) -> Result<Rule, AllocError>
    ensures { IfOk result (IsRuleOf loops) }
{
    let mut atoms = Atoms::new(alloc);
    put(&mut atoms, test(alloc, Op::AtMost, 0)?)?;
    put(&mut atoms, fill(1, number(0)))?;
    Ok(rule(alloc, Vars::new(alloc), atoms))
}

/// `(exists ((q Int)) (and (> x 0) (S t (- x 1) q) (= r (+ q 2))))`
fn next(alloc: Global) -> Result<Rule, AllocError>
    ensures { IfOk result (IsRuleOf loops) }
{
    let mut atoms = Atoms::new(alloc);
    put(&mut atoms, test(alloc, Op::Greater, 0)?)?;
    put_call(alloc, &mut atoms, 1, 2)?;
    put(&mut atoms, fill(1, over_number(alloc, Op::Add, 2, 2)?))?;
    Ok(rule(alloc, one_more(alloc)?, atoms))
}

/// `(and (< x 2) (= r x))`
fn first_two(alloc: Global) -> Result<Rule, AllocError>
    ensures { IfOk result (IsRuleOf loops) }
{
    let mut atoms = Atoms::new(alloc);
    put(&mut atoms, test(alloc, Op::Less, 2)?)?;
    put(&mut atoms, fill(1, Expr::Slot(0)))?;
    Ok(rule(alloc, Vars::new(alloc), atoms))
}

/// `(exists ((a Int) (b Int)) (and (>= x 2) (S t (- x 1) a) (S t (- x 2) b) (= r (+ a b))))`
fn sum(alloc: Global) -> Result<Rule, AllocError>
    ensures { IfOk result (IsRuleOf loops) }
{
    let mut atoms = Atoms::new(alloc);
    put(&mut atoms, test(alloc, Op::AtLeast, 2)?)?;
    put_call(alloc, &mut atoms, 1, 2)?;
    put_call(alloc, &mut atoms, 2, 3)?;
    put(&mut atoms, fill(1, over_two(alloc, Op::Add, 2, 3)?))?;
    Ok(rule(alloc, two_more(alloc)?, atoms))
}

/// Adds a rule to a short book.
fn add(book: &mut Rulebook, signature: &Signature, rule: Rule) -> Result<(), AddError>
    requires short { length book.old ≤ 7 }
    requires rule { IsRuleOf signature.now rule }
    requires accepted { All (IsAccepted signature.now) book.old }
    ensures short { OnOk result (length book.new ≡ length book.old + 1) }
    ensures accepted { OnOk result (All (IsAccepted signature.now) book.new) }
{
    book.add(signature, rule)
}

/// At x the relation gives 0 where x is at most 0, and else 2 more than at x - 1.
pub fn counting_rules(alloc: Global, signature: &Signature) -> Result<Rulebook, AddError>
    requires { signature.now ≡ loops }
    ensures { IfOk result (All (IsAccepted signature.now)) }
{
    let mut book = Rulebook::new(alloc);
    add(&mut book, signature, last(alloc)?)?;
    add(&mut book, signature, next(alloc)?)?;
    Ok(book)
}

/// At x the relation gives the x-th number of Fibonacci, and x where it is negative.
pub fn fibonacci_rules(alloc: Global, signature: &Signature) -> Result<Rulebook, AddError>
    requires { signature.now ≡ loops }
    ensures { IfOk result (All (IsAccepted signature.now)) }
{
    let mut book = Rulebook::new(alloc);
    add(&mut book, signature, first_two(alloc)?)?;
    add(&mut book, signature, sum(alloc)?)?;
    Ok(book)
}
