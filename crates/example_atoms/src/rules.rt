ghost use Rattle.std.specs.Prelude.{◌<◌, ◌≤◌, ◌+◌, ◌^◌, length, All, IfOk, OnOk};
ghost use Rattle.expr_core.specs.Expressions.{node_count};
ghost use Rattle.rule_core.specs.Rulebooks.{HasSmallParts, IsSmall};
ghost use Rattle.example_atoms.specs.Rules.{IsShort};

use expr_core::{Expr, Kids, Op};
use rule_core::{Atom, Atoms, Call, Names, Rule, Var, Vars, Who};
use sig_core::{ConId, RelId, Sort, Value, bytes_of};
use std::alloc::{AllocError, Global};

/// Existentials of these sorts.
pub fn variables(alloc: Global, sorts: &[Sort]) -> Result<Vars, AllocError> {
    let mut vars = Vars::new(alloc);
    for sort in sorts {
        vars.push(Var {
            name: bytes_of(alloc, b"v")?,
            sort: *sort,
        })?;
    }
    Ok(vars)
}

pub fn rule(alloc: Global, relation: RelId, con: ConId, more: Vars, atoms: Atoms) -> Rule
    requires few { length atoms ≤ 8 }
    requires small { All HasSmallParts atoms }
    ensures { IsShort result }
{
    Rule {
        relation,
        con,
        kid_names: Names::new(alloc),
        more,
        atoms,
    }
}

pub fn number(number: i128) -> Expr
    ensures { node_count result < 2 ^ 32 }
{
    Expr::Lit(Value::Int(number))
}

/// The operator over a slot and a number.
pub fn over_number(alloc: Global, op: Op, slot: u8, number: i128) -> Result<Expr, AllocError>
    ensures { IfOk result (λ expr. node_count expr < 2 ^ 32) }
{
    let mut kids = Kids::new(alloc);
    kids.push(Expr::Slot(slot))?;
    kids.push(Expr::Lit(Value::Int(number)))?;
    Ok(Expr::Apply(op, kids))
}

/// The operator over two slots.
pub fn over_two(alloc: Global, op: Op, left: u8, right: u8) -> Result<Expr, AllocError>
    ensures { IfOk result (λ expr. node_count expr < 2 ^ 32) }
{
    let mut kids = Kids::new(alloc);
    kids.push(Expr::Slot(left))?;
    kids.push(Expr::Slot(right))?;
    Ok(Expr::Apply(op, kids))
}

/// The choice of two slots by a third.
pub fn choice(alloc: Global, test: u8, then: u8, other: u8) -> Result<Expr, AllocError>
    ensures { IfOk result (λ expr. node_count expr < 2 ^ 32) }
{
    let mut kids = Kids::new(alloc);
    kids.push(Expr::Slot(test))?;
    kids.push(Expr::Slot(then))?;
    kids.push(Expr::Slot(other))?;
    Ok(Expr::Apply(Op::Ite, kids))
}

fn one(alloc: Global, expr: Expr) -> Result<Kids, AllocError>
    requires { node_count expr < 2 ^ 32 }
    ensures { IfOk result (All IsSmall) }
{
    let mut kids = Kids::new(alloc);
    kids.push(expr)?;
    Ok(kids)
}

/// The slots 0 and 1.
fn both(alloc: Global) -> Result<Kids, AllocError>
    ensures { IfOk result (All IsSmall) }
{
    let mut kids = Kids::new(alloc);
    kids.push(Expr::Slot(0))?;
    kids.push(Expr::Slot(1))?;
    Ok(kids)
}

/// A test of slot 0 against a number.
pub fn test(alloc: Global, op: Op, number: i128) -> Result<Atom, AllocError>
    ensures { IfOk result HasSmallParts }
{
    Ok(Atom::Test(over_number(alloc, op, 0, number)?))
}

/// A call on the term itself at one input, whose output goes to the slot.
pub fn call_itself(
    alloc: Global,
    relation: RelId,
    input: Expr,
    slot: u8,
) -> Result<Atom, AllocError>
    requires { node_count input < 2 ^ 32 }
    ensures { IfOk result HasSmallParts }
{
    Ok(Atom::Call(Call {
        relation,
        who: Who::Own,
        inputs: one(alloc, input)?,
        outputs: one(alloc, Expr::Slot(slot))?,
    }))
}

/// A call on a child at the slots 0 and 1, whose output goes to the slot.
pub fn call_child(alloc: Global, relation: RelId, child: u8, slot: u8) -> Result<Atom, AllocError>
    ensures { IfOk result HasSmallParts }
{
    Ok(Atom::Call(Call {
        relation,
        who: Who::Child(child),
        inputs: both(alloc)?,
        outputs: one(alloc, Expr::Slot(slot))?,
    }))
}

/// The slot has this value.
pub fn fill(slot: u8, expr: Expr) -> Atom
    requires { node_count expr < 2 ^ 32 }
    ensures { HasSmallParts result }
{
    Atom::Fill(slot, expr)
}

/// One atom more, of at most eight.
pub fn put(atoms: &mut Atoms, atom: Atom) -> Result<(), AllocError>
    requires few { length atoms.old ≤ 7 }
    requires small { All HasSmallParts atoms.old }
    requires atom { HasSmallParts atom }
    ensures count { length atoms.new ≤ length atoms.old + 1 }
    ensures all { All HasSmallParts atoms.new }
{
    atoms.push(atom)
}

/// A rule whose one atom gives the slot a value.
pub fn giving(
    alloc: Global,
    relation: RelId,
    con: ConId,
    slot: u8,
    expr: Expr,
) -> Result<Rule, AllocError>
    requires { node_count expr < 2 ^ 32 }
    ensures { IfOk result IsShort }
{
    let mut atoms = Atoms::new(alloc);
    put(&mut atoms, fill(slot, expr))?;
    Ok(rule(alloc, relation, con, Vars::new(alloc), atoms))
}
