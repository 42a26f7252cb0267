ghost use Rattle.std.specs.Prelude.{◌<◌, ◌≤◌, ◌^◌, length, All, IfOk};
ghost use Rattle.expr_core.specs.Expressions.{node_count};
ghost use Rattle.rule_core.specs.Rulebooks.{HasSmallParts, IsRuleOf};
ghost use Rattle.example_rules.specs.Examples.{example};

use expr_core::{Expr, Kids, Op};
use rule_core::{Atom, Atoms, Call, Names, Rule, Var, Vars, Who};
use sig_core::{ConId, RelId, Sort, Value, bytes_of};
use std::alloc::{AllocError, Global};

/// The relation of a term and its output, in slot 0.
pub const GIVES: RelId = RelId(0);

/// The relation of a term, its input in slot 0, and its output in slot 1.
pub const MAPS: RelId = RelId(1);

/// The constructor of two terms.
pub const PLUS: ConId = ConId(0);

/// The constructor of a condition and two terms.
pub const CHOICE: ConId = ConId(1);

/// So many existentials.
pub fn variables(alloc: Global, count: u8) -> Result<Vars, AllocError>
    requires { count ≤ 62 }
    ensures { IfOk result (λ vars. length vars ≤ 62) }
{
    let mut vars = Vars::new(alloc);
    for number in 0..count {
        vars.push(Var {
            name: bytes_of(alloc, &[b'v', b'0' + number])?,
            sort: Sort::Int,
        })?;
    }
    Ok(vars)
}

pub fn rule(alloc: Global, relation: RelId, con: ConId, more: Vars, atoms: Atoms) -> Rule
    requires relation { relation.0 < 2 }
    requires con { con.0 < 2 }
    requires more { length more ≤ 62 }
    requires few { length atoms ≤ 63 }
    requires small { All HasSmallParts atoms }
    ensures { IsRuleOf example result }
{
    Rule {
        relation,
        con,
        kid_names: Names::new(alloc),
        more,
        atoms,
    }
}

/// A call with one input and one output.
pub fn call(
    alloc: Global,
    relation: RelId,
    who: Who,
    input: Expr,
    output: Expr,
) -> Result<Atom, AllocError>
    requires input { node_count input < 2 ^ 32 }
    requires output { node_count output < 2 ^ 32 }
    ensures { IfOk result HasSmallParts }
{
    let mut inputs = Kids::new(alloc);
    inputs.push(input)?;
    let mut outputs = Kids::new(alloc);
    outputs.push(output)?;
    Ok(Atom::Call(Call {
        relation,
        who,
        inputs,
        outputs,
    }))
}

/// The slot is 1.
pub fn one(slot: u8) -> Atom
    ensures { HasSmallParts result }
{
    Atom::Fill(slot, Expr::Lit(Value::Int(1)))
}

/// The test that the slot is 1.
pub fn is_one(alloc: Global, number: u8) -> Result<Atom, AllocError>
    ensures { IfOk result HasSmallParts }
{
    let mut kids = Kids::new(alloc);
    kids.push(Expr::Slot(number))?;
    kids.push(Expr::Lit(Value::Int(1)))?;
    Ok(Atom::Test(Expr::Apply(Op::Equal, kids)))
}

/// Each slot from 1 on below the end is 1.
pub fn ones(alloc: Global, end: u8) -> Result<Atoms, AllocError>
    requires { end ≤ 64 }
    ensures { IfOk result (λ atoms. (length atoms ≤ 63) × All HasSmallParts atoms) }
{
    let mut atoms = Atoms::new(alloc);
    for slot in 1..end {
        atoms.push(one(slot))?;
    }
    Ok(atoms)
}

pub fn pair(alloc: Global, first: Atom, second: Atom) -> Result<Atoms, AllocError>
    requires first { HasSmallParts first }
    requires second { HasSmallParts second }
    ensures { IfOk result (λ atoms. (length atoms ≤ 63) × All HasSmallParts atoms) }
{
    let mut atoms = Atoms::new(alloc);
    atoms.push(first)?;
    atoms.push(second)?;
    Ok(atoms)
}

pub fn alone(alloc: Global, atom: Atom) -> Result<Atoms, AllocError>
    requires { HasSmallParts atom }
    ensures { IfOk result (λ atoms. (length atoms ≤ 63) × All HasSmallParts atoms) }
{
    let mut atoms = Atoms::new(alloc);
    atoms.push(atom)?;
    Ok(atoms)
}

pub fn slot(number: u8) -> Expr
    ensures { node_count result < 2 ^ 32 }
{
    Expr::Slot(number)
}

pub fn successor(alloc: Global, number: u8) -> Result<Expr, AllocError>
    ensures { IfOk result (λ expr. node_count expr < 2 ^ 32) }
{
    let mut kids = Kids::new(alloc);
    kids.push(Expr::Slot(number))?;
    kids.push(Expr::Lit(Value::Int(1)))?;
    Ok(Expr::Apply(Op::Add, kids))
}
