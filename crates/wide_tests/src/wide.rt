//! Relations with several inputs and outputs.
ghost use Rattle.std.specs.Prelude.{◌≡◌, ◌<◌, ◌≤◌, [], ◌∷◌, length, All, IfOk};
ghost use Rattle.rule_core.specs.Rulebooks.{HasSmallParts, IsRuleOf, IsSmall};
ghost use Rattle.wide_tests.specs.Wide.{sums, splits, wide};

use example_relations::param;
use example_rules::{PLUS, TERM, one, slot, two_constructors};
use expr_core::{Expr, Kids, Op};
use rule_core::{AddError, Atom, Atoms, Call, FlowFault, Names, Rule, Rulebook, Var, Vars, Who};
use sig_core::{Kind, Param, Params, RelId, Relation, SigError, Signature, Sort, bytes_of};
use std::alloc::{AllocError, Global};

/// The relation of a term, its inputs in slots 0 and 1, and its output in slot 2.
const SUMS: RelId = RelId(0);

/// The relation of a term, an output in slot 0, its input in slot 1, and an output in slot 2.
const SPLITS: RelId = RelId(1);

fn four(
    alloc: Global,
    first: Param,
    second: Param,
    third: Param,
    fourth: Param,
) -> Result<Params, AllocError>
    ensures { IfOk result (λ params. params ≡ first ∷ second ∷ third ∷ fourth ∷ []) }
{
    let mut params = Params::new(alloc);
    params.push(first)?;
    params.push(second)?;
    params.push(third)?;
    params.push(fourth)?;
    Ok(params)
}

fn sum_relation(alloc: Global) -> Result<Relation, AllocError>
    ensures { IfOk result (λ relation. relation ≡ sums) }
{
    let term = param(alloc, b"t", Kind::Term(TERM))?;
    let left = param(alloc, b"x", Kind::Input(Sort::Int))?;
    let right = param(alloc, b"y", Kind::Input(Sort::Int))?;
    let output = param(alloc, b"r", Kind::Output(Sort::Int))?;
    Ok(Relation {
        name: bytes_of(alloc, b"E.Sem")?,
        params: four(alloc, term, left, right, output)?,
    })
}

fn split_relation(alloc: Global) -> Result<Relation, AllocError>
    ensures { IfOk result (λ relation. relation ≡ splits) }
{
    let term = param(alloc, b"t", Kind::Term(TERM))?;
    let first = param(alloc, b"q", Kind::Output(Sort::Int))?;
    let input = param(alloc, b"x", Kind::Input(Sort::Int))?;
    let second = param(alloc, b"r", Kind::Output(Sort::Int))?;
    Ok(Relation {
        name: bytes_of(alloc, b"P")?,
        params: four(alloc, term, first, input, second)?,
    })
}

fn wide(alloc: Global) -> Result<Signature, SigError>
    ensures { IfOk result (λ signature. signature ≡ wide) }
{
    let mut signature = two_constructors(alloc)?;
    signature.add_relation(sum_relation(alloc)?)?;
    signature.add_relation(split_relation(alloc)?)?;
    Ok(signature)
}

/// A rule for the constructor of two terms.
fn rule(alloc: Global, relation: RelId, more: Vars, atoms: Atoms) -> Rule
    requires relation { relation.0 < 2 }
    requires more { length more ≤ 61 }
    requires few { length atoms ≤ 3 }
    requires small { All HasSmallParts atoms }
    ensures { IsRuleOf wide result }
{
    Rule {
        relation,
        con: PLUS,
        kid_names: Names::new(alloc),
        more,
        atoms,
    }
}

fn added(alloc: Global, rule: Rule) -> Result<(), AddError>
    requires { IsRuleOf wide rule }
{
    let Ok(signature) = wide(alloc) else {
        return Err(AddError::Memory);
    };
    let mut book = Rulebook::new(alloc);
    book.add(&signature, rule)
}

fn slots(alloc: Global, numbers: &[u8]) -> Result<Kids, AllocError>
    ensures { IfOk result (All IsSmall) }
{
    let mut kids = Kids::new(alloc);
    for number in numbers {
        kids.push(slot(*number))?;
    }
    Ok(kids)
}

/// A call whose arguments are bare variables.
fn call(
    alloc: Global,
    relation: RelId,
    child: u8,
    inputs: &[u8],
    outputs: &[u8],
) -> Result<Atom, AllocError>
    ensures { IfOk result HasSmallParts }
{
    Ok(Atom::Call(Call {
        relation,
        who: Who::Child(child),
        inputs: slots(alloc, inputs)?,
        outputs: slots(alloc, outputs)?,
    }))
}

fn three(alloc: Global, first: Atom, second: Atom, third: Atom) -> Result<Atoms, AllocError>
    requires first { HasSmallParts first }
    requires second { HasSmallParts second }
    requires third { HasSmallParts third }
    ensures { IfOk result (λ atoms. (length atoms ≤ 3) × All HasSmallParts atoms) }
{
    let mut atoms = Atoms::new(alloc);
    atoms.push(first)?;
    atoms.push(second)?;
    atoms.push(third)?;
    Ok(atoms)
}

/// The slot is the sum of two.
fn fill_sum(alloc: Global, number: u8, left: u8, right: u8) -> Result<Atom, AllocError>
    ensures { IfOk result HasSmallParts }
{
    let mut kids = Kids::new(alloc);
    kids.push(Expr::Slot(left))?;
    kids.push(Expr::Slot(right))?;
    Ok(Atom::Fill(number, Expr::Apply(Op::Add, kids)))
}

fn variable(alloc: Global, name: &[u8]) -> Result<Var, AllocError> {
    Ok(Var {
        name: bytes_of(alloc, name)?,
        sort: Sort::Int,
    })
}

fn one_variable(alloc: Global) -> Result<Vars, AllocError>
    ensures { IfOk result (λ vars. length vars ≤ 61) }
{
    let mut vars = Vars::new(alloc);
    vars.push(variable(alloc, b"v0")?)?;
    Ok(vars)
}

fn two_variables(alloc: Global) -> Result<Vars, AllocError>
    ensures { IfOk result (λ vars. length vars ≤ 61) }
{
    let mut vars = Vars::new(alloc);
    vars.push(variable(alloc, b"v0")?)?;
    vars.push(variable(alloc, b"v1")?)?;
    Ok(vars)
}

/// Both children at the inputs, and the sum of their outputs.
fn sum_rule(alloc: Global) -> Result<(), AddError> {
    let left = call(alloc, SUMS, 0, &[0, 1], &[3])?;
    let right = call(alloc, SUMS, 1, &[0, 1], &[4])?;
    let atoms = three(alloc, left, right, fill_sum(alloc, 2, 3, 4)?)?;
    added(alloc, rule(alloc, SUMS, two_variables(alloc)?, atoms))
}

#[test]
fn a_sum_of_both_children_is_accepted(rt: HostRuntime) {
    assert_eq!(rt; sum_rule(rt.alloc()), Ok(()));
}

/// A call with this input and one variable for both outputs, and then the rule's outputs.
fn asks_at(alloc: Global, input: u8) -> Result<(), AddError> {
    let child = call(alloc, SPLITS, 0, &[input], &[3, 3])?;
    let atoms = three(alloc, child, one(0), one(2))?;
    added(alloc, rule(alloc, SPLITS, one_variable(alloc)?, atoms))
}

#[test]
fn outputs_before_the_input_are_unknown(rt: HostRuntime) {
    assert_eq!(rt; asks_at(rt.alloc(), 1), Ok(()));
    assert_eq!(rt;
        asks_at(rt.alloc(), 0),
        Err(AddError::Flow(FlowFault {
            reason: 1,
            atom: 0,
            slot: 0
        }))
    );
}
