ghost use Rattle.std.specs.Prelude.{◌≡◌, ◌≤◌, ◌∷◌, pos, All, IfOk};
ghost use Rattle.sig_core.specs.declared.value.Value.TheVariants.{Int};
ghost use Rattle.term_core.specs.Banks.{IsLive};
ghost use Rattle.problem_core.specs.Derivations.{Within};
ghost use Rattle.deriv_core.specs.Facts.{tree_fact};
ghost use Rattle.eval_core.specs.Evaluations.{IsAccepted, StandsFor};
ghost use Rattle.example_loops.specs.Loops.{loops};

use deriv_core::{BadStep, Fact, StepId, Steps};
use eval_core::{Evaluator, Outcome};
use example_loops::{LOOP, S, counting_rules, loops};
use extract_core::derive;
use rule_core::{AddError, Rulebook};
use sig_core::{Signature, Value, Values};
use std::alloc::{AllocError, Global};
use std::process::Abort;
use std::test::Fail;
use term_core::{Bank, TermId};

/// The number of a rule, values and premises.
type Row = (u64, &'static [i128], &'static [usize]);

/// The steps of `S(3, 6)`, in order.
const STEPS: [Row; 4] = [
    (0, &[0, 0], &[]),
    (1, &[1, 2, 0], &[0]),
    (1, &[2, 4, 2], &[1]),
    (1, &[3, 6, 4], &[2]),
];

/// The term, in a bank of its own.
fn term(signature: &Signature, bank: &mut Bank) -> Result<TermId, AllocError>
    ensures { IfOk result (IsLive bank.new) }
{
    bank.intern(signature, LOOP, &[])
}

/// The fact at 3 with the outputs of the outcome.
fn fact_at(alloc: Global, node: TermId, outcome: &Outcome) -> Result<Fact, AllocError>
    ensures { IfOk result (λ fact. fact ≡ record { relation = record { 0 = 0 }; node = node; args = Int (pos 3) ∷ outcome.now.outputs }) }
{
    let mut args = Values::new(alloc);
    args.push(Value::Int(3))?;
    args.append(outcome.outputs.as_slice())?;
    Ok(Fact {
        relation: S,
        node,
        args,
    })
}

/// The fact of the first outcome at 3.
fn first_fact(
    rt: &impl Abort,
    alloc: Global,
    evaluator: &mut Evaluator<'_>,
    bank: &Bank,
    node: TermId,
    height: u32,
) -> Result<Fact, AllocError>
    requires signature { evaluator.old.signature ≡ loops }
    requires stands { StandsFor evaluator.old bank.now }
    requires live { IsLive bank.now node }
    requires positive { 1 ≤ height }
    requires low { height ≤ 1000 }
    ensures stands { StandsFor evaluator.new bank.now }
    ensures live { IfOk result (λ fact. IsLive bank.now fact.node) }
    ensures within { IfOk result (λ fact. Within evaluator.new.signature evaluator.new.rules height (tree_fact bank.now fact)) }
{
    let outcomes = evaluator.outcomes(bank, S, node, &[Value::Int(3)], height)?;
    assert!(rt; 0 < outcomes.len());
    let fact = fact_at(alloc, node, &outcomes.as_slice()[0])?;
    Ok(fact)
}

/// The steps of the fact, whose own one is seen to be the last.
fn steps_of(
    rt: &impl Abort,
    alloc: Global,
    evaluator: &mut Evaluator<'_>,
    bank: &Bank,
    fact: &Fact,
    height: u32,
) -> Result<Steps, AllocError>
    requires stands { StandsFor evaluator.old bank.now }
    requires live { IsLive bank.now fact.now.node }
    requires within { Within evaluator.old.signature evaluator.old.rules height (tree_fact bank.now fact.now) }
    requires low { height ≤ 1000 }
    ensures { IfOk result (All (λ step. IsLive bank.now step.node)) }
{
    let mut steps = Steps::new(alloc);
    let id = derive(alloc, evaluator, bank, fact, height, &mut steps)?;
    assert_eq!(rt; Some(id.0), steps.len().checked_sub(1));
    Ok(steps)
}

/// The steps of the fact of the first outcome at 3.
fn derived_on(
    rt: &impl Abort,
    alloc: Global,
    evaluator: &mut Evaluator<'_>,
    bank: &Bank,
    node: TermId,
    height: u32,
) -> Result<Steps, AllocError>
    requires signature { evaluator.old.signature ≡ loops }
    requires stands { StandsFor evaluator.old bank.now }
    requires live { IsLive bank.now node }
    requires positive { 1 ≤ height }
    requires low { height ≤ 1000 }
    ensures { IfOk result (All (λ step. IsLive bank.now step.node)) }
{
    let fact = first_fact(rt, alloc, evaluator, bank, node, height)?;
    steps_of(rt, alloc, evaluator, bank, &fact, height)
}

/// The steps, with how they check at the height and at one less.
#[derive(Drop)]
struct Derived {
    steps: Steps,
    check: Result<(), BadStep>,
    lower_check: Result<(), BadStep>,
}

fn checked(
    signature: &Signature,
    book: &Rulebook,
    bank: &Bank,
    steps: Steps,
    height: u32,
) -> Derived
    requires live { All (λ step. IsLive bank.now step.node) steps }
    requires positive { 1 ≤ height }
{
    let check = steps.check(signature, book, bank, height);
    let lower_check = steps.check(signature, book, bank, height - 1);
    Derived {
        steps,
        check,
        lower_check,
    }
}

fn derived_in(
    rt: &impl Abort,
    alloc: Global,
    signature: &Signature,
    book: &Rulebook,
    bank: &Bank,
    node: TermId,
    height: u32,
) -> Result<Derived, AllocError>
    requires signature { signature.now ≡ loops }
    requires accepted { All (IsAccepted signature.now) book.now }
    requires live { IsLive bank.now node }
    requires positive { 1 ≤ height }
    requires low { height ≤ 1000 }
{
    let mut evaluator = Evaluator::new(alloc, signature, book);
    let steps = derived_on(rt, alloc, &mut evaluator, bank, node, height)?;
    Ok(checked(signature, book, bank, steps, height))
}

fn derived_over(
    rt: &impl Abort,
    alloc: Global,
    signature: &Signature,
    book: &Rulebook,
    height: u32,
) -> Result<Derived, AllocError>
    requires signature { signature.now ≡ loops }
    requires accepted { All (IsAccepted signature.now) book.now }
    requires positive { 1 ≤ height }
    requires low { height ≤ 1000 }
{
    let mut bank = Bank::new(alloc);
    let node = term(signature, &mut bank)?;
    derived_in(rt, alloc, signature, book, &bank, node, height)
}

fn derived_by(
    rt: &impl Abort,
    alloc: Global,
    signature: &Signature,
    height: u32,
) -> Result<Derived, AddError>
    requires signature { signature.now ≡ loops }
    requires positive { 1 ≤ height }
    requires low { height ≤ 1000 }
{
    let book = counting_rules(alloc, signature)?;
    Ok(derived_over(rt, alloc, signature, &book, height)?)
}

/// The steps of the first fact at 3 within the height.
fn steps_at_three(rt: &impl Abort, alloc: Global, height: u32) -> Result<Derived, AddError>
    requires positive { 1 ≤ height }
    requires low { height ≤ 1000 }
{
    let Ok(signature) = loops(alloc) else {
        return Err(AddError::Memory);
    };
    derived_by(rt, alloc, &signature, height)
}

fn expect_values(rt: &impl Abort, found: &[Value], wanted: &[i128]) {
    assert_eq!(rt; found.len(), wanted.len());
    for (value, number) in found.iter().zip(wanted) {
        assert_eq!(rt; *value, Value::Int(*number));
    }
}

fn expect_premises(rt: &impl Abort, found: &[StepId], wanted: &[usize]) {
    assert_eq!(rt; found.len(), wanted.len());
    for (premise, number) in found.iter().zip(wanted) {
        assert_eq!(rt; premise.0, *number);
    }
}

fn expect_step(rt: &impl Abort, steps: &Steps, number: usize, row: &Row) {
    let (rule, values, premises) = *row;
    let Some(step) = steps.get(number) else {
        return assert!(rt; false, "no step {number}");
    };
    assert_eq!(rt; step.rule, rule);
    expect_values(rt, step.values.as_slice(), values);
    expect_premises(rt, step.premises.as_slice(), premises);
}

fn expect_steps(rt: &impl Abort, steps: &Steps, rows: &[Row]) {
    assert_eq!(rt; steps.len(), rows.len());
    for (number, row) in rows.iter().enumerate() {
        expect_step(rt, steps, number, row);
    }
}

#[test]
fn four_rounds_are_four_steps(rt: HostRuntime) -> Result<(), Fail> {
    let derived = steps_at_three(&rt, rt.alloc(), 4)?;
    expect_steps(&rt, &derived.steps, &STEPS);
    assert_eq!(rt; derived.check, Ok(()));
    assert_eq!(rt; derived.lower_check, Err(BadStep { step: 3, reason: 6 }));
    Ok(())
}
