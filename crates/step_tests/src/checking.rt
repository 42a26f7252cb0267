ghost use Rattle.std.specs.Prelude.{◌≡◌, IfOk};
ghost use Rattle.term_core.specs.Banks.{IsLive};
ghost use Rattle.example_loops.specs.Loops.{loops};

use crate::steps::{Row, steps_of};
use deriv_core::BadStep;
use example_loops::{LOOP, fibonacci_rules, loops};
use rule_core::{AddError, Rulebook};
use sig_core::Signature;
use std::alloc::{AllocError, Global};
use std::process::Abort;
use term_core::{Bank, TermId};

/// The facts `S(0, 0)`, `S(1, 1)` and `S(2, 1)`.
const AT_0: Row = (0, &[0, 0], &[]);

const AT_1: Row = (0, &[1, 1], &[]);

const AT_2: Row = (1, &[2, 1, 1, 0], &[1, 0]);

/// Steps, the bound on their heights, and the first bad step with its reason.
type Case = (&'static [Row], u32, usize, u8);

/// The term, in a bank of its own.
fn term(signature: &Signature, bank: &mut Bank) -> Result<TermId, AllocError>
    ensures { IfOk result (IsLive bank.new) }
{
    bank.intern(signature, LOOP, &[])
}

fn checked_by(
    alloc: Global,
    signature: &Signature,
    book: &Rulebook,
    rows: &[Row],
    height: u32,
) -> Result<Result<(), BadStep>, AllocError> {
    let mut bank = Bank::new(alloc);
    let term = term(signature, &mut bank)?;
    let steps = steps_of(alloc, term, &bank, rows)?;
    Ok(steps.check(signature, book, &bank, height))
}

fn checked_in(
    alloc: Global,
    signature: &Signature,
    rows: &[Row],
    height: u32,
) -> Result<Result<(), BadStep>, AddError>
    requires { signature.now ≡ loops }
{
    let book = fibonacci_rules(alloc, signature)?;
    Ok(checked_by(alloc, signature, &book, rows, height)?)
}

/// How the steps check within the height.
fn checked(alloc: Global, rows: &[Row], height: u32) -> Result<Result<(), BadStep>, AddError> {
    let Ok(signature) = loops(alloc) else {
        return Err(AddError::Memory);
    };
    checked_in(alloc, &signature, rows, height)
}

fn expect(rt: &impl Abort, alloc: Global, cases: &[Case]) {
    for (rows, height, step, reason) in cases {
        let bad = BadStep {
            step: *step,
            reason: *reason,
        };
        assert_eq!(rt; checked(alloc, rows, *height), Ok(Err(bad)));
    }
}

#[test]
fn each_fact_follows_from_earlier_ones(rt: HostRuntime) {
    assert_eq!(rt; checked(rt.alloc(), &[AT_0, AT_1, AT_2], 2), Ok(Ok(())));
}

/// There is no third rule; a value is missing.
const SHAPES: [Case; 2] = [
    (&[AT_0, (2, &[0, 0], &[])], 1, 1, 1),
    (&[AT_0, (0, &[0], &[])], 1, 1, 2),
];

#[test]
fn a_step_is_of_a_rule_and_has_its_values(rt: HostRuntime) {
    expect(&rt, rt.alloc(), &SHAPES);
}

/// A premise is the step itself; one is missing; one is of another fact; the two are swapped; `(- x 1)` has no value.
const PREMISES: [Case; 5] = [
    (&[AT_0, AT_1, (1, &[2, 1, 1, 0], &[1, 2])], 2, 2, 3),
    (&[AT_0, AT_1, (1, &[2, 1, 1, 0], &[1])], 2, 2, 4),
    (&[AT_0, AT_1, (1, &[2, 1, 1, 0], &[1, 1])], 2, 2, 4),
    (&[AT_0, AT_1, (1, &[2, 1, 1, 0], &[0, 1])], 2, 2, 4),
    (&[AT_0, AT_1, (1, &[i128::MIN, 1, 1, 0], &[1, 0])], 2, 2, 4),
];

#[test]
fn premises_are_earlier_steps_with_the_facts_of_the_calls(rt: HostRuntime) {
    expect(&rt, rt.alloc(), &PREMISES);
}

/// A test and a fill that don't hold, and two steps that are too high.
const BOUNDS: [Case; 4] = [
    (&[AT_0, AT_1, (0, &[2, 2], &[])], 1, 2, 5),
    (&[AT_0, AT_1, (1, &[2, 9, 1, 0], &[1, 0])], 2, 2, 5),
    (&[AT_0, AT_1, AT_2], 1, 2, 6),
    (&[AT_0], 0, 0, 6),
];

#[test]
fn atoms_hold_and_heights_are_bounded(rt: HostRuntime) {
    expect(&rt, rt.alloc(), &BOUNDS);
}

/// A swapped premise and a wrong sum; a wrong sum above the bound; a value too few before a step that is too high.
const TWICE_BAD: [Case; 3] = [
    (&[AT_0, AT_1, (1, &[2, 9, 1, 0], &[0, 1])], 2, 2, 4),
    (&[AT_0, AT_1, (1, &[2, 9, 1, 0], &[1, 0])], 1, 2, 5),
    (&[AT_0, (0, &[1], &[]), AT_2], 1, 1, 2),
];

#[test]
fn the_first_bad_step_has_its_least_reason(rt: HostRuntime) {
    expect(&rt, rt.alloc(), &TWICE_BAD);
}

fn height_by(
    alloc: Global,
    signature: &Signature,
    rows: &[Row],
    number: usize,
) -> Result<Option<usize>, AllocError> {
    let mut bank = Bank::new(alloc);
    let term = term(signature, &mut bank)?;
    let steps = steps_of(alloc, term, &bank, rows)?;
    Ok(steps.height(number))
}

/// The height of the step with this number.
fn height(alloc: Global, rows: &[Row], number: usize) -> Result<Option<usize>, AllocError> {
    let Ok(signature) = loops(alloc) else {
        return Err(AllocError);
    };
    height_by(alloc, &signature, rows, number)
}

#[test]
fn a_step_is_above_its_earlier_premises(rt: HostRuntime) {
    let rows: [Row; 3] = [AT_0, AT_1, AT_2];
    assert_eq!(rt; height(rt.alloc(), &rows, 1), Ok(Some(1)));
    assert_eq!(rt; height(rt.alloc(), &rows, 2), Ok(Some(2)));
    assert_eq!(rt; height(rt.alloc(), &rows, 3), Ok(None));
}

#[test]
fn a_premise_that_is_not_earlier_counts_as_0(rt: HostRuntime) {
    let rows: [Row; 3] = [
        AT_0,
        (1, &[2, 1, 1, 0], &[1, 2]),
        (1, &[2, 1, 1, 0], &[0, 2]),
    ];
    assert_eq!(rt; height(rt.alloc(), &rows, 1), Ok(Some(1)));
    assert_eq!(rt; height(rt.alloc(), &rows, 2), Ok(Some(2)));
}
