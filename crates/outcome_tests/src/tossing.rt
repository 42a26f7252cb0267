//! Two rules of one constructor, each with an output of its own.
ghost use Rattle.std.specs.Prelude.{All, IfOk};
ghost use Rattle.eval_core.specs.Evaluations.{IsAccepted};

use crate::expecting::expect;
use example_atoms::{giving, number};
use example_outcomes::{Given, Question, add_constant, found_by, two_rules};
use example_terms::{E, LEAF, Language, signature_of};
use rule_core::{AddError, Rulebook};
use sig_core::{ConId, RelId, SigError, Signature};
use std::alloc::Global;

const S: RelId = RelId(0);

const LANGUAGE: Language = Language {
    types: &[b"E"],
    constructors: &[(b"$c", E, &[])],
};

/// `($c (= r first)) ($c (= r second))`
fn book(
    alloc: Global,
    signature: &Signature,
    first: i128,
    second: i128,
) -> Result<Rulebook, AddError>
    ensures { IfOk result (All (IsAccepted signature.now)) }
{
    let first = giving(alloc, S, ConId(0), 0, number(first));
    let second = giving(alloc, S, ConId(0), 0, number(second));
    two_rules(alloc, signature, first, second)
}

fn signature(alloc: Global) -> Result<Signature, SigError> {
    let mut signature = signature_of(alloc, &LANGUAGE)?;
    add_constant(alloc, &mut signature, b"S", E)?;
    Ok(signature)
}

fn given_by(
    alloc: Global,
    signature: &Signature,
    first: i128,
    second: i128,
) -> Result<Given, AddError> {
    let question = Question {
        relation: S,
        inputs: &[],
        height: 1,
    };
    let book = book(alloc, signature, first, second);
    found_by(alloc, signature, book, &LEAF, &question)
}

/// What two rules with these outputs give.
fn given(alloc: Global, first: i128, second: i128) -> Result<Given, AddError> {
    match signature(alloc) {
        Ok(signature) => given_by(alloc, &signature, first, second),
        Err(_) => Err(AddError::Memory),
    }
}

#[test]
fn both_rules_are_run(rt: HostRuntime) {
    expect(&rt, given(rt.alloc(), 0, 1), &[(0, 1), (1, 1)]);
    expect(&rt, given(rt.alloc(), 1, 0), &[(0, 1), (1, 1)]);
    expect(&rt, given(rt.alloc(), 1, 1), &[(1, 1)]);
}
