//! Examples, and whether they hold on a term.
ghost use Rattle.std.specs.Prelude.{◌≡◌, ◌≤◌, ◌↔◌, All, Contains, IfOk, IsTrue, MatchBool, map};
ghost use Rattle.sig_core.specs.Signatures.{inputs_of, outputs_of};
ghost use Rattle.term_core.specs.Banks.{IsLive, tree_of};
ghost use Rattle.eval_core.specs.Evaluations.{StandsFor};
ghost use Rattle.solve_core.specs.Examples.{as_example, examples_of, HoldsOn, IsExampleOf};

use eval_core::{Evaluator, Outcome};
use items::Items;
use problem_core::{Constraint, Problem};
use sig_core::{Kind, Param, RelId, Signature, Value, Values, inputs_of, outputs_of, params_of};
use std::alloc::{AllocError, Global};
use term_core::{Bank, TermId};

/// A constraint, with the values of its relation's inputs and outputs apart.
#[derive(Debug, Drop)]
pub(crate) struct Example {
    pub relation: RelId,
    pub inputs: Values,
    pub outputs: Values,
}

pub(crate) type Examples = Items<Example>;

/// The examples of the problem, in order.
pub(crate) fn examples_of(alloc: Global, problem: &Problem) -> Result<Examples, AllocError>
    ensures { IfOk result (λ examples. examples ≡ examples_of problem.now) }
{
    let signature = problem.signature();
    let mut examples = Examples::new(alloc);
    for constraint in problem.constraints() {
        examples.push(as_example(alloc, signature, constraint)?)?;
    }
    Ok(examples)
}

fn as_example(
    alloc: Global,
    signature: &Signature,
    constraint: &Constraint,
) -> Result<Example, AllocError>
    ensures { IfOk result (λ example. example ≡ as_example signature.now constraint.now) }
{
    let params = params_of(signature, constraint.relation);
    let args = constraint.args.as_slice();
    let inputs = inputs_of(alloc, params, args)?;
    let outputs = outputs_of(alloc, params, args)?;
    Ok(Example {
        relation: constraint.relation,
        inputs,
        outputs,
    })
}

/// Whether each example holds on the term. The first that doesn't is the last that is asked.
pub(crate) fn all_hold(
    evaluator: &mut Evaluator<'_>,
    bank: &Bank,
    id: TermId,
    examples: &[Example],
    height: u32,
) -> Result<bool, AllocError>
    requires stands { StandsFor evaluator.old bank.now }
    requires live { IsLive bank.now id }
    requires examples { All (IsExampleOf evaluator.old.signature) examples.now }
    requires positive { 1 ≤ height }
    requires low { height ≤ 1000 }
    ensures all { IfOk result (λ all. MatchBool all
        (All (HoldsOn evaluator.old.signature evaluator.old.rules height (tree_of bank.now id)) examples.now)
        (¬ All (HoldsOn evaluator.old.signature evaluator.old.rules height (tree_of bank.now id)) examples.now)) }
    ensures signature { evaluator.new.signature ≡ evaluator.old.signature }
    ensures rules { evaluator.new.rules ≡ evaluator.old.rules }
    ensures stands { StandsFor evaluator.new bank.now }
{
    for example in examples {
        if !holds(evaluator, bank, id, example, height)? {
            return Ok(false);
        }
    }
    Ok(true)
}

fn holds(
    evaluator: &mut Evaluator<'_>,
    bank: &Bank,
    id: TermId,
    example: &Example,
    height: u32,
) -> Result<bool, AllocError>
    requires stands { StandsFor evaluator.old bank.now }
    requires live { IsLive bank.now id }
    requires example { IsExampleOf evaluator.old.signature example.now }
    requires positive { 1 ≤ height }
    requires low { height ≤ 1000 }
    ensures holds { IfOk result (λ holds. MatchBool holds
        (HoldsOn evaluator.old.signature evaluator.old.rules height (tree_of bank.now id) example.now)
        (¬ HoldsOn evaluator.old.signature evaluator.old.rules height (tree_of bank.now id) example.now)) }
    ensures signature { evaluator.new.signature ≡ evaluator.old.signature }
    ensures rules { evaluator.new.rules ≡ evaluator.old.rules }
    ensures stands { StandsFor evaluator.new bank.now }
{
    let inputs = example.inputs.as_slice();
    let outcomes = evaluator.fresh_outcomes(bank, example.relation, id, inputs, height)?;
    Ok(has_outputs(outcomes.as_slice(), example.outputs.as_slice()))
}

/// Whether one of the outcomes has these outputs.
fn has_outputs(outcomes: &[Outcome], outputs: &[Value]) -> bool
    ensures { MatchBool result
        (Contains (map (λ o. o.outputs) outcomes.now) outputs.now)
        (All (λ o. ¬ (o.outputs ≡ outputs.now)) outcomes.now) }
{
    for outcome in outcomes {
        if are_same(outcome.outputs.as_slice(), outputs) {
            return true;
        }
    }
    false
}

fn are_same(left: &[Value], right: &[Value]) -> bool
    ensures { IsTrue result ↔ (left.now ≡ right.now) }
{
    left == right
}
