//! The check of an answer.
ghost use Rattle.std.specs.Prelude.{◌≡◌, ◌≤◌, ◌<◌, map, take, length, slice_get, option_map, option_and_then, All, MatchOption};
ghost use Rattle.std.specs.Option.{option_copied};
ghost use lib.Pointwise.{pointwise};
ghost use Rattle.sig_core.specs.Signatures.{kinds_of, plain_sorts};
ghost use Rattle.sig_core.specs.Values.{same_value};
ghost use Rattle.term_core.specs.Banks.{IsLive, tree_of};
ghost use Rattle.grammar_core.specs.Grammars.{Lang, start};
ghost use Rattle.problem_core.specs.Problems.{Solves, fact_on};
ghost use Rattle.deriv_core.specs.Steps.{step_fact, tree_step};
ghost use Rattle.answer_core.specs.Answers.{HasLiveIds, tree_answer};
ghost use Rattle.answer_core.specs.Facts.{is_fact, is_found};
ghost use Rattle.answer_core.specs.Verdicts.{IsFirstUnmet, IsVerdict, Meets, derived_fact};
ghost use Rattle.answer_core.specs.declared.answer.Verdict.TheVariants.{Valid};

use crate::answer::{Answer, Verdict};
use crate::subterms::{are_subterms, is_same};
use deriv_core::Step;
use grammar_core::NtId;
use problem_core::{Constraint, Problem};
use sig_core::{Kind, Param, RelId, Signature, Value, params_of};
use term_core::{Bank, TermId};

/// Whether the answer is one to the problem within the height: the first test that fails, in the order of the verdicts.
/// It takes no memory.
pub fn check(problem: &Problem, answer: &Answer, height: u32) -> Verdict
    requires { HasLiveIds answer.now }
    ensures verdict { IsVerdict problem.now height (tree_answer answer.now) result }
    ensures member { result ≡ Valid → Lang problem.now.grammar start (tree_answer answer.now).term }
    ensures solves { result ≡ Valid → Solves problem.now height (tree_answer answer.now).term }
{
    let bank = &answer.bank;
    if !are_subterms(bank, answer.root, answer.nodes.as_slice()) {
        return Verdict::Nodes;
    }
    if u64::from(bank.size(answer.root)) != answer.size {
        return Verdict::Size;
    }
    if !problem.grammar().member(NtId(0), bank, answer.root) {
        return Verdict::Grammar;
    }
    if let Err(bad) = answer
        .steps
        .check(problem.signature(), problem.rulebook(), bank, height)
    {
        return Verdict::Step(bad);
    }
    match first_unmet(problem, answer) {
        Some(number) => Verdict::Constraint(number),
        None => Verdict::Valid,
    }
}

/// The first constraint whose step has another fact.
fn first_unmet(problem: &Problem, answer: &Answer) -> Option<u32>
    requires { HasLiveIds answer.now }
    ensures { MatchOption result
        ((k : _) → k < length problem.now.constraints → Meets problem.now (tree_answer answer.now) k)
        (IsFirstUnmet problem.now (tree_answer answer.now)) }
{
    for (number, constraint) in problem.constraints().iter().enumerate() {
        if !is_met(problem.signature(), answer, number, constraint) {
            return Some(number as u32);
        }
    }
    None
}

/// Whether the step of the constraint with this number has its fact.
fn is_met(signature: &Signature, answer: &Answer, number: usize, constraint: &Constraint) -> bool
    requires { HasLiveIds answer.now }
    ensures { result ≡ is_found (derived_fact signature.now (tree_answer answer.now) number) (fact_on (tree_answer answer.now).term constraint.now) }
{
    match step_of(answer, number) {
        Some(step) => has_fact(signature, &answer.bank, answer.root, step, constraint),
        None => false,
    }
}

/// The step of the constraint with this number.
fn step_of(answer: &Answer, number: usize) -> Option<&Step>
    ensures { option_copied result ≡ option_and_then (slice_get answer.now.steps) (slice_get (map (λ id. id.0) answer.now.derived) number) }
{
    let id = *items::at(answer.derived.as_slice(), number)?;
    answer.steps.get(id.0)
}

/// Whether the fact of the step is the constraint on the root.
fn has_fact(
    signature: &Signature,
    bank: &Bank,
    root: TermId,
    step: &Step,
    constraint: &Constraint,
) -> bool
    requires root { IsLive bank.now root }
    requires step { IsLive bank.now step.now.node }
    ensures { result ≡ is_fact (step_fact signature.now (tree_step bank.now step.now)) (fact_on (tree_of bank.now root) constraint.now) }
{
    step.relation == constraint.relation
        && is_same(bank, step.node, root)
        && have_values(
            params_of(signature, step.relation),
            step.values.as_slice(),
            constraint.args.as_slice(),
        )
}

/// Whether the first of the values, one for each parameter that isn't a term, are these.
fn have_values(params: &[Param], values: &[Value], wanted: &[Value]) -> bool
    ensures { result ≡ pointwise same_value (take (length (plain_sorts (map (λ p. p.kind) params.now))) values.now) wanted.now }
{
    let [param, params @ ..] = params else {
        return wanted.is_empty();
    };
    match param.kind {
        Kind::Term(_) => have_values(params, values, wanted),
        Kind::Input(_) | Kind::Output(_) => match (values, wanted) {
            ([value, values @ ..], [want, wanted @ ..]) => {
                is_value(*value, *want) && have_values(params, values, wanted)
            }
            _ => values.is_empty() && wanted.is_empty(),
        },
    }
}

fn is_value(value: Value, want: Value) -> bool
    ensures { result ≡ same_value value want }
{
    match (value, want) {
        (Value::Int(m), Value::Int(n)) => m == n,
        (Value::Bool(a), Value::Bool(b)) => a == b,
        _ => false,
    }
}
