ghost use Rattle.std.specs.Prelude.{◌≡◌, ◌≤◌, ◌+◌, length, All, IfOk, OnOk};
ghost use Rattle.eval_core.specs.Evaluations.{IsAccepted, StandsFor};
ghost use Rattle.example_atoms.specs.Rules.{IsShort};

use crate::conditions::{are_inputs_of, is_rule};
use eval_core::{Evaluator, Outcome, Outcomes};
use example_terms::{Node, interned};
use rule_core::{AddError, Rule, Rulebook};
use sig_core::{RelId, Signature, Value};
use std::alloc::{AllocError, Global};
use term_core::{Bank, TermId};

/// Adds a rule to a short book. One that isn't the signature's isn't added, as if memory were refused.
pub fn add(book: &mut Rulebook, signature: &Signature, rule: Rule) -> Result<(), AddError>
    requires short { length book.old ≤ 7 }
    requires rule { IsShort rule }
    requires accepted { All (IsAccepted signature.now) book.old }
    ensures short { OnOk result (length book.new ≡ length book.old + 1) }
    ensures accepted { OnOk result (All (IsAccepted signature.now) book.new) }
{
    if is_rule(signature, &rule) {
        book.add(signature, rule)
    } else {
        Err(AddError::Memory)
    }
}

/// Adds a rule that was made, unless memory was refused for it.
pub fn add_made(
    book: &mut Rulebook,
    signature: &Signature,
    made: Result<Rule, AllocError>,
) -> Result<(), AddError>
    requires short { length book.old ≤ 7 }
    requires rule { IfOk made IsShort }
    requires accepted { All (IsAccepted signature.now) book.old }
    ensures short { OnOk result (length book.new ≡ length book.old + 1) }
    ensures accepted { OnOk result (All (IsAccepted signature.now) book.new) }
{
    match made {
        Ok(rule) => add(book, signature, rule),
        Err(_) => Err(AddError::Memory),
    }
}

/// A book of two rules that were made, unless memory was refused for one.
pub fn two_rules(
    alloc: Global,
    signature: &Signature,
    first: Result<Rule, AllocError>,
    second: Result<Rule, AllocError>,
) -> Result<Rulebook, AddError>
    requires first { IfOk first IsShort }
    requires second { IfOk second IsShort }
    ensures short { IfOk result (λ book. length book ≡ 2) }
    ensures accepted { IfOk result (All (IsAccepted signature.now)) }
{
    let mut book = Rulebook::new(alloc);
    add_made(&mut book, signature, first)?;
    add_made(&mut book, signature, second)?;
    Ok(book)
}

/// What a relation gives at inputs, within a height.
#[derive(Clone, Copy)]
pub struct Question<'a> {
    pub relation: RelId,
    pub inputs: &'a [Value],
    pub height: u32,
}

/// What the relation gives on the term. Where the question can't be asked, nothing, as if memory were refused.
fn outcomes(
    evaluator: &mut Evaluator<'_>,
    bank: &Bank,
    id: TermId,
    question: &Question<'_>,
) -> Result<Outcomes, AllocError>
    requires { StandsFor evaluator.old bank.now }
{
    let Question {
        relation,
        inputs,
        height,
    } = *question;
    if height >= 1
        && height <= 1000
        && id.0 < bank.len()
        && are_inputs_of(evaluator.signature(), relation, inputs)
    {
        evaluator.outcomes(bank, relation, id, inputs, height)
    } else {
        Err(AllocError)
    }
}

/// Numbers that are given, each with its height.
pub type Given = Vec<(i128, u32)>;

fn pairs(alloc: Global, outcomes: &[Outcome]) -> Result<Given, AllocError> {
    let mut pairs = Vec::new(alloc);
    for outcome in outcomes {
        if let [Value::Int(output)] = outcome.outputs.as_slice() {
            pairs.push((*output, outcome.height))?;
        }
    }
    Ok(pairs)
}

/// What the relation gives on the term.
fn given(
    alloc: Global,
    evaluator: &mut Evaluator<'_>,
    bank: &Bank,
    id: TermId,
    question: &Question<'_>,
) -> Result<Given, AllocError>
    requires { StandsFor evaluator.old bank.now }
{
    let outcomes = outcomes(evaluator, bank, id, question)?;
    pairs(alloc, outcomes.as_slice())
}

fn found_in(
    alloc: Global,
    signature: &Signature,
    book: &Rulebook,
    bank: &Bank,
    question: &Question<'_>,
) -> Result<Given, AllocError>
    requires { All (IsAccepted signature.now) book.now }
{
    let Some(last) = bank.len().checked_sub(1) else {
        return Err(AllocError);
    };
    let mut evaluator = Evaluator::new(alloc, signature, book);
    given(alloc, &mut evaluator, bank, TermId(last), question)
}

fn found(
    alloc: Global,
    signature: &Signature,
    book: &Rulebook,
    nodes: &[Node],
    question: &Question<'_>,
) -> Result<Given, AddError>
    requires { All (IsAccepted signature.now) book.now }
{
    match interned(alloc, signature, nodes) {
        Ok(bank) => Ok(found_in(alloc, signature, book, &bank, question)?),
        Err(_) => Err(AddError::Memory),
    }
}

/// What the relation gives on the last of the nodes by rules that were made, unless memory was refused for them.
pub fn found_by(
    alloc: Global,
    signature: &Signature,
    book: Result<Rulebook, AddError>,
    nodes: &[Node],
    question: &Question<'_>,
) -> Result<Given, AddError>
    requires { IfOk book (All (IsAccepted signature.now)) }
{
    match book {
        Ok(book) => found(alloc, signature, &book, nodes, question),
        Err(error) => Err(error),
    }
}
