ghost use Rattle.std.specs.Prelude.{◌<◌, ◌≤◌, ◌^◌, length, IfOk};
ghost use Rattle.expr_core.specs.Expressions.{node_count};
ghost use Rattle.rule_core.specs.Rulebooks.{HasSmallParts, IsRuleOf};
ghost use Rattle.example_rules.specs.Examples.{example};

use example_rules::{
    CHOICE, GIVES, MAPS, PLUS, alone, call, example, pair, rule, slot, successor, variables,
};
use expr_core::Expr;
use rule_core::{AddError, Atom, Rule, Rulebook, Who};
use sig_core::{RelId, Signature, Value};
use std::alloc::Global;

/// A rule of a relation with one atom.
fn with_atom(alloc: Global, relation: RelId, atom: Atom) -> Result<Rule, AddError>
    requires relation { relation.0 < 2 }
    requires atom { HasSmallParts atom }
    ensures { IfOk result (IsRuleOf example) }
{
    let atoms = alone(alloc, atom)?;
    Ok(rule(alloc, relation, PLUS, variables(alloc, 0)?, atoms))
}

/// Whether the sum hands on at each child.
fn hands(book: &Rulebook, signature: &Signature) -> (bool, bool) {
    let left = book.hands_on(signature, PLUS, 0);
    (left, book.hands_on(signature, PLUS, 1))
}

/// The same after one more rule in a short book.
fn hands_after(
    book: &mut Rulebook,
    signature: &Signature,
    rule: Rule,
) -> Result<(bool, bool), AddError>
    requires short { length book.old ≤ 1 }
    requires rule { IsRuleOf signature.now rule }
{
    book.add(signature, rule)?;
    Ok(hands(book, signature))
}

/// The same of two rules, in order.
fn hands_by(
    alloc: Global,
    signature: &Signature,
    first: Rule,
    second: Rule,
) -> Result<(bool, bool), AddError>
    requires first { IsRuleOf signature.now first }
    requires second { IsRuleOf signature.now second }
{
    let mut book = Rulebook::new(alloc);
    book.add(signature, first)?;
    hands_after(&mut book, signature, second)
}

/// Whether the sum hands on at each child, by the rule.
fn handed_alone(alloc: Global, rule: Rule) -> Result<(bool, bool), AddError>
    requires { IsRuleOf example rule }
{
    match example(alloc) {
        Ok(signature) => hands_after(&mut Rulebook::new(alloc), &signature, rule),
        Err(_) => Err(AddError::Memory),
    }
}

/// Whether the sum hands on at each child, by the rules in order.
fn handed(alloc: Global, first: Rule, second: Rule) -> Result<(bool, bool), AddError>
    requires first { IsRuleOf example first }
    requires second { IsRuleOf example second }
{
    match example(alloc) {
        Ok(signature) => hands_by(alloc, &signature, first, second),
        Err(_) => Err(AddError::Memory),
    }
}

/// The rule asks for the first child at the input.
fn on_child(alloc: Global, input: Expr) -> Result<Rule, AddError>
    requires { node_count input < 2 ^ 32 }
    ensures { IfOk result (IsRuleOf example) }
{
    let atom = call(alloc, MAPS, Who::Child(0), input, slot(1))?;
    with_atom(alloc, MAPS, atom)
}

fn same_input(alloc: Global) -> Result<(bool, bool), AddError> {
    let rule = on_child(alloc, slot(0))?;
    handed_alone(alloc, rule)
}

fn shifted_input(alloc: Global) -> Result<(bool, bool), AddError> {
    let further = successor(alloc, 0)?;
    let rule = on_child(alloc, further)?;
    handed_alone(alloc, rule)
}

/// The second relation's rule asks for the first child at 1.
fn at_one(alloc: Global) -> Result<Rule, AddError>
    ensures { IfOk result (IsRuleOf example) }
{
    let one = Expr::Lit(Value::Int(1));
    let atom = call(alloc, MAPS, Who::Child(0), one, slot(0))?;
    with_atom(alloc, GIVES, atom)
}

/// A rule asks for the term itself one further on.
fn own_call(alloc: Global) -> Result<Rule, AddError>
    ensures { IfOk result (IsRuleOf example) }
{
    let further = successor(alloc, 0)?;
    let atom = call(alloc, MAPS, Who::Own, further, slot(1))?;
    with_atom(alloc, MAPS, atom)
}

/// Another rule stands after the one that asks for the first child at the input.
fn before(alloc: Global, second: Rule) -> Result<(bool, bool), AddError>
    requires { IsRuleOf example second }
{
    match on_child(alloc, slot(0)) {
        Ok(first) => handed(alloc, first, second),
        Err(error) => Err(error),
    }
}

fn before_at_one(alloc: Global) -> Result<(bool, bool), AddError> {
    let second = at_one(alloc)?;
    before(alloc, second)
}

fn before_own_call(alloc: Global) -> Result<(bool, bool), AddError> {
    let second = own_call(alloc)?;
    before(alloc, second)
}

/// A rule that asks for both children at the input, as the sum does.
fn on_both(alloc: Global) -> Result<Rule, AddError>
    ensures { IfOk result (IsRuleOf example) }
{
    let left = call(alloc, MAPS, Who::Child(0), slot(0), slot(1))?;
    let right = call(alloc, MAPS, Who::Child(1), slot(0), slot(1))?;
    let atoms = pair(alloc, left, right)?;
    Ok(rule(alloc, MAPS, PLUS, variables(alloc, 0)?, atoms))
}

fn both_children(alloc: Global) -> Result<(bool, bool), AddError> {
    let rule = on_both(alloc)?;
    handed_alone(alloc, rule)
}

/// Whether the choice hands on at its second child, where the sum alone has a rule.
fn choice_by(alloc: Global, signature: &Signature, rule: Rule) -> Result<bool, AddError>
    requires { IsRuleOf signature.now rule }
{
    let mut book = Rulebook::new(alloc);
    book.add(signature, rule)?;
    Ok(book.hands_on(signature, CHOICE, 1))
}

fn choice_with(alloc: Global, rule: Rule) -> Result<bool, AddError>
    requires { IsRuleOf example rule }
{
    match example(alloc) {
        Ok(signature) => choice_by(alloc, &signature, rule),
        Err(_) => Err(AddError::Memory),
    }
}

fn without_rules(alloc: Global) -> Result<bool, AddError> {
    let further = successor(alloc, 0)?;
    let rule = on_child(alloc, further)?;
    choice_with(alloc, rule)
}

#[test]
fn a_constructor_without_rules_hands_on(rt: HostRuntime) {
    assert_eq!(rt; without_rules(rt.alloc()), Ok(true));
}

#[test]
fn hands_on_where_inputs_are_handed_on(rt: HostRuntime) {
    assert_eq!(rt; same_input(rt.alloc()), Ok((true, true)));
    assert_eq!(rt; both_children(rt.alloc()), Ok((true, true)));
}

#[test]
fn shifts_no_input_on(rt: HostRuntime) {
    assert_eq!(rt; shifted_input(rt.alloc()), Ok((false, true)));
}

#[test]
fn the_rules_of_each_relation_count(rt: HostRuntime) {
    assert_eq!(rt; before_at_one(rt.alloc()), Ok((false, true)));
}

#[test]
fn calls_on_the_term_itself_count(rt: HostRuntime) {
    assert_eq!(rt; before_own_call(rt.alloc()), Ok((false, false)));
}
