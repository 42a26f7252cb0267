ghost use Rattle.std.specs.Prelude.{◌<◌, ◌≤◌};
ghost use Rattle.rule_core.specs.Rulebooks.{HasSmallParts, IsRuleOf};
ghost use Rattle.example_rules.specs.Examples.{example};

use example_rules::{
    CHOICE, GIVES, MAPS, PLUS, alone, call, example, is_one, one, ones, pair, rule, slot,
    successor, variables,
};
use expr_core::Expr;
use rule_core::{AddError, Atom, Atoms, FlowFault, Rule, Rulebook, Who};
use sig_core::{ConId, RelId, Value};
use std::alloc::Global;

fn added(alloc: Global, rule: Rule) -> Result<(), AddError>
    requires { IsRuleOf example rule }
{
    let Ok(signature) = example(alloc) else {
        return Err(AddError::Memory);
    };
    let mut book = Rulebook::new(alloc);
    book.add(&signature, rule)
}

/// A rule for the constructor with one atom.
fn only(alloc: Global, con: ConId, atom: Atom) -> Result<(), AddError>
    requires con { con.0 < 2 }
    requires atom { HasSmallParts atom }
{
    let atoms = alone(alloc, atom)?;
    added(alloc, rule(alloc, MAPS, con, variables(alloc, 0)?, atoms))
}

/// A rule with two atoms, and with one existential in slot 2.
fn both(alloc: Global, first: Atom, second: Atom) -> Result<(), AddError>
    requires first { HasSmallParts first }
    requires second { HasSmallParts second }
{
    let atoms = pair(alloc, first, second)?;
    added(alloc, rule(alloc, MAPS, PLUS, variables(alloc, 1)?, atoms))
}

/// A rule whose one atom is a call from slot 0 to slot 1.
fn of_call(alloc: Global, con: ConId, relation: RelId, who: Who) -> Result<(), AddError>
    requires { con.0 < 2 }
{
    let atom = call(alloc, relation, who, slot(0), slot(1))?;
    only(alloc, con, atom)
}

fn fault(reason: u8, atom: u32, slot: u8) -> Result<(), AddError> {
    Err(AddError::Flow(FlowFault { reason, atom, slot }))
}

#[test]
fn an_unknown_relation_does_not_fit(rt: HostRuntime) {
    assert_eq!(rt;
        of_call(rt.alloc(), PLUS, RelId(2), Who::Child(0)),
        fault(4, 0, 0)
    );
}

#[test]
fn a_child_that_the_constructor_lacks_does_not_fit(rt: HostRuntime) {
    assert_eq!(rt;
        of_call(rt.alloc(), PLUS, MAPS, Who::Child(2)),
        fault(4, 0, 0)
    );
}

#[test]
fn a_child_of_another_type_does_not_fit(rt: HostRuntime) {
    assert_eq!(rt;
        of_call(rt.alloc(), CHOICE, MAPS, Who::Child(0)),
        fault(4, 0, 0)
    );
    assert_eq!(rt; of_call(rt.alloc(), CHOICE, MAPS, Who::Child(1)), Ok(()));
}

#[test]
fn another_number_of_arguments_does_not_fit(rt: HostRuntime) {
    assert_eq!(rt;
        of_call(rt.alloc(), PLUS, GIVES, Who::Child(0)),
        fault(4, 0, 0)
    );
}

#[test]
fn a_call_on_the_term_itself_is_accepted(rt: HostRuntime) {
    assert_eq!(rt; of_call(rt.alloc(), PLUS, MAPS, Who::Own), Ok(()));
}

#[test]
fn a_slot_that_the_rule_lacks_does_not_fit(rt: HostRuntime) {
    assert_eq!(rt;
        only(rt.alloc(), PLUS, Atom::Fill(1, Expr::Slot(9))),
        fault(4, 0, 0)
    );
    assert_eq!(rt;
        only(rt.alloc(), PLUS, Atom::Fill(9, Expr::Slot(0))),
        fault(4, 0, 0)
    );
}

#[test]
fn another_sort_does_not_fit(rt: HostRuntime) {
    assert_eq!(rt;
        only(
            rt.alloc(),
            PLUS,
            Atom::Fill(1, Expr::Lit(Value::Bool(true)))
        ),
        fault(4, 0, 0)
    );
    assert_eq!(rt;
        only(rt.alloc(), PLUS, Atom::Test(Expr::Slot(0))),
        fault(4, 0, 0)
    );
}

/// A slot that is filled twice.
fn filled_twice(alloc: Global) -> Result<(), AddError> {
    let atoms = pair(alloc, one(1), one(1))?;
    added(alloc, rule(alloc, MAPS, PLUS, variables(alloc, 0)?, atoms))
}

#[test]
fn a_known_slot_is_not_filled_again(rt: HostRuntime) {
    assert_eq!(rt; filled_twice(rt.alloc()), fault(4, 1, 0));
}

/// A call on the term itself whose input is the existential, before the atom that fills it.
fn early(alloc: Global) -> Result<(), AddError> {
    let on_itself = call(alloc, MAPS, Who::Own, slot(2), slot(1))?;
    both(alloc, on_itself, one(2))
}

/// The same call after that atom.
fn in_time(alloc: Global) -> Result<(), AddError> {
    let on_itself = call(alloc, MAPS, Who::Own, slot(2), slot(1))?;
    both(alloc, one(2), on_itself)
}

#[test]
fn a_variable_is_known_from_its_fill_on(rt: HostRuntime) {
    assert_eq!(rt; early(rt.alloc()), fault(1, 0, 0));
    assert_eq!(rt; in_time(rt.alloc()), Ok(()));
}

/// A test that the slot is 1, after the output is filled.
fn tested(alloc: Global, number: u8) -> Result<(), AddError> {
    let atoms = pair(alloc, one(1), is_one(alloc, number)?)?;
    added(alloc, rule(alloc, MAPS, PLUS, variables(alloc, 1)?, atoms))
}

#[test]
fn a_test_fills_no_variable(rt: HostRuntime) {
    assert_eq!(rt; tested(rt.alloc(), 2), fault(1, 1, 0));
    assert_eq!(rt; tested(rt.alloc(), 1), fault(3, 2, 2));
}

/// A call whose output argument is one more than the slot, and then the rule's output.
fn compared(alloc: Global, number: u8) -> Result<(), AddError> {
    let further = successor(alloc, number)?;
    let on_child = call(alloc, MAPS, Who::Child(0), slot(0), further)?;
    let atoms = pair(alloc, on_child, one(1))?;
    added(alloc, rule(alloc, MAPS, PLUS, variables(alloc, 0)?, atoms))
}

#[test]
fn an_output_that_is_no_variable_is_compared(rt: HostRuntime) {
    assert_eq!(rt; compared(rt.alloc(), 0), Ok(()));
    assert_eq!(rt; compared(rt.alloc(), 1), fault(1, 0, 0));
}

fn no_atoms(alloc: Global) -> Result<(), AddError> {
    let more = variables(alloc, 0)?;
    added(alloc, rule(alloc, GIVES, PLUS, more, Atoms::new(alloc)))
}

/// A rule with an existential that no atom fills.
fn unfilled(alloc: Global) -> Result<(), AddError> {
    let atoms = alone(alloc, one(0))?;
    added(alloc, rule(alloc, GIVES, PLUS, variables(alloc, 1)?, atoms))
}

#[test]
fn each_output_and_existential_is_filled(rt: HostRuntime) {
    assert_eq!(rt; no_atoms(rt.alloc()), fault(2, 0, 0));
    assert_eq!(rt; unfilled(rt.alloc()), fault(3, 1, 1));
}

/// A rule with 64 slots, of which those from 1 on below the end are filled.
fn of_64_slots(alloc: Global, end: u8) -> Result<(), AddError>
    requires { end ≤ 64 }
{
    let atoms = ones(alloc, end)?;
    added(alloc, rule(alloc, MAPS, PLUS, variables(alloc, 62)?, atoms))
}

#[test]
fn a_rule_may_have_64_slots(rt: HostRuntime) {
    assert_eq!(rt; of_64_slots(rt.alloc(), 64), Ok(()));
    assert_eq!(rt; of_64_slots(rt.alloc(), 63), fault(3, 62, 63));
}

/// Two calls on the first child, the second with the output of the first.
fn twice_on_a_child(alloc: Global) -> Result<(), AddError> {
    let first = call(alloc, MAPS, Who::Child(0), slot(0), slot(2))?;
    let second = call(alloc, MAPS, Who::Child(0), slot(2), slot(1))?;
    both(alloc, first, second)
}

/// A call whose output is the rule's input.
fn known_output(alloc: Global) -> Result<(), AddError> {
    let test = call(alloc, MAPS, Who::Child(0), slot(0), slot(0))?;
    let atoms = pair(alloc, test, Atom::Fill(1, Expr::Slot(0)))?;
    added(alloc, rule(alloc, MAPS, PLUS, variables(alloc, 0)?, atoms))
}

#[test]
fn calls_in_order_are_accepted(rt: HostRuntime) {
    assert_eq!(rt; twice_on_a_child(rt.alloc()), Ok(()));
    assert_eq!(rt; known_output(rt.alloc()), Ok(()));
}
