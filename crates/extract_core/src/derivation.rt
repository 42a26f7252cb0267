//! First derivations of facts, as steps.
ghost use Rattle.std.specs.Prelude.{◌≡◌, ◌≤◌, map, length, IfOk, OnOk, All, slice_index};
ghost use Rattle.term_core.specs.Banks.{IsLive, tree_of};
ghost use Rattle.rule_core.specs.Instances.{calls_of, call_fact};
ghost use Rattle.problem_core.specs.Derivations.{CallMeets, IsLeastHeight, Within};
ghost use Rattle.deriv_core.specs.Facts.{tree_fact};
ghost use Rattle.deriv_core.specs.Heights.{heights_of, premises_of};
ghost use Rattle.deriv_core.specs.Steps.{tree_steps};
ghost use Rattle.eval_core.specs.Evaluations.{StandsFor};
ghost use Rattle.extract_core.specs.Additions.{Adds, AddsCalls, HasFact};
ghost use Rattle.extract_core.specs.Derivings.{AreUsed};
ghost use Rattle.extract_core.specs.Growth.{AreReady, AreWithin, Grow, IsAdded, IsCallAdded};
ghost use Rattle.extract_core.specs.Places.{ArePlaces, number_in};
ghost use Rattle.extract_core.specs.Searches.{StillServes};
ghost use Rattle.extract_core.specs.Starts.{Extends};
ghost use Rattle.extract_core.specs.Tidiness.{IsTidy};

use crate::facts::call_fact;
use crate::firsts::{first_instance, least_height};
use crate::places::{Places, number_of, places_of, put};
use deriv_core::{Fact, Step, StepId, StepIds, Steps};
use eval_core::Evaluator;
use rule_core::{Atom, Call, Rule};
use sig_core::Value;
use std::alloc::{AllocError, Global};
use term_core::{Bank, TermId};

/// The step of a fact that is derivable within the height. Where no step has the fact yet, the steps of its first
/// derivation are added: the facts of the calls of its first instance are derived in order, and then the step of the
/// instance is put last. Its first instance is that of least rule number, and then of least values, whose calls have
/// facts of less height. Where memory is refused, a first part of these steps may stand.
pub fn derive(
    alloc: Global,
    evaluator: &mut Evaluator<'_>,
    bank: &Bank,
    fact: &Fact,
    height: u32,
    steps: &mut Steps,
) -> Result<StepId, AllocError>
    requires stands { StandsFor evaluator.old bank.now }
    requires live { IsLive bank.now fact.now.node }
    requires within { Within evaluator.old.signature evaluator.old.rules height (tree_fact bank.now fact.now) }
    requires low { height ≤ 1000 }
    requires steps_live { All (λ step. IsLive bank.now step.node) steps.old }
    requires tidy { IsTidy evaluator.old.signature evaluator.old.rules (tree_steps bank.now steps.old) }

    ensures serves { StillServes evaluator.old evaluator.new bank.now }
    ensures kept { Extends steps.old steps.new }
    ensures steps_live { All (λ step. IsLive bank.now step.node) steps.new }
    ensures tidy { IsTidy evaluator.old.signature evaluator.old.rules (tree_steps bank.now steps.new) }
    ensures within { AreWithin evaluator.old.signature evaluator.old.rules height (length steps.old) (tree_steps bank.now steps.new) }

    ensures added { OnOk result (Adds evaluator.old.signature evaluator.old.rules height (tree_steps bank.now steps.old) (tree_fact bank.now fact.now) (tree_steps bank.now steps.new)) }
    ensures fact { IfOk result (λ id. HasFact evaluator.old.signature (tree_steps bank.now steps.new) id.0 (tree_fact bank.now fact.now)) }
    ensures height { IfOk result (λ id. IsLeastHeight evaluator.old.signature evaluator.old.rules (tree_fact bank.now fact.now) (slice_index (heights_of (map premises_of steps.new)) id.0)) }
    ensures used { IfOk result (λ id. AreUsed (length steps.old) (tree_steps bank.now steps.new) id.0) }
{
    let mut places = places_of(alloc, evaluator.signature(), steps)?;
    add(alloc, evaluator, bank, fact, height, steps, &mut places)
}

/// Adds the first derivation of a fact, unless a step has the fact.
#[cycle(add)]
fn add(
    alloc: Global,
    evaluator: &mut Evaluator<'_>,
    bank: &Bank,
    fact: &Fact,
    height: u32,
    steps: &mut Steps,
    places: &mut Places,
) -> Result<StepId, AllocError>
    requires ready { AreReady evaluator.old bank.now steps.old }
    requires live { IsLive bank.now fact.now.node }
    requires within { Within evaluator.old.signature evaluator.old.rules height (tree_fact bank.now fact.now) }
    requires low { height ≤ 1000 }
    requires places { ArePlaces evaluator.old.signature steps.old (number_in places.old) }
    ensures grow { Grow evaluator.old evaluator.new bank.now height steps.old steps.new }
    ensures places { OnOk result (ArePlaces evaluator.old.signature steps.new (number_in places.new)) }
    ensures added { IfOk result (λ id. IsAdded evaluator.old.signature evaluator.old.rules height (tree_fact bank.now fact.now) (tree_steps bank.now steps.old) (tree_steps bank.now steps.new) id.0) }
{
    prove!(fact.node.0 < bank.len());
    if let Some(number) = number_of(places, fact) {
        return Ok(StepId(number));
    }
    let rulebook = evaluator.rulebook();
    let below = least_height(alloc, evaluator, bank, fact, height)? - 1;
    let first = first_instance(alloc, evaluator, bank, fact, below)?;
    let Some(rule) = rulebook.rule(fact.relation, bank.con(fact.node), first.number) else {
        unreachable!();
    };
    let slots = first.slots.as_slice();
    let node = fact.node;
    let premises = add_calls(
        alloc, evaluator, bank, node, rule, slots, below, steps, places,
    )?;
    let step = Step {
        relation: fact.relation,
        node,
        rule: u64::from(first.number),
        values: first.slots,
        premises,
    };
    put(alloc, places, evaluator.signature(), &step, steps.len())?;
    steps.push(step)
}

/// Adds the first derivations of the facts of the rule's calls, in order.
#[cycle(add)]
fn add_calls(
    alloc: Global,
    evaluator: &mut Evaluator<'_>,
    bank: &Bank,
    id: TermId,
    rule: &Rule,
    slots: &[Value],
    height: u32,
    steps: &mut Steps,
    places: &mut Places,
) -> Result<StepIds, AllocError>
    requires ready { AreReady evaluator.old bank.now steps.old }
    requires live { IsLive bank.now id }
    requires calls { All (CallMeets (Within evaluator.old.signature evaluator.old.rules height) evaluator.old.signature (tree_of bank.now id) slots.now) (calls_of rule.now.atoms) }
    requires low { height ≤ 1000 }
    requires places { ArePlaces evaluator.old.signature steps.old (number_in places.old) }
    ensures grow { Grow evaluator.old evaluator.new bank.now height steps.old steps.new }
    ensures places { OnOk result (ArePlaces evaluator.old.signature steps.new (number_in places.new)) }
    ensures added { IfOk result (λ ids. AddsCalls (Adds evaluator.old.signature evaluator.old.rules height) evaluator.old.signature (tree_steps bank.now steps.old)
        (map (call_fact evaluator.old.signature (tree_of bank.now id) slots.now) (calls_of rule.now.atoms)) (tree_steps bank.now steps.new) (map (λ p. p.0) ids)) }
{
    let mut premises = StepIds::new(alloc);
    for atom in rule.atoms.as_slice() {
        if let Atom::Call(call) = atom {
            let premise = add_call(
                alloc, evaluator, bank, id, call, slots, height, steps, places,
            )?;
            premises.push(premise)?;
        }
    }
    Ok(premises)
}

/// Adds the first derivation of the fact of a call.
#[cycle(add)]
fn add_call(
    alloc: Global,
    evaluator: &mut Evaluator<'_>,
    bank: &Bank,
    id: TermId,
    call: &Call,
    slots: &[Value],
    height: u32,
    steps: &mut Steps,
    places: &mut Places,
) -> Result<StepId, AllocError>
    requires ready { AreReady evaluator.old bank.now steps.old }
    requires live { IsLive bank.now id }
    requires call { CallMeets (Within evaluator.old.signature evaluator.old.rules height) evaluator.old.signature (tree_of bank.now id) slots.now call.now }
    requires low { height ≤ 1000 }
    requires places { ArePlaces evaluator.old.signature steps.old (number_in places.old) }
    ensures grow { Grow evaluator.old evaluator.new bank.now height steps.old steps.new }
    ensures places { OnOk result (ArePlaces evaluator.old.signature steps.new (number_in places.new)) }
    ensures added { IfOk result (λ k. IsCallAdded evaluator.old.signature evaluator.old.rules height (tree_of bank.now id) slots.now call.now (tree_steps bank.now steps.old) (tree_steps bank.now steps.new) k.0) }
{
    let Some(fact) = call_fact(alloc, evaluator.signature(), bank, id, slots, call)? else {
        unreachable!();
    };
    add(alloc, evaluator, bank, &fact, height, steps, places)
}
