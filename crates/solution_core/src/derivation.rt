//! Derivations of the constraints of a problem on a term.
ghost use Rattle.std.specs.Prelude.{◌≡◌, ◌≤◌, [], map, IfOk, OnOk};
ghost use Rattle.term_core.specs.Banks.{IsLive, tree_of};
ghost use Rattle.problem_core.specs.Derivations.{Within};
ghost use Rattle.problem_core.specs.Problems.{Solves, fact_on};
ghost use Rattle.deriv_core.specs.Steps.{tree_steps};
ghost use Rattle.eval_core.specs.Evaluations.{StandsFor};
ghost use Rattle.extract_core.specs.Additions.{Adds, HasFact};
ghost use Rattle.extract_core.specs.Derivings.{IsDerivation};
ghost use Rattle.extract_core.specs.Searches.{StillServes};
ghost use Rattle.extract_core.specs.Tidiness.{IsTidy};
ghost use Rattle.solution_core.specs.Stepping.{AreLive};

use deriv_core::{Fact, StepId, StepIds, Steps};
use eval_core::Evaluator;
use extract_core::derive;
use problem_core::{Constraint, Problem};
use std::alloc::{AllocError, Global};
use term_core::{Bank, TermId};

/// The fact that a constraint is on a term.
fn fact_on(alloc: Global, root: TermId, constraint: &Constraint) -> Result<Fact, AllocError>
    ensures { IfOk result (λ fact. fact ≡ record { relation = constraint.now.relation; node = root; args = constraint.now.args }) }
{
    Ok(Fact {
        relation: constraint.relation,
        node: root,
        args: constraint.args.copy(alloc)?,
    })
}

/// The step of a constraint on a term, after the steps that its first derivation wants were added.
fn derive_constraint(
    alloc: Global,
    evaluator: &mut Evaluator<'_>,
    height: u32,
    bank: &Bank,
    root: TermId,
    constraint: &Constraint,
    steps: &mut Steps,
) -> Result<StepId, AllocError>
    requires stands { StandsFor evaluator.old bank.now }
    requires root { IsLive bank.now root }
    requires within { Within evaluator.old.signature evaluator.old.rules height (fact_on (tree_of bank.now root) constraint.now) }
    requires low { height ≤ 1000 }
    requires live { AreLive bank.now steps.old }
    requires tidy { IsTidy evaluator.old.signature evaluator.old.rules (tree_steps bank.now steps.old) }
    ensures serves { StillServes evaluator.old evaluator.new bank.now }
    ensures live { AreLive bank.now steps.new }
    ensures tidy { IsTidy evaluator.old.signature evaluator.old.rules (tree_steps bank.now steps.new) }
    ensures added { OnOk result (Adds evaluator.old.signature evaluator.old.rules height (tree_steps bank.now steps.old)
        (fact_on (tree_of bank.now root) constraint.now) (tree_steps bank.now steps.new)) }
    ensures fact { IfOk result (λ id. HasFact evaluator.old.signature (tree_steps bank.now steps.new) id.0 (fact_on (tree_of bank.now root) constraint.now)) }
{
    let fact = fact_on(alloc, root, constraint)?;
    derive(alloc, evaluator, bank, &fact, height, steps)
}

/// Derives the constraints of a problem on a term that solves it. The numbers of their steps, in order.
pub fn derive_all(
    alloc: Global,
    problem: &Problem,
    height: u32,
    bank: &Bank,
    root: TermId,
    steps: &mut Steps,
) -> Result<StepIds, AllocError>
    requires root { IsLive bank.now root }
    requires low { height ≤ 1000 }
    requires solves { Solves problem.now height (tree_of bank.now root) }
    requires none { steps.old ≡ [] }
    ensures live { OnOk result (AreLive bank.now steps.new) }
    ensures derived { IfOk result (λ derived. IsDerivation problem.now height (tree_of bank.now root) (tree_steps bank.now steps.new) (map (λ id. id.0) derived)) }
{
    let constraints = problem.constraints();
    let mut evaluator = Evaluator::new(alloc, problem.signature(), problem.rulebook());
    let mut derived = StepIds::new(alloc);
    for constraint in constraints {
        let id = derive_constraint(alloc, &mut evaluator, height, bank, root, constraint, steps)?;
        derived.push(id)?;
    }
    Ok(derived)
}
