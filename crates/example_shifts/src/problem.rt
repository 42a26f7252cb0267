ghost use Rattle.std.specs.Prelude.{◌≡◌, None, All, IfOk};
ghost use Rattle.sig_core.specs.WellFormed.{IsWellFormed};
ghost use Rattle.rule_core.specs.Flow.{flow_fault};
ghost use Rattle.grammar_core.specs.Limits.{KeepsLimits};
ghost use Rattle.grammar_core.specs.WellFormed.{IsGrammar};
ghost use Rattle.eval_core.specs.ShiftExample.{shift_problem, shifts};

use crate::language::{GIVES, TERM, shifts};
use crate::rules::book;
use grammar_core::Grammar;
use problem_core::{Constraint, Constraints, Infos, Problem};
use rule_core::Rulebook;
use sig_core::{Signature, Value, Values, bytes_of};
use std::alloc::{AllocError, Global};

/// `(constraint (gives f 0 1))`
fn constraints(alloc: Global) -> Result<Constraints, AllocError>
    ensures { IfOk result (λ constraints. constraints ≡ shift_problem.constraints) }
{
    let mut args = Values::new(alloc);
    args.push(Value::Int(0))?;
    args.push(Value::Int(1))?;
    let mut constraints = Constraints::new(alloc);
    constraints.push(Constraint {
        relation: GIVES,
        args,
    })?;
    Ok(constraints)
}

/// All terms.
fn grammar(alloc: Global, signature: &Signature) -> Result<Grammar, AllocError>
    requires { signature.now ≡ shifts }
    ensures value { IfOk result (λ grammar. grammar ≡ shift_problem.grammar) }
    ensures fine { IfOk result IsGrammar }
    ensures limits { IfOk result KeepsLimits }
{
    let grammar = Grammar::all(alloc, signature, TERM)?;
    let _count = grammar.len();
    Ok(grammar)
}

/// The problem of these parts.
fn whole(
    alloc: Global,
    signature: Signature,
    rulebook: Rulebook,
    constraints: Constraints,
) -> Result<Problem, AllocError>
    requires signature { signature ≡ shifts }
    requires well_formed { IsWellFormed signature }
    requires rules { rulebook ≡ shift_problem.rules }
    requires flows { All (λ rule. flow_fault shifts rule ≡ None) shift_problem.rules }
    requires constraints { constraints ≡ shift_problem.constraints }
    ensures { IfOk result (λ problem. problem ≡ shift_problem) }
{
    let grammar = grammar(alloc, &signature)?;
    let wanted = bytes_of(alloc, b"f")?;
    Ok(Problem::new(
        Infos::new(alloc),
        signature,
        rulebook,
        grammar,
        wanted,
        constraints,
    ))
}

/// The problem over its signature and with its rules.
fn with_rules(
    alloc: Global,
    signature: Signature,
    rulebook: Rulebook,
) -> Result<Problem, AllocError>
    requires signature { signature ≡ shifts }
    requires well_formed { IsWellFormed signature }
    requires rules { rulebook ≡ shift_problem.rules }
    requires flows { All (λ rule. flow_fault shifts rule ≡ None) shift_problem.rules }
    ensures { IfOk result (λ problem. problem ≡ shift_problem) }
{
    match constraints(alloc) {
        Ok(constraints) => whole(alloc, signature, rulebook, constraints),
        Err(error) => Err(error),
    }
}

/// The problem over its signature.
fn over(alloc: Global, signature: Signature) -> Result<Problem, AllocError>
    requires signature { signature ≡ shifts }
    requires well_formed { IsWellFormed signature }
    ensures { IfOk result (λ problem. problem ≡ shift_problem) }
{
    match book(alloc, &signature) {
        Ok(rulebook) => with_rules(alloc, signature, rulebook),
        Err(_) => Err(AllocError),
    }
}

/// The wanted term gives 1 at 0.
pub fn shift_problem(alloc: Global) -> Result<Problem, AllocError>
    ensures { IfOk result (λ problem. problem ≡ shift_problem) }
{
    match shifts(alloc) {
        Ok(signature) => over(alloc, signature),
        Err(_) => Err(AllocError),
    }
}
