//! Which constructors hand on.
ghost use Rattle.std.specs.Prelude.{◌≡◌, ◌+◌, ◌≤◌, ◌<◌, ◌^◌, ◌↔◌, map, IsTrue, All, true, length};
ghost use lib.Pointwise.{pointwise};
ghost use Rattle.sig_core.specs.Lists.{numbers_from};
ghost use Rattle.sig_core.specs.Signatures.{kinds_of, input_slots};
ghost use Rattle.expr_core.specs.declared.expr.Expr.{out-Expr};
ghost use Rattle.rule_core.specs.Flow.{names_slot, calls_on, TakesInputs};

use crate::rule::{Atom, Rule, Who};
use expr_core::Expr;
use sig_core::{Kind, Param, Signature, params_of};

/// Whether each call of the rule on the child and on the term itself takes exactly the inputs of the rule's relation.
pub(crate) fn rule_hands_on(signature: &Signature, rule: &Rule, child: usize) -> bool
    ensures { IsTrue result ↔ All (TakesInputs signature.now rule.now child) rule.now.atoms }
{
    for atom in rule.atoms.as_slice() {
        if !atom_hands_on(signature, rule, child, atom) {
            return false;
        }
    }
    true
}

fn atom_hands_on(signature: &Signature, rule: &Rule, child: usize, atom: &Atom) -> bool
    ensures { IsTrue result ↔ TakesInputs signature.now rule.now child atom.now }
{
    match atom {
        Atom::Call(call) => {
            !is_on(call.who, child)
                || takes_inputs(call.inputs.as_slice(), params_of(signature, rule.relation))
        }
        Atom::Fill(_, _) | Atom::Test(_) => true,
    }
}

fn is_on(who: Who, child: usize) -> bool
    ensures { result ≡ calls_on who child }
{
    match who {
        Who::Own => true,
        Who::Child(number) => usize::from(number) == child,
    }
}

fn takes_inputs(inputs: &[Expr], params: &[Param]) -> bool
    ensures { result ≡ pointwise names_slot inputs.now (input_slots (map (λ p. p.kind) params.now)) }
{
    let mut rest = inputs;
    let mut slot: usize = 0;
    for param in params {
        match param.kind {
            Kind::Term(_) => {}
            Kind::Input(_) => {
                let Some((expr, others)) = rest.split_first() else {
                    return false;
                };
                if !is_slot(expr, slot) {
                    return false;
                }
                rest = others;
                slot += 1;
            }
            Kind::Output(_) => slot += 1,
        }
    }
    rest.is_empty()
}

#[tactic(auto, using(crate::proofs::Equations::expr_equations))]
fn is_slot(expr: &Expr, slot: usize) -> bool
    ensures { result ≡ names_slot expr.now slot }
{
    match expr {
        Expr::Slot(found) => usize::from(*found) == slot,
        _ => false,
    }
}
