//! The constraints that examples make.
ghost use Rattle.std.specs.Prelude.{◌≡◌, ◌≤◌, [], ◌++◌, None, IsTrue, is_some, map, length, IfErr, OnOk};
ghost use Rattle.std.specs.List.{flat_map};
ghost use Rattle.state_core.specs.Taking.{IsTaken};
ghost use Rattle.sort_core.specs.Errors.{IsDue};
ghost use Rattle.name_core.specs.Faults.{first, found_from};
ghost use Rattle.state_core.specs.Commands.{faults_in};
ghost use Rattle.name_core.specs.Limits.{call_limits};
ghost use Rattle.making_core.specs.Making.{added, constraint_of};
ghost use Rattle.name_core.specs.Names.{call_names};
ghost use Rattle.making_core.specs.Soundness.{IsSoundState};
ghost use Rattle.sort_core.specs.Sorts.{example_faults_of};
ghost use Rattle.syntax_core.specs.declared.commands.Head.TheVariants as head;

use crate::stated::{StatedParts, WantedFunction};
use making_core::constraint_of;
use name_core::{calls_limit, calls_name};
use problem_core::Constraints;
use sexpr_core::{Sexpr, item_of};
use sig_core::Signature;
use sort_core::{ElabError, calls_fault};
use std::alloc::{AllocError, Global};
use syntax_core::{Application, Fault, calls_of, refusal};

/// The fault of calls: of the first past the limit, else the leftmost wrong name, else the leftmost wrong sort. So many
/// constraints come before.
#[tactic(auto, using(name_core::proofs::Firsts::firsts))]
fn examples_fault(
    signature: &Signature,
    wanted: &WantedFunction,
    number: usize,
    calls: &[Application],
) -> Option<Fault>
    requires { number ≤ 1024 }
    ensures { result ≡ first (found_from call_limits number calls.now
        ++ flat_map (call_names signature.now wanted.now.name) calls.now
        ++ flat_map (example_faults_of signature.now wanted.now.name wanted.now.type) calls.now ++ []) }
{
    let name = wanted.name.as_slice();
    if let Some(fault) = calls_limit(number, calls) {
        return Some(fault);
    }
    if let Some(fault) = calls_name(signature, name, calls) {
        return Some(fault);
    }
    calls_fault(signature, name, wanted.owner, calls)
}

/// Puts the constraints of calls last.
fn put_constraints(
    alloc: Global,
    signature: &Signature,
    calls: &[Application],
    constraints: &mut Constraints,
) -> Result<(), AllocError>
    ensures { OnOk result (constraints.new ≡ constraints.old ++ map (constraint_of signature.now) calls.now) }
{
    for call in calls {
        constraints.push(constraint_of(alloc, signature, call)?)?;
    }
    Ok(())
}

impl StatedParts {
    /// Puts the constraints of a `constraint` last, where no pass finds a fault.
    fn put_examples(&mut self, alloc: Global, form: &Sexpr) -> Result<(), ElabError>
        requires wanted { IsTrue (is_some self.old.wanted) }
        requires few { length self.old.constraints ≤ 1024 }
        ensures fault { IfErr result (IsDue (first (faults_in self.old head.Constraint form.now))) }
        ensures fine { OnOk result (first (faults_in self.old head.Constraint form.now) ≡ None) }
        ensures added { OnOk result (self.new ≡ added self.old head.Constraint form.now) }
    {
        let calls = calls_of(alloc, item_of(1, form))?;
        let Some(wanted) = &self.wanted else {
            return Err(ElabError::Fault(refusal(form.place(), 12)));
        };
        let number = self.constraints.len();
        if let Some(fault) = examples_fault(&self.signature, wanted, number, calls.as_slice()) {
            return Err(ElabError::Fault(fault));
        }
        put_constraints(
            alloc,
            &self.signature,
            calls.as_slice(),
            &mut self.constraints,
        )?;
        Ok(())
    }

    /// Takes a `constraint` of right shape, after a `synth-fun`.
    pub(crate) fn constrain(&mut self, alloc: Global, form: &Sexpr) -> Result<(), ElabError>
        requires wanted { IsTrue (is_some self.old.wanted) }
        requires sound { IsSoundState self.old }
        ensures ok { OnOk result (IsTaken self.old head.Constraint form.now self.new) }
        ensures err { IfErr result (IsDue (first (faults_in self.old head.Constraint form.now))) }
    {
        match self.put_examples(alloc, form) {
            Ok(()) => Ok(()),
            Err(error) => Err(error),
        }
    }
}
