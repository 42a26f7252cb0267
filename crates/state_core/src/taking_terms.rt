//! The pass over a `declare-term-types`.
ghost use Rattle.std.specs.Prelude.{◌≡◌, None, true, IfOk, OnOk, IfErr};
ghost use Rattle.state_core.specs.Taking.{IsJudgedAs, IsTaken};
ghost use Rattle.state_core.specs.Commands.{faults_in, may_come};
ghost use Rattle.making_core.specs.Soundness.{IsSoundState};
ghost use Rattle.name_core.specs.Faults.{first, shapes};
ghost use Rattle.sort_core.specs.Errors.{IsDue};
ghost use Rattle.syntax_core.specs.declared.commands.Head.TheVariants as head;

use crate::stated::StatedParts;
use name_core::{Reading, limit_fault, name_fault};
use sexpr_core::Sexpr;
use sort_core::ElabError;
use std::alloc::{AllocError, Global};
use syntax_core::{Fault, Head};

impl StatedParts {
    /// The fault of a `declare-term-types`: of the leftmost node past a limit, else the leftmost wrong name.
    fn terms_fault(&self, alloc: Global, form: &Sexpr) -> Result<Option<Fault>, AllocError>
        requires come { may_come self.now head.DeclareTermTypes ≡ true }
        requires sound { IsSoundState self.now }
        ensures { IfOk result (λ fault. fault ≡ first (faults_in self.now head.DeclareTermTypes form.now)) }
    {
        let command = Head::DeclareTermTypes;
        let reading = Reading::Flat;
        let rules = self.rulebook.len() as usize;
        let constraints = self.constraints.len();
        let past = limit_fault(&self.signature, rules, constraints, command, form, &reading);
        if let Some(fault) = past {
            return Ok(Some(fault));
        }
        Ok(name_fault(alloc, &self.signature, None, command, form, &reading)?)
    }

    /// Takes a `declare-term-types` of right shape.
    pub(crate) fn take_terms(&mut self, alloc: Global, form: &Sexpr) -> Result<(), ElabError>
        requires judged { IsJudgedAs self.old head.DeclareTermTypes form.now }
        requires sound { IsSoundState self.old }
        requires shape { first (shapes form.now) ≡ None }
        ensures ok { OnOk result (IsTaken self.old head.DeclareTermTypes form.now self.new) }
        ensures err { IfErr result (IsDue (first (faults_in self.old head.DeclareTermTypes form.now))) }
    {
        match self.terms_fault(alloc, form)? {
            Some(fault) => Err(ElabError::Fault(fault)),
            None => Ok(self.declare_terms(alloc, form)?),
        }
    }
}
